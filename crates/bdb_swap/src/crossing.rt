ghost use Rattle.std.specs.Prelude.{◌≡◌};
ghost use Rattle.bdb_swap.specs.Crossing.{AreNoted, crosses};

/// What is known of the ranges whose ends are noted: the place up to which none begins, and at how many places one does.
#[derive(Drop)]
pub(crate) struct Noted {
    pub(crate) first: usize,
    pub(crate) places: usize,
}

/// Whether a range of bytes begins within one that begins before it: for each place there is the end of the range that
/// begins there, 0 for none. A walk from each range to its end passes by those that begin within, and no others.
pub(crate) fn crosses(ends: &[u16], noted: &Noted) -> bool
    requires { AreNoted ends.now noted.now.first noted.now.places }
    ensures { result ≡ crosses ends.now }
{
    let mut met = 0;
    let mut place = noted.first;
    while place < ends.len() {
        let end = usize::from(ends[place]);
        if end != 0 {
            met += 1;
        }
        place = end.max(place + 1);
    }
    met < noted.places
}
