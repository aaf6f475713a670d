ghost use Rattle.std.specs.Prelude.{ℕ, ◌≡◌, ◌+◌, ◌-◌, ◌≤◌, ◌<◌, ◌*◌, ◌^◌, ◌∷◌, length, map, replicate};
ghost use Rattle.std.specs.List.{All};
ghost use Rattle.bdb_mkhash.specs.of_mkleaves.Spread.{first_or, pages_over, spread_items};

// What an item takes that counts records.
const COUNT_COST: usize = 10;

// What the first item of a page with keys takes: its key has no bytes.
const FIRST_COST: usize = 14;

/// How many pages stand over these, up to one alone, where items count records. Each page but the last has as many as have room, so
/// that a level is one division.
pub(crate) fn levels_over_counts(pages: u128, room: usize) -> u128
    requires room { 60 ≤ room }
    requires few { pages < 2 ^ 101 }
    ensures pages { result ≡ pages_over pages room 10 (replicate pages 10) }
    ensures few { result ≤ 2 * pages }
{
    let each = (room / COUNT_COST) as u128;
    let mut below = pages;
    let mut total: u128 = 0;
    while below > 1 {
        below = (below - 1) / each + 1;
        total += below;
    }
    total
}

// Of what the items over the pages of a level take, but that over the first page, keeps what those over the next level take: the item
// over a page has the key of the first one on it.
fn keep_firsts(items: &mut Vec<u16>, room: usize)
    requires room { 14 ≤ room }
    ensures { (first : ℕ) → map (first_or 0) (spread_items room 14 (first ∷ items.old.items)) ≡ first ∷ items.new.items }
{
    let mut kept = 0;
    let mut left = room - FIRST_COST;
    for at in 0..items.len() {
        let cost = items[at];
        if usize::from(cost) <= left {
            left -= usize::from(cost);
        } else {
            items[kept] = cost;
            kept += 1;
            left = room - FIRST_COST;
        }
    }
    items.truncate(kept);
}

/// How many pages stand over some, up to one alone, by what the items over these take, but that over the first.
pub(crate) fn levels_over_keys(items: Vec<u16>, room: usize) -> u128
    requires room { 14 ≤ room }
    requires fit { All (λ cost. cost ≤ room - 14) items.items }
    ensures pages { (first : ℕ) → result ≡ pages_over (length items.items + 1) room 14 (first ∷ items.items) }
    ensures few { result ≤ 2 * length items.items }
{
    let mut items = items;
    let mut total: u128 = 0;
    while !items.is_empty() {
        keep_firsts(&mut items, room);
        total += 1 + items.len() as u128;
    }
    total
}
