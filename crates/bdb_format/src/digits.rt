ghost use Rattle.std.specs.Prelude.{◌≡◌};
ghost use Rattle.bdb_format.specs.Digits.{number_in};

/// The number that one to ten decimal digits say, from the high end on; none of other bytes.
#[tactic(auto, using(crate::proofs::DigitLemmas::digits_read))]
pub fn number_in(key: &[u8]) -> Option<u64>
    ensures { result ≡ number_in key.now }
{
    if key.is_empty() || key.len() > 10 {
        return None;
    }
    let mut number = 0;
    for byte in key {
        if !byte.is_ascii_digit() {
            return None;
        }
        number = 10 * number + u64::from(*byte - b'0');
    }
    Some(number)
}
