ghost use Rattle.bdb_text_format.specs.Terms.{digit_value, number_read};
ghost use Rattle.bdb_spelling.specs.DigitsIn.{digits_in, hexadecimal};
ghost use Rattle.std.specs.Prelude.{◌≡◌, ◌<◌, ◌≤◌, ◌^◌, IfSome, length};

use bdb_text_format::number_in;

/// The value of a digit, in either case.
fn digit_value(byte: u8) -> Option<u64>
    ensures { result ≡ digit_value byte }
{
    match byte {
        b'0'..=b'9' => Some(u64::from(byte - b'0')),
        b'a'..=b'f' => Some(u64::from(byte - 87)),
        b'A'..=b'F' => Some(u64::from(byte - 55)),
        _ => None,
    }
}

/// The number that at most ten digits say in a base of at most 16, or nothing where a byte is no digit of it.
fn digits_in(text: &[u8], base: u64) -> Option<u64>
    requires few { length text.now ≤ 10 }
    requires small { base ≤ 16 }
    ensures value { result ≡ digits_in base text.now }
    ensures bound { IfSome result (λ n. n < 16 ^ length text.now) }
{
    let mut number = 0;
    for byte in text {
        match digit_value(*byte) {
            Some(value) if value < base => number = base * number + value,
            _ => return None,
        }
    }
    Some(number)
}

/// The number that a value of a header line says: one to ten decimal digits, or `0x` and one to eight hexadecimal digits, below 2^32.
/// None for other values.
pub fn number_read(value: &[u8]) -> Option<u32>
    ensures { result ≡ number_read value.now }
{
    match number_in(value) {
        Some(number) => u32::try_from(number).ok(),
        None => hexadecimal(value),
    }
}

// The number of `0x` and one to eight hexadecimal digits.
fn hexadecimal(value: &[u8]) -> Option<u32>
    ensures { result ≡ hexadecimal value.now }
{
    if value.len() < 3 || value.len() > 10 || &value[..2] != b"0x".as_slice() {
        return None;
    }
    Some(digits_in(&value[2..], 16)? as u32)
}
