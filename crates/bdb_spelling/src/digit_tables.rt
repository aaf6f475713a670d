// The byte of two digits, by a table for each of them: a look-up has no branch to mispredict, where a digit's three ranges have several.
ghost use Rattle.bdb_text_format.specs.Terms.{byte_of_digits, digit_value};
ghost use Rattle.bdb_spelling.specs.DigitTables.{high_part, low_part};
ghost use Rattle.std.specs.Prelude.{◌≡◌};

// For each byte: so many times the value of the digit that it is, in either case, and 256 where it is none.
macro_rules! digit_table {
    ($times:expr) => {
        [
            256, 256, 256, 256, 256, 256, 256, 256, 256, 256, 256, 256, 256, 256, 256, 256, 256, 256,
            256, 256, 256, 256, 256, 256, 256, 256, 256, 256, 256, 256, 256, 256, 256, 256, 256, 256,
            256, 256, 256, 256, 256, 256, 256, 256, 256, 256, 256, 256, 0, $times, 2 * $times,
            3 * $times, 4 * $times, 5 * $times, 6 * $times, 7 * $times, 8 * $times, 9 * $times, 256,
            256, 256, 256, 256, 256, 256, 10 * $times, 11 * $times, 12 * $times, 13 * $times,
            14 * $times, 15 * $times, 256, 256, 256, 256, 256, 256, 256, 256, 256, 256, 256, 256, 256,
            256, 256, 256, 256, 256, 256, 256, 256, 256, 256, 256, 256, 256, 10 * $times, 11 * $times,
            12 * $times, 13 * $times, 14 * $times, 15 * $times, 256, 256, 256, 256, 256, 256, 256, 256,
            256, 256, 256, 256, 256, 256, 256, 256, 256, 256, 256, 256, 256, 256, 256, 256, 256, 256,
            256, 256, 256, 256, 256, 256, 256, 256, 256, 256, 256, 256, 256, 256, 256, 256, 256, 256,
            256, 256, 256, 256, 256, 256, 256, 256, 256, 256, 256, 256, 256, 256, 256, 256, 256, 256,
            256, 256, 256, 256, 256, 256, 256, 256, 256, 256, 256, 256, 256, 256, 256, 256, 256, 256,
            256, 256, 256, 256, 256, 256, 256, 256, 256, 256, 256, 256, 256, 256, 256, 256, 256, 256,
            256, 256, 256, 256, 256, 256, 256, 256, 256, 256, 256, 256, 256, 256, 256, 256, 256, 256,
            256, 256, 256, 256, 256, 256, 256, 256, 256, 256, 256, 256, 256, 256, 256, 256, 256, 256,
            256, 256, 256, 256, 256, 256, 256, 256, 256, 256, 256, 256, 256, 256, 256, 256, 256, 256,
            256,
        ]
    };
}

/// Sixteen times the value of each digit, and 256 for each byte that is none.
static HIGH: [u16; 256] = digit_table!(16);

/// The value of each digit, and 256 for each byte that is none.
static LOW: [u16; 256] = digit_table!(1);

// What the first of two digits adds to their byte.
fn high_part(digit: u8) -> u16
    ensures { result ≡ high_part digit }
{
    HIGH[digit as usize]
}

// What the second of two digits adds to their byte.
fn low_part(digit: u8) -> u16
    ensures { result ≡ low_part digit }
{
    LOW[digit as usize]
}

/// The byte of two digits, in either case.
pub fn byte_of(high: u8, low: u8) -> Option<u8>
    ensures { result ≡ byte_of_digits (digit_value high) (digit_value low) }
{
    u8::try_from(high_part(high) + low_part(low)).ok()
}
