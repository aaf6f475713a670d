ghost use Rattle.std.specs.Prelude.{◌≡◌};
ghost use Rattle.std.specs.Fmt.{decimal};

use std::marker::Model;

/// A number in decimal, without leading zeros.
#[derive(Drop)]
pub(crate) struct Digits {
    bytes: [u8; 10],
    start: usize,
}

impl Model for Digits {
    ghost use Rattle.std.specs.Prelude.{List, ℕ, ◌≤◌, drop};

    ghost Value = { List ℕ };

    ghost view = { λ d. drop d.start d.bytes };

    ghost invariant = { λ d. d.start ≤ 10 };
}

impl Digits {
    pub(crate) fn of(number: u32) -> Digits
        ensures { result ≡ decimal number }
    {
        let mut bytes = [0; 10];
        let mut start = 10;
        let mut left = number;
        'digits: loop {
            start -= 1;
            bytes[start] = b'0' + (left % 10) as u8;
            left /= 10;
            if left == 0 {
                return Digits { bytes, start };
            }
        }
    }

    pub(crate) fn bytes(&self) -> &[u8]
        ensures { result.now ≡ self.now }
    {
        &self.bytes[self.start..]
    }
}
