//! The verdict on an image, as tests tell it.

ghost use Rattle.std.specs.Prelude.{◌≡◌};

use bdb_file::verify;
use bdb_format::{Fault, Steps, Unsupported, Verdict};
use std::alloc::Global;
use std::marker::Brand;
use std::sync::ledger::{Blank, Ledger};

/// The bytes of the longest image.
pub const SIZE: usize = 7 * 512;

#[derive(Clone, Copy, Debug, PartialEq, Eq)]
pub enum Told {
    Sound,
    Fault { stage: u8, page: u32, code: u8 },
    Unsupported { name: Unsupported, page: u32 },
    Memory,
    Refused,
}

fn verdict_counted<L: Ledger>(alloc: Global, image: &[u8], steps: &mut Steps<L>) -> Told {
    if image.len() > SIZE {
        return Told::Refused;
    }
    match verify(alloc, image, steps) {
        Ok(_) => Told::Sound,
        Err(Verdict::Fault(Fault { stage, page, code })) => Told::Fault { stage, page, code },
        Err(Verdict::Unsupported(name, page)) => Told::Unsupported { name, page },
        Err(Verdict::Memory) => Told::Memory,
    }
}

fn verdict_blank<L: Ledger>(alloc: Global, image: &[u8], blank: Blank) -> Told
    requires name { blank.name ≡ L.name }
    requires parts { blank.parts ≡ L.parts }
    requires one { L.parts ≡ 1 }
{
    let mut steps = Steps::<L>::new(blank);
    verdict_counted(alloc, image, &mut steps)
}

/// The verdict on an image of at most `SIZE` bytes.
pub fn verdict_told(alloc: Global, image: &[u8]) -> Told {
    verdict_blank::<Brand>(alloc, image, Blank::new(1))
}
