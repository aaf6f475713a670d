// Trials of 200,000 pairs: how many pages their files have.
ghost use Rattle.std.specs.Prelude.{◌≡◌};

use bdb_tool::{Kind, Steps, trial_text};
use std::alloc::Global;
use std::marker::Brand;
use std::sync::ledger::{Blank, Ledger};
use std::test::Fail;

fn lines_blank<L: Ledger>(alloc: Global, kind: Kind, seed: u32, blank: Blank) -> Option<String>
    requires name { blank.name ≡ L.name }
    requires parts { blank.parts ≡ L.parts }
    requires one { L.parts ≡ 1 }
{
    if seed >= 1 << 31 {
        return None;
    }
    let mut steps = Steps::<L>::new(blank);
    trial_text(alloc, kind, seed, 200000, 1 << 30, &mut steps).ok()
}

// The lines of a trial of 200,000 pairs.
fn lines(alloc: Global, kind: Kind, seed: u32) -> Option<String> {
    lines_blank::<Brand>(alloc, kind, seed, Blank::new(1))
}

// The number behind the start of a text, up to the next blank.
fn number_behind(text: &[u8], start: &[u8]) -> Option<u64> {
    let rest = text.strip_prefix(start)?;
    let mut number: u64 = 0;
    for byte in rest {
        match byte {
            b'0'..=b'9' => { number = number.checked_mul(10)?.checked_add(u64::from(byte - b'0'))? }
            _ => return Some(number),
        }
    }
    None
}

#[test]
fn queue_has_pages_for_its_records(rt: HostRuntime) -> Result<(), Fail> {
    // 203 records on a page: 986 pages, and the metadata
    match lines(rt.alloc(), Kind::Queue, 1) {
        Some(text) => {
            assert_eq!(rt;
                number_behind(text.as_bytes(), b"queue: 200000 pairs, "),
                Some(987)
            )
        }
        None => assert!(rt; false),
    }
    Ok(())
}

#[test]
fn btree_has_pages_for_its_pairs(rt: HostRuntime) -> Result<(), Fail> {
    // the pairs take 10,400,000 bytes, each at most 84: 2,557 to 2,608 leaves, 14 or 15 pages over them, a root and the metadata
    let first = lines(rt.alloc(), Kind::Btree, 7);
    let again = lines(rt.alloc(), Kind::Btree, 7);
    match (first, again) {
        (Some(text), Some(same)) => {
            assert_eq!(rt; text.as_bytes(), same.as_bytes());
            match number_behind(text.as_bytes(), b"btree: 200000 pairs, ") {
                Some(pages) => assert!(rt; pages >= 2573 && pages <= 2625),
                None => assert!(rt; false),
            }
        }
        _ => assert!(rt; false),
    }
    Ok(())
}
