//! Files with a fault of stage 6, whose first faults were told apart from this code: by chains and by leaves.

ghost use Rattle.std.specs.Prelude.{◌≡◌};

use crate::structure_samples::{
    WRONG_LEAF, WRONG_LEAVES, WRONG_LENGTH, WRONG_LENGTH_AND_LINK, WRONG_LINK,
};
use bdb_format::{CheckError, Fault, Steps};
use bdb_graph::{Linked, link, open_image};
use bdb_overflow::check_chains;
use std::alloc::Global;
use std::marker::Brand;
use std::sync::ledger::{Blank, Ledger};
use test_images::{Field, Sample, check_trees};

/// The page of the first fault of chains, and the page and code of that of leaves.
#[derive(Clone, Copy)]
struct Told {
    chains: Option<u32>,
    leaves: Option<(u32, u8)>,
}

const WRONG_EARLIER_LINK: Sample = Sample {
    size: 2048,
    fields: &[
        Field::Bytes(13, &[6, 21, 97, 0, 0, 0, 9, 0, 0, 2, 0, 0, 8]),
        Field::Bytes(35, &[3]),
        Field::Bytes(51, &[4]),
        Field::Bytes(87, &[7, 0, 0, 0, 0, 94, 104, 141, 209, 0, 0, 0, 3]),
        Field::Bytes(523, &[1]),
        Field::Bytes(
            533,
            &[
                1, 1, 8, 184, 7, 141, 89, 90, 100, 79, 170, 237, 181, 151, 234, 63, 67, 131, 200,
                44, 240, 114, 235, 245, 145, 159, 5, 148, 181, 19, 24, 93, 81, 115, 95, 243, 165,
                63, 6, 114, 115, 185, 76, 11, 50, 202, 235, 251, 176, 129, 191, 221, 157, 81, 33,
                163, 6, 211, 108, 253, 218, 123, 94, 77, 87, 70, 81, 13, 216, 80, 170, 192, 105,
                220, 239, 64, 133, 151, 73, 98, 50, 197, 230, 6, 68, 22, 23, 190, 253, 53, 142,
                114, 25, 34, 88, 186, 185, 233, 78, 149, 47, 105, 34, 215, 207, 34, 105, 229, 149,
                224, 219, 42, 116, 61, 92, 193, 208, 66, 166, 135, 45, 159, 9, 21, 192, 99, 217, 7,
                31, 209, 85, 38, 150, 111, 210, 157, 203, 251, 153, 81, 131, 1, 179, 139, 123, 91,
                95, 99, 36, 128, 94, 0, 55, 252, 192, 82, 232, 115, 206, 20, 129, 128, 251, 32,
                101, 82, 254, 181, 241, 103, 89, 53, 253, 245, 221, 188, 18, 211, 25, 199, 40, 187,
                81, 151, 246, 41, 211, 157, 166, 16, 60, 147, 17, 186, 151, 155, 29, 146, 149, 250,
                186, 225, 53, 9, 201, 80, 66, 55, 31, 13, 246, 28, 75, 109, 78, 50, 171, 45, 193,
                65, 213, 162, 170, 93, 68, 112, 199, 146, 66, 98, 13, 14, 99, 159, 173, 153, 231,
                237, 228, 138, 249, 212, 112, 43, 14, 83, 5, 4, 182, 128, 94, 147, 84, 156, 149,
                67, 105, 158, 92, 165, 61, 213, 33, 207, 145, 227, 169, 60, 82,
            ],
        ),
        Field::Bytes(1035, &[2, 0, 0, 0, 2, 0, 0, 0, 0, 0, 0, 2, 0, 1, 12]),
        Field::Bytes(1547, &[3]),
        Field::Bytes(1557, &[4, 1, 94, 0, 13, 1, 244, 1, 121, 1, 102, 1, 94]),
        Field::Bytes(
            1886,
            &[
                4, 0, 0, 0, 0, 0, 0, 2, 1, 203, 203, 203, 203, 203, 203, 203, 203, 203, 203, 203,
                203, 203, 203, 203, 203, 203, 203, 2, 0, 30, 80, 68, 41, 128, 165, 63, 85, 13, 226,
                110, 105, 208, 87, 161, 142, 77, 146, 216, 24, 94, 144, 174, 134, 119, 129, 243,
                238, 148, 243, 217, 0, 30, 0, 27, 84, 33, 132, 174, 107, 107, 9, 9, 182, 35, 179,
                152, 77, 233, 143, 171, 185, 229, 17, 20, 131, 162, 247, 188, 131, 251, 16, 0, 27,
                0, 3, 98, 97, 97, 0, 3, 0, 2, 138, 169, 0, 2, 0, 28, 164, 164, 164, 164, 164, 164,
                164, 164, 164, 164, 164, 164, 164, 164, 164, 164, 164, 164, 164, 164, 164, 164,
                164, 164, 164, 164, 164, 164, 0, 28, 0, 8, 180, 180, 180, 180, 180, 180, 180, 180,
                0, 8, 3, 0, 0, 0, 0, 0, 0, 1, 0, 0, 1, 8,
            ],
        ),
    ],
};

/// The page of a fault of chains.
fn of_chains(linked: &Linked<'_>) -> Option<u32> {
    match check_chains(linked) {
        Ok(()) => None,
        Err(fault) => Some(fault.page),
    }
}

/// The page and the code of a fault of leaves; none for lack of memory.
fn of_leaves(alloc: Global, linked: &Linked<'_>) -> Option<(u32, u8)> {
    match check_trees(alloc, linked) {
        Err(CheckError::Fault(Fault { page, code, .. })) => Some((page, code)),
        Ok(()) | Err(CheckError::Memory) => None,
    }
}

fn is_told<L: Ledger>(alloc: Global, image: &[u8], told: &Told, steps: &mut Steps<L>) -> bool {
    if image.len() > 4096 {
        return false;
    }
    let Ok(formed) = open_image(alloc, image) else {
        return false;
    };
    match link(alloc, formed, steps) {
        Ok(linked) => {
            of_chains(&linked) == told.chains && of_leaves(alloc, &linked) == told.leaves
        }
        Err(_) => false,
    }
}

fn is_told_counted<L: Ledger>(alloc: Global, image: &[u8], told: &Told, blank: Blank) -> bool
    requires name { blank.name ≡ L.name }
    requires parts { blank.parts ≡ L.parts }
    requires one { L.parts ≡ 1 }
{
    let mut steps = Steps::<L>::new(blank);
    is_told(alloc, image, told, &mut steps)
}

fn is_told_of(alloc: Global, sample: &Sample, told: &Told) -> bool {
    match sample.image(alloc) {
        Ok(image) => is_told_counted::<Brand>(alloc, &image, told, Blank::new(1)),
        Err(_) => false,
    }
}

#[test]
fn tells_chains_of_a_wrong_length(rt: HostRuntime) {
    let told = Told {
        chains: Some(2),
        leaves: None,
    };
    assert!(rt; is_told_of(rt.alloc(), &WRONG_LENGTH, &told));
    let told = Told {
        chains: Some(1),
        leaves: Some((1, 3)),
    };
    assert!(rt; is_told_of(rt.alloc(), &WRONG_LENGTH_AND_LINK, &told));
}

#[test]
fn tells_leaves_of_a_wrong_type(rt: HostRuntime) {
    let told = Told {
        chains: None,
        leaves: Some((2, 2)),
    };
    assert!(rt; is_told_of(rt.alloc(), &WRONG_LEAF, &told));
    assert!(rt; is_told_of(rt.alloc(), &WRONG_LEAVES, &told));
}

#[test]
fn tells_leaves_with_a_wrong_neighbour(rt: HostRuntime) {
    let told = Told {
        chains: None,
        leaves: Some((3, 3)),
    };
    assert!(rt; is_told_of(rt.alloc(), &WRONG_LINK, &told));
    let told = Told {
        chains: None,
        leaves: Some((2, 3)),
    };
    assert!(rt; is_told_of(rt.alloc(), &WRONG_EARLIER_LINK, &told));
}
