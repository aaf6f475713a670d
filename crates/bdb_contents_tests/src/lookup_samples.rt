//! Btrees that the original library wrote, with the lists that it tells of them. Bytes that aren't read are 0.

use crate::lookup_cases::Entry;
use crate::lookups::has_list;
use std::alloc::Global;
use test_images::{Field, Sample};

/// A file with the list of its btree, and keys that aren't in it.
struct Listed {
    sample: Sample,
    list: &'static [Entry],
    missing: &'static [&'static [u8]],
}

// One pair.
const ONE_PAIR: Listed = Listed {
    sample: Sample {
        size: 1024,
        fields: &[
            Field::Bytes(
                12,
                &[
                    98, 49, 5, 0, 9, 0, 0, 0, 0, 2, 0, 0, 0, 9, 0, 0, 0, 0, 0, 0, 1,
                ],
            ),
            Field::Bytes(76, &[2, 0, 0, 0, 0, 0, 0, 0, 32, 0, 0, 0, 1]),
            Field::Bytes(520, &[1]),
            Field::Bytes(532, &[2, 0, 248, 1, 1, 5, 252, 1, 248, 1, 0, 0, 1]),
            Field::Bytes(
                564,
                &[
                    160, 206, 62, 183, 90, 218, 17, 39, 86, 78, 119, 52, 236, 33, 127, 130, 16,
                    238, 141, 19, 0, 0, 0, 0, 2, 0, 0, 0, 0, 0, 0, 0, 32, 0, 0, 0, 1,
                ],
            ),
            Field::Bytes(1016, &[1, 0, 1, 98, 1, 0, 1, 97]),
        ],
    },
    list: &[Entry {
        key: &[97],
        value: &[98],
    }],
    missing: &[&[], &[96], &[97, 0], &[98]],
};

// One pair, whose key and data are empty.
const EMPTY_PAIR: Listed = Listed {
    sample: Sample {
        size: 1024,
        fields: &[
            Field::Bytes(
                12,
                &[
                    98, 49, 5, 0, 9, 0, 0, 0, 0, 2, 0, 0, 0, 9, 0, 0, 0, 0, 0, 0, 1,
                ],
            ),
            Field::Bytes(76, &[2, 0, 0, 0, 0, 0, 0, 0, 32, 0, 0, 0, 1]),
            Field::Bytes(520, &[1]),
            Field::Bytes(532, &[2, 0, 248, 1, 1, 5, 252, 1, 248, 1, 0, 0, 1]),
            Field::Bytes(
                564,
                &[
                    163, 249, 154, 192, 137, 205, 26, 3, 158, 37, 247, 124, 6, 224, 43, 13, 173,
                    90, 35, 122, 0, 0, 0, 0, 2, 0, 0, 0, 0, 0, 0, 0, 32, 0, 0, 0, 1,
                ],
            ),
            Field::Bytes(1018, &[1, 0, 0, 0, 1]),
        ],
    },
    list: &[Entry {
        key: &[],
        value: &[],
    }],
    missing: &[&[0], &[97]],
};

// One pair, big-endian, with pages of 2048 bytes.
const BIG_ENDIAN: Listed = Listed {
    sample: Sample {
        size: 4096,
        fields: &[
            Field::Bytes(13, &[5, 49, 98, 0, 0, 0, 9, 0, 0, 8, 0, 0, 9]),
            Field::Bytes(35, &[1]),
            Field::Bytes(79, &[2, 0, 0, 0, 0, 0, 0, 0, 32, 0, 0, 0, 1]),
            Field::Bytes(2059, &[1]),
            Field::Bytes(2069, &[2, 7, 248, 1, 5, 7, 252, 7, 248, 0, 0, 0, 0, 0, 1]),
            Field::Bytes(
                2100,
                &[
                    160, 15, 52, 203, 146, 164, 108, 93, 119, 236, 134, 90, 43, 182, 23, 109, 215,
                    142, 210, 226, 0, 0, 0, 0, 0, 0, 0, 2, 0, 0, 0, 0, 0, 0, 0, 32, 0, 0, 0, 1,
                ],
            ),
            Field::Bytes(4089, &[1, 1, 98, 0, 1, 1, 97]),
        ],
    },
    list: &[Entry {
        key: &[97],
        value: &[98],
    }],
    missing: &[&[], &[98]],
};

// No pair.
const NO_PAIR: Listed = Listed {
    sample: Sample {
        size: 1024,
        fields: &[
            Field::Bytes(13, &[5, 49, 98, 0, 0, 0, 9, 0, 0, 2, 0, 0, 9]),
            Field::Bytes(35, &[1]),
            Field::Bytes(79, &[2, 0, 0, 0, 0, 0, 0, 0, 32, 0, 0, 0, 1]),
            Field::Bytes(523, &[1]),
            Field::Bytes(534, &[2, 0, 1, 5]),
            Field::Bytes(547, &[1]),
            Field::Bytes(
                564,
                &[
                    177, 177, 171, 255, 135, 176, 29, 213, 167, 170, 171, 168, 87, 11, 148, 196,
                    72, 148, 43, 121, 0, 0, 0, 0, 0, 0, 0, 2, 0, 0, 0, 0, 0, 0, 0, 32, 0, 0, 0, 1,
                ],
            ),
        ],
    },
    list: &[],
    missing: &[&[], &[97]],
};

fn has_its_list(alloc: Global, listed: &Listed) -> bool {
    match listed.sample.image(alloc) {
        Ok(image) => has_list(alloc, &image, listed.list, listed.missing),
        Err(_) => false,
    }
}

#[test]
fn lists_and_finds_the_pairs_of_original_files(rt: HostRuntime) {
    for listed in [&ONE_PAIR, &EMPTY_PAIR, &BIG_ENDIAN, &NO_PAIR] {
        assert!(rt; has_its_list(rt.alloc(), listed));
    }
}
