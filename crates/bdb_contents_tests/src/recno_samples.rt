//! Recnos with a fault of stage 8, whose first faults were told apart from this code. Bytes that aren't read are 0.

use crate::recnos::told_of;
use crate::told::{Judged, Told};
use std::alloc::Global;
use test_images::{Field, Sample};

const COUNT_IN_ONE: Judged = Judged {
    sample: Sample {
        size: 3072,
        fields: &[
            Field::Bytes(
                12,
                &[
                    98, 49, 5, 0, 9, 0, 0, 0, 0, 2, 0, 0, 0, 9, 184, 219, 1, 0, 0, 0, 5,
                ],
            ),
            Field::Bytes(
                40,
                &[
                    254, 69, 4, 209, 48, 116, 41, 97, 2, 0, 0, 0, 236, 103, 11, 235, 151, 211, 184,
                    32, 123, 85, 202, 44, 54, 171, 102, 199, 141, 162, 48, 187, 89, 170, 162, 164,
                    2, 0, 0, 0, 1, 0, 0, 0, 44, 1, 0, 0, 2,
                ],
            ),
            Field::Bytes(
                520,
                &[1, 0, 0, 0, 214, 47, 164, 9, 0, 0, 0, 0, 7, 213, 33, 44, 189],
            ),
            Field::Bytes(1032, &[2, 0, 0, 0, 1]),
            Field::Bytes(1044, &[1, 0, 248, 1, 2, 4, 248, 1]),
            Field::Bytes(1528, &[3, 0, 0, 0, 5]),
            Field::Bytes(1544, &[3]),
            Field::Bytes(1556, &[4, 0, 158, 1, 1, 6, 236, 1, 184, 1, 178, 1, 162, 1]),
            Field::Bytes(
                1954,
                &[
                    9, 0, 1, 98, 98, 98, 97, 98, 98, 97, 98, 97, 0, 0, 0, 0, 0, 0, 1, 0, 0, 0, 46,
                    0, 1, 208, 40, 18, 183, 55, 9, 218, 76, 148, 75, 94, 18, 11, 244, 120, 120, 60,
                    171, 119, 209, 184, 11, 86, 86, 24, 25, 46, 41, 53, 83, 198, 172, 183, 177,
                    160, 196, 9, 110, 8, 102, 163, 229, 192, 21, 174, 168, 0, 0, 0, 216, 58, 3,
                    214, 4, 0, 0, 0, 57,
                ],
            ),
            Field::Bytes(2056, &[4]),
            Field::Bytes(2064, &[5, 0, 0, 0, 1, 0, 20, 0, 186, 7]),
            Field::Bytes(2568, &[5, 0, 0, 0, 4]),
            Field::Bytes(2580, &[187, 109, 37, 0, 40, 7]),
        ],
    },
    told: Told::Fault { page: 2, code: 6 },
};

const COUNT_IN_TWO: Judged = Judged {
    sample: Sample {
        size: 3072,
        fields: &[
            Field::Bytes(13, &[5, 49, 98, 0, 0, 0, 9, 0, 0, 2, 0, 0, 9, 88, 142]),
            Field::Bytes(
                35,
                &[
                    5, 0, 0, 0, 0, 10, 20, 132, 12, 208, 100, 101, 116, 0, 0, 0, 2, 16, 156, 11,
                    45, 113, 84, 143, 224, 219, 99, 13, 16, 220, 143, 40, 233, 115, 201, 121, 173,
                    74, 87, 58, 93, 19, 183, 236, 45, 0, 0, 0, 1, 0, 0, 0, 65, 0, 0, 0, 5,
                ],
            ),
            Field::Bytes(
                523,
                &[1, 0, 0, 0, 1, 0, 0, 0, 1, 0, 1, 1, 248, 2, 4, 1, 248],
            ),
            Field::Bytes(1019, &[4]),
            Field::Bytes(
                1035,
                &[2, 0, 0, 0, 1, 0, 0, 0, 2, 0, 1, 1, 248, 2, 4, 1, 248],
            ),
            Field::Bytes(1531, &[3, 0, 0, 0, 1]),
            Field::Bytes(1547, &[3]),
            Field::Bytes(1555, &[4, 0, 0, 1, 252, 1, 6]),
            Field::Bytes(2059, &[4, 0, 0, 0, 3, 0, 0, 0, 0, 0, 0, 2, 0, 1, 6]),
            Field::Bytes(2571, &[5]),
            Field::Bytes(2579, &[1, 0, 2, 1, 240, 3, 4, 1, 248, 1, 240]),
            Field::Bytes(3059, &[1]),
            Field::Bytes(3067, &[2, 0, 0, 0, 1]),
        ],
    },
    told: Told::Fault { page: 2, code: 6 },
};

const LENGTH_IN_ONE: Judged = Judged {
    sample: Sample {
        size: 1536,
        fields: &[
            Field::Bytes(
                12,
                &[
                    98, 49, 5, 0, 9, 0, 0, 0, 0, 2, 0, 0, 0, 9, 128, 167, 1, 0, 0, 0, 2,
                ],
            ),
            Field::Bytes(
                40,
                &[
                    17, 178, 151, 231, 172, 55, 17, 67, 10, 0, 0, 0, 217, 179, 107, 162, 11, 169,
                    7, 135, 23, 13, 85, 120, 195, 82, 26, 169, 211, 20, 218, 54, 43, 168, 235, 204,
                    2, 0, 0, 0, 248, 198, 72, 25, 0, 0, 0, 0, 2,
                ],
            ),
            Field::Bytes(
                520,
                &[
                    1, 0, 0, 0, 214, 224, 185, 161, 0, 0, 0, 0, 12, 17, 35, 103, 109,
                ],
            ),
            Field::Bytes(1032, &[2]),
            Field::Bytes(1044, &[2, 0, 184, 1, 1, 6, 196, 1, 184, 1]),
            Field::Bytes(
                1464,
                &[
                    7, 0, 1, 97, 97, 98, 97, 97, 97, 98, 0, 0, 51, 0, 1, 98, 98, 97, 98, 97, 98,
                    98, 98, 97, 97, 98, 98, 98, 97, 97, 98, 98, 98, 97, 98, 97, 98, 98, 97, 97, 97,
                    97, 98, 97, 98, 98, 97, 97, 98, 97, 98, 97, 98, 97, 98, 97, 97, 98, 98, 97, 98,
                    98, 97, 98, 97, 97,
                ],
            ),
        ],
    },
    told: Told::Fault { page: 2, code: 7 },
};

const LENGTH_IN_ANOTHER: Judged = Judged {
    sample: Sample {
        size: 1024,
        fields: &[
            Field::Bytes(13, &[5, 49, 98, 0, 0, 0, 9, 0, 0, 2, 0, 0, 9, 136, 80]),
            Field::Bytes(
                35,
                &[
                    1, 0, 0, 0, 0, 249, 1, 75, 78, 173, 83, 21, 33, 0, 0, 0, 26, 127, 73, 214, 120,
                    132, 41, 228, 134, 85, 133, 124, 37, 208, 147, 141, 174, 79, 250, 183, 25, 115,
                    190, 100, 31, 0, 0, 0, 2, 0, 0, 0, 0, 0, 0, 1, 44, 0, 0, 0, 1,
                ],
            ),
            Field::Bytes(523, &[1]),
            Field::Bytes(533, &[1, 1, 241, 1, 6, 1, 241]),
            Field::Bytes(1010, &[4, 1, 118, 118, 118, 118]),
        ],
    },
    told: Told::Fault { page: 1, code: 7 },
};

fn is_as_told(alloc: Global, judged: &Judged) -> bool {
    match judged.sample.image(alloc) {
        Ok(image) => told_of(alloc, &image) == judged.told,
        Err(_) => false,
    }
}

#[test]
fn tells_the_first_fault_of_each_sample(rt: HostRuntime) {
    for judged in [
        &COUNT_IN_ONE,
        &COUNT_IN_TWO,
        &LENGTH_IN_ONE,
        &LENGTH_IN_ANOTHER,
    ] {
        assert!(rt; is_as_told(rt.alloc(), judged));
    }
}
