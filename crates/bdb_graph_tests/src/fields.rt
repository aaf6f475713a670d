//! The pages that many files have.

use test_images::Field;

/// Page 0 of a btree file of pages of 512 bytes: see docs/FORMAT.md, "The sample file".
pub const BTREE: [Field; 6] = [
    Field::Four(12, 0x053162), // magic number
    Field::Four(16, 9), // version
    Field::Four(20, 512), // page size
    Field::Byte(25, 9), // type
    Field::Four(32, 1), // last page
    Field::Four(88, 1), // root
];

/// An empty leaf as page 1 of such a file.
pub const LEAF: [Field; 3] = [
    Field::Four(520, 1), // page number
    Field::Byte(536, 1), // level
    Field::Byte(537, 5), // type
];
