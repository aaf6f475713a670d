//! Dump texts, after docs/FORMAT.md.

use crate::images::File;
use test_images::Field;

// The pairs that two are generated as from the seed 1, for a btree.
pub const GENERATED_TEXT: File = File {
    length: 193,
    parts: &[&[Field::Bytes(
        0,
        b"VERSION=3\nformat=bytevalue\ntype=btree\ndb_pagesize=4096\n\
            HEADER=END\n 0000000100000000\n 00\n 41c67ea600000001\n 0101010101010101010101010101010101010101010101010101010101010101010101010101\nDATA=END\n",
    )]],
};
