//! How many pages the trees of dump texts need. The numbers are worked out from docs/FORMAT.md, "Built trees".

use crate::counting::counted;
use bdb_need::settle;
use bdb_text::read_dump;
use std::alloc::{AllocError, Global};
use std::test::Fail;

// How many pages the last section of a dump text needs; nothing where the text isn't read or can't be loaded.
fn counted_text(alloc: Global, text: &[u8]) -> Result<Option<u128>, AllocError> {
    if text.len() > 1048576 {
        return Ok(None);
    }
    let Ok(sections) = read_dump(alloc, text) else {
        return Ok(None);
    };
    let Ok(mut settled) = settle(alloc, sections) else {
        return Ok(None);
    };
    match settled.pop() {
        None => Ok(None),
        Some(section) => counted(alloc, section),
    }
}

// A row: a dump text, and the pages that it needs.
type Row = (&'static [u8], Option<u128>);

#[test]
fn texts_are_counted(rt: HostRuntime) -> Result<(), Fail> {
    let rows: [Row; 9] = [
        // metadata, and a leaf without entries
        (
            b"VERSION=3\nformat=print\ntype=btree\nHEADER=END\nDATA=END\n",
            Some(2),
        ),
        (
            b"VERSION=3\nformat=print\nkeys=1\ntype=recno\nHEADER=END\nDATA=END\n",
            Some(2),
        ),
        // two equal sorted data, of which one stays
        (
            b"VERSION=3\nformat=print\ntype=btree\nduplicates=1\ndupsort=1\nHEADER=END\n a\n 1\n a\n 1\nDATA=END\n",
            Some(2),
        ),
        // the records 1, 2, which is missing, and 3
        (
            b"VERSION=3\nformat=print\nkeys=1\ntype=recno\nHEADER=END\n 3\n c\n 1\n a\nDATA=END\n",
            Some(2),
        ),
        // 2 + pad4(3 + 1) = 6 bytes a record, missing or not: 678 of them on the 4070 bytes of a leaf, 6334761 leaves; 407 items of 10 bytes
        // on a page over them: 15565, 39 and 1
        (
            b"VERSION=3\nformat=print\nkeys=1\ntype=recno\ndb_pagesize=4096\nHEADER=END\n 4294967295\n x\nDATA=END\n",
            Some(6350367),
        ),
        // 81 records on the 486 bytes of a leaf: 2304 leaves, 48 items on a page: 48 and 1
        (
            b"VERSION=3\nformat=print\nkeys=1\ntype=recno\ndb_pagesize=512\nHEADER=END\n 186624\n x\nDATA=END\n",
            Some(2354),
        ),
        // one more: 2305, 49, 2 and 1
        (
            b"VERSION=3\nformat=print\nkeys=1\ntype=recno\ndb_pagesize=512\nHEADER=END\n 186625\n x\nDATA=END\n",
            Some(2358),
        ),
        // gaps of several leaves: 200 records of 6 bytes on 3 leaves, and one page over them
        (
            b"VERSION=3\nformat=print\nkeys=1\ntype=recno\ndb_pagesize=512\nHEADER=END\n 100\n x\n 101\n y\n 200\n z\nDATA=END\n",
            Some(5),
        ),
        // pages of hash aren't counted yet
        (
            b"VERSION=3\nformat=print\ntype=hash\nHEADER=END\nDATA=END\n",
            None,
        ),
    ];
    for (text, pages) in rows {
        assert_eq!(rt; counted_text(rt.alloc(), text)?, pages);
    }
    Ok(())
}
