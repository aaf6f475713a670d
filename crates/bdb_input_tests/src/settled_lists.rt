// Lists that sections load into, worked out by hand from the rules in the README of bdb_settle.
use crate::settling::{Row, are_settled};
use std::test::Fail;

const KEYS: [Row; 7] = [
    // the later of two data of a key
    (
        b"VERSION=3\nformat=print\ntype=btree\nHEADER=END\n b\n 1\n a\n 2\n b\n 3\nDATA=END\n",
        b"a 2\nb 3\n",
    ),
    (
        b"VERSION=3\nformat=print\ntype=hash\nHEADER=END\n b\n 1\n a\n 2\n b\n 3\n a\n 4\n b\n 5\nDATA=END\n",
        b"a 4\nb 5\n",
    ),
    // a prefix comes first, and bytes are unsigned
    (
        b"VERSION=3\nformat=print\ntype=btree\nHEADER=END\n \\ff\n 1\n ab\n 2\n \\7f\n 3\n a\n 4\n \n 5\nDATA=END\n",
        b" 5\na 4\nab 2\n\x7f 3\n\xff 1\n",
    ),
    // behind the data of its key
    (
        b"VERSION=3\nformat=print\ntype=btree\nduplicates=1\nHEADER=END\n b\n 3\n a\n 2\n b\n 1\n a\n 9\n b\n 3\nDATA=END\n",
        b"a 2\na 9\nb 3\nb 1\nb 3\n",
    ),
    // at its place in byte order, and once
    (
        b"VERSION=3\nformat=print\ntype=btree\nduplicates=1\ndupsort=1\nHEADER=END\n b\n 3\n b\n 10\n a\n 5\n b\n 3\n b\n 2\nDATA=END\n",
        b"a 5\nb 10\nb 2\nb 3\n",
    ),
    // sorted duplicates are duplicates
    (
        b"VERSION=3\nformat=print\ntype=hash\ndupsort=1\nHEADER=END\n a\n 2\n a\n 1\nDATA=END\n",
        b"a 1\na 2\n",
    ),
    // two sections stay in the order given
    (
        b"VERSION=3\nformat=print\ndatabase=y\ntype=btree\nHEADER=END\n b\n 1\n a\n 2\nDATA=END\n\
          VERSION=3\nformat=print\ndatabase=x\ntype=recno\nHEADER=END\n c\nDATA=END\n",
        b"y:\na 2\nb 1\nx:\n1 c\n",
    ),
];

#[test]
fn keys_are_in_their_order(rt: HostRuntime) -> Result<(), Fail> {
    assert!(rt; are_settled(rt.alloc(), &KEYS)?);
    Ok(())
}

const RECORDS: [Row; 5] = [
    // out of order, with gaps, and one twice
    (
        b"VERSION=3\nformat=print\nkeys=1\ntype=recno\nHEADER=END\n 10\n j\n 3\n c\n 1\n a\n 3\n cc\nDATA=END\n",
        b"1 a\n3 cc\n10 j\n",
    ),
    // filled up with a point, of which re_pad has one bit more than a byte
    (
        b"VERSION=3\nformat=print\nkeys=1\nre_len=3\nre_pad=302\ntype=recno\nHEADER=END\n 2\n x\n 1\n abc\n 3\n \nDATA=END\n",
        b"1 abc\n2 x..\n3 ...\n",
    ),
    // filled up with spaces
    (
        b"VERSION=3\nformat=print\nkeys=1\nre_len=2\ntype=queue\nHEADER=END\n 4294967295\n z\n 2\n b\nDATA=END\n",
        b"2 b \n4294967295 z \n",
    ),
    // of any length
    (
        b"VERSION=3\nformat=print\ntype=recno\nHEADER=END\n a\n \n bb\nDATA=END\n",
        b"1 a\n2 \n3 bb\n",
    ),
    // the widest record of a queue on pages of 512 bytes has 483
    (
        b"VERSION=3\nformat=print\ndb_pagesize=512\nre_len=483\ntype=queue\nHEADER=END\nDATA=END\n",
        b"",
    ),
];

#[test]
fn records_are_set(rt: HostRuntime) -> Result<(), Fail> {
    assert!(rt; are_settled(rt.alloc(), &RECORDS)?);
    Ok(())
}
