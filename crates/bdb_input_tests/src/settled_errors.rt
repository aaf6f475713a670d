// Sections that can't be loaded, and the error with the least line.
use crate::settling::{Row, are_settled};
use std::test::Fail;

const ERRORS: [Row; 14] = [
    // a datum of three bytes
    (
        b"VERSION=3\nformat=print\nkeys=1\nre_len=2\ntype=recno\nHEADER=END\n 1\n ab\n 2\n abc\nDATA=END\n",
        b"too long, line 9",
    ),
    // the number 0
    (
        b"VERSION=3\nformat=print\nkeys=1\ntype=recno\nHEADER=END\n 1\n a\n 0\n b\nDATA=END\n",
        b"zero, line 8",
    ),
    // a record of a queue, and its datum
    (
        b"VERSION=3\nformat=print\nre_len=1\ntype=queue\nHEADER=END\n a\n bb\nDATA=END\n",
        b"too long, line 7",
    ),
    // a record of 484 bytes on pages of 512
    (
        b"VERSION=3\nformat=print\ndb_pagesize=512\nre_len=484\ntype=queue\nHEADER=END\nDATA=END\n",
        b"too long, line 6",
    ),
    // a queue with a name
    (
        b"VERSION=3\nformat=print\ndatabase=q\nre_len=4\ntype=queue\nHEADER=END\nDATA=END\n",
        b"among names, line 6",
    ),
    // two on the line of a header: the lesser code
    (
        b"VERSION=3\ndatabase=q\ndb_pagesize=512\nre_len=484\ntype=queue\nHEADER=END\nDATA=END\n",
        b"too long, line 6",
    ),
    // two on the line of a pair: the lesser code
    (
        b"VERSION=3\nformat=print\nkeys=1\nre_len=1\ntype=recno\nHEADER=END\n 0\n ab\nDATA=END\n",
        b"too long, line 7",
    ),
    // two lines of a section
    (
        b"VERSION=3\nformat=print\nkeys=1\nre_len=1\ntype=recno\nHEADER=END\n 0\n a\n 1\n ab\nDATA=END\n",
        b"zero, line 7",
    ),
    // two sections, the second a queue
    (
        b"VERSION=3\ndatabase=a\nformat=print\nkeys=1\ntype=recno\nHEADER=END\n 0\n a\nDATA=END\n\
          VERSION=3\ndatabase=b\nre_len=4\ntype=queue\nHEADER=END\nDATA=END\n",
        b"zero, line 7",
    ),
    // two sections, the first a queue
    (
        b"VERSION=3\ndatabase=b\nre_len=4\ntype=queue\nHEADER=END\nDATA=END\n\
          VERSION=3\ndatabase=a\nformat=print\nkeys=1\ntype=recno\nHEADER=END\n 0\n a\nDATA=END\n",
        b"among names, line 5",
    ),
    // a record of 1000 bytes, and the page size of the first section: 512, whatever the header of the queue says
    (
        b"VERSION=3\ndatabase=a\ntype=btree\ndb_pagesize=512\nHEADER=END\nDATA=END\n\
          VERSION=3\ndatabase=b\ntype=queue\nre_len=1000\ndb_pagesize=4096\nHEADER=END\nDATA=END\n",
        b"too long, line 12",
    ),
    (
        b"VERSION=3\ndatabase=a\ntype=btree\ndb_pagesize=512\nHEADER=END\nDATA=END\n\
          VERSION=3\ndatabase=b\ntype=queue\nre_len=1000\nHEADER=END\nDATA=END\n",
        b"too long, line 11",
    ),
    // 4096, as it says and as it is where it says none
    (
        b"VERSION=3\ndatabase=a\ntype=btree\ndb_pagesize=4096\nHEADER=END\nDATA=END\n\
          VERSION=3\ndatabase=b\ntype=queue\nre_len=1000\ndb_pagesize=512\nHEADER=END\nDATA=END\n",
        b"among names, line 12",
    ),
    (
        b"VERSION=3\ndatabase=a\ntype=btree\nHEADER=END\nDATA=END\n\
          VERSION=3\ndatabase=b\ntype=queue\nre_len=1000\ndb_pagesize=512\nHEADER=END\nDATA=END\n",
        b"among names, line 11",
    ),
];

#[test]
fn least_line_is_answered(rt: HostRuntime) -> Result<(), Fail> {
    assert!(rt; are_settled(rt.alloc(), &ERRORS)?);
    Ok(())
}
