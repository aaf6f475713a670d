// Files of one hash or one queue: their pages, by the rules of docs/FORMAT.md, "Built tables" and "Built queues", and what they are dumped as.
use crate::asked::ask;
use crate::loaded::{Answer, image_of, loaded};
use bdb_tool::LoadError;
use std::test::Fail;

/// A dump text, the bytes of its file, what `verify` says of it, and the text that it is dumped as.
#[derive(Clone, Copy)]
struct Row {
    text: &'static [u8],
    long: usize,
    verdict: &'static [u8],
    dumped: &'static [u8],
}

#[test]
fn hashes_and_queues_are_kept(rt: HostRuntime) -> Result<(), Fail> {
    let rows: [Row; 8] = [
        // two keys of a hash: two buckets, of a page each
        Row {
            text: b"VERSION=3\nformat=bytevalue\ntype=hash\nh_nelem=2\ndb_pagesize=4096\nHEADER=END\n 6b32\n 7632\n 6b31\n 7631\nDATA=END\n",
            long: 12288,
            verdict: b"sound, 3 pages\n",
            dumped: b"VERSION=3\nformat=print\ntype=hash\ndb_pagesize=4096\ndb_lorder=1234\nHEADER=END\n k1\n v1\n k2\n v2\nDATA=END\n",
        },
        // no key: two buckets all the same
        Row {
            text: b"VERSION=3\ntype=hash\ndb_pagesize=512\nHEADER=END\nDATA=END\n",
            long: 1536,
            verdict: b"sound, 3 pages\n",
            dumped: b"VERSION=3\nformat=print\ntype=hash\ndb_pagesize=512\ndb_lorder=1234\nHEADER=END\nDATA=END\n",
        },
        // sorted data, in the other order, with a fill factor
        Row {
            text: b"VERSION=3\nformat=print\ntype=hash\ndb_pagesize=512\ndb_lorder=4321\ndupsort=1\nh_ffactor=7\nHEADER=END\n b\n 2\n a\n x\n b\n 1\n b\n 2\n\
                DATA=END\n",
            long: 1536,
            verdict: b"sound, 3 pages\n",
            dumped: b"VERSION=3\nformat=print\ntype=hash\ndb_pagesize=512\ndb_lorder=4321\nduplicates=1\ndupsort=1\nh_ffactor=7\n\
                HEADER=END\n a\n x\n b\n 1\n b\n 2\nDATA=END\n",
        },
        // data as they come, and a datum twice
        Row {
            text: b"VERSION=3\nformat=print\ntype=hash\ndb_pagesize=512\nduplicates=1\nHEADER=END\n b\n 2\n a\n x\n b\n 1\n b\n 2\nDATA=END\n",
            long: 1536,
            verdict: b"sound, 3 pages\n",
            dumped: b"VERSION=3\nformat=print\ntype=hash\ndb_pagesize=512\ndb_lorder=1234\nduplicates=1\nHEADER=END\n a\n x\n b\n 2\n b\n 1\n b\n 2\n\
                DATA=END\n",
        },
        // a key twice: the later datum
        Row {
            text: b"VERSION=3\nformat=print\ntype=hash\ndb_pagesize=512\nHEADER=END\n a\n 1\n a\n 2\nDATA=END\n",
            long: 1536,
            verdict: b"sound, 3 pages\n",
            dumped: b"VERSION=3\nformat=print\ntype=hash\ndb_pagesize=512\ndb_lorder=1234\nHEADER=END\n a\n 2\nDATA=END\n",
        },
        // a slot of a record of three bytes has four, a page 121 of them: records 1 and 3 stand on page 1, and record 200 on page 2
        Row {
            text: b"VERSION=3\nformat=print\ntype=queue\ndb_pagesize=512\nkeys=1\nre_len=3\nre_pad=42\nHEADER=END\n 200\n abc\n 3\n x\n 1\n one\nDATA=END\n",
            long: 1536,
            verdict: b"sound, 3 pages\n",
            dumped: b"VERSION=3\nformat=print\ntype=queue\ndb_pagesize=512\ndb_lorder=1234\nre_len=3\nre_pad=42\nkeys=1\n\
                HEADER=END\n 1\n one\n 3\n x**\n 200\n abc\nDATA=END\n",
        },
        // records without keys, in the other order
        Row {
            text: b"VERSION=3\nformat=print\ntype=queue\ndb_pagesize=512\ndb_lorder=4321\nre_len=4\nre_pad=0\nHEADER=END\n abcd\n \nDATA=END\n",
            long: 1024,
            verdict: b"sound, 2 pages\n",
            dumped: b"VERSION=3\nformat=print\ntype=queue\ndb_pagesize=512\ndb_lorder=4321\nre_len=4\nre_pad=0\nkeys=1\n\
                HEADER=END\n 1\n abcd\n 2\n \\00\\00\\00\\00\nDATA=END\n",
        },
        // no record: the metadata alone
        Row {
            text: b"VERSION=3\nformat=print\ntype=queue\ndb_pagesize=512\nre_len=483\nHEADER=END\nDATA=END\n",
            long: 512,
            verdict: b"sound, 1 pages\n",
            dumped: b"VERSION=3\nformat=print\ntype=queue\ndb_pagesize=512\ndb_lorder=1234\nre_len=483\nre_pad=32\nkeys=1\nHEADER=END\nDATA=END\n",
        },
    ];
    for row in rows {
        let alloc = rt.alloc();
        let image = image_of(alloc, row.text)?;
        assert_eq!(rt; image.as_slice().len(), row.long);
        ask(&rt, alloc, image.as_slice(), &["verify"], 0, row.verdict)?;
        ask(
            &rt,
            alloc,
            image.as_slice(),
            &["dump", "--print"],
            0,
            row.dumped,
        )?;
        let again = image_of(alloc, row.dumped)?;
        ask(
            &rt,
            alloc,
            again.as_slice(),
            &["dump", "--print"],
            0,
            row.dumped,
        )?;
    }
    Ok(())
}

// A row: a dump text, the most bytes of an image, and why there is none.
type Refused = (&'static [u8], u64, LoadError);

#[test]
fn errors_of_hashes_and_queues_are_answered(rt: HostRuntime) -> Result<(), Fail> {
    let rows: [Refused; 12] = [
        // a queue with a name
        (
            b"VERSION=3\nformat=print\ndatabase=q\ntype=queue\nre_len=1\nHEADER=END\nDATA=END\n",
            1073741824,
            LoadError::QueueAmongNames(6),
        ),
        // and behind another database
        (
            b"VERSION=3\nformat=print\ndatabase=a\ntype=btree\nHEADER=END\nDATA=END\n\
                VERSION=3\nformat=print\ndatabase=q\ntype=queue\nre_len=1\nHEADER=END\nDATA=END\n",
            1073741824,
            LoadError::QueueAmongNames(12),
        ),
        // and with a record that is too long for the pages of the other database, whatever its own header says
        (
            b"VERSION=3\nformat=print\ndatabase=a\ntype=btree\ndb_pagesize=512\nHEADER=END\nDATA=END\n\
                VERSION=3\nformat=print\ndatabase=q\ntype=queue\nre_len=1000\ndb_pagesize=4096\nHEADER=END\nDATA=END\n",
            1073741824,
            LoadError::RecordTooLong(14),
        ),
        // and the other way round
        (
            b"VERSION=3\nformat=print\ndatabase=a\ntype=btree\ndb_pagesize=4096\nHEADER=END\nDATA=END\n\
                VERSION=3\nformat=print\ndatabase=q\ntype=queue\nre_len=1000\ndb_pagesize=512\nHEADER=END\nDATA=END\n",
            1073741824,
            LoadError::QueueAmongNames(14),
        ),
        // where the header of the queue says no page size, the usual 4096 bytes don't count; where the first section says none, they do
        (
            b"VERSION=3\nformat=print\ndatabase=a\ntype=btree\ndb_pagesize=512\nHEADER=END\nDATA=END\n\
                VERSION=3\nformat=print\ndatabase=q\ntype=queue\nre_len=1000\nHEADER=END\nDATA=END\n",
            1073741824,
            LoadError::RecordTooLong(13),
        ),
        (
            b"VERSION=3\nformat=print\ndatabase=a\ntype=btree\nHEADER=END\nDATA=END\n\
                VERSION=3\nformat=print\ndatabase=q\ntype=queue\nre_len=1000\ndb_pagesize=512\nHEADER=END\nDATA=END\n",
            1073741824,
            LoadError::QueueAmongNames(13),
        ),
        // a slot of 488 bytes, where a page has room for 484
        (
            b"VERSION=3\nformat=print\ntype=queue\ndb_pagesize=512\nre_len=484\nHEADER=END\nDATA=END\n",
            1073741824,
            LoadError::RecordTooLong(6),
        ),
        // that, and a name: the lesser code
        (
            b"VERSION=3\nformat=print\ndatabase=\ntype=queue\ndb_pagesize=512\nre_len=484\nHEADER=END\nDATA=END\n",
            1073741824,
            LoadError::RecordTooLong(7),
        ),
        // a record that is longer than the others
        (
            b"VERSION=3\nformat=print\ntype=queue\nre_len=1\nHEADER=END\n a\n ab\nDATA=END\n",
            1073741824,
            LoadError::RecordTooLong(7),
        ),
        // record 0
        (
            b"VERSION=3\nformat=print\ntype=queue\nre_len=1\nkeys=1\nHEADER=END\n 0\n a\nDATA=END\n",
            1073741824,
            LoadError::RecordZero(7),
        ),
        // the greatest record
        (
            b"VERSION=3\nformat=print\ntype=queue\nre_len=1\nkeys=1\nHEADER=END\n 4294967295\n a\nDATA=END\n",
            1073741824,
            LoadError::TooLarge,
        ),
        // a byte too few for three pages
        (
            b"VERSION=3\nformat=print\ntype=hash\ndb_pagesize=512\nHEADER=END\nDATA=END\n",
            1535,
            LoadError::TooLarge,
        ),
    ];
    for (text, most, why) in rows {
        match loaded(rt.alloc(), text, most) {
            Answer::Error(error) => assert_eq!(rt; error, why),
            _ => assert!(rt; false),
        }
    }
    Ok(())
}
