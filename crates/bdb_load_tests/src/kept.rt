// What a file that is loaded says of its text: its settings and pairs are those of the text.
use crate::asked::{NOT_FOUND, Question, ask, ask_all};
use crate::loaded::{Answer, image_of, loaded};
use bdb_tool::LoadError;
use std::test::Fail;

// A row: a dump text, and the text that its file is dumped as.
type Row = (&'static [u8], &'static [u8]);

#[test]
fn settings_and_pairs_are_kept(rt: HostRuntime) -> Result<(), Fail> {
    let rows: [Row; 12] = [
        // no pairs
        (
            b"VERSION=3\ntype=btree\nHEADER=END\nDATA=END\n",
            b"VERSION=3\nformat=print\ntype=btree\ndb_pagesize=4096\ndb_lorder=1234\nHEADER=END\nDATA=END\n",
        ),
        (
            b"VERSION=3\ntype=recno\ndb_pagesize=512\nHEADER=END\nDATA=END\n",
            b"VERSION=3\nformat=print\ntype=recno\ndb_pagesize=512\ndb_lorder=1234\nkeys=1\nHEADER=END\nDATA=END\n",
        ),
        // page size, order, least number of keys
        (
            b"VERSION=3\nformat=print\ntype=btree\ndb_pagesize=1024\ndb_lorder=4321\nbt_minkey=5\nHEADER=END\n b\n 2\n a\n 1\nDATA=END\n",
            b"VERSION=3\nformat=print\ntype=btree\ndb_pagesize=1024\ndb_lorder=4321\nbt_minkey=5\nHEADER=END\n a\n 1\n b\n 2\nDATA=END\n",
        ),
        // pairs are counted
        (
            b"VERSION=3\nformat=print\ntype=btree\nrecnum=1\nHEADER=END\n a\n 1\nDATA=END\n",
            b"VERSION=3\nformat=print\ntype=btree\ndb_pagesize=4096\ndb_lorder=1234\nrecnum=1\nHEADER=END\n a\n 1\nDATA=END\n",
        ),
        // a key twice: the later datum
        (
            b"VERSION=3\nformat=print\ntype=btree\nHEADER=END\n a\n 1\n b\n 2\n a\n 3\nDATA=END\n",
            b"VERSION=3\nformat=print\ntype=btree\ndb_pagesize=4096\ndb_lorder=1234\nHEADER=END\n a\n 3\n b\n 2\nDATA=END\n",
        ),
        // duplicates as they come, and a datum twice
        (
            b"VERSION=3\nformat=print\ntype=btree\nduplicates=1\nHEADER=END\n b\n 9\n a\n 3\n a\n 1\n a\n 3\nDATA=END\n",
            b"VERSION=3\nformat=print\ntype=btree\ndb_pagesize=4096\ndb_lorder=1234\nduplicates=1\nHEADER=END\n a\n 3\n a\n 1\n a\n 3\n b\n 9\nDATA=END\n",
        ),
        // sorted duplicates are in byte order, each once
        (
            b"VERSION=3\nformat=print\ntype=btree\ndupsort=1\nHEADER=END\n a\n 3\n a\n 10\n a\n 3\n a\n \nDATA=END\n",
            b"VERSION=3\nformat=print\ntype=btree\ndb_pagesize=4096\ndb_lorder=1234\nduplicates=1\ndupsort=1\nHEADER=END\n a\n \n a\n 10\n a\n 3\nDATA=END\n",
        ),
        // records out of order, with a gap, one twice
        (
            b"VERSION=3\nformat=print\nkeys=1\ntype=recno\nHEADER=END\n 10\n j\n 3\n c\n 1\n a\n 3\n cc\nDATA=END\n",
            b"VERSION=3\nformat=print\ntype=recno\ndb_pagesize=4096\ndb_lorder=1234\nkeys=1\nHEADER=END\n 1\n a\n 3\n cc\n 10\n j\nDATA=END\n",
        ),
        // records without keys, numbered anew when one goes
        (
            b"VERSION=3\nformat=print\ntype=recno\nrenumber=1\nHEADER=END\n a\n \n c\nDATA=END\n",
            b"VERSION=3\nformat=print\ntype=recno\ndb_pagesize=4096\ndb_lorder=1234\nrenumber=1\nkeys=1\nHEADER=END\n 1\n a\n 2\n \n 3\n c\nDATA=END\n",
        ),
        // a fixed length, filled up by the low byte of re_pad, a point
        (
            b"VERSION=3\nformat=print\nkeys=1\nre_len=3\nre_pad=302\ntype=recno\nHEADER=END\n 2\n x\n 1\n abc\nDATA=END\n",
            b"VERSION=3\nformat=print\ntype=recno\ndb_pagesize=4096\ndb_lorder=1234\nre_len=3\nre_pad=302\nkeys=1\nHEADER=END\n 1\n abc\n 2\n x..\nDATA=END\n",
        ),
        // what doesn't concern a btree is passed over
        (
            b"VERSION=3\nformat=print\nre_len=7\nre_pad=1\nh_ffactor=9\ntype=btree\nHEADER=END\n \n \nDATA=END\n",
            b"VERSION=3\nformat=print\ntype=btree\ndb_pagesize=4096\ndb_lorder=1234\nHEADER=END\n \n \nDATA=END\n",
        ),
        // nor what doesn't concern a recno
        (
            b"VERSION=3\nformat=print\nbt_minkey=7\nkeys=1\ntype=recno\ndb_lorder=4321\nHEADER=END\n 2\n \\00\\ff\nDATA=END\n",
            b"VERSION=3\nformat=print\ntype=recno\ndb_pagesize=4096\ndb_lorder=4321\nkeys=1\nHEADER=END\n 2\n \\00\\ff\nDATA=END\n",
        ),
    ];
    for (text, dumped) in rows {
        let image = image_of(rt.alloc(), text)?;
        ask(
            &rt,
            rt.alloc(),
            image.as_slice(),
            &["dump", "--print"],
            0,
            dumped,
        )?;
        let again = image_of(rt.alloc(), dumped)?;
        ask(
            &rt,
            rt.alloc(),
            again.as_slice(),
            &["dump", "--print"],
            0,
            dumped,
        )?;
    }
    Ok(())
}

// A row: a dump text, the bytes of its file, and what is asked.
type Asked = (&'static [u8], usize, &'static [Question]);

#[test]
fn keys_are_found(rt: HostRuntime) -> Result<(), Fail> {
    let rows: [Asked; 3] = [
        (
            b"VERSION=3\nformat=bytevalue\ntype=btree\ndb_pagesize=512\nduplicates=1\ndupsort=1\nHEADER=END\n 61\n 33\n 61\n 31\n 61\n 33\nDATA=END\n",
            1024,
            &[
                (&["verify"], 0, b"sound, 2 pages\n"),
                (&["get", "a"], 0, b"31\n33\n"),
                (&["get", "b"], 9, NOT_FOUND),
                (&["list"], 0, b"btree\n"),
            ],
        ),
        (
            b"VERSION=3\nformat=bytevalue\ntype=recno\ndb_pagesize=512\nkeys=1\nHEADER=END\n 31\n 61\n 33\n 63\nDATA=END\n",
            1024,
            &[
                (&["verify"], 0, b"sound, 2 pages\n"),
                (&["get", "3"], 0, b"63\n"),
                (&["get", "2"], 9, NOT_FOUND),
                (&["get", "x"], 9, NOT_FOUND),
                (&["list"], 0, b"recno\n"),
            ],
        ),
        // an empty record, filled up: a leaf, and a chain of three full pages
        (
            b"VERSION=3\nformat=print\ntype=recno\ndb_pagesize=512\nre_len=1458\nHEADER=END\n \nDATA=END\n",
            2560,
            &[
                (&["verify"], 0, b"sound, 5 pages\n"),
                (&["list"], 0, b"recno\n"),
            ],
        ),
    ];
    for (text, long, questions) in rows {
        let image = image_of(rt.alloc(), text)?;
        assert_eq!(rt; image.as_slice().len(), long);
        ask_all(&rt, rt.alloc(), image.as_slice(), questions)?;
    }
    Ok(())
}

// A row: a dump text, the most bytes of an image, and why there is none.
type Refused = (&'static [u8], u64, LoadError);

#[test]
fn errors_are_answered(rt: HostRuntime) -> Result<(), Fail> {
    let rows: [Refused; 11] = [
        // record 0 on line 6
        (
            b"VERSION=3\nformat=bytevalue\ntype=recno\nkeys=1\nHEADER=END\n 30\n 61\nDATA=END\n",
            1073741824,
            LoadError::RecordZero(6),
        ),
        // a datum that is longer than the fixed length
        (
            b"VERSION=3\nformat=print\ntype=recno\nkeys=1\nre_len=1\nHEADER=END\n 1\n ab\nDATA=END\n",
            1073741824,
            LoadError::RecordTooLong(7),
        ),
        // both on one line: the lesser code
        (
            b"VERSION=3\nformat=print\nkeys=1\nre_len=1\ntype=recno\nHEADER=END\n 0\n ab\nDATA=END\n",
            1073741824,
            LoadError::RecordTooLong(7),
        ),
        // and before the image is too large
        (
            b"VERSION=3\nformat=print\nkeys=1\nre_len=1\ntype=recno\nHEADER=END\n 0\n a\nDATA=END\n",
            1,
            LoadError::RecordZero(7),
        ),
        // one record of the greatest number
        (
            b"VERSION=3\nformat=bytevalue\ntype=recno\nkeys=1\nHEADER=END\n 34323934393637323935\n 61\nDATA=END\n",
            1073741824,
            LoadError::TooLarge,
        ),
        // a page too many
        (
            b"VERSION=3\nformat=print\ntype=btree\ndb_pagesize=512\nHEADER=END\n a\n b\nDATA=END\n",
            1023,
            LoadError::TooLarge,
        ),
        (
            b"VERSION=3\nformat=print\ntype=btree\nHEADER=END\nDATA=END\n",
            8191,
            LoadError::TooLarge,
        ),
        (
            b"VERSION=3\nformat=print\ntype=btree\nHEADER=END\nDATA=END\n",
            0,
            LoadError::TooLarge,
        ),
        // a record that would be filled up to fifty million bytes, and to all that a number of a header can say
        (
            b"VERSION=3\nformat=print\ntype=recno\nre_len=50000000\nHEADER=END\n a\nDATA=END\n",
            100000,
            LoadError::TooLarge,
        ),
        (
            b"VERSION=3\nformat=print\ntype=recno\nre_len=4294967295\nHEADER=END\n a\n b\nDATA=END\n",
            1073741824,
            LoadError::TooLarge,
        ),
        // three pages of a chain that an empty record is filled up to, and a byte too few for them
        (
            b"VERSION=3\nformat=print\ntype=recno\ndb_pagesize=512\nre_len=1458\nHEADER=END\n \nDATA=END\n",
            2559,
            LoadError::TooLarge,
        ),
    ];
    for (text, most, why) in rows {
        match loaded(rt.alloc(), text, most) {
            Answer::Error(error) => assert_eq!(rt; error, why),
            _ => assert!(rt; false),
        }
    }
    Ok(())
}
