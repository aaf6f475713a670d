// Files of databases under names: they stand in the byte order of their names, whatever that of the text is, each as its section says.
use crate::asked::{NOT_FOUND, Question, ask, ask_all};
use crate::loaded::image_of;
use bdb_tool::Bytes;
use std::alloc::{AllocError, Global};
use std::process::Abort;
use std::test::Fail;

/// A dump text, the bytes of its file, what is asked, and the text that the file is dumped as.
#[derive(Clone, Copy)]
struct Row {
    text: &'static [u8],
    long: usize,
    questions: &'static [Question],
    dumped: &'static [u8],
}

#[test]
fn sections_stand_in_the_order_of_their_names(rt: HostRuntime) -> Result<(), Fail> {
    let rows: [Row; 4] = [
        // two databases without pairs: the metadata and one leaf of each and of the master
        Row {
            text: b"VERSION=3\nformat=bytevalue\ndatabase=b\ntype=recno\ndb_pagesize=512\nHEADER=END\nDATA=END\n\
                VERSION=3\nformat=bytevalue\ndatabase=a\ntype=btree\ndb_pagesize=512\nHEADER=END\nDATA=END\n",
            long: 3072,
            questions: &[
                (&["verify"], 0, b"sound, 6 pages\n"),
                (&["list"], 0, b"btree a\nrecno b\n"),
                (&["dump", "--name", "c"], 9, NOT_FOUND),
            ],
            dumped: b"VERSION=3\nformat=print\ndatabase=a\ntype=btree\ndb_pagesize=512\ndb_lorder=1234\nHEADER=END\nDATA=END\n\
                VERSION=3\nformat=print\ndatabase=b\ntype=recno\ndb_pagesize=512\ndb_lorder=1234\nkeys=1\nHEADER=END\nDATA=END\n",
        },
        // each kind, in the page size and the order of the first section; a master, and 2, 2 and 3 pages
        Row {
            text: b"VERSION=3\nformat=print\ndatabase=c\ntype=hash\ndb_pagesize=512\ndb_lorder=4321\ndupsort=1\nHEADER=END\n k\n 2\n k\n 1\nDATA=END\n\
                VERSION=3\nformat=print\ndatabase=a\ntype=recno\ndb_pagesize=1024\nre_len=4\nre_pad=46\nHEADER=END\n one\n four\nDATA=END\n\
                VERSION=3\nformat=print\ndatabase=b\ntype=btree\ndb_lorder=1234\nrecnum=1\nHEADER=END\n y\n 1\n x\n 2\nDATA=END\n",
            long: 4608,
            questions: &[
                (&["verify"], 0, b"sound, 9 pages\n"),
                (&["list"], 0, b"recno a\nbtree b\nhash c\n"),
                (&["get", "--name", "a", "2"], 0, b"666f7572\n"),
                (&["get", "--name", "b", "x"], 0, b"32\n"),
                (&["get", "--name", "c", "k"], 0, b"31\n32\n"),
                (&["get", "--name", "c", "x"], 9, NOT_FOUND),
            ],
            dumped: b"VERSION=3\nformat=print\ndatabase=a\ntype=recno\ndb_pagesize=512\ndb_lorder=4321\nre_len=4\nre_pad=46\nkeys=1\n\
                HEADER=END\n 1\n one.\n 2\n four\nDATA=END\n\
                VERSION=3\nformat=print\ndatabase=b\ntype=btree\ndb_pagesize=512\ndb_lorder=4321\nrecnum=1\nHEADER=END\n x\n 2\n y\n 1\nDATA=END\n\
                VERSION=3\nformat=print\ndatabase=c\ntype=hash\ndb_pagesize=512\ndb_lorder=4321\nduplicates=1\ndupsort=1\nHEADER=END\n k\n 1\n k\n 2\n\
                DATA=END\n",
        },
        // the empty name, and one that begins another
        Row {
            text: b"VERSION=3\nformat=print\ndatabase=ab\ntype=btree\ndb_pagesize=512\nHEADER=END\nDATA=END\n\
                VERSION=3\nformat=print\ndatabase=a\ntype=hash\nHEADER=END\nDATA=END\n\
                VERSION=3\nformat=print\ndatabase=\ntype=btree\nHEADER=END\n e\n f\nDATA=END\n",
            long: 4608,
            questions: &[
                (&["verify"], 0, b"sound, 9 pages\n"),
                (&["list"], 0, b"btree \nhash a\nbtree ab\n"),
                (&["get", "--name", "", "e"], 0, b"66\n"),
            ],
            dumped: b"VERSION=3\nformat=print\ndatabase=\ntype=btree\ndb_pagesize=512\ndb_lorder=1234\nHEADER=END\n e\n f\nDATA=END\n\
                VERSION=3\nformat=print\ndatabase=a\ntype=hash\ndb_pagesize=512\ndb_lorder=1234\nHEADER=END\nDATA=END\n\
                VERSION=3\nformat=print\ndatabase=ab\ntype=btree\ndb_pagesize=512\ndb_lorder=1234\nHEADER=END\nDATA=END\n",
        },
        // one database under a name
        Row {
            text: b"VERSION=3\nformat=print\ndatabase=one\ntype=hash\ndb_pagesize=512\nHEADER=END\n k\n v\nDATA=END\n",
            long: 2560,
            questions: &[
                (&["verify"], 0, b"sound, 5 pages\n"),
                (&["list"], 0, b"hash one\n"),
            ],
            dumped: b"VERSION=3\nformat=print\ndatabase=one\ntype=hash\ndb_pagesize=512\ndb_lorder=1234\nHEADER=END\n k\n v\nDATA=END\n",
        },
    ];
    for row in rows {
        let alloc = rt.alloc();
        let image = image_of(alloc, row.text)?;
        assert_eq!(rt; image.as_slice().len(), row.long);
        ask_all(&rt, alloc, image.as_slice(), row.questions)?;
        ask(
            &rt,
            alloc,
            image.as_slice(),
            &["dump", "--print"],
            0,
            row.dumped,
        )?;
    }
    Ok(())
}

// Behind a text, the section of a btree without pairs under a name, as it is spelled.
fn push_section(text: &mut Bytes, name: &[u8]) -> Result<(), AllocError> {
    text.push_all(b"VERSION=3\nformat=print\ndatabase=")?;
    text.push_all(name)?;
    text.push_all(b"\ntype=btree\ndb_pagesize=512\ndb_lorder=1234\nHEADER=END\nDATA=END\n")
}

// Asks whether the file of a text has so many bytes, what `verify` says of it, and whether it is dumped as another text.
fn is_kept(
    rt: &impl Abort,
    alloc: Global,
    text: &[u8],
    long: usize,
    verdict: &[u8],
    dumped: &[u8],
) -> Result<(), AllocError> {
    let image = image_of(alloc, text)?;
    assert_eq!(rt; image.as_slice().len(), long);
    ask(rt, alloc, image.as_slice(), &["verify"], 0, verdict)?;
    ask(rt, alloc, image.as_slice(), &["dump", "--print"], 0, dumped)
}

// The name of a number below 1000: three digits, behind a letter.
fn numbered(number: u16) -> [u8; 4] {
    let digit = |n: u16| b'0' + (n % 10) as u8;
    [b'n', digit(number / 100), digit(number / 10), digit(number)]
}

#[test]
fn two_hundred_names_have_a_master_of_two_levels(rt: HostRuntime) -> Result<(), Fail> {
    let alloc = rt.alloc();
    // the text has the names from the last one to the first
    let mut text = Bytes::new(alloc);
    let mut dumped = Bytes::new(alloc);
    for number in 0..200 {
        push_section(&mut text, &numbered(199 - number))?;
        push_section(&mut dumped, &numbered(number))?;
    }
    // a name with its four bytes takes 20, so a leaf takes 24 of them: nine leaves, a root, and 401 pages of metadata and empty leaves
    is_kept(
        &rt,
        alloc,
        text.as_slice(),
        210432,
        b"sound, 411 pages\n",
        dumped.as_slice(),
    )?;
    Ok(())
}

#[test]
fn long_name_has_a_chain(rt: HostRuntime) -> Result<(), Fail> {
    let alloc = rt.alloc();
    let mut text = Bytes::new(alloc);
    push_section(&mut text, &[b'x'; 300])?;
    // the metadata and the leaf of the master, the name on a page of its own, and two pages of the database
    is_kept(
        &rt,
        alloc,
        text.as_slice(),
        2560,
        b"sound, 5 pages\n",
        text.as_slice(),
    )?;
    Ok(())
}

fn hex_digit(n: u8) -> u8 {
    if n < 10 {
        b'0' + n
    } else {
        b'a' + (n - 10) % 6
    }
}

// Each byte as two digits behind a backslash.
fn push_escaped(name: &mut Bytes, byte: u8) -> Result<(), AllocError> {
    name.push_all(&[b'\\', hex_digit(byte / 16), hex_digit(byte % 16)])
}

// A byte as `dump --print` spells it: from the blank to the tilde as it is, the backslash twice, others as two digits behind one.
fn push_spelled(name: &mut Bytes, byte: u8) -> Result<(), AllocError> {
    match byte {
        b'\\' => name.push_all(b"\\\\"),
        b' '..=b'~' => name.push_all(&[byte]),
        _ => push_escaped(name, byte),
    }
}

// Behind a text, the section of a byte as a name.
fn push_escaped_name(alloc: Global, text: &mut Bytes, byte: u8) -> Result<(), AllocError> {
    let mut name = Bytes::new(alloc);
    push_escaped(&mut name, byte)?;
    push_section(text, name.as_slice())
}

// The same, as it is dumped.
fn push_spelled_name(alloc: Global, dumped: &mut Bytes, byte: u8) -> Result<(), AllocError> {
    let mut name = Bytes::new(alloc);
    push_spelled(&mut name, byte)?;
    push_section(dumped, name.as_slice())
}

// Behind a text, the section of a name of all bytes.
fn push_escaped_bytes(alloc: Global, text: &mut Bytes) -> Result<(), AllocError> {
    let mut all = Bytes::new(alloc);
    for byte in 0..=255u8 {
        push_escaped(&mut all, byte)?;
    }
    push_section(text, all.as_slice())
}

// The same, as it is dumped.
fn push_spelled_bytes(alloc: Global, dumped: &mut Bytes) -> Result<(), AllocError> {
    let mut all = Bytes::new(alloc);
    for byte in 0..=255u8 {
        push_spelled(&mut all, byte)?;
    }
    push_section(dumped, all.as_slice())
}

// A name of all bytes, and each byte as a name.
fn escaped_names(alloc: Global) -> Result<Bytes, AllocError> {
    let mut text = Bytes::new(alloc);
    push_escaped_bytes(alloc, &mut text)?;
    for byte in 0..=255u8 {
        push_escaped_name(alloc, &mut text, byte)?;
    }
    Ok(text)
}

// The same, as they are dumped: the name of all bytes stands behind that of its first byte.
fn spelled_names(alloc: Global) -> Result<Bytes, AllocError> {
    let mut dumped = Bytes::new(alloc);
    push_spelled_name(alloc, &mut dumped, 0)?;
    push_spelled_bytes(alloc, &mut dumped)?;
    for byte in 1..=255u8 {
        push_spelled_name(alloc, &mut dumped, byte)?;
    }
    Ok(dumped)
}

#[test]
fn names_have_every_byte(rt: HostRuntime) -> Result<(), Fail> {
    let alloc = rt.alloc();
    let text = escaped_names(alloc)?;
    let dumped = spelled_names(alloc)?;
    // a name of one byte takes 16 with its four, so a leaf takes 30 of them, and the long one, which has a page of its own, 24: nine
    // leaves, a root, that page, and 515 pages of metadata and empty leaves
    is_kept(
        &rt,
        alloc,
        text.as_slice(),
        269312,
        b"sound, 526 pages\n",
        dumped.as_slice(),
    )?;
    Ok(())
}
