// Dump texts that aren't read: the line and the reason.
use bdb_text::{TextError, TextFault, TextReason as Reason, read_dump};
use std::alloc::Global;

// A row: a text, and the line and the reason of its fault.
type Row = (&'static [u8], u64, Reason);

fn is_faulty(alloc: Global, row: &Row) -> bool {
    let (text, line, reason) = *row;
    if text.len() > 1073741824 {
        return false;
    }
    match read_dump(alloc, text) {
        Err(TextError::Fault(fault)) => fault == TextFault { line, reason },
        _ => false,
    }
}

fn are_faulty(alloc: Global, rows: &[Row]) -> bool {
    for row in rows {
        if !is_faulty(alloc, row) {
            return false;
        }
    }
    true
}

const FIRST_LINES: [Row; 8] = [
    (b"", 1, Reason::NoVersion),
    (b"\n", 1, Reason::NoVersion),
    (b"version=3\n", 1, Reason::NoVersion),
    (b"VERSION=\n", 1, Reason::Version),
    (b"VERSION=2\n", 1, Reason::Version),
    (b"VERSION=3 \n", 1, Reason::Version),
    (
        b"VERSION=3\ntype=btree\nHEADER=END\nDATA=END\n\n",
        5,
        Reason::NoVersion,
    ),
    (
        b"VERSION=3\ndatabase=a\ntype=hash\nHEADER=END\nDATA=END\nVERSION=4\n",
        6,
        Reason::Version,
    ),
];

#[test]
fn first_lines_are_told(rt: HostRuntime) {
    assert!(rt; are_faulty(rt.alloc(), &FIRST_LINES));
}

const HEADER_LINES: [Row; 17] = [
    (b"VERSION=3\ntype\n", 2, Reason::UnknownKeyword),
    (b"VERSION=3\nVERSION=3\n", 2, Reason::UnknownKeyword),
    (b"VERSION=3\n=btree\n", 2, Reason::UnknownKeyword),
    (
        b"VERSION=3\ntype=btree\nHEADER=END \n",
        3,
        Reason::UnknownKeyword,
    ),
    (b"VERSION=3\nDATA=END\n", 2, Reason::UnknownKeyword),
    (b"VERSION=3\ncompressed=1\n", 2, Reason::UnknownKeyword),
    (b"VERSION=3\nkeys=1\nkeys=0\n", 3, Reason::RepeatedKeyword),
    (
        b"VERSION=3\ntype=hash\nformat=print\ntype=hash\n",
        4,
        Reason::RepeatedKeyword,
    ),
    (b"VERSION=3\nkeys=1\nkeys=x\n", 3, Reason::RepeatedKeyword),
    (
        b"VERSION=3\nchksum=0\nchksum=1\n",
        3,
        Reason::RepeatedKeyword,
    ),
    (b"VERSION=3\ntype=heap\n", 2, Reason::Unsupported),
    (
        b"VERSION=3\nformat=bytevalue\nchksum=1\n",
        3,
        Reason::Unsupported,
    ),
    (b"VERSION=3\ndb_pagesize=65536\n", 2, Reason::Unsupported),
    (b"VERSION=3\ndb_pagesize=0x10000\n", 2, Reason::Unsupported),
    (b"VERSION=3\nextentsize=1\n", 2, Reason::Unsupported),
    (
        b"VERSION=3\nextentsize=4294967295\n",
        2,
        Reason::Unsupported,
    ),
    (b"VERSION=3\ntype=heap", 2, Reason::Unsupported),
];

#[test]
fn header_lines_are_told(rt: HostRuntime) {
    assert!(rt; are_faulty(rt.alloc(), &HEADER_LINES));
}

const BAD_VALUES: [Row; 30] = [
    (b"VERSION=3\nformat=Print\n", 2, Reason::BadValue),
    (b"VERSION=3\ndatabase=\\6\n", 2, Reason::BadValue),
    (b"VERSION=3\ntype=\n", 2, Reason::BadValue),
    (b"VERSION=3\nduplicates=2\n", 2, Reason::BadValue),
    (b"VERSION=3\ndupsort=01\n", 2, Reason::BadValue),
    (b"VERSION=3\nrecnum=\n", 2, Reason::BadValue),
    (b"VERSION=3\nrenumber=0x1\n", 2, Reason::BadValue),
    (b"VERSION=3\nkeys=1 \n", 2, Reason::BadValue),
    (b"VERSION=3\nchksum=2\n", 2, Reason::BadValue),
    (b"VERSION=3\nchksum=00\n", 2, Reason::BadValue),
    (b"VERSION=3\ndb_pagesize=256\n", 2, Reason::BadValue),
    (b"VERSION=3\ndb_pagesize=32767\n", 2, Reason::BadValue),
    (b"VERSION=3\ndb_pagesize=0\n", 2, Reason::BadValue),
    (b"VERSION=3\ndb_lorder=1233\n", 2, Reason::BadValue),
    (b"VERSION=3\nextentsize=-1\n", 2, Reason::BadValue),
    (b"VERSION=3\nbt_minkey=4294967296\n", 2, Reason::BadValue),
    (b"VERSION=3\nh_ffactor=99999999999\n", 2, Reason::BadValue),
    (b"VERSION=3\nh_nelem=00000000001\n", 2, Reason::BadValue),
    (b"VERSION=3\nre_len=\n", 2, Reason::BadValue),
    (b"VERSION=3\nre_len=9999999999\n", 2, Reason::BadValue),
    (b"VERSION=3\nre_pad=#\n", 2, Reason::BadValue),
    (b"VERSION=3\nre_pad=0x\n", 2, Reason::BadValue),
    (b"VERSION=3\nre_pad=0x000000000\n", 2, Reason::BadValue),
    (b"VERSION=3\nre_pad=0X20\n", 2, Reason::BadValue),
    (b"VERSION=3\nre_pad=0xg\n", 2, Reason::BadValue),
    (b"VERSION=3\nre_pad=x20\n", 2, Reason::BadValue),
    (b"VERSION=3\nre_pad= 32\n", 2, Reason::BadValue),
    (b"VERSION=3\nre_pad=3:\n", 2, Reason::BadValue),
    (b"VERSION=3\nre_pad=3/\n", 2, Reason::BadValue),
    (b"VERSION=3\ntype=btree\nre_len=x\n", 3, Reason::BadValue),
];

#[test]
fn bad_values_are_told(rt: HostRuntime) {
    assert!(rt; are_faulty(rt.alloc(), &BAD_VALUES));
}

const ENDS_OF_HEADERS: [Row; 19] = [
    (b"VERSION=3\nHEADER=END\n", 2, Reason::NoType),
    (
        b"VERSION=3\nkeys=0\nduplicates=1\nHEADER=END\n",
        4,
        Reason::NoType,
    ),
    (
        b"VERSION=3\ntype=recno\nduplicates=1\nHEADER=END\n",
        4,
        Reason::Conflict,
    ),
    (
        b"VERSION=3\nre_len=4\ndupsort=1\ntype=queue\nHEADER=END\n",
        5,
        Reason::Conflict,
    ),
    (
        b"VERSION=3\ntype=hash\nrecnum=1\nHEADER=END\n",
        4,
        Reason::Conflict,
    ),
    (
        b"VERSION=3\ntype=btree\nrecnum=1\nduplicates=1\nHEADER=END\n",
        5,
        Reason::Conflict,
    ),
    (
        b"VERSION=3\ntype=btree\nrecnum=1\ndupsort=1\nHEADER=END\n",
        5,
        Reason::Conflict,
    ),
    (
        b"VERSION=3\ntype=btree\nrenumber=1\nHEADER=END\n",
        4,
        Reason::Conflict,
    ),
    (
        b"VERSION=3\ntype=queue\nre_len=1\nrenumber=1\nHEADER=END\n",
        5,
        Reason::Conflict,
    ),
    (
        b"VERSION=3\ntype=btree\nkeys=0\nHEADER=END\n",
        4,
        Reason::Conflict,
    ),
    (
        b"VERSION=3\ntype=hash\nkeys=0\nHEADER=END\n",
        4,
        Reason::Conflict,
    ),
    (b"VERSION=3\ntype=queue\nHEADER=END\n", 3, Reason::Conflict),
    (
        b"VERSION=3\ntype=queue\nre_len=0x0\nHEADER=END\n",
        4,
        Reason::Conflict,
    ),
    (
        b"VERSION=3\ntype=hash\nHEADER=END\nDATA=END\nVERSION=3\ndatabase=a\ntype=hash\nHEADER=END\n",
        8,
        Reason::NameMissing,
    ),
    (
        b"VERSION=3\ndatabase=a\ntype=hash\nHEADER=END\nDATA=END\nVERSION=3\ntype=hash\nHEADER=END\n",
        8,
        Reason::NameMissing,
    ),
    (
        b"VERSION=3\ntype=hash\nHEADER=END\nDATA=END\nVERSION=3\ntype=queue\nHEADER=END\n",
        7,
        Reason::Conflict,
    ),
    (
        b"VERSION=3\ndatabase=a\ntype=hash\nHEADER=END\nDATA=END\nVERSION=3\ndatabase=\\61\ntype=hash\nHEADER=END\n",
        9,
        Reason::NameTwice,
    ),
    (
        b"VERSION=3\ndatabase=\ntype=hash\nHEADER=END\nDATA=END\nVERSION=3\ndatabase=\ntype=hash\nHEADER=END\n",
        9,
        Reason::NameTwice,
    ),
    (
        b"VERSION=3\ndatabase=a\ntype=hash\nHEADER=END\nDATA=END\n\
            VERSION=3\ndatabase=b\ntype=hash\nHEADER=END\nDATA=END\n\
            VERSION=3\ndatabase=a\ntype=hash\nHEADER=END\n",
        14,
        Reason::NameTwice,
    ),
];

#[test]
fn ends_of_headers_are_told(rt: HostRuntime) {
    assert!(rt; are_faulty(rt.alloc(), &ENDS_OF_HEADERS));
}

const DATA_LINES: [Row; 20] = [
    (
        b"VERSION=3\ntype=btree\nHEADER=END\n61\n",
        4,
        Reason::NoSpace,
    ),
    (
        b"VERSION=3\ntype=btree\nHEADER=END\n 61\n\n",
        5,
        Reason::NoSpace,
    ),
    (
        b"VERSION=3\ntype=btree\nHEADER=END\n 61\nDATA=END \n",
        5,
        Reason::NoSpace,
    ),
    (
        b"VERSION=3\ntype=btree\nHEADER=END\nHEADER=END\n",
        4,
        Reason::NoSpace,
    ),
    (
        b"VERSION=3\nformat=bytevalue\ntype=btree\nHEADER=END\n 6\n",
        5,
        Reason::BadDigit,
    ),
    (
        b"VERSION=3\ntype=btree\nHEADER=END\n 6g\n",
        4,
        Reason::BadDigit,
    ),
    (
        b"VERSION=3\ntype=btree\nHEADER=END\n 61\n 6 1\n",
        5,
        Reason::BadDigit,
    ),
    (
        b"VERSION=3\nformat=print\ntype=btree\nHEADER=END\n a\\\n",
        5,
        Reason::BadEscape,
    ),
    (
        b"VERSION=3\nformat=print\ntype=btree\nHEADER=END\n a\n b\\0g\n",
        6,
        Reason::BadEscape,
    ),
    (
        b"VERSION=3\ntype=btree\nHEADER=END\n 61\nDATA=END\n",
        5,
        Reason::KeyWithoutData,
    ),
    (
        b"VERSION=3\ntype=recno\nkeys=1\nHEADER=END\n 31\n 61\n 32\nDATA=END\n",
        8,
        Reason::KeyWithoutData,
    ),
    (
        b"VERSION=3\nformat=print\ntype=recno\nkeys=1\nHEADER=END\n 4294967296\n a\n",
        6,
        Reason::BadNumber,
    ),
    (
        b"VERSION=3\ntype=queue\nre_len=1\nkeys=1\nHEADER=END\n 31\n 61\n \n 61\n",
        8,
        Reason::BadNumber,
    ),
    (
        b"VERSION=3\nformat=print\ntype=recno\nkeys=1\nHEADER=END\n 00000000001\n a\n",
        6,
        Reason::BadNumber,
    ),
    (
        b"VERSION=3\nformat=print\ntype=recno\nkeys=1\nHEADER=END\n 0x1\n a\n",
        6,
        Reason::BadNumber,
    ),
    (
        b"VERSION=3\nformat=print\ntype=recno\nkeys=1\nHEADER=END\n \\zz\n a\n",
        6,
        Reason::BadEscape,
    ),
    (b"VERSION=3\ntype=btree", 3, Reason::NoEnd),
    (b"VERSION=3", 2, Reason::NoEnd),
    (
        b"VERSION=3\nformat=bytevalue\ntype=btree\nHEADER=END\n 61\n 62",
        7,
        Reason::NoEnd,
    ),
    (
        b"VERSION=3\ntype=btree\nHEADER=END\n 61\n",
        5,
        Reason::NoEnd,
    ),
];

#[test]
fn data_lines_are_told(rt: HostRuntime) {
    assert!(rt; are_faulty(rt.alloc(), &DATA_LINES));
}

// The third line isn't supported.
const CHECKSUM: [Row; 1] = [(
    b"VERSION=3\ntype=btree\nchksum=1\nHEADER=END\nDATA=END\n",
    3,
    Reason::Unsupported,
)];

#[test]
fn checksums_are_left_out(rt: HostRuntime) {
    assert!(rt; are_faulty(rt.alloc(), &CHECKSUM));
}
