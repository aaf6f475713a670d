use bdb_model::{Kind, Order, Settings};
use bdb_text::{header_text, kind_word};
use std::alloc::{AllocError, Global};
use std::test::Fail;

// A btree that says nothing of its own.
const PLAIN: Settings = Settings {
    kind: Kind::Btree,
    page_size: 512,
    order: Order::Little,
    duplicates: false,
    sorted: false,
    recnum: false,
    renumber: false,
    fixed: false,
    re_len: 0,
    re_pad: 32,
    minkey: 2,
    ffactor: 0,
};

// Every field is set; which of them are shown is a matter of the kind.
const FULL: Settings = Settings {
    kind: Kind::Btree,
    page_size: 32768,
    order: Order::Big,
    duplicates: false,
    sorted: true,
    recnum: true,
    renumber: true,
    fixed: true,
    re_len: 7,
    re_pad: 4_294_967_295,
    minkey: 3,
    ffactor: 40,
};

// A row: a name, settings, whether data are printed, and the header.
type Row = (Option<&'static [u8]>, Settings, bool, &'static [u8]);

const ROWS: [Row; 7] = [
    (
        None,
        PLAIN,
        false,
        b"VERSION=3\nformat=bytevalue\ntype=btree\ndb_pagesize=512\ndb_lorder=1234\nHEADER=END\n",
    ),
    (
        Some(b""),
        PLAIN,
        true,
        b"VERSION=3\nformat=print\ndatabase=\ntype=btree\ndb_pagesize=512\ndb_lorder=1234\nHEADER=END\n",
    ),
    (
        Some(b"a\\\n"),
        FULL,
        false,
        b"VERSION=3\nformat=bytevalue\ndatabase=a\\\\\\0a\ntype=btree\ndb_pagesize=32768\ndb_lorder=4321\nbt_minkey=3\nrecnum=1\nduplicates=1\ndupsort=1\n\
            HEADER=END\n",
    ),
    (
        None,
        Settings {
            kind: Kind::Hash,
            ..FULL
        },
        false,
        b"VERSION=3\nformat=bytevalue\ntype=hash\ndb_pagesize=32768\ndb_lorder=4321\nduplicates=1\ndupsort=1\nh_ffactor=40\nHEADER=END\n",
    ),
    (
        None,
        Settings {
            kind: Kind::Recno,
            ..FULL
        },
        false,
        b"VERSION=3\nformat=bytevalue\ntype=recno\ndb_pagesize=32768\ndb_lorder=4321\nre_len=7\nre_pad=4294967295\nrenumber=1\nkeys=1\nHEADER=END\n",
    ),
    (
        None,
        Settings {
            kind: Kind::Recno,
            fixed: true,
            ..PLAIN
        },
        false,
        b"VERSION=3\nformat=bytevalue\ntype=recno\ndb_pagesize=512\ndb_lorder=1234\nkeys=1\nHEADER=END\n",
    ),
    (
        None,
        Settings {
            kind: Kind::Queue,
            ..PLAIN
        },
        false,
        b"VERSION=3\nformat=bytevalue\ntype=queue\ndb_pagesize=512\ndb_lorder=1234\nre_len=0\nre_pad=32\nkeys=1\nHEADER=END\n",
    ),
];

fn is_header(alloc: Global, row: &Row) -> Result<bool, AllocError> {
    let (name, settings, print, want) = *row;
    Ok(header_text(alloc, name, &settings, print)?.as_slice() == want)
}

#[test]
fn headers_show_settings(rt: HostRuntime) -> Result<(), Fail> {
    for row in &ROWS {
        assert!(rt; is_header(rt.alloc(), row)?);
    }
    Ok(())
}

fn is_word(kind: Kind, want: &[u8]) -> bool {
    kind_word(kind) == want
}

#[test]
fn kinds_have_words(rt: HostRuntime) {
    assert!(rt; is_word(Kind::Btree, b"btree") && is_word(Kind::Queue, b"queue"));
}
