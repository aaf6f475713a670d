// Dump texts that are read, field by field.
use bdb_model::{Bytes, Key, Kind, Order, Pair, PairList, Settings};
use bdb_text::{KeyRef, PairRef, PairSlice, Section, Sections, TextPairs, read_dump};
use std::alloc::{AllocError, Global};
use std::test::Fail;

// A key as it is wanted.
#[derive(Clone, Copy)]
enum WantedKey {
    Bytes(&'static [u8]),
    Number(u32),
}

// A pair as it is wanted: its key, its datum and its line.
type Wanted = (WantedKey, &'static [u8], u64);

// A section as it is wanted: its name, its settings, the line that ends its header, and its pairs.
type WantedSection = (Option<&'static [u8]>, Settings, u64, &'static [Wanted]);

// Settings as they are where the header says nothing else.
const BTREE: Settings = Settings {
    kind: Kind::Btree,
    page_size: 4096,
    order: Order::Little,
    duplicates: false,
    sorted: false,
    recnum: false,
    renumber: false,
    fixed: false,
    re_len: 0,
    re_pad: 32,
    minkey: 2,
    ffactor: 0,
};

const HASH: Settings = Settings {
    kind: Kind::Hash,
    ..BTREE
};

const RECNO: Settings = Settings {
    kind: Kind::Recno,
    ..BTREE
};

const QUEUE: Settings = Settings {
    kind: Kind::Queue,
    ..BTREE
};

fn read(alloc: Global, text: &[u8]) -> Option<Sections> {
    if text.len() > 1073741824 {
        return None;
    }
    read_dump(alloc, text).ok()
}

fn is_key(key: KeyRef<'_>, wanted: WantedKey) -> bool {
    match (key, wanted) {
        (KeyRef::Bytes(bytes), WantedKey::Bytes(wanted)) => bytes == wanted,
        (KeyRef::Number(number), WantedKey::Number(wanted)) => number == wanted,
        _ => false,
    }
}

fn is_pair(pair: PairRef<'_>, wanted: Wanted) -> bool {
    let (key, value, line) = wanted;
    is_key(pair.key, key) && pair.value == value && pair.line == line
}

fn are_pairs(pairs: PairSlice<'_>, wanted: &[Wanted]) -> bool {
    if pairs.len() != wanted.len() {
        return false;
    }
    for i in 0..pairs.len() {
        if !is_pair(pairs.at(i), wanted[i]) {
            return false;
        }
    }
    true
}

fn is_named(section: &Section, wanted: Option<&[u8]>) -> bool {
    match (&section.name, wanted) {
        (None, None) => true,
        (Some(name), Some(wanted)) => name.as_slice() == wanted,
        _ => false,
    }
}

fn is_section(section: &Section, wanted: &WantedSection) -> bool {
    let (name, settings, line, pairs) = *wanted;
    is_named(section, name)
        && section.settings == settings
        && section.header_line == line
        && are_pairs(section.pairs.as_slice(), pairs)
}

fn are_sections(sections: &[Section], wanted: &[WantedSection]) -> bool {
    if sections.len() != wanted.len() {
        return false;
    }
    for i in 0..sections.len() {
        if !is_section(&sections[i], &wanted[i]) {
            return false;
        }
    }
    true
}

// Whether a text is read as these sections.
fn is_read_as(alloc: Global, text: &[u8], wanted: &[WantedSection]) -> bool {
    match read(alloc, text) {
        Some(sections) => are_sections(sections.as_slice(), wanted),
        None => false,
    }
}

const TEXTS: [(&[u8], &[WantedSection]); 3] = [
    // printed pairs, one of them without bytes
    (
        b"VERSION=3\nformat=print\ntype=btree\nHEADER=END\n a\n b\\0a\\\\\n \n \nDATA=END\n",
        &[(
            None,
            BTREE,
            4,
            &[
                (WantedKey::Bytes(b"a"), b"b\n\\", 5),
                (WantedKey::Bytes(b""), b"", 7),
            ],
        )],
    ),
    // two sections, one of numbered records
    (
        b"VERSION=3\ndatabase=a\ntype=btree\nHEADER=END\n 6A\n 6b\nDATA=END\n\
            VERSION=3\ndatabase=\nkeys=1\nre_len=0x3\ntype=queue\nHEADER=END\n 34323934393637323935\n 6162\nDATA=END",
        &[
            (Some(b"a"), BTREE, 4, &[(WantedKey::Bytes(b"j"), b"k", 5)]),
            (
                Some(b""),
                Settings {
                    fixed: true,
                    re_len: 3,
                    ..QUEUE
                },
                13,
                &[(WantedKey::Number(4294967295), b"ab", 14)],
            ),
        ],
    ),
    // records are numbered
    (
        b"VERSION=3\ntype=recno\nHEADER=END\n 61\n \n 62\nDATA=END\n",
        &[(
            None,
            RECNO,
            3,
            &[
                (WantedKey::Number(1), b"a", 4),
                (WantedKey::Number(2), b"", 5),
                (WantedKey::Number(3), b"b", 6),
            ],
        )],
    ),
];

#[test]
fn sections_are_read(rt: HostRuntime) {
    for (text, wanted) in TEXTS {
        assert!(rt; is_read_as(rt.alloc(), text, wanted));
    }
}

// Whether a text is read as one section with these settings.
fn has_settings(alloc: Global, text: &[u8], wanted: &Settings) -> bool {
    match read(alloc, text) {
        Some(sections) => is_one(sections.as_slice(), wanted),
        None => false,
    }
}

fn is_one(sections: &[Section], wanted: &Settings) -> bool {
    sections.len() == 1 && sections[0].settings == *wanted
}

const KEYWORDS: [(&[u8], Settings); 24] = [
    (b"VERSION=3\ntype=btree\nHEADER=END\nDATA=END\n", BTREE),
    (b"VERSION=3\ntype=hash\nHEADER=END\nDATA=END\n", HASH),
    (b"VERSION=3\ntype=recno\nHEADER=END\nDATA=END\n", RECNO),
    (
        b"VERSION=3\ntype=queue\nre_len=1\nHEADER=END\nDATA=END\n",
        Settings {
            fixed: true,
            re_len: 1,
            ..QUEUE
        },
    ),
    (
        b"VERSION=3\nduplicates=1\ntype=btree\nHEADER=END\nDATA=END\n",
        Settings {
            duplicates: true,
            ..BTREE
        },
    ),
    (
        b"VERSION=3\nduplicates=0\ndupsort=1\ntype=hash\nHEADER=END\nDATA=END\n",
        Settings {
            duplicates: true,
            sorted: true,
            ..HASH
        },
    ),
    (
        b"VERSION=3\nrecnum=1\nduplicates=0\ntype=btree\nHEADER=END\nDATA=END\n",
        Settings {
            recnum: true,
            ..BTREE
        },
    ),
    (
        b"VERSION=3\nrecnum=0\nrenumber=0\nkeys=1\nchksum=0\ntype=btree\nHEADER=END\nDATA=END\n",
        BTREE,
    ),
    (
        b"VERSION=3\nrenumber=1\nkeys=0\ntype=recno\nHEADER=END\nDATA=END\n",
        Settings {
            renumber: true,
            ..RECNO
        },
    ),
    (
        b"VERSION=3\ndb_pagesize=512\ntype=btree\nHEADER=END\nDATA=END\n",
        Settings {
            page_size: 512,
            ..BTREE
        },
    ),
    (
        b"VERSION=3\ndb_pagesize=0x8000\ntype=btree\nHEADER=END\nDATA=END\n",
        Settings {
            page_size: 32768,
            ..BTREE
        },
    ),
    (
        b"VERSION=3\ndb_lorder=4321\ntype=btree\nHEADER=END\nDATA=END\n",
        Settings {
            order: Order::Big,
            ..BTREE
        },
    ),
    (
        b"VERSION=3\ndb_lorder=0x4d2\ntype=btree\nHEADER=END\nDATA=END\n",
        BTREE,
    ),
    (
        b"VERSION=3\nextentsize=0x00\ntype=btree\nHEADER=END\nDATA=END\n",
        BTREE,
    ),
    (
        b"VERSION=3\nbt_minkey=0\ntype=btree\nHEADER=END\nDATA=END\n",
        Settings { minkey: 0, ..BTREE },
    ),
    (
        b"VERSION=3\nbt_minkey=4294967295\ntype=btree\nHEADER=END\nDATA=END\n",
        Settings {
            minkey: 4294967295,
            ..BTREE
        },
    ),
    (
        b"VERSION=3\nh_ffactor=0xFFFFffff\nh_nelem=0\ntype=hash\nHEADER=END\nDATA=END\n",
        Settings {
            ffactor: 4294967295,
            ..HASH
        },
    ),
    (
        b"VERSION=3\nh_ffactor=0000000000\nh_nelem=4294967295\ntype=hash\nHEADER=END\nDATA=END\n",
        HASH,
    ),
    (
        b"VERSION=3\nre_len=4294967295\nre_pad=0\ntype=recno\nHEADER=END\nDATA=END\n",
        Settings {
            fixed: true,
            re_len: 4294967295,
            re_pad: 0,
            ..RECNO
        },
    ),
    (
        b"VERSION=3\nre_len=0\nre_pad=0xffffffff\ntype=recno\nHEADER=END\nDATA=END\n",
        Settings {
            re_pad: 4294967295,
            ..RECNO
        },
    ),
    (
        b"VERSION=3\nre_len=0000000009\nre_pad=8\ntype=queue\nHEADER=END\nDATA=END\n",
        Settings {
            fixed: true,
            re_len: 9,
            re_pad: 8,
            ..QUEUE
        },
    ),
    (
        b"VERSION=3\nbt_minkey=9\nre_len=7\nre_pad=1\nrecnum=0\ntype=hash\nHEADER=END\nDATA=END\n",
        HASH,
    ),
    (
        b"VERSION=3\nh_ffactor=9\nbt_minkey=7\nduplicates=0\ndupsort=0\ntype=recno\nHEADER=END\nDATA=END\n",
        RECNO,
    ),
    (
        b"VERSION=3\nformat=bytevalue\ndatabase=\\00=\ntype=btree\nHEADER=END\nDATA=END\n",
        BTREE,
    ),
];

#[test]
fn each_keyword_is_read(rt: HostRuntime) {
    for (text, wanted) in &KEYWORDS {
        assert!(rt; has_settings(rt.alloc(), text, wanted));
    }
}

// The first lines of a text, and of the one datum that it is read as the length and the end.
type LongRow = (&'static [u8], usize, &'static [u8]);

// Lines of a megabyte, in both spellings: many runs, the last of them short.
const LONG: [LongRow; 2] = [
    (
        b"VERSION=3\ntype=recno\nHEADER=END\n ",
        8 * 65541,
        b"abcdefgh",
    ),
    (
        b"VERSION=3\nformat=print\ntype=recno\nHEADER=END\n ",
        16 * 65541,
        b"6162636465666768",
    ),
];

fn long_text(alloc: Global, head: &[u8]) -> Result<Bytes, AllocError> {
    let mut text = Bytes::new(alloc);
    text.push_all(head)?;
    for _ in 0..65541 {
        text.push_all(b"6162636465666768")?;
    }
    text.push_all(b"\nDATA=END\n")?;
    Ok(text)
}

// Whether there is one pair, whose datum has this length and this end.
fn is_long(pairs: PairSlice<'_>, len: usize, end: &[u8]) -> bool {
    match pairs.first() {
        Some(pair) => pairs.len() == 1 && pair.value.len() == len && pair.value.ends_with(end),
        None => false,
    }
}

fn is_long_read(alloc: Global, row: LongRow) -> Result<bool, AllocError> {
    let (head, len, end) = row;
    let text = long_text(alloc, head)?;
    let Some(sections) = read(alloc, text.as_slice()) else {
        return Ok(false);
    };
    match sections.get(0) {
        Some(section) => Ok(is_long(section.pairs.as_slice(), len, end)),
        None => Ok(false),
    }
}

#[test]
fn long_lines_are_read(rt: HostRuntime) -> Result<(), Fail> {
    for row in LONG {
        assert!(rt; is_long_read(rt.alloc(), row)?);
    }
    Ok(())
}

// Adds three pairs and a datum of the last one's key, and says whether all stand.
fn are_pushed(pairs: &mut TextPairs) -> Result<bool, AllocError> {
    for line in 0..3 {
        pairs.push(PairRef {
            key: KeyRef::Number(7),
            value: b"",
            line,
        })?;
    }
    if pairs.len() != 3 {
        return Ok(false);
    }
    pairs.push_with_last_key(b"more", 3)?;
    Ok(are_pairs(pairs.as_slice(), &PUSHED))
}

const PUSHED: [Wanted; 4] = [
    (WantedKey::Number(7), b"", 0),
    (WantedKey::Number(7), b"", 1),
    (WantedKey::Number(7), b"", 2),
    (WantedKey::Number(7), b"more", 3),
];

#[test]
fn pairs_are_a_list(rt: HostRuntime) -> Result<(), Fail> {
    let mut pairs = TextPairs::new(rt.alloc());
    assert!(rt; pairs.len() == 0 && are_pushed(&mut pairs)?);
    Ok(())
}

// Whether pairs give the one at a place, none behind them, and the last as it is taken off, until there is none.
fn are_given(alloc: Global, pairs: &mut TextPairs) -> Result<bool, AllocError> {
    pairs.push(PairRef {
        key: KeyRef::Bytes(b"k"),
        value: b"one",
        line: 9,
    })?;
    let stands = pairs.get(0).map(|pair| pair.line) == Some(9) && pairs.get(1).is_none();
    let line = pairs.pop(alloc)?.map(|pair| pair.line);
    Ok(stands && line == Some(9) && pairs.len() == 0 && pairs.pop(alloc)?.is_none())
}

#[test]
fn pairs_are_given(rt: HostRuntime) -> Result<(), Fail> {
    let mut pairs = TextPairs::new(rt.alloc());
    assert!(rt; are_given(rt.alloc(), &mut pairs)?);
    Ok(())
}

// Whether a list has its pair, without a line, and gives it to a section.
fn is_listed(alloc: Global) -> Result<bool, AllocError> {
    let mut list = PairList::new(alloc);
    let mut value = Bytes::new(alloc);
    value.push_all(b"one")?;
    list.push(Pair {
        key: Key::Number(7),
        value,
    })?;
    let stands = list.len() == 1 && list.as_slice().len() == 1;
    let line = list.get(0).map(|pair| pair.line);
    Ok(stands && line == Some(0) && list.into_pairs().len() == 1)
}

#[test]
fn lists_have_pairs(rt: HostRuntime) -> Result<(), Fail> {
    assert!(rt; is_listed(rt.alloc())?);
    Ok(())
}

// Whether a section is taken off again.
fn is_taken_off(sections: &mut Sections, section: Section) -> Result<bool, AllocError> {
    sections.push(section)?;
    Ok(match sections.pop() {
        Some(section) => section.header_line == 9 && sections.is_empty(),
        None => false,
    })
}

#[test]
fn sections_are_a_list(rt: HostRuntime) -> Result<(), Fail> {
    let section = Section {
        name: None,
        settings: HASH,
        header_line: 9,
        pairs: TextPairs::new(rt.alloc()),
    };
    let mut sections = Sections::new(rt.alloc());
    assert!(rt; sections.pop().is_none() && is_taken_off(&mut sections, section)?);
    Ok(())
}
