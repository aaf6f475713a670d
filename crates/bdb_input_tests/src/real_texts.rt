// Dump texts that the original library's `db_dump -k` printed, of files under real/: what is read is spelled again.
use bdb_model::Bytes;
use bdb_text::{KeyRef, PairRef, Section, number_text, push_line_text, read_dump};
use std::alloc::{AllocError, Global};
use std::test::Fail;

// A row: a header up to its last line, and the data lines behind it.
type Row = (&'static [u8], &'static [u8]);

fn push_data_line(text: &mut Bytes, bytes: &[u8]) -> Result<(), AllocError> {
    text.push_all(b" ")?;
    push_line_text(text, bytes, false)?;
    text.push_all(b"\n")
}

fn push_pair(alloc: Global, text: &mut Bytes, pair: PairRef<'_>) -> Result<(), AllocError> {
    match pair.key {
        KeyRef::Bytes(key) => push_data_line(text, key)?,
        KeyRef::Number(number) => push_data_line(text, number_text(alloc, number)?.as_slice())?,
    }
    push_data_line(text, pair.value)
}

fn data_lines(alloc: Global, section: &Section) -> Result<Bytes, AllocError> {
    let mut text = Bytes::new(alloc);
    let pairs = section.pairs.as_slice();
    for i in 0..pairs.len() {
        push_pair(alloc, &mut text, pairs.at(i))?;
    }
    Ok(text)
}

const ROWS: [Row; 10] = [
    // bt_one_512_le
    (
        b"VERSION=3\nformat=bytevalue\ntype=btree\ndb_pagesize=512\nkeys=1\nHEADER=END\n",
        b" 61\n 62\n",
    ),
    // h_one_4096_le
    (
        b"VERSION=3\nformat=bytevalue\ntype=hash\ndb_pagesize=4096\nkeys=1\nHEADER=END\n",
        b" 61\n 62\n",
    ),
    // rn_gap_512_le
    (
        b"VERSION=3\nformat=bytevalue\ntype=recno\ndb_pagesize=512\nkeys=1\nHEADER=END\n",
        b" 31\n e33c\n 32\n 8f06ba85\n 33\n 4445464748\n 34\n b9c4812b8183\n 373030\n f175a632c6ee\n 373031\n 7e\n 373032\n 41424344454647\n 373033\
            \n 56e27bc9b2\n 373034\n 5f1a8df444\n",
    ),
    // q_one_2048_le
    (
        b"VERSION=3\nformat=bytevalue\ntype=queue\nre_len=10\ndb_pagesize=2048\nkeys=1\nHEADER=END\n",
        b" 31\n e33c6789202020202020\n",
    ),
    // prod_load_T_recno
    (
        b"VERSION=3\nformat=bytevalue\ntype=recno\ndb_pagesize=4096\nkeys=1\nHEADER=END\n",
        b" 31\n 6c206f6e65\n 32\n 6c2074776f\n",
    ),
    // prod_load_T_queue
    (
        b"VERSION=3\nformat=bytevalue\ntype=queue\nre_len=8\ndb_pagesize=4096\nkeys=1\nHEADER=END\n",
        b" 31\n 6c206f6e65202020\n 32\n 6c2074776f202020\n",
    ),
    // prod_reprepro_references
    (
        b"VERSION=3\nformat=bytevalue\ndatabase=references\ntype=btree\nduplicates=1\ndupsort=1\ndb_pagesize=4096\nkeys=1\nHEADER=END\n",
        b" 706f6f6c2f6d61696e2f612f61612f61615f315f616d6436342e64656200\n 746573747c6d61696e7c616d64363400\n",
    ),
    // prod_reprepro_contents.cache
    (
        b"VERSION=3\nformat=bytevalue\ndatabase=compressedfilelists\ntype=btree\ndb_pagesize=4096\nkeys=1\nHEADER=END\n",
        b"",
    ),
    // sub_one_512_be
    (
        b"VERSION=3\nformat=bytevalue\ndatabase=only\ntype=btree\ndb_pagesize=512\nkeys=1\nHEADER=END\n",
        b" 61\n 62\n",
    ),
    // prod_sasldb
    (
        b"VERSION=3\nformat=bytevalue\ntype=hash\nh_nelem=3\ndb_pagesize=4096\nkeys=1\nHEADER=END\n",
        b" 616e6e61006578616d706c652e6f7267007573657250617373776f7264\n 7077616e6e61\n 6361726c006578616d706c652e6f7267007573657250617373776f7264\
            \n 70776361726c\n 646f7261006578616d706c652e6f7267007573657250617373776f7264\n 7077646f7261\n",
    ),
];

fn text_of(alloc: Global, header: &[u8], data: &[u8]) -> Result<Bytes, AllocError> {
    let mut text = Bytes::new(alloc);
    text.push_all(header)?;
    text.push_all(data)?;
    text.push_all(b"DATA=END\n")?;
    Ok(text)
}

// Whether a text is read as one section whose data lines are spelled again.
fn is_spelled_again(alloc: Global, header: &[u8], data: &[u8]) -> Result<bool, AllocError> {
    let text = text_of(alloc, header, data)?;
    if text.as_slice().len() >= 1048576 {
        return Ok(false);
    }
    let Ok(sections) = read_dump(alloc, text.as_slice()) else {
        return Ok(false);
    };
    match sections.get(0) {
        Some(section) => {
            Ok(data_lines(alloc, section)?.as_slice() == data && sections.get(1).is_none())
        }
        None => Ok(false),
    }
}

#[test]
fn texts_of_the_original_are_read(rt: HostRuntime) -> Result<(), Fail> {
    for (header, data) in ROWS {
        assert!(rt; is_spelled_again(rt.alloc(), header, data)?);
    }
    Ok(())
}
