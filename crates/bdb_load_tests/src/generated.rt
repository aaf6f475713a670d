// Files of 200,000 generated pairs of each kind are sound, have the pairs in the order of their keys, and give each key its data.
use crate::loaded::{Answer, loaded};
use crate::settled::list_of;
use bdb_tool::{Bytes, KeyRef, Kind, PairSlice, generate, push_line_text};
use std::alloc::{AllocError, Global};
use std::process::Abort;
use std::test::Fail;
use test_lists::gives;

// A line of data: a space, and two digits for each byte.
fn push_line(text: &mut Bytes, bytes: &[u8]) -> Result<(), AllocError> {
    text.push_all(b" ")?;
    push_line_text(text, bytes, false)?;
    text.push_all(b"\n")
}

fn push_key(alloc: Global, text: &mut Bytes, key: KeyRef<'_>) -> Result<(), AllocError> {
    match key {
        KeyRef::Bytes(bytes) => push_line(text, bytes),
        KeyRef::Number(number) => {
            let digits = format!(in alloc; "{number}")?;
            push_line(text, digits.as_bytes())
        }
    }
}

/// The dump text of 200,000 generated pairs behind this header.
pub(crate) fn text_of(alloc: Global, kind: Kind, header: &[u8]) -> Result<Bytes, AllocError> {
    let list = generate(alloc, kind, 7, 200000)?;
    let mut text = Bytes::new(alloc);
    text.push_all(header)?;
    let pairs = list.as_slice();
    for i in 0..pairs.len() {
        push_key(alloc, &mut text, pairs.at(i).key)?;
        push_line(&mut text, pairs.at(i).value)?;
    }
    text.push_all(b"DATA=END\n")?;
    Ok(text)
}

// Loads a text, and compares what its file gives with a list.
fn load_and_compare(
    rt: &impl Abort,
    alloc: Global,
    text: &[u8],
    list: PairSlice<'_>,
) -> Result<(), AllocError> {
    match loaded(alloc, text, 1073741824) {
        Answer::Image(image) => assert!(rt; gives(alloc, image.bytes(), list, b"0")?),
        _ => assert!(rt; false),
    }
    Ok(())
}

fn check(rt: &impl Abort, alloc: Global, kind: Kind, header: &[u8]) -> Result<(), AllocError> {
    let text = text_of(alloc, kind, header)?;
    let list = list_of(alloc, text.as_slice())?;
    assert_eq!(rt; list.len(), 200000);
    load_and_compare(rt, alloc, text.as_slice(), list.as_slice())
}

#[test]
fn btree_gives_each_key_its_data(rt: HostRuntime) -> Result<(), Fail> {
    check(
        &rt,
        rt.alloc(),
        Kind::Btree,
        b"VERSION=3\ntype=btree\nHEADER=END\n",
    )?;
    Ok(())
}

#[test]
fn hash_gives_each_key_its_data(rt: HostRuntime) -> Result<(), Fail> {
    check(
        &rt,
        rt.alloc(),
        Kind::Hash,
        b"VERSION=3\ntype=hash\nHEADER=END\n",
    )?;
    Ok(())
}

#[test]
fn recno_gives_each_number_its_record(rt: HostRuntime) -> Result<(), Fail> {
    check(
        &rt,
        rt.alloc(),
        Kind::Recno,
        b"VERSION=3\ntype=recno\nkeys=1\nHEADER=END\n",
    )?;
    Ok(())
}

#[test]
fn queue_gives_each_number_its_record(rt: HostRuntime) -> Result<(), Fail> {
    check(
        &rt,
        rt.alloc(),
        Kind::Queue,
        b"VERSION=3\ntype=queue\nre_len=16\nre_pad=0\nkeys=1\nHEADER=END\n",
    )?;
    Ok(())
}
