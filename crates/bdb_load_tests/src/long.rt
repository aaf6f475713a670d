// A datum of 243,000,000 bytes, in a chain of half a million pages of 512 bytes.
use crate::loaded::{Answer, loaded};
use crate::settled::list_of;
use bdb_tool::Bytes;
use std::test::Fail;
use test_lists::gives;

#[test]
fn long_datum_is_found_in_its_chain(rt: HostRuntime) -> Result<(), Fail> {
    let alloc = rt.alloc();
    let letters = [b'b'; 1000];
    let mut text = Bytes::new(alloc);
    text.push_all(b"VERSION=3\nformat=print\ntype=btree\ndb_pagesize=512\nHEADER=END\n a\n ")?;
    for _ in 0..243000 {
        text.push_all(&letters)?;
    }
    text.push_all(b"\nDATA=END\n")?;
    let list = list_of(alloc, text.as_slice())?;
    assert_eq!(rt; list.len(), 1);
    match loaded(alloc, text.as_slice(), 1073741824) {
        Answer::Image(image) => {
            // a page has room for 486 bytes: 500,000 pages, the leaf and the metadata
            assert_eq!(rt; image.bytes().len(), 256001024);
            assert!(rt; gives(alloc, image.bytes(), list.as_slice(), b"b")?);
        }
        _ => assert!(rt; false),
    }
    Ok(())
}
