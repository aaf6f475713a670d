//! What `trial` writes: the figures, and the hash of the image. The rules: man/bdbtool.1.

use crate::files::ONE_PAIR;
use crate::images::bytes_of;
use crate::outside::Dripping;
use crate::running::{ran_of, ran_over};
use crate::texts::GENERATED_TEXT;
use bdb_tool::hash5;
use std::test::Fail;

// Words of `trial`, and the first line that it writes.
const TRIALS: [(&[&str], &[u8]); 7] = [
    (
        &["trial", "btree", "1", "2"],
        b"btree: 2 pairs, 2 pages, sound\n",
    ),
    (
        &["trial", "queue", "1", "1000"],
        b"queue: 1000 pairs, 6 pages, sound\n",
    ),
    (
        &["trial", "hash", "7", "0"],
        b"hash: 0 pairs, 3 pages, sound\n",
    ),
    (
        &["trial", "recno", "7", "64"],
        b"recno: 64 pairs, 2 pages, sound\n",
    ),
    (
        &["trial", "btree", "3", "64"],
        b"btree: 64 pairs, 2 pages, sound\n",
    ),
    (
        &["trial", "--", "btree", "0000000003", "0000001280"],
        b"btree: 1280 pairs, 19 pages, sound\n",
    ),
    // 203 records on a page
    (
        &["trial", "queue", "1", "200000"],
        b"queue: 200000 pairs, 987 pages, sound\n",
    ),
];

#[test]
fn tries_pairs_without_a_read(rt: HostRuntime) -> Result<(), Fail> {
    let image = bytes_of(rt.alloc(), &ONE_PAIR)?;
    for (given, line) in TRIALS {
        let mut source = Dripping::new(image.as_slice(), 1);
        let ran = ran_over(rt.alloc(), given, &mut source)?;
        assert_eq!(rt; ran.status, 0);
        assert!(rt; ran.out.bytes().starts_with(line));
        assert!(rt;
            ran.out.bytes()[line.len().min(ran.out.bytes().len())..].starts_with(b"hash5 ")
        );
        assert!(rt; ran.err.bytes().is_empty());
        assert_eq!(rt; source.reads, 0);
    }
    Ok(())
}

#[test]
fn tells_the_hash_of_the_image(rt: HostRuntime) -> Result<(), Fail> {
    let alloc = rt.alloc();
    let image = ran_of(alloc, &["load"], &GENERATED_TEXT)?;
    assert_eq!(rt; image.status, 0);
    let hash = hash5(image.out.bytes());
    let lines = format!(in alloc; "btree: 2 pairs, 2 pages, sound\nhash5 {hash}\n")?;
    let told = ran_of(alloc, &["trial", "btree", "1", "2"], &ONE_PAIR)?;
    assert_eq!(rt; told.status, 0);
    assert_eq!(rt; told.out.bytes(), lines.as_bytes());
    Ok(())
}
