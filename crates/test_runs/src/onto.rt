//! How a base is read, and what is told where that fails. The rules: man/bdbtool.1.

use crate::files::ONE_PAIR;
use crate::images::bytes_of;
use crate::outside::Dripping;
use crate::running::Told::{Done, Line};
use crate::running::{READ_FAULT, Ran, gave, ran_onto, ran_over};
use bdb_tool::{BaseSource, Bytes, MemSource, Source, StdSource};
use std::alloc::{AllocError, Global};
use std::fs;
use std::test::Fail;

// A pair with a key of the base, and one with another.
const TWO_MORE: &[u8] = b"VERSION=3\ntype=btree\nHEADER=END\n 61\n 63\n 7a\n 79\nDATA=END\n";

// What is dumped of the file that is built.
const DUMP: &[u8] =
    b"VERSION=3\nformat=bytevalue\ntype=btree\ndb_pagesize=512\ndb_lorder=1234\nHEADER=END\n 61\n 63\n 7a\n 79\nDATA=END\n";

fn text_over(alloc: Global, text: &[u8]) -> Result<MemSource, AllocError> {
    let mut bytes = Bytes::new(alloc);
    bytes.push_all(text)?;
    Ok(MemSource::new(alloc, bytes))
}

// What a run gave that loads the pairs onto a base.
fn ran<B: Source>(alloc: Global, base: &mut B) -> Result<Ran, AllocError> {
    let mut text = text_over(alloc, TWO_MORE)?;
    ran_onto(alloc, &["load", "--onto", "file"], &mut text, base)
}

// The base gives 256 bytes a read, and then 1,024.
#[test]
fn tells_a_read_fault_of_the_base(rt: HostRuntime) -> Result<(), Fail> {
    let image = bytes_of(rt.alloc(), &ONE_PAIR)?;
    for call in 1..6 {
        let mut base = Dripping::new(image.as_slice(), 256);
        base.fails_at = call;
        assert!(rt; gave(&ran(rt.alloc(), &mut base)?, Line(4, READ_FAULT)));
    }
    for (most, reads) in [(1, 1025), (1024, 2)] {
        let mut base = Dripping::new(image.as_slice(), most);
        assert_eq!(rt; ran(rt.alloc(), &mut base)?.status, 0);
        assert_eq!(rt; base.reads, reads);
    }
    Ok(())
}

#[test]
fn tells_a_read_fault_of_what_is_shut(rt: HostRuntime) -> Result<(), Fail> {
    let mut base = BaseSource::<fs::File>::Shut { faults: 0 };
    assert!(rt; gave(&ran(rt.alloc(), &mut base)?, Line(4, READ_FAULT)));
    Ok(())
}

#[test]
fn loads_a_text_onto_a_file_that_is_opened(rt: HostRuntime) -> Result<(), Fail> {
    let image = bytes_of(rt.alloc(), &ONE_PAIR)?;
    fs::write(&rt, "base.db", image.as_slice())?;
    let mut base = BaseSource::Reader(StdSource::new(fs::open(&rt, "base.db")?));
    let built = ran(rt.alloc(), &mut base)?;
    assert_eq!(rt; built.status, 0);
    let mut source = text_over(rt.alloc(), built.out.bytes())?;
    assert!(rt; gave(&ran_over(rt.alloc(), &["dump"], &mut source)?, Done(DUMP)));
    Ok(())
}
