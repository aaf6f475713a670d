use bdb_text::number_text;
use std::alloc::{AllocError, Global};
use std::test::Fail;

fn is_number(alloc: Global, number: u32, want: &[u8]) -> Result<bool, AllocError> {
    Ok(number_text(alloc, number)?.as_slice() == want)
}

#[test]
fn numbers_are_decimal(rt: HostRuntime) -> Result<(), Fail> {
    let least = is_number(rt.alloc(), 0, b"0")?;
    assert!(rt; least && is_number(rt.alloc(), 4_294_967_295, b"4294967295")?);
    Ok(())
}
