//! `run` with a base, and the law's function.
ghost use Rattle.std.specs.Prelude.{◌≡◌};

use crate::files::ONE_PAIR;
use crate::images::bytes_of;
use crate::outside::Dripping;
use crate::running::{source_over, words_of};
use bdb_tool::laws::run_pure;
use bdb_tool::{Bytes, MemSink, MemSource, Source, Steps, run};
use std::alloc::{AllocError, Global};
use std::marker::Brand;
use std::sync::ledger::{Blank, Ledger};
use std::test::Fail;

fn status_beside<L: Ledger, B: Source>(
    alloc: Global,
    base: &mut B,
    blank: Blank,
) -> Result<u8, AllocError>
    requires name { blank.name ≡ L.name }
    requires parts { blank.parts ≡ L.parts }
    requires one { L.parts ≡ 1 }
{
    let words = words_of(alloc, &["verify"])?;
    let mut source = source_over(alloc, &ONE_PAIR)?;
    let mut out = MemSink::new(alloc);
    let mut err = MemSink::new(alloc);
    let mut steps = Steps::<L>::new(blank);
    Ok(run::<MemSource, B, MemSink, MemSink, L>(
        alloc,
        &words,
        &mut source,
        Some(base),
        &mut out,
        &mut err,
        &mut steps,
    ))
}

#[test]
fn leaves_its_base_alone(rt: HostRuntime) -> Result<(), Fail> {
    let image = bytes_of(rt.alloc(), &ONE_PAIR)?;
    let mut base = Dripping::new(image.as_slice(), 1024);
    assert_eq!(rt;
        status_beside::<Brand, _>(rt.alloc(), &mut base, Blank::new(1))?,
        0
    );
    assert_eq!(rt; base.reads, 0);
    Ok(())
}

fn pure_status<L: Ledger>(
    alloc: Global,
    given: &[&str],
    base: Option<Bytes>,
    blank: Blank,
) -> Result<u8, AllocError>
    requires name { blank.name ≡ L.name }
    requires parts { blank.parts ≡ L.parts }
    requires one { L.parts ≡ 1 }
{
    let words = words_of(alloc, given)?;
    let mut steps = Steps::<L>::new(blank);
    let bytes = bytes_of(alloc, &ONE_PAIR)?;
    Ok(run_pure::<L>(alloc, &words, bytes, base, &mut steps))
}

#[test]
fn answers_over_pure_objects(rt: HostRuntime) -> Result<(), Fail> {
    assert_eq!(rt;
        pure_status::<Brand>(rt.alloc(), &["verify"], None, Blank::new(1))?,
        0
    );
    assert_eq!(rt;
        pure_status::<Brand>(rt.alloc(), &["get", "b"], None, Blank::new(1))?,
        9
    );
    let base = bytes_of(rt.alloc(), &ONE_PAIR)?;
    assert_eq!(rt;
        pure_status::<Brand>(
            rt.alloc(),
            &["load", "--onto", "base"],
            Some(base),
            Blank::new(1)
        )?,
        8
    );
    Ok(())
}
