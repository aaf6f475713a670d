ghost use Rattle.std.specs.Prelude.{◌≡◌, [], IfOk, OnOk};
ghost use Rattle.std.specs.List.{fold};
ghost use Rattle.std.specs.List.Sorted.{IsSortedBy, IsStableBy};
ghost use Rattle.std.specs.Ordering.{is_lt};
ghost use Rattle.bdb_mkfile.specs.Order.{named_before, with_named};

use bdb_need::{compare, name_of};
use bdb_text_format::{Section, Sections};
use std::alloc::{AllocError, Global};
use std::cmp::Ordering;

// The order of two sections: that of their names.
fn compare_names(a: &Section, b: &Section) -> Ordering
    ensures { is_lt result ≡ named_before a.now b.now }
{
    compare(name_of(a), name_of(b))
}

// Puts sections into the order of their names.
fn sort_names(sections: &mut Vec<Section>) -> Result<(), AllocError>
    ensures sorted { OnOk result (IsSortedBy named_before sections.new.items) }
    ensures stable { IsStableBy named_before sections.old.items sections.new.items }
{
    sections.sort_by(|a, b| compare_names(a, b))
}

// Sections as a vector.
fn taken(alloc: Global, sections: Sections) -> Result<Vec<Section>, AllocError>
    ensures { IfOk result (λ all. all.items ≡ sections) }
{
    let mut sections = sections;
    let mut all = Vec::with_capacity(alloc, sections.len())?;
    while let Some(section) = sections.pop() {
        all.push(section)?;
    }
    all.reverse();
    Ok(all)
}

// The sections of a vector.
fn put_back(alloc: Global, sections: Vec<Section>) -> Result<Sections, AllocError>
    ensures { IfOk result (λ all. all ≡ sections.items) }
{
    let mut all = Sections::new(alloc);
    for section in sections {
        all.push(section)?;
    }
    Ok(all)
}

/// Sections in the byte order of their names. They are moved, not copied. An error means that memory ran out.
pub fn in_name_order(alloc: Global, sections: Sections) -> Result<Sections, AllocError>
    ensures { IfOk result (λ all. all ≡ fold with_named [] sections) }
{
    let mut all = taken(alloc, sections)?;
    sort_names(&mut all)?;
    put_back(alloc, all)
}
