ghost use Rattle.std.specs.Prelude.{◌≡◌, ◌+◌, ◌++◌, ℕ, List, IfOk, OnOk};
ghost use Rattle.std.specs.Option.{option_to_list};
ghost use Rattle.bdb_rescue.specs.Kept.{HasPart, IsTable, part_of};

use std::alloc::{AllocError, Global};

/// Lists that pages have, one after another.
#[derive(Drop)]
pub(crate) struct Table<T> {
    /// How many stand there of the pages below each page, and below the end.
    pub(crate) bounds: Vec<usize>,
    pub(crate) all: Vec<T>,
}

impl<T> Table<T> {
    /// Without a page. An error means that memory ran out.
    pub(crate) fn new(alloc: Global) -> Result<Table<T>, AllocError>
        ensures { IfOk result (λ table. (from : ℕ → List T) → IsTable from 0 table.bounds.items table.all.items) }
    {
        let mut bounds = Vec::new(alloc);
        bounds.push(0)?;
        Ok(Table {
            bounds,
            all: Vec::new(alloc),
        })
    }

    /// Ends a page, of which all has been added. An error means that memory ran out.
    pub(crate) fn end_page(&mut self) -> Result<(), AllocError>
        ensures { OnOk result ((from : ℕ → List T) (page : ℕ) (before : List T) → IsTable from page self.old.bounds.items before
            → self.old.all.items ≡ before ++ from page → IsTable from (page + 1) self.new.bounds.items self.new.all.items) }
    {
        self.bounds.push(self.all.len())?;
        Ok(())
    }
}

/// Adds one, if there is one. An error means that memory ran out.
pub(crate) fn push_some<T: Drop>(all: &mut Vec<T>, one: Option<T>) -> Result<(), AllocError>
    ensures { OnOk result (all.new.items ≡ all.old.items ++ option_to_list one) }
{
    match one {
        Some(one) => all.push(one)?,
        None => {}
    }
    Ok(())
}

/// What is of a page, among lists that pages have, one after another.
pub(crate) fn part<'t, T>(bounds: &[usize], all: &'t [T], page: u32) -> &'t [T]
    requires { HasPart bounds.now all.now page }
    ensures { result.now ≡ part_of bounds.now all.now page }
{
    let at = page as usize;
    &all[bounds[at]..bounds[at + 1]]
}
