ghost use Rattle.std.specs.Prelude.{◌≡◌, ◌≤◌, ◌∷◌, ◌++◌, [], IfOk, length};
ghost use Rattle.bdb_mkleaves.specs.Leaves.{KeepsBefore};
ghost use Rattle.bdb_mkleaves.specs.Moved.{first_leaf};
ghost use Rattle.bdb_mkleaves.specs.Units.{list_of_units};
ghost use Rattle.bdb_mktree.specs.Building.{Building, IsTreeBuilt, units_of};
ghost use Rattle.bdb_mktree.specs.Units.{IsNext, IsShortUnit, IsTreeKind, Suits, is_counted, leaf_type_of, unit_seen};

use crate::Unit;
use bdb_mkleaves::{LeafType, Leaves, Pages};
use bdb_text_format::{Kind, Settings};
use std::alloc::{AllocError, Global};

// The type of the leaves of a tree of this kind.
fn leaf_type_of(kind: Kind) -> LeafType
    ensures { result ≡ leaf_type_of kind }
{
    match kind {
        Kind::Btree | Kind::Hash => LeafType::Pairs,
        Kind::Recno | Kind::Queue => LeafType::Records,
    }
}

// Whether the items over its leaves say how many pairs or records these have.
fn is_counted(kind: Kind, recnum: bool) -> bool
    ensures { result ≡ is_counted kind recnum }
{
    match kind {
        Kind::Btree => recnum,
        Kind::Recno => true,
        Kind::Hash | Kind::Queue => false,
    }
}

/// A tree that is being built of units, among the pages of a file that each call is given. After a refusal neither builder nor
/// pages have a promise.
#[derive(Drop)]
pub struct TreeBuilder {
    alloc: Global,
    settings: Settings,
    leaves: Leaves,
}

impl TreeBuilder {
    /// A tree without units: one leaf, behind all pages. The page size and the order of the settings are
    /// those of the pages. An error means that memory ran out, or that there would be more than 2^21 pages.
    pub fn start(
        alloc: Global,
        pages: &mut Pages,
        settings: &Settings,
    ) -> Result<TreeBuilder, AllocError>
        requires kind { IsTreeKind settings.now.kind }
        requires size { pages.old.size ≡ settings.now.page_size }
        requires order { pages.old.order ≡ settings.now.order }
        requires some { 1 ≤ length pages.old.pages }
        ensures building { IfOk result (λ builder. Building builder pages.new) }
        ensures empty { IfOk result (λ builder. units_of builder pages.new ≡ []) }
        ensures settings { IfOk result (λ builder. builder.settings ≡ settings.now) }
        ensures first { IfOk result (λ builder. first_leaf builder.leaves ≡ length pages.old.pages) }
        ensures kept { IfOk result (λ _. KeepsBefore (length pages.old.pages) pages.old pages.new) }
    {
        let leaves = Leaves::start(alloc, pages, leaf_type_of(settings.kind))?;
        Ok(TreeBuilder {
            alloc,
            settings: *settings,
            leaves,
        })
    }

    /// Puts a unit after those that are there: on the last leaf where that has room for what it takes there, and else on a new one. Its long values and the
    /// tree of its data are made whole behind all pages. An error means that memory ran out, that there would be more than 2^21 pages, or that a sum of counts
    /// doesn't fit its field.
    pub fn push(&mut self, pages: &mut Pages, unit: &Unit<'_>) -> Result<(), AllocError>
        requires building { Building self.old pages.old }
        requires suits { Suits self.old.settings (unit_seen unit.now) }
        requires next { IsNext self.old.settings (units_of self.old pages.old) (unit_seen unit.now) }
        requires short { IsShortUnit (unit_seen unit.now) }
        ensures building { IfOk result (λ _. Building self.new pages.new) }
        ensures units { IfOk result (λ _. units_of self.new pages.new ≡ units_of self.old pages.old ++ (unit_seen unit.now ∷ [])) }
        ensures settings { IfOk result (λ _. self.new.settings ≡ self.old.settings) }
        ensures first { IfOk result (λ _. first_leaf self.new.leaves ≡ first_leaf self.old.leaves) }
        ensures kept { IfOk result (λ _. KeepsBefore (first_leaf self.old.leaves) pages.old pages.new) }
    {
        match *unit {
            Unit::Keyed { key, values } => {
                self.leaves
                    .push_keyed(self.alloc, pages, self.settings.sorted, key, values)?;
            }
            Unit::Entry { value, deleted } => self.leaves.push_entry(pages, value, deleted)?,
        }
        Ok(())
    }

    /// Lays the levels over the leaves, and answers the root, which is the tree's first page. An error means that
    /// memory ran out, that there would be more than 2^21 pages, or that a sum of counts doesn't fit its field.
    pub fn finish(self, pages: &mut Pages) -> Result<u32, AllocError>
        requires building { Building self pages.old }
        ensures { IfOk result (λ root. IsTreeBuilt self.settings (first_leaf self.leaves) pages.old pages.new
            (units_of self pages.old) (list_of_units self.settings.kind (units_of self pages.old)) root) }
    {
        let counted = is_counted(self.settings.kind, self.settings.recnum);
        let root = self.leaves.finish(self.alloc, pages, counted)?;
        Ok(root)
    }
}
