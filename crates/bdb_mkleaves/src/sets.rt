ghost use Rattle.std.specs.Prelude.{◌≡◌, ◌≢◌, ◌≤◌, ◌<◌, true, IfOk, IsTrue, length};
ghost use Rattle.std.specs.List.{All};
ghost use Rattle.bdb_places.specs.of_format.Terms.{is_page_size};
ghost use Rattle.bdb_pack.specs.Built.{bytes_of};
ghost use Rattle.bdb_places.specs.Places.{values_seen};
ghost use Rattle.bdb_mkleaves.specs.Filled.{AreSomeFilled};
ghost use Rattle.bdb_mkleaves.specs.LeafEntries.{room_of};
ghost use Rattle.bdb_mkleaves.specs.Runs.{HasWholePairs, IsShort};
ghost use Rattle.bdb_mkleaves.specs.Sets.{IsKeyedPushed, IsSetBuilt, IsSetFilled, IsTreePut, set_type};
ghost use Rattle.bdb_mkleaves.specs.Units.{KeyedUnit, has_own_tree, unit_cost};
ghost use Rattle.bdb_mkleaves.specs.declared.leaf_type.LeafType.TheVariants.{Pairs};

use crate::LeafType;
use crate::costs::leaf_cost;
use crate::leaves::Leaves;
use bdb_pack::{LeafItem, Pages};
use bdb_places::Values;
use std::alloc::{AllocError, Global};

// The type of the leaves of a set.
fn set_type(sorted: bool) -> LeafType
    ensures { result ≡ set_type sorted }
{
    if sorted {
        LeafType::SortedData
    } else {
        LeafType::Records
    }
}

// The leaves of a set with these values, behind all pages.
fn fill_set(
    alloc: Global,
    pages: &mut Pages,
    leaf_type: LeafType,
    values: Values<'_>,
) -> Result<Leaves, AllocError>
    requires leaf { leaf_type ≢ Pairs }
    requires short { All IsShort (values_seen values) }
    requires legal { IsTrue (is_page_size pages.old.size) }
    requires some { 1 ≤ length pages.old.pages }
    ensures { IfOk result (λ leaves. IsSetFilled pages.old pages.new leaf_type (values_seen values.entry) leaves) }
{
    let mut leaves = Leaves::start(alloc, pages, leaf_type)?;
    for i in 0..values.len() {
        leaves.push_entry(pages, values.at(i), false)?;
    }
    Ok(leaves)
}

/// Builds the tree of a key's data, behind all pages, and answers its root. With `sorted` the data ascend, and the items over the leaves have the
/// first datum of each. An error means that memory ran out, that there would be more than 2^21 pages, or that a sum of counts doesn't fit its field.
pub fn build_set(
    alloc: Global,
    pages: &mut Pages,
    sorted: bool,
    values: Values<'_>,
) -> Result<u32, AllocError>
    requires short { All IsShort (values_seen values) }
    requires legal { IsTrue (is_page_size pages.old.size) }
    requires some { 1 ≤ length pages.old.pages }
    ensures { IfOk result (λ root. IsSetBuilt pages.old pages.new sorted (values_seen values.entry) root) }
{
    let leaves = fill_set(alloc, pages, set_type(sorted), values)?;
    let root = leaves.finish(alloc, pages, true)?;
    Ok(root)
}

impl Leaves {
    // Puts a key and the tree of its data on the last leaf.
    fn put_tree(
        &self,
        alloc: Global,
        pages: &mut Pages,
        sorted: bool,
        key: &[u8],
        values: Values<'_>,
    ) -> Result<(), AllocError>
        requires leaves { HasWholePairs self.now pages.old }
        requires key { IsShort key.now }
        requires short { All IsShort (values_seen values) }
        requires legal { IsTrue (is_page_size pages.old.size) }
        requires many { has_own_tree pages.old.size key.now (values_seen values) ≡ true }
        requires room { unit_cost pages.old.size (KeyedUnit key.now (values_seen values)) ≤ room_of pages.old.order (bytes_of pages.old self.now.last) }
        ensures { IfOk result (λ _. IsTreePut self.now pages.old pages.new sorted key.now (values_seen values.entry)) }
    {
        self.put(pages, key, false)?;
        let root = build_set(alloc, pages, sorted, values)?;
        let item = LeafItem::Duplicates {
            root,
            deleted: false,
        };
        self.append(pages, &item);
        Ok(())
    }
}

impl Leaves {
    /// Puts a key with its data, one at least, after those that are there: on one leaf whole, or in a tree of their own, which is sorted where that
    /// is asked. An error means that memory ran out, that there would be more than 2^21 pages, or that a sum of counts doesn't fit its field.
    pub fn push_keyed(
        &mut self,
        alloc: Global,
        pages: &mut Pages,
        sorted: bool,
        key: &[u8],
        values: Values<'_>,
    ) -> Result<(), AllocError>
        requires leaf { self.old.leaf_type ≡ Pairs }
        requires key { IsShort key.now }
        requires some { 0 < length (values_seen values) }
        requires short { All IsShort (values_seen values) }
        requires legal { IsTrue (is_page_size pages.old.size) }
        requires filled { AreSomeFilled self.old pages.old }
        ensures pushed { IfOk result (λ _. IsKeyedPushed self.old self.new pages.old pages.new sorted (KeyedUnit key.now (values_seen values.entry))) }
        ensures filled { IfOk result (λ _. AreSomeFilled self.new pages.new) }
    {
        let taken = leaf_cost(pages.size(), key, values);
        self.make_room(pages, taken.cost)?;
        if taken.has_tree {
            self.put_tree(alloc, pages, sorted, key, values)?;
            return Ok(());
        }
        let Some((first, more)) = values.split_first() else {
            unreachable!()
        };
        self.put_pairs(pages, key, first, more)?;
        Ok(())
    }
}
