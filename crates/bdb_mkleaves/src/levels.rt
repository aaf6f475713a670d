ghost use Rattle.std.specs.Prelude.{ℕ, ◌≡◌, ◌<◌, ◌∷◌, [], IfOk, IsTrue, List, length};
ghost use Rattle.bdb_places.specs.of_format.Terms.{Content, is_page_size};
ghost use Rattle.bdb_pack.specs.of_layout.Seen.{key_seen};
ghost use Rattle.bdb_law_levels.specs.Nodes.{Node};
ghost use Rattle.bdb_law_levels.specs.declared.inner_type.InnerType.TheVariants.{Keyed, Numbered};
ghost use Rattle.bdb_pack.specs.Built.{AreWhole};
ghost use Rattle.bdb_mkleaves.specs.Levels.{AnswersTo, AreChildren, BeginsWithKey, CanBeAsked, CanPush, IsLevelLaid, LastAnswers, Pushes, Starts, raising};
ghost use Rattle.bdb_mkleaves.specs.Levels.{stored_heads, stored_key};

use crate::inner::{add_inner, append_child, append_count, raise_count};
use bdb_law_levels::InnerType;
use bdb_pack::{InternalItem, InternalKey, LeafItem, Pages, Stored, known_leaf_item};
use bdb_places::RecnoItem;
use std::alloc::{AllocError, Global};

/// A page of a level, and what is below it.
#[derive(Clone, Copy, Debug)]
pub(crate) struct Child {
    /// Its number.
    pub(crate) page: u32,
    /// The count that an item over it says.
    pub(crate) count: u32,
    /// The first leaf below it, or itself; its first item has the key.
    pub(crate) leaf: u32,
}

// The key of the first item of a leaf: its bytes are copied, or it stands in a chain.
fn key_of_leaf(pages: &Pages, buffer: &mut Vec<u8>, leaf: u32) -> Result<Stored, AllocError>
    requires { (key : Content) × BeginsWithKey pages.now leaf key }
    ensures { IfOk result (λ stored. (key : Content) → BeginsWithKey pages.now leaf key → stored_key stored buffer.new.items ≡ key) }
{
    let order = pages.order();
    let page = pages.page(leaf);
    match known_leaf_item(page, order, 0) {
        LeafItem::Inline { bytes, .. } => {
            buffer.clear();
            buffer.extend_from_slice(bytes)?;
            Ok(Stored::Inline)
        }
        LeafItem::Overflow { head, total, .. } => Ok(Stored::Chain { head, total }),
        LeafItem::Duplicates { .. } => unreachable!(),
    }
}

// The key of an item, where its bytes stand on the page they are these.
fn key_with<'a>(stored: &Stored, bytes: &'a [u8]) -> InternalKey<'a>
    ensures { key_seen result ≡ stored_key stored.now bytes.now }
{
    match *stored {
        Stored::Inline => InternalKey::Inline(bytes),
        Stored::Chain { head, total } => InternalKey::Overflow { head, total },
    }
}

// Has the chain of a key count two references.
fn raise_key(pages: &mut Pages, stored: &Stored)
    requires legal { IsTrue (is_page_size pages.old.size) }
    requires whole { AreWhole pages.old }
    requires head { (head : ℕ) → stored_heads stored.now ≡ head ∷ [] → head < length pages.old.pages }
    ensures { pages.new ≡ raising pages.old (stored_heads stored.now) }
{
    match *stored {
        Stored::Inline => {}
        Stored::Chain { head, .. } => raise_count(pages, head),
    }
}

// Puts a child on an internal page with keys, where that has room for it, and answers whether it has.
fn take_keyed(
    pages: &mut Pages,
    page: u32,
    buffer: &mut Vec<u8>,
    child: Child,
) -> Result<bool, AllocError>
    requires legal { IsTrue (is_page_size pages.old.size) }
    requires whole { AreWhole pages.old }
    requires asked { CanBeAsked Keyed pages.old page child.leaf }
    ensures { IfOk result (λ took. AnswersTo took Keyed pages.old pages.new page child) }
{
    let stored = key_of_leaf(pages, buffer, child.leaf)?;
    let item = InternalItem {
        child: child.page,
        count: child.count,
        key: key_with(&stored, buffer),
    };
    if !pages.has_room_for_internal(page, &item) {
        return Ok(false);
    }
    raise_key(pages, &stored);
    append_child(pages, page, &item);
    Ok(true)
}

// The same of an internal page that counts records.
fn take_numbered(pages: &mut Pages, page: u32, child: Child) -> bool
    requires legal { IsTrue (is_page_size pages.old.size) }
    requires whole { AreWhole pages.old }
    requires asked { CanBeAsked Numbered pages.old page child.leaf }
    ensures { AnswersTo result Numbered pages.old pages.new page child }
{
    let item = RecnoItem {
        child: child.page,
        count: child.count,
    };
    let takes = pages.has_room_for_recno(page, &item);
    if takes {
        append_count(pages, page, &item);
    }
    takes
}

// The same of an internal page of either type.
fn take_child(
    pages: &mut Pages,
    inner: InnerType,
    page: u32,
    buffer: &mut Vec<u8>,
    child: Child,
) -> Result<bool, AllocError>
    requires legal { IsTrue (is_page_size pages.old.size) }
    requires whole { AreWhole pages.old }
    requires asked { CanBeAsked inner pages.old page child.leaf }
    ensures { IfOk result (λ took. AnswersTo took inner pages.old pages.new page child) }
{
    match inner {
        InnerType::Keyed => take_keyed(pages, page, buffer, child),
        InnerType::Numbered => Ok(take_numbered(pages, page, child)),
    }
}

// Starts a page with a child, and answers its number.
fn start_page(
    pages: &mut Pages,
    inner: InnerType,
    level: u8,
    child: Child,
) -> Result<u32, AllocError>
    requires legal { IsTrue (is_page_size pages.old.size) }
    requires whole { AreWhole pages.old }
    ensures { IfOk result (λ p. Starts inner level pages.old pages.new p child) }
{
    let page = add_inner(pages, inner, level)?;
    prove!(child.page <= u32::MAX);
    prove!(child.count <= u32::MAX);
    match inner {
        InnerType::Keyed => {
            let item = InternalItem {
                child: child.page,
                count: child.count,
                key: InternalKey::Inline(&[]),
            };
            append_child(pages, page, &item);
        }
        InnerType::Numbered => {
            let item = RecnoItem {
                child: child.page,
                count: child.count,
            };
            append_count(pages, page, &item);
        }
    }
    Ok(page)
}

// Puts a child on the last page of a level, where that has room for it, and answers whether it has.
fn last_takes(
    pages: &mut Pages,
    inner: InnerType,
    level: u8,
    above: &mut Vec<Child>,
    buffer: &mut Vec<u8>,
    child: Child,
) -> Result<bool, AllocError>
    requires legal { IsTrue (is_page_size pages.old.size) }
    requires can { CanPush inner level pages.old above.old.items child.leaf }
    ensures { IfOk result (λ took. LastAnswers took inner level pages.old pages.new above.old.items above.new.items child) }
{
    let n = above.len();
    if n == 0 {
        return Ok(false);
    }
    let last = above[n - 1];
    if !take_child(pages, inner, last.page, buffer, child)? {
        return Ok(false);
    }
    let count = last.count.checked_add(child.count).ok_or(AllocError)?;
    above[n - 1] = Child { count, ..last };
    Ok(true)
}

// Puts a child on a level: on its last page, or on a new one where that has no room.
fn push_child(
    pages: &mut Pages,
    inner: InnerType,
    level: u8,
    above: &mut Vec<Child>,
    buffer: &mut Vec<u8>,
    child: Child,
) -> Result<(), AllocError>
    requires legal { IsTrue (is_page_size pages.old.size) }
    requires can { CanPush inner level pages.old above.old.items child.leaf }
    ensures { IfOk result (λ _. Pushes inner level pages.old pages.new above.old.items above.new.items child) }
{
    if last_takes(pages, inner, level, above, buffer, child)? {
        return Ok(());
    }
    let page = start_page(pages, inner, level, child)?;
    above.push(Child { page, ..child })?;
    Ok(())
}

/// Lays a level of internal pages over the pages of a level, behind all pages, and answers its pages. It is also refused
/// where there are 2^21 pages, and where a sum of counts doesn't fit its field; on a refusal nothing is promised.
pub(crate) fn lay_level(
    alloc: Global,
    pages: &mut Pages,
    inner: InnerType,
    level: u8,
    below: &[Child],
) -> Result<Vec<Child>, AllocError>
    requires legal { IsTrue (is_page_size pages.old.size) }
    requires whole { AreWhole pages.old }
    requires children { (nodes : List Node) × AreChildren inner pages.old below.now nodes }
    ensures { IfOk result (λ above. (nodes : List Node) → AreChildren inner pages.old below.now nodes
        → IsLevelLaid inner level pages.old pages.new above.items nodes) }
{
    let mut above = Vec::new(alloc);
    let mut buffer = Vec::new(alloc);
    for child in below {
        push_child(pages, inner, level, &mut above, &mut buffer, *child)?;
    }
    Ok(above)
}
