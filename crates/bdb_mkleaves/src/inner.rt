ghost use Rattle.std.specs.Prelude.{ℕ, ◌≡◌, ◌<◌, ◌++◌, ◌∷◌, [], IfOk, IsTrue, List, length};
ghost use Rattle.bdb_places.specs.of_format.Terms.{internal_bytes, is_page_size, recno_bytes};
ghost use Rattle.bdb_pack.specs.of_layout.Seen.{internal_item_seen};
ghost use Rattle.bdb_law_levels.specs.Nodes.{Node, keyed_item, numbered_item};
ghost use Rattle.bdb_law_levels.specs.declared.inner_type.InnerType.TheVariants.{Keyed, Numbered};
ghost use Rattle.bdb_pack.specs.Built.{AreWhole};
ghost use Rattle.bdb_pack.specs.Items.{OnInternal, OnRecno};
ghost use Rattle.bdb_pack.specs.OnPages.{with_item_on};
ghost use Rattle.bdb_mkleaves.specs.Inner.{CanTakeChild, HoldsChildrenOn, added_key, inner_number, raised, with_inner};

use bdb_law_levels::InnerType;
use bdb_pack::{InternalItem, Pages, put_u16};
use bdb_places::{PageType, RecnoItem};
use std::alloc::AllocError;

// The type byte of an internal page.
fn type_of(inner: InnerType) -> u8
    ensures { result ≡ inner_number inner }
{
    match inner {
        InnerType::Keyed => PageType::INTERNAL,
        InnerType::Numbered => PageType::RECNO_INTERNAL,
    }
}

/// Adds an internal page without items behind all pages, and answers its number. It is refused where there are 2^21 pages.
pub(crate) fn add_inner(pages: &mut Pages, inner: InnerType, level: u8) -> Result<u32, AllocError>
    requires legal { IsTrue (is_page_size pages.old.size) }
    ensures number { IfOk result (λ number. number ≡ length pages.old.pages) }
    ensures pages { IfOk result (λ _. pages.new ≡ with_inner inner pages.old level) }
    ensures holds { IfOk result (λ number. HoldsChildrenOn inner pages.new number level []) }
{
    let number = pages.add_begun(0, level, type_of(inner))?;
    Ok(number)
}

/// Adds the item of a child at the end of an internal page with keys. The first item of a page has a key without bytes.
pub(crate) fn append_child(pages: &mut Pages, page: u32, item: &InternalItem<'_>)
    requires page { page < length pages.old.pages }
    requires takes { CanTakeChild Keyed pages.old page (OnInternal (internal_item_seen item.now)) }
    ensures page { pages.new ≡ with_item_on pages.old page (internal_bytes pages.old.order (internal_item_seen item.now)) }
    ensures holds { (level : ℕ) (nodes : List Node) (node : Node) → HoldsChildrenOn Keyed pages.old page level nodes
        → internal_item_seen item.now ≡ keyed_item (added_key nodes node) node → HoldsChildrenOn Keyed pages.new page level (nodes ++ (node ∷ [])) }
{
    pages.append_internal(page, item);
}

/// Adds the item of a child at the end of an internal page that counts records.
pub(crate) fn append_count(pages: &mut Pages, page: u32, item: &RecnoItem)
    requires page { page < length pages.old.pages }
    requires takes { CanTakeChild Numbered pages.old page (OnRecno item.now) }
    ensures page { pages.new ≡ with_item_on pages.old page (recno_bytes pages.old.order item.now) }
    ensures holds { (level : ℕ) (nodes : List Node) (node : Node) → HoldsChildrenOn Numbered pages.old page level nodes
        → item.now ≡ numbered_item node → HoldsChildrenOn Numbered pages.new page level (nodes ++ (node ∷ [])) }
{
    pages.append_recno(page, item);
}

/// Has the first page of a chain count two references.
pub(crate) fn raise_count(pages: &mut Pages, head: u32)
    requires legal { IsTrue (is_page_size pages.old.size) }
    requires whole { AreWhole pages.old }
    requires head { head < length pages.old.pages }
    ensures { pages.new ≡ raised pages.old head }
{
    let order = pages.order();
    put_u16(pages.page_mut(head), 20, order, 2);
}
