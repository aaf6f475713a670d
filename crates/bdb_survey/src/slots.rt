ghost use Rattle.std.specs.Prelude.{◌≡◌, ◌<◌, get_or, length};
ghost use Rattle.bdb_law_sums.specs.of_form.Seen.{page_seen};
ghost use Rattle.bdb_law_sums.specs.of_format.Terms.{entries_in, no_item};
ghost use Rattle.bdb_meta.specs.of_layout.Seen.{content_seen, hash_item_seen};
ghost use Rattle.bdb_survey.specs.Items.{slot_at, slots_in};
ghost use Rattle.bdb_survey.specs.Links.{view_page};
ghost use Rattle.bdb_survey.specs.Slots.{opt_slots, slots_seen};
ghost use Rattle.bdb_survey.specs.Salvage.{paired_items};

use bdb_law_sums::{DupLeafView, HashView, LeafView, PageView, RecnoLeafView};
use bdb_meta::{Content, HashItem};

/// The items of a page, in the order of its index.
#[derive(Drop)]
pub enum Slots<'a> {
    Leaf(LeafView<'a>),
    Hash(HashView<'a>),
    Records(RecnoLeafView<'a>),
    SortedData(DupLeafView<'a>),
}

/// An item of a hash page is never marked deleted.
fn is_hash_deleted(_item: &HashItem<'_>) -> bool
    ensures { result ≡ (hash_item_seen _item.now).deleted }
{
    false
}

#[tactic(auto, using(crate::proofs::SlotLemmas::slot_deleted, crate::proofs::SlotLemmas::slot_content))]
impl<'a> Slots<'a> {
    /// How many there are.
    pub fn count(&self) -> u16
        ensures { result ≡ length (slots_seen self.now) }
    {
        match self {
            Slots::Leaf(view) => view.entries(),
            Slots::Hash(view) => view.entries(),
            Slots::Records(view) => view.entries(),
            Slots::SortedData(view) => view.entries(),
        }
    }

    /// What an item holds.
    pub fn content(&self, i: u16) -> Content<'a>
        requires { i < length (slots_seen self.now) }
        ensures { content_seen result ≡ (slot_at (slots_seen self.now) i).content }
    {
        match self {
            Slots::Leaf(view) => view.item(i).content(),
            Slots::Hash(view) => view.item(i).content(),
            Slots::Records(view) => view.item(i).content(),
            Slots::SortedData(view) => view.item(i).content(),
        }
    }

    /// Whether an item is deleted.
    pub fn is_deleted(&self, i: u16) -> bool
        requires { i < length (slots_seen self.now) }
        ensures { result ≡ (slot_at (slots_seen self.now) i).deleted }
    {
        match self {
            Slots::Leaf(view) => view.item(i).is_deleted(),
            Slots::Hash(view) => is_hash_deleted(&view.item(i)),
            Slots::Records(view) => view.item(i).is_deleted(),
            Slots::SortedData(view) => view.item(i).is_deleted(),
        }
    }
}

/// The items of a page that holds pairs; another page has none.
pub fn paired_slots(page: Option<PageView<'_>>) -> Option<Slots<'_>>
    ensures { opt_slots result ≡ paired_items (view_page page.entry) }
{
    match page {
        Some(PageView::Leaf(view)) => Some(Slots::Leaf(view)),
        Some(PageView::Hash(view)) => Some(Slots::Hash(view)),
        _ => None,
    }
}

/// The items of a leaf of records or of sorted data; another page has none.
pub fn entry_slots(page: Option<PageView<'_>>) -> Option<Slots<'_>>
    ensures { opt_slots result ≡ entries_in (view_page page.entry) }
{
    match page {
        Some(PageView::RecnoLeaf(view)) => Some(Slots::Records(view)),
        Some(PageView::DupLeaf(view)) => Some(Slots::SortedData(view)),
        _ => None,
    }
}

/// The items of a page whose items stand alone or in pairs; another page has none.
pub(crate) fn slots_of(page: PageView<'_>) -> Option<Slots<'_>>
    ensures { opt_slots result ≡ slots_in (page_seen page.entry) }
{
    match page {
        PageView::Leaf(view) => Some(Slots::Leaf(view)),
        PageView::Hash(view) => Some(Slots::Hash(view)),
        PageView::RecnoLeaf(view) => Some(Slots::Records(view)),
        PageView::DupLeaf(view) => Some(Slots::SortedData(view)),
        _ => None,
    }
}
