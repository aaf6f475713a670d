ghost use Rattle.std.specs.Prelude.{◌≡◌, ◌<◌, ◌≤◌, ◌∷◌, [], ℕ, IfSome, MatchOption, option_to_list};
ghost use Rattle.bdb_form.specs.Seen.{page_seen};
ghost use Rattle.bdb_slots.specs.Plain.{IsPlain};
ghost use Rattle.bdb_slots.specs.Slots.{HasRoom, IsNoMetadata, names_from, slot_names, slots_of};
ghost use Rattle.bdb_form.specs.of_format.Terms.{targets_in};

use crate::names::{Name, child_name, hash_name, internal_name, item_name, unless_zero};
use bdb_form::{
    DupLeafView, HashView, InternalView, LeafView, PageView, RecnoInternalView, RecnoLeafView,
    Sort, page_of,
};

/// What a page names, slot by slot; a slot names at most one page.
#[derive(Drop)]
pub enum Source<'a> {
    /// No slot.
    Nothing,
    /// One slot: the next page of a free page or of a chain, 0 for none.
    Next(Sort, u32),
    /// Two slots: the first free page, 0 for none, and the root of a tree.
    Tree {
        free: u32,
        root: u32,
    },
    /// The first free page, 0 for none, and a slot for each bucket.
    Table {
        free: u32,
        max_bucket: u32,
        spares: [u32; 32],
    },
    /// A slot for each item.
    Leaf(LeafView<'a>),
    RecnoLeaf(RecnoLeafView<'a>),
    DupLeaf(DupLeafView<'a>),
    RecnoInternal(RecnoInternalView<'a>),
    /// Two slots for each item.
    Internal(InternalView<'a>),
    /// A slot for each item, and one for the next page of the bucket.
    Hash(HashView<'a>),
}

#[tactic(auto, using(crate::proofs::SlotLemmas::none_from, crate::proofs::SlotLemmas::next_from))]
impl<'a> Source<'a> {
    /// What a page names that isn't metadata.
    pub fn of_view(view: PageView<'a>) -> Source<'a>
        requires { IsNoMetadata view }
        ensures names { (p : ℕ) → names_from result 0 ≡ targets_in p (page_seen view.entry) }
        ensures room { HasRoom result }
    {
        match view {
            PageView::Zero(_) | PageView::Queue(_) => Source::Nothing,
            PageView::Free(page) => Source::Next(Sort::Free, page.next()),
            PageView::Overflow(page) => Source::Next(Sort::OverflowNext, page.next()),
            PageView::Leaf(page) => Source::Leaf(page),
            PageView::RecnoLeaf(page) => Source::RecnoLeaf(page),
            PageView::DupLeaf(page) => Source::DupLeaf(page),
            PageView::RecnoInternal(page) => Source::RecnoInternal(page),
            PageView::Internal(page) => Source::Internal(page),
            PageView::Hash(page) => Source::Hash(page),
            PageView::Meta(_) => unreachable!(),
        }
    }

    /// The same of a page whose items name none.
    pub fn of_plain(view: PageView<'a>) -> Source<'a>
        requires other { IsNoMetadata view }
        requires plain { IsPlain (page_seen view) }
        ensures names { (p : ℕ) → names_from result 0 ≡ targets_in p (page_seen view.entry) }
        ensures room { HasRoom result }
    {
        match view {
            PageView::Leaf(_page) => Source::Nothing,
            PageView::RecnoLeaf(_page) => Source::Nothing,
            PageView::DupLeaf(_page) => Source::Nothing,
            PageView::Hash(page) => Source::Next(Sort::HashNext, page.header().next),
            other => Source::of_view(other),
        }
    }

    /// How many slots there are.
    fn slots(&self) -> u32
        requires { HasRoom self.now }
        ensures { result ≡ slots_of self.now }
    {
        match self {
            Source::Nothing => 0,
            Source::Next(_, _) => 1,
            Source::Tree { .. } => 2,
            Source::Table { max_bucket, .. } => *max_bucket + 2,
            Source::Leaf(page) => 2 * u32::from(page.pairs()),
            Source::RecnoLeaf(page) => u32::from(page.entries()),
            Source::DupLeaf(page) => u32::from(page.entries()),
            Source::RecnoInternal(page) => u32::from(page.entries()),
            Source::Internal(page) => 2 * u32::from(page.entries()),
            Source::Hash(page) => 2 * u32::from(page.pairs()) + 1,
        }
    }

    /// The page that a slot names.
    fn name_at(&self, slot: u32) -> Option<Name>
        requires room { HasRoom self.now }
        requires slot { slot < slots_of self.now }
        ensures { option_to_list result ≡ slot_names self.now slot }
    {
        match self {
            Source::Nothing => None,
            Source::Next(sort, next) => unless_zero(*sort, *next),
            Source::Tree { free, .. } if slot == 0 => unless_zero(Sort::Free, *free),
            Source::Tree { root, .. } => Some((Sort::Root, u64::from(*root))),
            Source::Table { free, .. } if slot == 0 => unless_zero(Sort::Free, *free),
            Source::Table { spares, .. } => Some((Sort::Bucket, page_of(slot - 1, spares))),
            Source::Leaf(page) => item_name(page, slot),
            Source::RecnoLeaf(page) => item_name(page, slot),
            Source::DupLeaf(page) => item_name(page, slot),
            Source::RecnoInternal(page) => child_name(page, slot),
            Source::Internal(page) => internal_name(page, slot),
            Source::Hash(page) => hash_name(page, slot),
        }
    }

    /// The first page that is named from a slot on, and the slot after its own.
    pub fn first_from(&self, slot: u32) -> Option<(Name, u32)>
        requires { HasRoom self.now }
        ensures names { MatchOption result (names_from self.now slot ≡ []) (λ first. names_from self.now slot ≡ first.0 ∷ names_from self.now first.1) }
        ensures after { IfSome result (λ first. slot < first.1) }
    {
        for at in slot..self.slots() {
            if let Some(name) = self.name_at(at) {
                return Some((name, at + 1));
            }
        }
        None
    }
}
