ghost use Rattle.std.specs.Prelude.{◌≡◌, ◌+◌, ◌<◌, ◌≤◌, ◌∷◌, [], Bool, IsTrue, Some, length};
ghost use Rattle.bdb_overflow.specs.of_layout.Seen.{internal_item_seen};
ghost use Rattle.bdb_overflow.specs.of_image.Linked.{FitsLeafPage, FitsTreeRoot, IsForest};
ghost use Rattle.bdb_overflow.specs.of_format.Terms.{InternalItem, file_of, has_type, header_in, page_at, type_in};
ghost use Rattle.bdb_tree.specs.Descent.{AllMonotone, AllReadable, AreReadable, IsLastFalse, IsMonotone, chosen, descent, next_below, steps_at};

use bdb_overflow::{Forest, InternalView, LeafPage, Linked, PageView, Ref, Steps, TreeRoot};
use std::sync::ledger::Ledger;

/// A key that is sought in a tree: what a descent asks of the items of internal pages.
pub trait Separate {
    /// The items whose keys it can read. Of the first item of a page it is never asked.
    ghost reads: { Self → InternalItem → Type 0 };

    /// Whether the sought key is less than the item's.
    ghost says: { Self → InternalItem → Bool };

    /// Whether the sought key is less than that of an item.
    fn below(&self, item: &bdb_overflow::InternalItem<'_>) -> bool
        requires { reads self.now (internal_item_seen item.now) }
        ensures { result ≡ says self.now (internal_item_seen item.now) };
}

/// The index of the last item for which the test is false, the first item always counting so. It halves
/// what is left at each look.
fn last_false<T: Separate>(page: &InternalView<'_>, test: &T) -> u16
    requires some { 0 < length page.now.items }
    requires readable { AreReadable (T.reads test.now) page.now.items }
    requires monotone { IsMonotone (T.says test.now) page.now.items }
    ensures { IsLastFalse (T.says test.now) page.now.items result }
{
    let mut low = 0;
    let mut high = page.entries();
    while low + 1 < high {
        let middle = low + (high - low) / 2;
        if test.below(&page.item(middle)) {
            high = middle;
        } else {
            low = middle;
        }
    }
    low
}

/// The child of the last item for which the test is false.
#[tactic(auto, using(crate::proofs::DescentLemmas::chosen_item))]
fn chosen_child<T: Separate>(page: &InternalView<'_>, test: &T) -> u32
    requires some { 0 < length page.now.items }
    requires readable { AreReadable (T.reads test.now) page.now.items }
    requires monotone { IsMonotone (T.says test.now) page.now.items }
    ensures { result ≡ chosen (T.says test.now) page.now.items }
{
    page.item(last_false(page, test)).child
}

/// The page that a descent goes on to: one step from an internal page, and none where it ends.
#[tactic(auto, using(crate::proofs::DescentLemmas::some_items))]
fn step_below<T: Separate, L: Ledger>(
    forest: &Forest<'_>,
    page: u32,
    test: &T,
    steps: &mut Steps<L>,
) -> Option<u32>
    requires inside { page ≤ (file_of forest.now).last }
    requires readable { AllReadable (file_of forest.now) (T.reads test.now) page }
    requires monotone { AllMonotone (file_of forest.now) (T.says test.now) page }
    ensures forest { IsForest forest.now }
    ensures next { result ≡ next_below (T.says test.now) (page_at (file_of forest.now) page) }
    ensures cost { steps.new ≡ steps.old + steps_at (page_at (file_of forest.now) page) }
{
    match forest.page(page) {
        PageView::Internal(view) => {
            steps.tick();
            Some(chosen_child(&view, test))
        }
        _ => None,
    }
}

/// The leaf to which a descent from a root of type 3 or 5 leads: on each internal page it takes the last item
/// whose key isn't above the sought one, or the first. One step for each internal page; no memory is taken.
pub fn descend_in<T: Separate, L: Ledger>(
    forest: &Forest<'_>,
    root: u32,
    test: &T,
    steps: &mut Steps<L>,
) -> Ref<LeafPage>
    requires root { FitsTreeRoot (file_of forest.now) root }
    requires keyed { IsTrue (has_type (3 ∷ 5 ∷ []) (type_in (page_at (file_of forest.now) root))) }
    requires readable { AllReadable (file_of forest.now) (T.reads test.now) root }
    requires monotone { AllMonotone (file_of forest.now) (T.says test.now) root }
    ensures leaf { result ≡ descent (header_in (page_at (file_of forest.now) root)).level (file_of forest.now) (T.says test.now) root }
    ensures fits { FitsLeafPage (file_of forest.now) result }
    ensures cost { steps.new + 1 ≡ steps.old + (header_in (page_at (file_of forest.now) root)).level }
{
    let mut page = root;
    while let Some(child) = step_below(forest, page, test, steps) {
        page = child;
    }
    Ref::at(page)
}

/// The same from the root of a tree.
pub fn descend_by<T: Separate, L: Ledger>(
    linked: &Linked<'_>,
    root: Ref<TreeRoot>,
    test: &T,
    steps: &mut Steps<L>,
) -> Ref<LeafPage>
    requires root { FitsTreeRoot (file_of linked.now) root }
    requires keyed { IsTrue (has_type (3 ∷ 5 ∷ []) (type_in (page_at (file_of linked.now) root))) }
    requires readable { AllReadable (file_of linked.now) (T.reads test.now) root }
    requires monotone { AllMonotone (file_of linked.now) (T.says test.now) root }
    ensures leaf { result ≡ descent (header_in (page_at (file_of linked.now) root)).level (file_of linked.now) (T.says test.now) root }
    ensures fits { FitsLeafPage (file_of linked.now) result }
    ensures cost { steps.new + 1 ≡ steps.old + (header_in (page_at (file_of linked.now) root)).level }
{
    descend_in(&linked.forest(), root.number(), test, steps)
}
