ghost use Rattle.std.specs.Prelude.{◌≡◌, ◌<◌, ◌≤◌, length};
ghost use Rattle.bdb_graph.specs.of_image.Linked.{FitsChain, IsForest};
ghost use Rattle.bdb_graph.specs.of_layout.Seen.{content_seen};
ghost use Rattle.bdb_graph.specs.of_format.Terms.{file_of, is_wrong_length, page_at};
ghost use Rattle.bdb_overflow.specs.Datum.{FitsContent};
ghost use Rattle.bdb_overflow.specs.Lengths.{AreFit, has_wrong, is_wrong, is_wrong_entry, some_wrong};

use bdb_graph::{Content, ContentKind, IndexedView, Linked, PageView};

/// Whether the pages of a chain don't add up to a length.
fn is_wrong_length(linked: &Linked<'_>, head: u32, total: u32) -> bool
    requires { FitsChain (file_of linked.now) head }
    ensures { result ≡ is_wrong_length (file_of linked.now) (head, total) }
{
    linked.chain_length(head) != total
}

/// Whether an item names a chain of another length, by what it holds.
fn tells_wrong(linked: &Linked<'_>, content: &Content<'_>) -> bool
    requires { FitsContent (file_of linked.now) (content_seen content.now) }
    ensures { result ≡ is_wrong (file_of linked.now) (content_seen content.now) }
{
    match content {
        Content::Overflow { head, total } => is_wrong_length(linked, *head, *total),
        Content::Inline(_) | Content::Set(_) | Content::OffPage { .. } => false,
    }
}

/// Whether an entry of a page names a chain of another length; a shared key names none of its own.
#[tactic(auto, using(crate::proofs::LengthLemmas::entry_is))]
fn is_wrong_entry<'a, K: ContentKind<'a>>(
    linked: &Linked<'_>,
    page: &IndexedView<'a, K>,
    index: u16,
) -> bool
    requires fits { AreFit (file_of linked.now) K.content_of page.now }
    requires entry { index < length page.now.items }
    ensures { result ≡ is_wrong_entry (file_of linked.now) K.SHARES K.content_of K.no_item page.now index }
{
    !page.is_shared(index) && tells_wrong(linked, &K::content(&page.item(index)))
}

/// Whether some entry of a page does.
fn some_wrong<'a, K: ContentKind<'a>>(linked: &Linked<'_>, page: &IndexedView<'a, K>) -> bool
    requires { AreFit (file_of linked.now) K.content_of page.now }
    ensures { result ≡ some_wrong (file_of linked.now) K.SHARES K.content_of K.no_item page.now }
{
    for index in 0..page.entries() {
        if is_wrong_entry(linked, page, index) {
            return true;
        }
    }
    false
}

/// Whether some chain that the items of a page name has another length than they tell.
#[tactic(auto, using(crate::proofs::ContentLemmas::items_fit, crate::proofs::LengthLemmas::wrong_by_page))]
pub(crate) fn has_wrong(linked: &Linked<'_>, number: u32) -> bool
    requires forest { IsForest linked.now }
    requires there { number ≤ (file_of linked.now).last }
    ensures { result ≡ has_wrong (file_of linked.now) (page_at (file_of linked.now) number) }
{
    match linked.page(number) {
        PageView::Hash(page) => some_wrong(linked, &page),
        PageView::Internal(page) => some_wrong(linked, &page),
        PageView::Leaf(page) => some_wrong(linked, &page),
        PageView::RecnoLeaf(page) => some_wrong(linked, &page),
        PageView::DupLeaf(page) => some_wrong(linked, &page),
        PageView::Zero(_)
        | PageView::Free(_)
        | PageView::Meta(_)
        | PageView::RecnoInternal(_)
        | PageView::Overflow(_)
        | PageView::Queue(_) => false,
    }
}
