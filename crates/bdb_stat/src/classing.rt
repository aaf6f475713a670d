//! The class of a page.
ghost use Rattle.std.specs.Prelude.{◌≡◌, ◌≢◌, ◌≤◌, None, Some, false};
ghost use Rattle.bdb_law_turned.specs.of_form.Seen.{page_seen};
ghost use Rattle.bdb_law_turned.specs.of_format.Terms.{file_of, is_meta, is_queue, is_reserve, is_spare, page_at};
ghost use Rattle.bdb_law_turned.specs.of_image.Linked.{IsForest};
ghost use Rattle.bdb_stat.specs.Classes.{class_by_type, class_of};

use crate::class::Class;
use bdb_law_turned::{FileKind, Linked, PageView};

/// Whether the file is a queue.
fn is_queue(kind: FileKind) -> bool
    ensures { result ≡ is_queue kind }
{
    matches!(kind, FileKind::Queue)
}

/// Whether a page is metadata.
fn is_meta(page: &PageView<'_>) -> bool
    ensures { result ≡ is_meta (page_seen page.now) }
{
    matches!(page, PageView::Meta(_))
}

/// Whether a table may hold a page in reserve, as long as no reference names it.
fn is_spare(page: &PageView<'_>) -> bool
    ensures { result ≡ is_spare (page_seen page.now) }
{
    match page {
        PageView::Zero(_) => true,
        PageView::Hash(view) => {
            let header = view.header();
            header.entries == 0 && header.previous == 0 && header.next == 0
        }
        PageView::Free(view) => view.next() == 0,
        _ => false,
    }
}

/// The class that the type of a page gives.
fn class_by_type(page: &PageView<'_>) -> Class
    requires { class_by_type (page_seen page.now) ≢ None }
    ensures { Some result ≡ class_by_type (page_seen page.now) }
{
    match page {
        PageView::Meta(_) => Class::Meta,
        PageView::Internal(_) => Class::Internal,
        PageView::RecnoInternal(_) => Class::Internal,
        PageView::Leaf(_) => Class::Leaf,
        PageView::RecnoLeaf(_) => Class::Leaf,
        PageView::DupLeaf(_) => Class::Leaf,
        PageView::Hash(_) => Class::Hash,
        PageView::Zero(_) => Class::Hash,
        PageView::Overflow(_) => Class::Overflow,
        PageView::Free(_) => Class::Free,
        PageView::Queue(_) => unreachable!(),
    }
}

/// Whether a page that isn't metadata is held in reserve: nothing names it, and a table may hold it. That there is a table was
/// judged when the file was linked.
fn is_reserve(linked: &Linked<'_>, page: &PageView<'_>, number: u32) -> bool
    requires page { page_seen page.now ≡ page_at (file_of linked.now) number }
    requires inside { number ≤ (file_of linked.now).last }
    requires other { is_meta (page_seen page.now) ≡ false }
    requires no_queue { is_queue (file_of linked.now).kind ≡ false }
    requires forest { IsForest linked.now }
    ensures { result ≡ is_reserve (file_of linked.now) number }
{
    is_spare(page) && linked.owners(number) == 0
}

/// The class of a page.
pub(crate) fn class_of(linked: &Linked<'_>, number: u32) -> Class
    ensures { Some result ≡ class_of (file_of linked.now) number }
{
    let head = linked.head();
    if number > head.last {
        return Class::Tail;
    }
    let page = linked.page(number);
    if is_meta(&page) {
        return Class::Meta;
    }
    if is_queue(head.kind) {
        return Class::Queue;
    }
    if is_reserve(linked, &page, number) {
        return Class::Reserve;
    }
    class_by_type(&page)
}
