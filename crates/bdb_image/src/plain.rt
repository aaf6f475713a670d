ghost use Rattle.std.specs.Prelude.{◌≡◌, ◌≢◌, ◌^◌, ◌<◌, [], IsTrue, None, length, true};
ghost use Rattle.std.specs.List.{All};
ghost use Rattle.bdb_slots.specs.of_form.Seen.{page_seen};
ghost use Rattle.bdb_slots.specs.Plain.{IsPlain, IsPlainIn};
ghost use Rattle.bdb_faults.specs.of_format.Terms.{abstract_page, content_targets, form_code, is_page_size};
ghost use Rattle.bdb_faults.specs.of_format.declared.metadata.FileKind.TheVariants.{Queue};

use crate::meta::meta_on;
use bdb_faults::{FileKind, Head};
use bdb_slots::{ContentKind, IndexedView, PageView, content_name, known_form};

/// Whether no item of a page without a fault of form names another page. It's asked while the items are at hand, so that
/// they needn't be gone over again for what they name.
pub(crate) fn is_plain(page: &[u8], head: &Head, number: u32) -> bool
    requires size { IsTrue (is_page_size (length page.now)) }
    requires last { head.now.last < 2 ^ 21 }
    requires form { form_code head.now number page.now ≡ None }
    ensures { result ≡ true → IsPlainIn head.now page.now }
{
    match head.kind {
        FileKind::Btree | FileKind::Hash => is_plain_in_forest(page, head, number),
        FileKind::Queue => true,
    }
}

/// The same of a page of a btree or hash file.
#[tactic(auto, using(crate::proofs::MetaLemmas::held_fields))]
fn is_plain_in_forest(page: &[u8], head: &Head, number: u32) -> bool
    requires size { IsTrue (is_page_size (length page.now)) }
    requires last { head.now.last < 2 ^ 21 }
    requires form { form_code head.now number page.now ≡ None }
    requires forest { head.now.kind ≢ Queue }
    ensures { result ≡ true → IsPlain (abstract_page head.now.order page.now) }
{
    match meta_on(page, head.order) {
        Some(_) => true,
        None => is_plain_view(&known_form(page, number, head.order)),
    }
}

/// Whether no item of a page of pairs or records names another page.
fn is_plain_view(view: &PageView<'_>) -> bool
    ensures { result ≡ true → IsPlain (page_seen view.now) }
{
    match view {
        PageView::Leaf(page) => holds_none(page),
        PageView::RecnoLeaf(page) => holds_none(page),
        PageView::DupLeaf(page) => holds_none(page),
        PageView::Hash(page) => holds_none(page),
        _ => true,
    }
}

// Whether no item of a page names another page.
fn holds_none<'a, K: ContentKind<'a>>(page: &IndexedView<'a, K>) -> bool
    ensures { result ≡ true → All (λ item. content_targets (K.content_of item) ≡ []) page.now.items }
{
    for item in page.items() {
        if content_name(&K::content(&item)).is_some() {
            return false;
        }
    }
    true
}
