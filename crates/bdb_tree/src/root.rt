ghost use Rattle.std.specs.Prelude.{◌≡◌, Some};
ghost use Rattle.bdb_overflow.specs.of_form.Seen.{page_seen};
ghost use Rattle.bdb_overflow.specs.of_format.Terms.{has_type, type_in, wrong_set_types};

use bdb_overflow::{PageType, PageView};

/// Whether the root of a set off the page has a type that it hasn't where sets are sorted, or where they aren't.
pub fn is_wrong_root(view: &PageView<'_>, sorted: bool) -> bool
    ensures { result ≡ has_type (wrong_set_types sorted) (type_in (page_seen view.now)) }
{
    match view {
        PageView::Hash(page) => is_wrong_type(page.header().page_type, sorted),
        PageView::RecnoInternal(_) | PageView::RecnoLeaf(_) => sorted,
        PageView::Internal(_) | PageView::DupLeaf(_) => !sorted,
        _ => false,
    }
}

// The same for the type of a page.
fn is_wrong_type(page_type: u8, sorted: bool) -> bool
    ensures { result ≡ has_type (wrong_set_types sorted) (Some page_type) }
{
    if sorted {
        page_type == PageType::RECNO_INTERNAL || page_type == PageType::RECNO_LEAF
    } else {
        page_type == PageType::INTERNAL || page_type == PageType::DUP_LEAF
    }
}
