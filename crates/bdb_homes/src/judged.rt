ghost use Rattle.std.specs.Prelude.{◌≡◌, IfSome, IsTrue};
ghost use Rattle.bdb_survey.specs.of_format.Terms.{is_meta, page_at};
ghost use Rattle.bdb_homes.specs.Judged.{IsJudged, judged_in};

use bdb_graph::{Meta, PageView};
use bdb_survey::WholePages;

/// A page on which no row holds.
#[derive(Drop)]
pub(crate) enum Judged<'a> {
    Meta(Meta),
    Other(PageView<'a>),
}

/// The fields of a page that is metadata.
fn judged_meta<'a>(pages: &WholePages<'a>, number: u32) -> Option<Judged<'a>>
    requires { IsTrue (is_meta (page_at pages.now number)) }
    ensures page { judged_in result ≡ page_at pages.now number }
    ensures known { IfSome result IsJudged }
{
    match pages.meta(number) {
        Some(meta) => Some(Judged::Meta(meta)),
        None => None,
    }
}

/// A page by its number; none where there's no such page, or a row holds for it.
pub(crate) fn judged_page<'a>(pages: &WholePages<'a>, number: u32) -> Option<Judged<'a>>
    ensures page { judged_in result ≡ page_at pages.now number }
    ensures known { IfSome result IsJudged }
{
    match pages.page(number) {
        Some(PageView::Meta(_)) => judged_meta(pages, number),
        Some(view) => Some(Judged::Other(view)),
        None => None,
    }
}
