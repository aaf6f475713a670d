ghost use Rattle.std.specs.Prelude.{◌≡◌, ◌<◌, ◌≤◌, ◌^◌, ℕ, IfOk, IfSome, Some, false, length, get_or};
ghost use Rattle.bdb_graph.specs.of_form.Seen.{page_seen};
ghost use Rattle.bdb_graph.specs.of_slots.Slots.{IsNoMetadata};
ghost use Rattle.bdb_survey.specs.of_format.Terms.{Meta as MetaPage, page_at};
ghost use Rattle.bdb_graph.specs.of_image.Metas.{meta_seen};
ghost use Rattle.bdb_homes.specs.Faces.{AreFaces, face_of, no_face};
ghost use Rattle.bdb_homes.specs.Judged.{IsJudged, judged_in, judged_seen};

use crate::face::{Face, Row};
use crate::judged::{Judged, judged_page};
use bdb_graph::{Header, Meta, PageType, PageView};
use bdb_survey::WholePages;
use std::alloc::{AllocError, Global};

/// The face of a page with this header.
fn headed(header: Header, page_type: u8, row: Row, records: u16) -> Face
    ensures { result ≡ record {
      page_type = Some page_type;
      is_zero = false;
      is_meta = false;
      row = row;
      level = header.level;
      records = records;
      previous = header.previous;
      next = header.next;
    } }
{
    Face {
        page_type: Some(page_type),
        is_zero: false,
        is_meta: false,
        row,
        level: header.level,
        records,
        previous: header.previous,
        next: header.next,
    }
}

/// The face of a page without a header.
fn bare(page_type: Option<u8>, is_zero: bool, is_meta: bool) -> Face
    ensures { result ≡ record { page_type = page_type; is_zero = is_zero; is_meta = is_meta; row = Row.Alone; level = 0; records = 0; previous = 0; next = 0 } }
{
    Face {
        page_type,
        is_zero,
        is_meta,
        row: Row::Alone,
        level: 0,
        records: 0,
        previous: 0,
        next: 0,
    }
}

/// The face of a page that isn't metadata.
fn face_seen(view: &PageView<'_>) -> Face
    requires { IsNoMetadata view.now }
    ensures { result ≡ face_of (page_seen view.now) }
{
    match view {
        PageView::Zero(_) => bare(None, true, false),
        PageView::Free(view) => headed(view.header(), PageType::FREE, Row::Alone, 0),
        PageView::Hash(view) => headed(view.header(), view.header().page_type, Row::Bucket, 0),
        PageView::Internal(view) => headed(view.header(), PageType::INTERNAL, Row::Alone, 0),
        PageView::RecnoInternal(view) => headed(
            view.header(),
            PageType::RECNO_INTERNAL,
            Row::Alone,
            0,
        ),
        PageView::Leaf(view) => headed(view.header(), PageType::LEAF, Row::Pairs, 0),
        PageView::RecnoLeaf(view) => headed(
            view.header(),
            PageType::RECNO_LEAF,
            Row::Records,
            view.entries(),
        ),
        PageView::DupLeaf(view) => headed(view.header(), PageType::DUP_LEAF, Row::Alone, 0),
        PageView::Overflow(view) => headed(view.header(), PageType::OVERFLOW, Row::Alone, 0),
        PageView::Queue(_) => bare(Some(PageType::QUEUE), false, false),
        PageView::Meta(_) => unreachable!(),
    }
}

/// The face of metadata.
fn meta_face(meta: &Meta) -> Face
    ensures { result ≡ face_of (MetaPage (meta_seen meta.now)) }
{
    match meta {
        Meta::Btree(_) => bare(Some(PageType::BTREE_META), false, true),
        Meta::Hash(_) => bare(Some(PageType::HASH_META), false, true),
        Meta::Queue(_) => bare(Some(PageType::QUEUE_META), false, true),
    }
}

/// The face of a page.
fn face_on(page: &Judged<'_>) -> Face
    requires { IsJudged page.now }
    ensures { result ≡ face_of (judged_seen page.now) }
{
    match page {
        Judged::Meta(meta) => meta_face(meta),
        Judged::Other(view) => face_seen(view),
    }
}

/// The face of a page by its number.
fn face_at(pages: &WholePages<'_>, page: u32) -> Face
    ensures { result ≡ face_of (page_at pages.now page) }
{
    match judged_page(pages, page) {
        Some(page) => face_on(&page),
        None => bare(None, false, false),
    }
}

/// The faces of all pages.
pub(crate) fn faces_of(alloc: Global, pages: &WholePages<'_>) -> Result<Vec<Face>, AllocError>
    ensures faces { IfOk result (λ faces. AreFaces pages.now faces.items) }
    ensures few { IfOk result (λ faces. length faces.items ≤ 2 ^ 21) }
{
    let count = pages.count();
    let mut faces = Vec::with_capacity(alloc, count as usize)?;
    for page in 0..count {
        faces.push(face_at(pages, page))?;
    }
    Ok(faces)
}
