ghost use Rattle.std.specs.Prelude.{◌≡◌};
ghost use Rattle.bdb_form.specs.Seen.{header_seen, page_seen};
ghost use Rattle.bdb_layout.specs.of_format.Terms.{header_in, no_header};

use crate::{
    DupLeafView, FreeView, HashView, InternalView, LeafView, MetaView, OverflowView, QueueView,
    RecnoInternalView, RecnoLeafView, ZeroView,
};
use bdb_layout::Header;

/// A page without a fault of form, by its type. Views lend slices of their page.
#[derive(Drop)]
pub enum PageView<'a> {
    Zero(ZeroView),
    Free(FreeView<'a>),
    Meta(MetaView<'a>),
    Leaf(LeafView<'a>),
    Internal(InternalView<'a>),
    RecnoLeaf(RecnoLeafView<'a>),
    RecnoInternal(RecnoInternalView<'a>),
    DupLeaf(DupLeafView<'a>),
    Hash(HashView<'a>),
    Overflow(OverflowView<'a>),
    Queue(QueueView<'a>),
}

impl<'a> PageView<'a> {
    /// The fields of the page's header. Of a metadata or queue page these are bytes 0 to 25 read so; of a
    /// zero page all are 0.
    pub fn header(&self) -> Header
        ensures { result ≡ header_seen self.now }
    {
        match self {
            PageView::Zero(_) => no_header(),
            PageView::Free(view) => view.header(),
            PageView::Meta(view) => view.header(),
            PageView::Leaf(view) => view.header(),
            PageView::Internal(view) => view.header(),
            PageView::RecnoLeaf(view) => view.header(),
            PageView::RecnoInternal(view) => view.header(),
            PageView::DupLeaf(view) => view.header(),
            PageView::Hash(view) => view.header(),
            PageView::Overflow(view) => view.header(),
            PageView::Queue(view) => view.header(),
        }
    }

    /// The header of a page that has one; of metadata and pages of a queue all fields are 0.
    #[tactic(auto, using(crate::proofs::SeenLemmas::seen_header))]
    pub fn own_header(&self) -> Header
        ensures { result ≡ header_in (page_seen self.now) }
    {
        match self {
            PageView::Meta(_) => no_header(),
            PageView::Queue(_) => no_header(),
            _ => self.header(),
        }
    }
}

fn no_header() -> Header
    ensures { result ≡ no_header }
{
    Header {
        number: 0,
        previous: 0,
        next: 0,
        entries: 0,
        high_free: 0,
        level: 0,
        page_type: 0,
    }
}
