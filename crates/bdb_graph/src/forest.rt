ghost use Rattle.std.specs.Prelude.{◌≡◌, ◌≢◌, ◌^◌, ◌<◌, ◌≤◌, None, IsTrue, length};
ghost use Rattle.bdb_image.specs.of_form.Seen.{header_seen, page_seen};
ghost use Rattle.bdb_graph.specs.Blanks.{ArePassedIfAny, IsLent};
ghost use Rattle.bdb_image.specs.Linked.{IsForest};
ghost use Rattle.std.specs.List.{list_any};
ghost use Rattle.bdb_image.specs.of_format.Terms.{abstract_page, all_references, file_of, form_code, head_of, header_of, is_page_size, page_at, page_bytes};
ghost use Rattle.bdb_graph.specs.Walked.{names_head, names_set};
ghost use Rattle.bdb_image.specs.Metas.{meta_in, meta_seen};
ghost use Rattle.std.specs.Option.{option_map};
ghost use Rattle.bdb_image.specs.of_format.declared.metadata.FileKind.TheVariants.{Queue};

use crate::tally::Kinds;
use crate::{Blanks, Formed, Meta};
use bdb_image::{FileKind, Head, MetaView, PageView, known_form, known_queue_form, meta_at};
use std::marker::Model;

/// The pages of an image on which no row of the first five stages holds. It is a handle that costs nothing
/// to make, for an iterator that outlives the `Linked`.
pub struct Forest<'a> {
    formed: Formed<'a>,
    kinds: Kinds,
    // Where some page of a chain has no data.
    blanks: Option<Blanks>,
}

impl Drop for Forest<'_> {
    #[inline(always)]
    fn drop(self) {
        let Forest {
            formed: _formed,
            kinds: _kinds,
            blanks: _blanks,
        } = self;
    }
}

impl<'a> Model for Forest<'a> {
    ghost use Rattle.std.specs.Prelude.{List, ℕ};
    ghost use Rattle.bdb_graph.specs.Blanks.{IsLent};

    ghost Value = { List ℕ };

    ghost view = { λ v. v.formed };

    ghost invariant = { λ v. IsLent v.formed v.kinds v.blanks };
}

impl<'a> Forest<'a> {
    // An image for which the stages are decided.
    pub(crate) fn over(formed: Formed<'a>, kinds: Kinds, blanks: Option<Blanks>) -> Forest<'a>
        requires { IsLent formed kinds blanks }
        ensures { result ≡ formed.entry }
    {
        Forest {
            formed,
            kinds,
            blanks,
        }
    }

    /// Another handle to the same pages.
    #[inline(always)]
    pub fn again(&self) -> Forest<'a>
        ensures { result ≡ self.now }
    {
        Forest {
            formed: self.formed.again(),
            kinds: self.kinds,
            blanks: self.blanks(),
        }
    }

    /// The pages of chains that are passed over, since they have no data; none where each page of a chain has some.
    pub fn blanks(&self) -> Option<Blanks>
        ensures { ArePassedIfAny (file_of self.now) result }
    {
        match &self.blanks {
            Some(blanks) => blanks.again(),
            None => None,
        }
    }

    /// Whether some item names a chain.
    pub fn has_chains(&self) -> bool
        ensures chains { result ≡ list_any names_head (all_references (file_of self.now)) }
        ensures forest { IsForest self.now }
    {
        self.kinds.chains()
    }

    /// Whether some item names the root of a set off the page.
    pub fn has_sets(&self) -> bool
        ensures sets { result ≡ list_any names_set (all_references (file_of self.now)) }
        ensures forest { IsForest self.now }
    {
        self.kinds.sets()
    }

    /// What page 0 says of the whole file.
    pub fn head(&self) -> Head
        ensures head { result ≡ head_of self.now }
        ensures last { result.last ≡ (file_of self.now).last }
        ensures few { result.last < 2 ^ 21 }
        ensures forest { IsForest self.now }
    {
        self.formed.head()
    }

    /// The bytes of the file.
    pub fn image(&self) -> &'a [u8]
        ensures { result.now ≡ self.now }
    {
        self.formed.image()
    }

    /// A page up to the last one, by its type.
    #[tactic(auto, using(crate::proofs::Below::page_is, crate::proofs::Below::kind_is))]
    pub fn page(&self, number: u32) -> PageView<'a>
        requires { number ≤ (file_of self.now).last }
        ensures page { page_seen result ≡ page_at (file_of self.now) number }
        ensures header { header_seen result ≡ header_of (head_of self.now).order (page_bytes (head_of self.now) self.now number) }
        ensures forest { IsForest self.now }
    {
        let head = self.formed.head();
        view_of(self.formed.page_bytes(number), &head, number)
    }

    /// The fields of a page up to the last one, if it's metadata.
    pub fn meta(&self, number: u32) -> Option<Meta>
        requires { number ≤ (file_of self.now).last }
        ensures meta { option_map meta_seen result ≡ meta_in (page_at (file_of self.now) number) }
        ensures forest { IsForest self.now }
    {
        meta_at(&self.formed, number)
    }
}

/// The view of a page without a fault of form.
fn view_of<'a>(page: &'a [u8], head: &Head, number: u32) -> PageView<'a>
    requires size { IsTrue (is_page_size (length page.now)) }
    requires form { form_code head.now number page.now ≡ None }
    ensures page { page_seen result ≡ abstract_page head.now.order page.now }
    ensures header { header_seen result ≡ header_of head.now.order page.now }
{
    match head.kind {
        FileKind::Btree | FileKind::Hash => forest_view(page, head, number),
        FileKind::Queue => queue_view(page, head, number),
    }
}

/// The view of a page of a btree or hash file.
#[tactic(auto, using(crate::proofs::LinkedLemmas::forest_code))]
fn forest_view<'a>(page: &'a [u8], head: &Head, number: u32) -> PageView<'a>
    requires size { IsTrue (is_page_size (length page.now)) }
    requires form { form_code head.now number page.now ≡ None }
    requires forest { head.now.kind ≢ Queue }
    ensures page { page_seen result ≡ abstract_page head.now.order page.now }
    ensures header { header_seen result ≡ header_of head.now.order page.now }
{
    known_form(page, number, head.order)
}

/// The view of a page of a queue file.
fn queue_view<'a>(page: &'a [u8], head: &Head, number: u32) -> PageView<'a>
    requires size { IsTrue (is_page_size (length page.now)) }
    requires form { form_code head.now number page.now ≡ None }
    requires queue { head.now.kind ≡ Queue }
    ensures page { page_seen result ≡ abstract_page head.now.order page.now }
    ensures header { header_seen result ≡ header_of head.now.order page.now }
{
    if number == 0 {
        return queue_metadata(page, head);
    }
    records_view(page, head, number)
}

/// The view of page 0 of a queue file.
#[tactic(auto, using(crate::proofs::LinkedLemmas::queue_meta_page))]
fn queue_metadata<'a>(page: &'a [u8], head: &Head) -> PageView<'a>
    requires size { IsTrue (is_page_size (length page.now)) }
    requires form { form_code head.now 0 page.now ≡ None }
    requires queue { head.now.kind ≡ Queue }
    ensures page { page_seen result ≡ abstract_page head.now.order page.now }
    ensures header { header_seen result ≡ header_of head.now.order page.now }
{
    PageView::Meta(MetaView::over(page, head.order))
}

/// The view of a page above 0 of a queue file.
#[tactic(auto, using(crate::proofs::LinkedLemmas::records_code))]
fn records_view<'a>(page: &'a [u8], head: &Head, number: u32) -> PageView<'a>
    requires size { IsTrue (is_page_size (length page.now)) }
    requires form { form_code head.now number page.now ≡ None }
    requires queue { head.now.kind ≡ Queue }
    requires above { 0 < number }
    ensures page { page_seen result ≡ abstract_page head.now.order page.now }
    ensures header { header_seen result ≡ header_of head.now.order page.now }
{
    known_queue_form(page, number, head.order)
}
