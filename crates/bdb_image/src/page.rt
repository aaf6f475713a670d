ghost use Rattle.std.specs.Prelude.{◌≡◌, ◌≢◌, ◌<◌, ◌^◌, IsTrue, length};
ghost use Rattle.std.specs.Option.{option_map};
ghost use Rattle.bdb_faults.specs.of_format.Terms.{first_row, form_code, form_row_code, is_page_size, metadata_rows};
ghost use Rattle.bdb_faults.specs.of_format.declared.metadata.FileKind.TheVariants.{Queue};

use bdb_faults::{FileKind, FormRow, Head, PageType};
use bdb_meta::{checked_btree, checked_queue, checked_table, page_type};
use bdb_slots::{page_row as form_row, queue_row};

/// The first row of form that holds for a page up to the last one, if one does.
#[tactic(auto, using(crate::proofs::CodeLemmas::first_page_code, crate::proofs::CodeLemmas::form_queue))]
#[inline(always)]
pub(crate) fn page_row(page: &[u8], head: &Head, number: u32) -> Option<FormRow>
    requires size { IsTrue (is_page_size (length page.now)) }
    requires last { head.now.last < 2 ^ 21 }
    ensures { option_map form_row_code result ≡ form_code head.now number page.now }
{
    if number == 0 {
        return metadata_row(page, head, 0, head.kind);
    }
    match head.kind {
        FileKind::Btree | FileKind::Hash => tree_row(page, head, number),
        FileKind::Queue => queue_row(page, number, head.order),
    }
}

/// The first row that holds for metadata of a kind, if one does. Queue metadata is page 0.
#[tactic(auto, using(crate::proofs::CodeLemmas::code_of_rows, crate::proofs::CodeLemmas::btree_last, crate::proofs::CodeLemmas::queue_last))]
fn metadata_row(page: &[u8], head: &Head, number: u32, kind: FileKind) -> Option<FormRow>
    requires size { IsTrue (is_page_size (length page.now)) }
    requires last { head.now.last < 2 ^ 21 }
    requires queue { kind ≡ Queue → number ≡ 0 }
    ensures { option_map form_row_code result ≡ first_row (metadata_rows head.now.order page.now number head.now.last kind) }
{
    match kind {
        FileKind::Btree => checked_btree(page, head.order, number).err(),
        FileKind::Hash => checked_table(page, head.order, number, head.last).err(),
        FileKind::Queue => checked_queue(page, head.order).err(),
    }
}

/// The first row of form that holds for a page above 0 of a btree or hash file, if one does.
#[tactic(auto, using(crate::proofs::CodeLemmas::tree_faults))]
fn tree_row(page: &[u8], head: &Head, number: u32) -> Option<FormRow>
    requires size { IsTrue (is_page_size (length page.now)) }
    requires last { head.now.last < 2 ^ 21 }
    requires above { 0 < number }
    requires tree { head.now.kind ≢ Queue }
    ensures { option_map form_row_code result ≡ form_code head.now number page.now }
{
    if let Some(row) = form_row(page, number, head.order) {
        return Some(row);
    }
    match page_type(page) {
        PageType::HashMeta => metadata_row(page, head, number, FileKind::Hash),
        PageType::BtreeMeta => metadata_row(page, head, number, FileKind::Btree),
        _ => None,
    }
}
