ghost use Rattle.std.specs.Prelude.{◌≡◌, ◌<◌, ◌^◌, IfSome, IsTrue, None, length, ℕ};
ghost use Rattle.std.specs.Option.{is_some, option_map};
ghost use Rattle.bdb_law_sums.specs.of_format.Terms.{byte_at, four_at, is_page_size, page_code, page_type};
ghost use Rattle.bdb_law_sums.specs.of_format.declared.pages.PageType.TheVariants.{BtreeMeta as BtreeMetaPage, HashMeta as HashMetaPage};
ghost use Rattle.bdb_law_sums.specs.of_image.Metas.{meta_in, meta_seen};
ghost use Rattle.bdb_survey.specs.Metas.{HasFewBuckets};
ghost use Rattle.bdb_survey.specs.Salvage.{meta_code, salvaged_page};

use bdb_law_sums::{Meta, Order, PageType};
use bdb_meta::{checked_btree, checked_table, page_type};

/// Whether a row of metadata holds for a page with this number, where `last` is the last page.
#[tactic(auto, using(crate::proofs::Below::long_page))]
pub(crate) fn has_meta_row(page: &[u8], order: Order, number: u32, last: u32) -> bool
    requires size { IsTrue (is_page_size (length page.now)) }
    requires last { last < 2 ^ 21 }
    requires number { number ≡ four_at order page.now 8 }
    ensures { result ≡ is_some (meta_code order last page.now (page_type (byte_at page.now 25))) }
{
    match page_type(page) {
        PageType::HashMeta => checked_table(page, order, number, last).is_err(),
        PageType::BtreeMeta => checked_btree(page, order, number).is_err(),
        _ => false,
    }
}

/// The fields of a table, if no row holds.
#[tactic(auto, using(crate::proofs::Below::long_page))]
fn table_on(page: &[u8], order: Order, number: u32, last: u32) -> Option<Meta>
    requires size { IsTrue (is_page_size (length page.now)) }
    requires last { last < 2 ^ 21 }
    requires number { number ≡ four_at order page.now 8 }
    requires form { page_code order number page.now ≡ None }
    requires table { page_type (byte_at page.now 25) ≡ HashMetaPage }
    ensures meta { option_map meta_seen result ≡ meta_in (salvaged_page order last page.now) }
    ensures few { IfSome result HasFewBuckets }
{
    match checked_table(page, order, number, last) {
        Ok(meta) => Some(Meta::Hash(meta)),
        Err(_row) => None,
    }
}

/// The fields of a tree's metadata, if no row holds, whatever the last page.
#[tactic(auto, using(crate::proofs::Below::long_page))]
fn tree_on(page: &[u8], order: Order, number: u32) -> Option<Meta>
    requires size { IsTrue (is_page_size (length page.now)) }
    requires number { number ≡ four_at order page.now 8 }
    requires form { page_code order number page.now ≡ None }
    requires tree { page_type (byte_at page.now 25) ≡ BtreeMetaPage }
    ensures meta { (last : ℕ) → option_map meta_seen result ≡ meta_in (salvaged_page order last page.now) }
    ensures few { IfSome result HasFewBuckets }
{
    match checked_btree(page, order, number) {
        Ok(meta) => Some(Meta::Btree(meta)),
        Err(_row) => None,
    }
}

/// The fields of a page with this number and without a row of form, if it's metadata on which no row holds.
#[tactic(auto, using(crate::proofs::Below::long_page))]
pub(crate) fn meta_on(page: &[u8], order: Order, number: u32, last: u32) -> Option<Meta>
    requires size { IsTrue (is_page_size (length page.now)) }
    requires last { last < 2 ^ 21 }
    requires number { number ≡ four_at order page.now 8 }
    requires form { page_code order number page.now ≡ None }
    ensures meta { option_map meta_seen result ≡ meta_in (salvaged_page order last page.now) }
    ensures few { IfSome result HasFewBuckets }
{
    match page_type(page) {
        PageType::HashMeta => table_on(page, order, number, last),
        PageType::BtreeMeta => tree_on(page, order, number),
        _ => None,
    }
}
