ghost use Rattle.std.specs.Prelude.{◌≡◌, ◌≤◌, None, IfOk, IsTrue, false, length};
ghost use Rattle.std.specs.Option.{option_map};
ghost use Rattle.bdb_layout.specs.of_format.Terms.{abstract_page, body_code, byte_at, first_row, form_row_code, four_at, header_of, identity_rows};
ghost use Rattle.bdb_layout.specs.of_format.Terms.{is_page_size, is_queue_type, is_tree_type, is_zero, page_as, page_code, page_type, queue_code};
ghost use Rattle.bdb_form.specs.Formed.{unless};
ghost use Rattle.bdb_form.specs.Seen.{form_seen, header_seen, page_seen};
ghost use Rattle.bdb_layout.specs.of_format.declared.pages.PageType.TheVariants.{Overflow as OverflowPage};

use crate::rows::listed_row;
use crate::zeros::is_zero;
use crate::{
    EntryLeafKind, FreeView, HashKind, IndexedView, InternalKind, LeafKind, MetaView, OverflowView,
    PageView, QueueView, RecnoInternalKind, Records, SortedData, ZeroView,
};
use bdb_layout::{FormRow, Order, PageBytes, PageType, page_type, u16_at, u32_at};

/// A page above 0 of a btree or hash file as the view of its type, or the code of the first row of form
/// that holds for it. Of a metadata page only the number is looked at: its rows are those of `bdb_meta`.
#[tactic(auto)]
pub fn form(page: &[u8], number: u32, order: Order) -> Result<PageView<'_>, u8>
    requires { IsTrue (is_page_size (length page.now)) }
    ensures page { form_seen result ≡ unless (page_code order number page.now) (abstract_page order page.now) }
    ensures header { IfOk result (λ view. header_seen view ≡ header_of order page.now) }
{
    match page_row(page, number, order) {
        Some(row) => Err(row.entry().code),
        None => Ok(known_form(page, number, order)),
    }
}

/// A page above 0 of a queue file as its view, or the code of the first row of form that holds for it.
#[tactic(auto)]
pub fn queue_form(page: &[u8], number: u32, order: Order) -> Result<PageView<'_>, u8>
    requires { IsTrue (is_page_size (length page.now)) }
    ensures page { form_seen result ≡ unless (queue_code order number page.now) (abstract_page order page.now) }
    ensures header { IfOk result (λ view. header_seen view ≡ header_of order page.now) }
{
    match queue_row(page, number, order) {
        Some(row) => Err(row.entry().code),
        None => Ok(known_queue_form(page, number, order)),
    }
}

/// The first row of form that holds for a page above 0 of a btree or hash file, if one does.
#[tactic(auto, unfolding(crate::specs::Below::page_code))]
pub fn page_row(page: &[u8], number: u32, order: Order) -> Option<FormRow>
    requires { IsTrue (is_page_size (length page.now)) }
    ensures { option_map form_row_code result ≡ page_code order number page.now }
{
    if is_zero(page) {
        return None;
    }
    match tree_identity(page, number, order) {
        Some(row) => Some(row),
        None => body_row(page, order),
    }
}

/// The first row of form that holds for a page above 0 of a queue file, if one does.
#[tactic(auto, unfolding(crate::specs::Below::queue_code))]
pub fn queue_row(page: &[u8], number: u32, order: Order) -> Option<FormRow>
    requires { IsTrue (is_page_size (length page.now)) }
    ensures { option_map form_row_code result ≡ queue_code order number page.now }
{
    if is_zero(page) {
        return None;
    }
    queue_identity(page, number, order)
}

/// The view of a page above 0 of a btree or hash file for which no row of form is known to hold, without
/// another look at its items.
#[tactic(auto, using(crate::proofs::FormedLemmas::tree_page_form), unfolding(crate::specs::Below::abstract_page))]
pub fn known_form(page: &[u8], number: u32, order: Order) -> PageView<'_>
    requires size { IsTrue (is_page_size (length page.now)) }
    requires form { page_code order number page.now ≡ None }
    ensures page { page_seen result ≡ abstract_page order page.now }
    ensures header { header_seen result ≡ header_of order page.now }
{
    if is_zero_at(page, number, order) {
        return PageView::Zero(ZeroView);
    }
    known_type(page, order)
}

/// The view of a page above 0 of a queue file for which no row of form is known to hold.
#[tactic(auto, using(crate::proofs::FormedLemmas::queue_page_form), unfolding(crate::specs::Below::abstract_page))]
pub fn known_queue_form(page: &[u8], number: u32, order: Order) -> PageView<'_>
    requires size { IsTrue (is_page_size (length page.now)) }
    requires form { queue_code order number page.now ≡ None }
    ensures page { page_seen result ≡ abstract_page order page.now }
    ensures header { header_seen result ≡ header_of order page.now }
{
    if is_zero_at(page, number, order) {
        return PageView::Zero(ZeroView);
    }
    PageView::Queue(QueueView::over(PageBytes { bytes: page, order }))
}

/// Whether a page for which no row of form holds is a zero page. Any other tells its own number, so that page 0 alone is
/// looked through.
#[tactic(auto, using(crate::proofs::FormedLemmas::zero_by_number))]
pub fn is_zero_at(page: &[u8], number: u32, order: Order) -> bool
    requires header { 26 ≤ length page.now }
    requires told { is_zero page.now ≡ false → four_at order page.now 8 ≡ number }
    ensures { result ≡ is_zero page.now }
{
    if number == 0 {
        is_zero(page)
    } else {
        u32_at(page, 8, order) != number
    }
}

// Whether a page has a type of those above 0 of a btree or hash file.
fn is_tree_type(page: &[u8]) -> bool
    requires { 26 ≤ length page.now }
    ensures { result ≡ is_tree_type (byte_at page.now 25) }
{
    match page_type(page) {
        PageType::QueueMeta | PageType::Queue | PageType::Other => false,
        PageType::Free
        | PageType::Hash
        | PageType::Internal
        | PageType::RecnoInternal
        | PageType::Leaf
        | PageType::RecnoLeaf
        | PageType::Overflow
        | PageType::HashMeta
        | PageType::BtreeMeta
        | PageType::DupLeaf => true,
    }
}

// The first row that holds of those on the number and the type of a page.
fn tree_identity(page: &[u8], number: u32, order: Order) -> Option<FormRow>
    requires { 26 ≤ length page.now }
    ensures { option_map form_row_code result ≡ first_row (identity_rows order page.now number is_tree_type) }
{
    if u32_at(page, 8, order) != number {
        return Some(FormRow::PageNumber);
    }
    if !is_tree_type(page) {
        return Some(FormRow::PageType);
    }
    None
}

fn queue_identity(page: &[u8], number: u32, order: Order) -> Option<FormRow>
    requires { 26 ≤ length page.now }
    ensures { option_map form_row_code result ≡ first_row (identity_rows order page.now number is_queue_type) }
{
    if u32_at(page, 8, order) != number {
        return Some(FormRow::PageNumber);
    }
    if !matches!(page_type(page), PageType::Queue) {
        return Some(FormRow::PageType);
    }
    None
}

// The row that holds for a page of a type of a btree or hash file, its number and type aside.
fn body_row(page: &[u8], order: Order) -> Option<FormRow>
    requires header { 26 ≤ length page.now }
    requires size { length page.now ≤ 32768 }
    ensures { option_map form_row_code result ≡ body_code order page.now (page_type (byte_at page.now 25)) }
{
    match page_type(page) {
        PageType::Internal => listed_row::<InternalKind>(page, order),
        PageType::RecnoInternal => listed_row::<RecnoInternalKind>(page, order),
        PageType::Leaf => listed_row::<LeafKind>(page, order),
        PageType::RecnoLeaf => listed_row::<EntryLeafKind<Records>>(page, order),
        PageType::DupLeaf => listed_row::<EntryLeafKind<SortedData>>(page, order),
        PageType::Hash => listed_row::<HashKind>(page, order),
        PageType::Overflow => data_row(page, order),
        PageType::Free
        | PageType::HashMeta
        | PageType::BtreeMeta
        | PageType::QueueMeta
        | PageType::Queue
        | PageType::Other => None,
    }
}

// The row that holds for an overflow page whose data don't lie on it.
fn data_row(page: &[u8], order: Order) -> Option<FormRow>
    requires { 26 ≤ length page.now }
    ensures { option_map form_row_code result ≡ body_code order page.now OverflowPage }
{
    if page.len() < 26 + usize::from(u16_at(page, 22, order)) {
        Some(FormRow::OverflowRoom)
    } else {
        None
    }
}

// The view of a page of a known type, for which no row of form holds.
#[tactic(auto, using(crate::proofs::FormedLemmas::holds_data))]
fn known_type(page: &[u8], order: Order) -> PageView<'_>
    requires header { 26 ≤ length page.now }
    requires size { length page.now ≤ 32768 }
    requires of_tree { IsTrue (is_tree_type (byte_at page.now 25)) }
    requires form { body_code order page.now (page_type (byte_at page.now 25)) ≡ None }
    ensures page { page_seen result ≡ page_as order page.now (page_type (byte_at page.now 25)) }
    ensures header { header_seen result ≡ header_of order page.now }
{
    match page_type(page) {
        PageType::Free => PageView::Free(FreeView::over(PageBytes { bytes: page, order })),
        PageType::Internal => PageView::Internal(IndexedView::over(page, order)),
        PageType::RecnoInternal => PageView::RecnoInternal(IndexedView::over(page, order)),
        PageType::Leaf => PageView::Leaf(IndexedView::over(page, order)),
        PageType::RecnoLeaf => PageView::RecnoLeaf(IndexedView::over(page, order)),
        PageType::DupLeaf => PageView::DupLeaf(IndexedView::over(page, order)),
        PageType::Hash => PageView::Hash(IndexedView::over(page, order)),
        PageType::Overflow => PageView::Overflow(OverflowView::over(PageBytes {
            bytes: page,
            order,
        })),
        PageType::HashMeta | PageType::BtreeMeta => PageView::Meta(MetaView::over(page, order)),
        PageType::QueueMeta | PageType::Queue | PageType::Other => unreachable!(),
    }
}
