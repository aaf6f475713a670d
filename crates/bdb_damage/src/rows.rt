ghost use Rattle.std.specs.Prelude.{◌≡◌, ◌<◌, ◌≤◌, ◌^◌, IsTrue, length};
ghost use Rattle.std.specs.Option.{option_map};
ghost use Rattle.bdb_apart.specs.of_format.Terms.{byte_at, first_row, form_row_code, four_at, is_page_size, metadata_rows, page_type};
ghost use Rattle.bdb_apart.specs.of_format.declared.metadata.FileKind.TheVariants.{Btree, Hash, Queue};
ghost use Rattle.bdb_apart.specs.of_rescue.Kept.{file_in};
ghost use Rattle.bdb_apart.specs.of_survey.Salvage.{meta_code};
ghost use Rattle.bdb_damage.specs.Pages.{is_queue_file, queue_head_row, queue_row, row_at, tree_row};

use bdb_apart::{Order, Salvaged, u32_at};
use bdb_form::page_row;
use bdb_format::{FileKind, FormRow, PageType, magic_of};
use bdb_meta::{checked_btree, checked_queue, checked_table, page_type};

/// The first row of metadata of a hash that holds.
fn table_row(page: &[u8], order: Order, number: u32, last: u32) -> Option<FormRow>
    requires page { 512 ≤ length page.now }
    requires last { last < 2 ^ 21 }
    ensures { option_map form_row_code result ≡ first_row (metadata_rows order page.now number last Hash) }
{
    match checked_table(page, order, number, last) {
        Ok(_meta) => None,
        Err(row) => Some(row),
    }
}

/// The first row of metadata of a btree that holds.
fn btree_row(page: &[u8], order: Order, number: u32) -> Option<FormRow>
    requires { 512 ≤ length page.now }
    ensures { option_map form_row_code result ≡ first_row (metadata_rows order page.now number 0 Btree) }
{
    match checked_btree(page, order, number) {
        Ok(_meta) => None,
        Err(row) => Some(row),
    }
}

/// The first row of metadata of a queue that holds.
fn queue_meta_row(page: &[u8], order: Order) -> Option<FormRow>
    requires room { 512 ≤ length page.now }
    requires size { length page.now < 2 ^ 32 }
    ensures { option_map form_row_code result ≡ first_row (metadata_rows order page.now 0 0 Queue) }
{
    match checked_queue(page, order) {
        Ok(_meta) => None,
        Err(row) => Some(row),
    }
}

/// The first row of metadata that holds for a page with this number, where `last` is the last page.
fn meta_row(page: &[u8], order: Order, number: u32, last: u32) -> Option<FormRow>
    requires size { IsTrue (is_page_size (length page.now)) }
    requires last { last < 2 ^ 21 }
    requires number { number ≡ four_at order page.now 8 }
    ensures { option_map form_row_code result ≡ meta_code order last page.now (page_type (byte_at page.now 25)) }
{
    match page_type(page) {
        PageType::HashMeta => table_row(page, order, number, last),
        PageType::BtreeMeta => btree_row(page, order, number),
        _ => None,
    }
}

/// The first row that holds for a page of a btree or hash file, by the number that it carries.
fn tree_row(page: &[u8], order: Order, last: u32) -> Option<FormRow>
    requires size { IsTrue (is_page_size (length page.now)) }
    requires last { last < 2 ^ 21 }
    ensures { option_map form_row_code result ≡ tree_row order last page.now }
{
    let number = u32_at(page, 8, order);
    match page_row(page, number, order) {
        Some(row) => Some(row),
        None => meta_row(page, order, number, last),
    }
}

/// Whether a page is the metadata of a queue, by its type or its magic number.
fn is_queue_head(page: &[u8], order: Order) -> bool
    requires { 26 ≤ length page.now }
    ensures { result ≡ Rattle.bdb_damage.specs.Pages.is_queue_head order page.now }
{
    matches!(page_type(page), PageType::QueueMeta)
        || u32_at(page, 12, order) == magic_of(FileKind::Queue)
}

/// The first row that holds for a page of a queue file that carries the number 0.
fn queue_head_row(page: &[u8], order: Order) -> Option<FormRow>
    requires size { IsTrue (is_page_size (length page.now)) }
    ensures { option_map form_row_code result ≡ queue_head_row order page.now }
{
    if is_queue_head(page, order) {
        queue_meta_row(page, order)
    } else {
        None
    }
}

/// The first row that holds for a page of a queue file, by the number that it carries.
fn queue_row(page: &[u8], order: Order) -> Option<FormRow>
    requires size { IsTrue (is_page_size (length page.now)) }
    ensures { option_map form_row_code result ≡ queue_row order page.now }
{
    let number = u32_at(page, 8, order);
    if number == 0 {
        queue_head_row(page, order)
    } else {
        bdb_form::queue_row(page, number, order)
    }
}

/// Whether page 0 has the magic number of a queue.
pub(crate) fn is_queue_file(salvaged: &Salvaged<'_>) -> bool
    ensures { result ≡ is_queue_file salvaged.now }
{
    if salvaged.pages().count() == 0 {
        return false;
    }
    u32_at(salvaged.bytes_at(0), 12, salvaged.guess().order) == magic_of(FileKind::Queue)
}

/// The first row that holds for a page, by the number that it carries; `queue` says whether page 0 has the magic number of a queue.
pub(crate) fn row_at(salvaged: &Salvaged<'_>, queue: bool, page: u32) -> Option<FormRow>
    requires there { page < (file_in salvaged.now).count }
    requires queue { queue ≡ is_queue_file salvaged.now }
    ensures { option_map form_row_code result ≡ row_at salvaged.now page }
{
    let bytes = salvaged.bytes_at(page);
    let order = salvaged.guess().order;
    if queue {
        queue_row(bytes, order)
    } else {
        tree_row(bytes, order, salvaged.pages().count() - 1)
    }
}
