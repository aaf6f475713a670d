ghost use Rattle.std.specs.Prelude.{◌≡◌, ◌^◌, ◌≤◌, ◌/◌, length, IsTrue, OnOk};
ghost use Rattle.bdb_layout.specs.of_format.Terms.{answer, coded, faulted, file_kind, file_row_code, four_at, head_fault, head_of, head_rows, is_magic};
ghost use Rattle.bdb_layout.specs.of_format.Terms.{is_page_size, is_past, last_page, order_of, pages_of};
ghost use Rattle.bdb_meta.specs.RowGroups.{length_rows, page_rows, version_rows};

use crate::generic::{check_left_out, version_of};
use bdb_layout::{FileKind, FileRow, Head, MetaFault, Order, is_page_size, magic_of, u32_at};

const HEAP_MAGIC: u32 = 0x074582;

const LARGE_PAGE: u32 = 65536;

/// Whether this is the magic number of a database file.
fn is_magic(magic: u32) -> bool
    ensures { result ≡ is_magic magic }
{
    magic == magic_of(FileKind::Btree)
        || magic == magic_of(FileKind::Hash)
        || magic == magic_of(FileKind::Queue)
        || magic == HEAP_MAGIC
}

/// The order in which the magic number is one.
fn order_of(image: &[u8]) -> Order
    requires { 512 ≤ length image.now }
    ensures { result ≡ order_of image.now }
{
    if is_magic(u32_at(image, 12, Order::Little)) {
        Order::Little
    } else {
        Order::Big
    }
}

/// The kind with a magic number.
pub(crate) fn file_kind(magic: u32) -> FileKind
    ensures { result ≡ file_kind magic }
{
    if magic == magic_of(FileKind::Btree) {
        FileKind::Btree
    } else if magic == magic_of(FileKind::Hash) {
        FileKind::Hash
    } else {
        FileKind::Queue
    }
}

/// How many whole pages of this size there are.
fn pages_of(image: &[u8], size: u32) -> u32
    requires size { 512 ≤ size }
    requires length { length image.now ≤ 2 ^ 30 }
    ensures { result ≡ length image.now / size }
{
    (image.len() as u64 / u64::from(size)) as u32
}

/// The last page, where this many pages are there: a queue goes to the end of its file.
fn last_page(image: &[u8], order: Order, kind: FileKind, pages: u32) -> u32
    requires page { 512 ≤ length image.now }
    requires order { order ≡ order_of image.now }
    requires pages { pages ≡ pages_of image.now }
    ensures { result ≡ last_page kind image.now }
{
    match kind {
        FileKind::Btree | FileKind::Hash => u32_at(image, 32, order),
        FileKind::Queue => pages.saturating_sub(1),
    }
}

/// What page 0 says of the whole file, taken as it is.
#[tactic(auto, unfolding(crate::specs::Below::head_of))]
fn head_of(image: &[u8]) -> Head
    requires page { 512 ≤ length image.now }
    requires length { length image.now ≤ 2 ^ 30 }
    requires size { 512 ≤ four_at (order_of image.now) image.now 20 }
    ensures { result ≡ head_of image.now }
{
    let order = order_of(image);
    let kind = file_kind(u32_at(image, 12, order));
    let page_size = u32_at(image, 20, order);
    let pages = pages_of(image, page_size);
    Head {
        order,
        page_size,
        kind,
        last: last_page(image, order, kind, pages),
        pages,
    }
}

/// The magic number and the version are ones that are read. A refusal is the row.
fn check_version(image: &[u8], order: Order) -> Result<(), FileRow>
    requires page { 512 ≤ length image.now }
    requires order { order ≡ order_of image.now }
    ensures { coded file_row_code result ≡ answer (version_rows image.now) tt }
{
    let magic = u32_at(image, 12, order);
    if !is_magic(magic) {
        return Err(FileRow::Magic);
    }
    if magic == HEAP_MAGIC {
        return Err(FileRow::Heap);
    }
    if u32_at(image, 16, order) != version_of(file_kind(magic)) {
        return Err(FileRow::Version);
    }
    Ok(())
}

/// The page size and what is asked of the pages are read. A refusal is the row.
#[tactic(auto, using(crate::proofs::RowLemmas::coded_left_out))]
fn check_pages(image: &[u8], order: Order) -> Result<(), FileRow>
    requires page { 512 ≤ length image.now }
    requires order { order ≡ order_of image.now }
    ensures rows { coded file_row_code result ≡ answer (page_rows image.now) tt }
    ensures size { OnOk result (512 ≤ four_at (order_of image.now) image.now 20) }
{
    let size = u32_at(image, 20, order);
    if !is_page_size(size) && size != LARGE_PAGE {
        return Err(FileRow::PageSize);
    }
    if size == LARGE_PAGE {
        return Err(FileRow::LargePage);
    }
    check_left_out(
        image,
        order,
        FileRow::Encryption,
        FileRow::Checksum,
        FileRow::Partition,
    )
}

/// Whether the last page isn't there. A queue goes to the end of its file.
#[tactic(auto, unfolding(crate::specs::Below::head_of))]
fn is_past(image: &[u8], head: &Head) -> bool
    requires { head.now ≡ head_of image.now }
    ensures { result ≡ is_past head.now.kind image.now }
{
    match head.kind {
        FileKind::Btree | FileKind::Hash => head.last >= head.pages,
        FileKind::Queue => false,
    }
}

/// The image has whole pages, the last one too. A refusal is the row.
#[tactic(auto, unfolding(crate::specs::Below::head_of))]
fn check_length(image: &[u8], head: &Head) -> Result<(), FileRow>
    requires head { head.now ≡ head_of image.now }
    requires size { 512 ≤ head.now.page_size }
    ensures { coded file_row_code result ≡ answer (length_rows image.now) tt }
{
    if image.len() % head.page_size as usize != 0 {
        return Err(FileRow::Ragged);
    }
    if is_past(image, head) {
        return Err(FileRow::LastPage);
    }
    Ok(())
}

/// What page 0 says of the whole file. A refusal is the first row that holds.
#[tactic(auto, using(crate::proofs::RowLemmas::short_head), unfolding(crate::specs::Below::head_of))]
pub fn checked_head(image: &[u8]) -> Result<Head, FileRow>
    requires { length image.now ≤ 2 ^ 30 }
    ensures { coded file_row_code result ≡ answer (head_rows image.now) (head_of image.now) }
{
    if image.len() < 512 {
        return Err(FileRow::Short);
    }
    let order = order_of(image);
    check_version(image, order)?;
    check_pages(image, order)?;
    let head = head_of(image);
    check_length(image, &head)?;
    Ok(head)
}

/// What page 0 says of the whole file, or the first row of the fault table that refuses it.
pub fn head(image: &[u8]) -> Result<Head, MetaFault>
    requires { length image.now ≤ 2 ^ 30 }
    ensures { result ≡ faulted head_fault (answer (head_rows image.now) (head_of image.now)) }
{
    match checked_head(image) {
        Ok(head) => Ok(head),
        Err(row) => Err(row.fault()),
    }
}
