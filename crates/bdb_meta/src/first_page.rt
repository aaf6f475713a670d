//! What page 0 says of a file that isn't read whole.
ghost use Rattle.std.specs.Prelude.{◌≡◌, ◌≤◌, ◌∷◌, [], length};
ghost use Rattle.bdb_layout.specs.of_format.Terms.{first_row, ◌:?◌};
ghost use Rattle.bdb_layout.specs.of_format.declared.metadata.FileKind.TheVariants.{Queue};
ghost use Rattle.bdb_meta.specs.FirstPage.{common_cases, first_page_case, first_page_is_queue_or_master, is_queue_or_master, kind_cases};

use crate::file_head::file_kind;
use crate::generic::{CHECKSUM, has_bit, is_partitioned, version_of};
use crate::queue::queue_fields;
use crate::table::CHARKEY;
use bdb_layout::{BtreeMeta, FileKind, Order, Unsupported, u32_at};

/// The first case of all metadata that holds.
fn common_case(kind: FileKind, page: &[u8], order: Order) -> Option<Unsupported>
    requires { 512 ≤ length page.now }
    ensures { result ≡ first_row (common_cases kind order page.now) }
{
    if u32_at(page, 16, order) != version_of(kind) {
        return Some(Unsupported::Version);
    }
    if page[24] != 0 {
        return Some(Unsupported::Encryption);
    }
    if has_bit(u32::from(page[26]), CHECKSUM) {
        return Some(Unsupported::Checksum);
    }
    if is_partitioned(page, order) {
        return Some(Unsupported::Partition);
    }
    None
}

/// A case, where it holds.
fn case_if(case: Unsupported, holds: bool) -> Option<Unsupported>
    ensures { result ≡ first_row (case :? holds ∷ []) }
{
    if holds { Some(case) } else { None }
}

/// The case of the metadata of a queue.
fn queue_case(page: &[u8], order: Order) -> Option<Unsupported>
    requires { 512 ≤ length page.now }
    ensures { result ≡ first_row (kind_cases Queue order page.now) }
{
    if u32_at(page, 92, order) != 0 {
        return Some(Unsupported::Extent);
    }
    let meta = queue_fields(page, order);
    if meta.current < meta.first {
        return Some(Unsupported::WrappedQueue);
    }
    None
}

/// The case of the metadata of a kind.
fn kind_case(kind: FileKind, page: &[u8], order: Order) -> Option<Unsupported>
    requires { 512 ≤ length page.now }
    ensures { result ≡ first_row (kind_cases kind order page.now) }
{
    match kind {
        FileKind::Btree => case_if(
            Unsupported::Compression,
            has_bit(u32_at(page, 48, order), BtreeMeta::COMPRESSED),
        ),
        FileKind::Hash => case_if(Unsupported::OwnHash, u32_at(page, 92, order) != CHARKEY),
        FileKind::Queue => queue_case(page, order),
    }
}

/// The first case that isn't supported which page 0 names, read in this order; none of an image of less than 512 bytes.
#[tactic(auto, unfolding(crate::specs::FirstPage::first_page_case))]
pub fn first_page_case(image: &[u8], order: Order) -> Option<Unsupported>
    ensures { result ≡ first_page_case order image.now }
{
    if image.len() < 512 {
        return None;
    }
    let kind = file_kind(u32_at(image, 12, order));
    match common_case(kind, image, order) {
        Some(case) => Some(case),
        None => kind_case(kind, image, order),
    }
}

/// Whether metadata of a kind is that of a queue, or of a btree whose pairs name databases.
fn is_queue_or_master(kind: FileKind, page: &[u8], order: Order) -> bool
    requires { 512 ≤ length page.now }
    ensures { result ≡ is_queue_or_master kind order page.now }
{
    match kind {
        FileKind::Btree => has_bit(u32_at(page, 48, order), BtreeMeta::NAMES),
        FileKind::Hash => false,
        FileKind::Queue => true,
    }
}

/// Whether page 0, read in this order, is metadata of a queue, or of a btree whose pairs name databases; false of an image of
/// less than 512 bytes.
#[tactic(auto, unfolding(crate::specs::FirstPage::first_page_is_queue_or_master))]
pub fn first_page_is_queue_or_master(image: &[u8], order: Order) -> bool
    ensures { result ≡ first_page_is_queue_or_master order image.now }
{
    if image.len() < 512 {
        return false;
    }
    is_queue_or_master(file_kind(u32_at(image, 12, order)), image, order)
}
