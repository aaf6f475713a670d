ghost use Rattle.std.specs.Prelude.{◌≡◌, ◌==◌, ◌&&◌, ◌≤◌, ◌∷◌, [], if◌then◌else◌, false, length};
ghost use Rattle.bdb_image.specs.Told.{is_headed, is_metadata, told_type};
ghost use Rattle.bdb_faults.specs.of_format.Terms.{child_types, file_of, four_at, has_bit, has_type, header_in, is_hash_meta, is_meta, is_spare, is_zero};
ghost use Rattle.bdb_faults.specs.of_format.Terms.{is_zero_page, page_at, piece_in, root_types, type_in};

use crate::Formed;
use bdb_faults::{BtreeMeta, Header, Order, PageType, keyed_types, record_types};
use bdb_meta::{header, page_type, u16_at, u32_at};
use bdb_slots::is_zero_at;
use std::marker::Model;

/// A page of a formed image, where its bytes lie.
#[derive(Drop)]
pub struct FormedPage<'a> {
    bytes: &'a [u8],
    order: Order,
    // None of a zero page.
    page_type: Option<PageType>,
}

impl<'a> Model for FormedPage<'a> {
    ghost use Rattle.bdb_faults.specs.of_format.Terms.{Page, abstract_page};
    ghost use Rattle.bdb_image.specs.Told.{IsLooked};

    ghost Value = { Page };

    ghost view = { λ v. abstract_page v.order v.bytes.now };

    ghost invariant = { λ v. IsLooked v.bytes.now v.page_type };
}

/// A page up to the last one.
#[tactic(auto, using(crate::proofs::FitLemmas::looked_pages))]
pub fn page_at<'a>(formed: &Formed<'a>, number: u32) -> FormedPage<'a>
    requires { number ≤ (file_of formed.now).last }
    ensures { result ≡ page_at (file_of formed.now) number }
{
    let bytes = formed.page_bytes(number);
    let order = formed.head().order;
    FormedPage {
        bytes,
        order,
        page_type: told_type(bytes, number, order),
    }
}

// The type of a page that tells its own number; a zero page has none.
fn told_type(page: &[u8], number: u32, order: Order) -> Option<PageType>
    requires header { 26 ≤ length page.now }
    requires told { is_zero page.now ≡ false → four_at order page.now 8 ≡ number }
    ensures { result ≡ told_type page.now }
{
    if is_zero_at(page, number, order) {
        None
    } else {
        Some(page_type(page))
    }
}

// Whether pages of a type begin with the fields of a header.
fn is_headed(page_type: Option<PageType>) -> bool
    ensures { result ≡ is_headed page_type }
{
    !matches!(
        page_type,
        None | Some(
            PageType::HashMeta
                | PageType::BtreeMeta
                | PageType::QueueMeta
                | PageType::Queue
                | PageType::Other
        )
    )
}

/// Whether a type is one of metadata.
pub(crate) fn is_metadata(page_type: Option<PageType>) -> bool
    ensures { result ≡ is_metadata page_type }
{
    matches!(
        page_type,
        Some(PageType::HashMeta | PageType::BtreeMeta | PageType::QueueMeta)
    )
}

// The types that the root of a tree with these flags may have: those of a recno where it is one.
fn root_types(flags: u32) -> &'static [u8]
    ensures { result.now ≡ (if has_bit flags 2 then 4 ∷ 6 ∷ [] else 3 ∷ 5 ∷ []) }
{
    if flags & BtreeMeta::RECNO != 0 {
        &[PageType::RECNO_INTERNAL, PageType::RECNO_LEAF]
    } else {
        &[PageType::INTERNAL, PageType::LEAF]
    }
}

// Whether a page with this header has no entry, and stands alone in its list.
fn is_bare(header: Header) -> bool
    ensures { result ≡ (header.entries == 0 && header.previous == 0 && header.next == 0) }
{
    header.entries == 0 && header.previous == 0 && header.next == 0
}

impl<'a> FormedPage<'a> {
    /// Whether all its bytes are 0.
    #[tactic(auto, using(crate::proofs::FitLemmas::is_zero_page_is))]
    pub(crate) fn is_zero(&self) -> bool
        ensures { result ≡ is_zero_page self.now }
    {
        self.page_type.is_none()
    }

    /// Its type byte; a zero page has none.
    #[tactic(auto, using(crate::proofs::FitLemmas::type_is))]
    pub(crate) fn type_byte(&self) -> Option<u8>
        ensures { result ≡ type_in self.now }
    {
        match self.page_type {
            None | Some(PageType::Other) => None,
            Some(_) => Some(self.bytes[25]),
        }
    }

    /// The page before it; 0 where it has no header.
    #[tactic(auto, using(crate::proofs::FitLemmas::headed_previous, crate::proofs::FitLemmas::unheaded))]
    pub fn previous(&self) -> u32
        ensures { result ≡ (header_in self.now).previous }
    {
        if is_headed(self.page_type) {
            u32_at(self.bytes, 12, self.order)
        } else {
            0
        }
    }

    /// The page after it; 0 where it has no header.
    #[tactic(auto, using(crate::proofs::FitLemmas::headed_next, crate::proofs::FitLemmas::unheaded))]
    pub fn next(&self) -> u32
        ensures { result ≡ (header_in self.now).next }
    {
        if is_headed(self.page_type) {
            u32_at(self.bytes, 16, self.order)
        } else {
            0
        }
    }

    /// How many entries its header tells; 0 where it has none.
    #[tactic(auto, using(crate::proofs::FitLemmas::headed_entries, crate::proofs::FitLemmas::unheaded))]
    pub fn entries(&self) -> u16
        ensures { result ≡ (header_in self.now).entries }
    {
        if is_headed(self.page_type) {
            u16_at(self.bytes, 20, self.order)
        } else {
            0
        }
    }

    /// Its level; 0 where it has no header.
    #[tactic(auto, using(crate::proofs::FitLemmas::headed_level, crate::proofs::FitLemmas::unheaded))]
    pub(crate) fn level(&self) -> u8
        ensures { result ≡ (header_in self.now).level }
    {
        if is_headed(self.page_type) {
            self.bytes[24]
        } else {
            0
        }
    }

    /// Whether it's a page of a chain.
    #[tactic(auto, using(crate::proofs::FitLemmas::overflow_is))]
    pub fn is_overflow(&self) -> bool
        ensures { result ≡ has_type (7 ∷ []) (type_in self.now) }
    {
        matches!(self.page_type, Some(PageType::Overflow))
    }

    /// How many bytes of a value it holds; none where it isn't a page of a chain.
    #[tactic(auto, using(crate::proofs::PieceLemmas::piece_lengths))]
    pub fn piece_len(&self) -> u32
        ensures { result ≡ length (piece_in self.now) }
    {
        match self.page_type {
            Some(PageType::Overflow) => {
                let told = usize::from(u16_at(self.bytes, 22, self.order));
                told.min(self.bytes.len() - 26) as u32
            }
            _ => 0,
        }
    }

    /// The types that the root of a tree may have, where this is btree metadata.
    #[tactic(auto, using(crate::proofs::FitLemmas::tree_root, crate::proofs::FitLemmas::no_root))]
    pub(crate) fn root_types(&self) -> &'static [u8]
        ensures { result.now ≡ root_types self.now }
    {
        match self.page_type {
            Some(PageType::BtreeMeta) => root_types(u32_at(self.bytes, 48, self.order)),
            _ => &[],
        }
    }

    /// The types that a page below may have, where this is an internal page.
    #[tactic(auto, using(crate::proofs::FitLemmas::types_of_children))]
    pub(crate) fn child_types(&self) -> &'static [u8]
        ensures { result.now ≡ child_types self.now }
    {
        match self.page_type {
            Some(PageType::Internal) => keyed_types(self.bytes[24]),
            Some(PageType::RecnoInternal) => record_types(self.bytes[24]),
            _ => &[],
        }
    }
}

// The roles that a page may have.
impl<'a> FormedPage<'a> {
    /// Whether it's metadata.
    #[tactic(auto, using(crate::proofs::RoleLemmas::meta_is))]
    pub fn is_meta(&self) -> bool
        ensures { result ≡ is_meta self.now }
    {
        is_metadata(self.page_type)
    }

    /// Whether it's the metadata of a hash table.
    #[tactic(auto, using(crate::proofs::RoleLemmas::table_is, crate::proofs::RoleLemmas::table_is_not))]
    pub fn is_hash_meta(&self) -> bool
        ensures { result ≡ is_hash_meta self.now }
    {
        matches!(self.page_type, Some(PageType::HashMeta))
    }

    /// Whether a table may hold it in reserve, as long as no reference names it.
    #[tactic(auto, using(crate::proofs::RoleLemmas::spare_pages))]
    pub fn is_spare(&self) -> bool
        ensures { result ≡ is_spare self.now }
    {
        match self.page_type {
            None => true,
            Some(PageType::Free) => u32_at(self.bytes, 16, self.order) == 0,
            Some(PageType::Hash) => is_bare(header(self.bytes, self.order)),
            _ => false,
        }
    }
}
