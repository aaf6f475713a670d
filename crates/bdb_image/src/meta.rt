ghost use Rattle.std.specs.Prelude.{◌≡◌, ◌≤◌, IfOk, IsTrue, length};
ghost use Rattle.std.specs.Option.{option_map};
ghost use Rattle.bdb_image.specs.Linked.{meta_pages};
ghost use Rattle.bdb_image.specs.Metas.{meta_in, meta_seen};
ghost use Rattle.bdb_faults.specs.of_format.Terms.{abstract_page, file_of, is_page_size, page_at};

use crate::Formed;
use crate::formed_page::{is_metadata, page_at};
use bdb_faults::{BtreeMeta, HashMeta, Order, PageType, QueueMeta};
use bdb_meta::{btree_fields, hash_fields, page_type, queue_fields};
use std::alloc::{AllocError, Global};

/// The fields of a metadata page.
#[derive(Clone, Copy, Debug, PartialEq, Eq)]
pub enum Meta {
    Btree(BtreeMeta),
    Hash(HashMeta),
    Queue(QueueMeta),
}

/// The numbers of the metadata pages of an image, ascending, 4 bytes for each in a list that grows. An error means
/// that memory ran out.
pub fn metas_of(alloc: Global, formed: &Formed) -> Result<Vec<u32>, AllocError>
    ensures { IfOk result (λ metas. metas.items ≡ meta_pages (file_of formed.now)) }
{
    let mut metas = Vec::new(alloc);
    for number in 0..formed.head().last + 1 {
        if page_at(formed, number).is_meta() {
            metas.push(number)?;
        }
    }
    Ok(metas)
}

/// The fields of a page, if it's metadata.
#[tactic(auto, using(crate::proofs::MetaLemmas::meta_of_page))]
pub fn meta_at(formed: &Formed, number: u32) -> Option<Meta>
    requires { number ≤ (file_of formed.now).last }
    ensures { option_map meta_seen result ≡ meta_in (page_at (file_of formed.now) number) }
{
    let order = formed.head().order;
    meta_on(formed.page_bytes(number), order)
}

/// The fields of a page without a fault of form, if it's metadata. The type of most pages tells at a glance that they aren't.
#[tactic(auto, using(crate::proofs::MetaLemmas::unmarked_fields))]
pub(crate) fn meta_on(page: &[u8], order: Order) -> Option<Meta>
    requires { IsTrue (is_page_size (length page.now)) }
    ensures { option_map meta_seen result ≡ meta_in (abstract_page order page.now) }
{
    if !is_metadata(Some(page_type(page))) {
        return None;
    }
    fields_on(page, order)
}

/// The same of any page: the one place where metadata is read again, without another judgement.
#[tactic(auto, using(crate::proofs::MetaLemmas::fields_by_type))]
fn fields_on(page: &[u8], order: Order) -> Option<Meta>
    requires { IsTrue (is_page_size (length page.now)) }
    ensures { option_map meta_seen result ≡ meta_in (abstract_page order page.now) }
{
    match page_type(page) {
        PageType::HashMeta => Some(Meta::Hash(hash_fields(page, order))),
        PageType::BtreeMeta => Some(Meta::Btree(btree_fields(page, order))),
        PageType::QueueMeta => Some(Meta::Queue(queue_fields(page, order))),
        _ => None,
    }
}
