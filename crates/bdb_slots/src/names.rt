ghost use Rattle.std.specs.Prelude.{◌≡◌, ◌+◌, ◌*◌, ◌<◌, ◌&&◌, [], get_or, if◌then◌else◌, length, option_to_list};
ghost use Rattle.bdb_slots.specs.Slots.{child_names, hash_names, internal_names};
ghost use Rattle.bdb_form.specs.of_layout.Seen.{content_seen};
ghost use Rattle.bdb_form.specs.of_format.Terms.{content_targets, is_shared_key, unless_zero};

use bdb_form::{
    Content, ContentKind, HashView, IndexedView, InternalView, RecnoInternalView, Sort,
};

/// What a page names: for what, and the number of a page, which need not be there.
pub(crate) type Name = (Sort, u64);

/// A page that is named, unless its number is 0.
pub(crate) fn unless_zero(sort: Sort, target: u32) -> Option<Name>
    ensures { option_to_list result ≡ unless_zero sort target }
{
    if target == 0 {
        return None;
    }
    Some((sort, u64::from(target)))
}

/// The page that an item names by what it holds. None where it names no page.
pub fn content_name(content: &Content) -> Option<Name>
    ensures { option_to_list result ≡ content_targets (content_seen content.now) }
{
    match content {
        Content::Inline(_) | Content::Set(_) => None,
        Content::Overflow { head, .. } => Some((Sort::OverflowHead, u64::from(*head))),
        Content::OffPage { root } => Some((Sort::DuplicateRoot, u64::from(*root))),
    }
}

/// The page that an item names by what it holds; a key that is shared names nothing of its own.
pub(crate) fn item_name<'a, K: ContentKind<'a>>(
    page: &IndexedView<'a, K>,
    slot: u32,
) -> Option<Name>
    requires { slot < length page.now.items }
    ensures { option_to_list result
        ≡ (if K.SHARES && is_shared_key page.now.offsets slot then [] else content_targets (K.content_of (get_or page.now.items slot K.no_item))) }
{
    prove!(slot < u32::from(page.entries()));
    if page.is_shared(slot as u16) {
        return None;
    }
    content_name(&K::content(&page.item(slot as u16)))
}

/// The page below, which an item of an internal page of records names.
pub(crate) fn child_name(page: &RecnoInternalView, slot: u32) -> Option<Name>
    requires { slot < length page.now.items }
    ensures { option_to_list result ≡ child_names page.now slot }
{
    prove!(slot < u32::from(page.entries()));
    Some((Sort::Child, u64::from(page.item(slot as u16).child)))
}

/// The page that half an item of an internal page names: first the page below, then the chain of its key.
pub(crate) fn internal_name(page: &InternalView, slot: u32) -> Option<Name>
    requires { slot < 2 * length page.now.items }
    ensures { option_to_list result ≡ internal_names page.now slot }
{
    prove!(slot < 2 * u32::from(page.entries()));
    let item = page.item((slot / 2) as u16);
    if slot % 2 == 1 {
        return content_name(&item.key.content());
    }
    Some((Sort::Child, u64::from(item.child)))
}

/// The page that an item of a hash page names, and behind the items the next page of its bucket.
pub(crate) fn hash_name(page: &HashView, slot: u32) -> Option<Name>
    requires { slot < length page.now.items + 1 }
    ensures { option_to_list result ≡ hash_names page.now slot }
{
    if slot == u32::from(page.entries()) {
        return unless_zero(Sort::HashNext, page.header().next);
    }
    item_name(page, slot)
}
