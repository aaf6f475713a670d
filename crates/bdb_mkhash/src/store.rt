ghost use Rattle.std.specs.Prelude.{◌≡◌, ◌≤◌, IfOk, IsTrue, length};
ghost use Rattle.bdb_mktree.specs.of_format.Terms.{is_page_size};
ghost use Rattle.bdb_mktree.specs.of_layout.Seen.{HasOrder, hash_content_seen};
ghost use Rattle.bdb_mktree.specs.of_mkleaves.Runs.{IsShort};
ghost use Rattle.bdb_mkhash.specs.Filling.{IsHashItem};

use bdb_mktree::{HashItem, Pages, Stored, push_value};
use std::alloc::AllocError;

/// Stores a value, and answers its item: of a short one it has the bytes, of a longer one it names the chain.
pub(crate) fn store<'a>(pages: &mut Pages, value: &'a [u8]) -> Result<HashItem<'a>, AllocError>
    requires short { IsShort value.now }
    requires first { 1 ≤ length pages.old.pages }
    requires legal { IsTrue (is_page_size pages.old.size) }
    ensures item { IfOk result (λ item. IsHashItem pages.old pages.new value.now (hash_content_seen item)) }
    ensures order { IfOk result (λ item. HasOrder pages.new.order item) }
{
    if !pages.has_pages_for(value) {
        return Err(AllocError);
    }
    match push_value(pages, value)? {
        Stored::Inline => Ok(HashItem::Inline(value)),
        Stored::Chain { head, total } => Ok(HashItem::Overflow { head, total }),
    }
}
