ghost use Rattle.std.specs.Prelude.{◌≡◌, ◌+◌, ◌<◌, ◌≤◌, ◌^◌, ◌∷◌, ◌++◌, [], ℕ, List, IfOk, IsTrue, length};
ghost use Rattle.bdb_mktree.specs.of_format.Terms.{Content as PageContent, is_page_size};
ghost use Rattle.bdb_mktree.specs.of_layout.Seen.{HasOrder, hash_content_seen};
ghost use Rattle.bdb_mktree.specs.of_pack.Built.{AreWhole, bytes_of, with_page};
ghost use Rattle.bdb_mktree.specs.of_pack.OnPages.{IsBegunOn};
ghost use Rattle.bdb_mkhash.specs.Filling.{IsGrown};
ghost use Rattle.bdb_mkhash.specs.Pages.{CanTakeContent, HoldsContentsOn, with_hash_page, with_next};

use bdb_mktree::{HashItem, PageType, Pages, put_u32};
use std::alloc::AllocError;

/// Adds a page of a table without items behind all pages, where a number is left for it, and answers that. `previous` is
/// the page before it in its bucket, 0 where it is the first.
pub(crate) fn add_page(pages: &mut Pages, previous: u32) -> Result<u32, AllocError>
    requires legal { IsTrue (is_page_size pages.old.size) }
    ensures number { IfOk result (λ number. number ≡ length pages.old.pages) }
    ensures pages { IfOk result (λ _. pages.new ≡ with_hash_page pages.old previous) }
    ensures holds { IfOk result (λ number. HoldsContentsOn pages.new number previous 0 []) }
    ensures few { IfOk result (λ _. length pages.old.pages < 2 ^ 21) }
{
    let number = pages.add_begun(previous, 0, PageType::UNSORTED_HASH)?;
    Ok(number)
}

/// Writes which page comes after a page.
pub(crate) fn set_next(pages: &mut Pages, page: u32, next: u32)
    requires page { page < length pages.old.pages }
    requires begun { IsBegunOn pages.old page }
    ensures page { pages.new ≡ with_page pages.old page (with_next pages.old.order (bytes_of pages.old page) next) }
    ensures holds { (previous before : ℕ) (contents : List PageContent) → HoldsContentsOn pages.old page previous before contents
        → HoldsContentsOn pages.new page previous next contents }
{
    let order = pages.order();
    put_u32(pages.page_mut(page), 16, order, next);
}

/// Adds an item at the end of a page.
pub(crate) fn append_item(pages: &mut Pages, page: u32, item: &HashItem<'_>)
    requires page { page < length pages.old.pages }
    requires takes { CanTakeContent pages.old page (hash_content_seen item.now) }
    requires same_order { HasOrder pages.old.order item.now }
    ensures { IsGrown page pages.old pages.new (hash_content_seen item.now) }
{
    pages.append_hash(page, item);
}
