ghost use Rattle.std.specs.Prelude.{◌≡◌, ◌+◌, ◌≤◌, ℕ, List, length};
ghost use Rattle.bdb_layout.specs.of_format.declared.kinds.Order.{Order as AnyOrder};

use crate::PageKind;
use bdb_layout::Order;

/// A type of pages whose items tell by themselves where they end. Items that begin at one place are the same item.
pub trait EndKind: PageKind {
    // How many bytes of an item tell where it ends.
    ghost least: { ℕ };

    ghost end: { AnyOrder → List ℕ → ℕ → ℕ };

    /// Where the item that begins at a place ends.
    fn end_at(page: &[u8], order: Order, at: usize) -> usize
        requires { at + least ≤ length page.now }
        ensures { result ≡ end order page.now at };
}
