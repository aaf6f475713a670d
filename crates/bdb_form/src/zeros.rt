ghost use Rattle.std.specs.Prelude.{◌≡◌, ◌≤◌, length};
ghost use Rattle.bdb_layout.specs.of_format.Terms.{is_zero};

use bdb_layout::{PageType, page_type};

/// Whether all bytes are 0. The type of most pages tells that at a glance.
#[tactic(auto, using(crate::proofs::FormedLemmas::zero_type))]
pub fn is_zero(page: &[u8]) -> bool
    ensures { result ≡ is_zero page.now }
{
    if page.len() >= 26 && !matches!(page_type(page), PageType::Free) {
        return false;
    }
    are_zeros(page)
}

/// The same by all bytes: the first is 0, and each other is the one before it. So a run is compared with itself, one byte
/// further, many bytes at a time.
#[tactic(auto, using(crate::proofs::ZeroLemmas::no_bytes, crate::proofs::ZeroLemmas::first_not, crate::proofs::ZeroLemmas::shifted))]
fn are_zeros(bytes: &[u8]) -> bool
    ensures { result ≡ is_zero bytes.now }
{
    if bytes.is_empty() {
        return true;
    }
    bytes[0] == 0 && bytes[1..] == bytes[..bytes.len() - 1]
}
