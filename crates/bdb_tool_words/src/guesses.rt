//! How an image is read, by the options of `salvage`, `repair` and `survey`.
ghost use Rattle.std.specs.Prelude.{◌≡◌, IfSome, IsTrue, option_copied};
ghost use Rattle.bdb_model.specs.of_format.Terms.{is_page_size};
ghost use Rattle.bdb_tool_words.specs.Commands.{guess_asked, order_named, page_size_named};

use crate::named::named;
use bdb_model::Order;
use bdb_survey::Guess;

/// The guess of an order and a page size, which are given together or not at all.
pub(crate) fn guess_asked(order: Option<&[u8]>, page_size: Option<&[u8]>) -> Option<Option<Guess>>
    ensures seen { result ≡ guess_asked (option_copied order.entry) (option_copied page_size.entry) }
    ensures legal { IfSome result (λ guess. IfSome guess (λ it. IsTrue (is_page_size it.page_size))) }
{
    match (order, page_size) {
        (None, None) => Some(None),
        (Some(order), Some(page_size)) => {
            let order = order_named(order)?;
            let page_size = page_size_named(page_size)?;
            Some(Some(Guess { order, page_size }))
        }
        _ => None,
    }
}

/// The order that a word names.
pub(crate) fn order_named(word: &[u8]) -> Option<Order>
    ensures { result ≡ order_named word.now }
{
    named!(word; b"big" => Order::Big, b"little" => Order::Little)
}

// The legal page size with these digits.
fn page_size_named(word: &[u8]) -> Option<u32>
    ensures seen { result ≡ page_size_named word.now }
    ensures legal { IfSome result (λ page_size. IsTrue (is_page_size page_size)) }
{
    named!(word;
        b"512" => 512,
        b"1024" => 1024,
        b"2048" => 2048,
        b"4096" => 4096,
        b"8192" => 8192,
        b"16384" => 16384,
        b"32768" => 32768)
}
