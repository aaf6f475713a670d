ghost use Rattle.std.specs.Prelude.{◌≡◌, ◌+◌, ◌≤◌, length};
ghost use Rattle.bdb_rescue.specs.Guesses.{chosen, guess_in, guess_of, is_known_magic, is_queue_or_master, unsupported_case};

use bdb_survey::{Guess, Unsupported, first_page_case, first_page_is_queue_or_master, u32_at};
use bdb_text_format::{FileKind, Order, is_page_size, magic_of};

/// The guess that is given, or else the one that page 0 tells.
pub(crate) fn chosen(guess: Option<Guess>, image: &[u8]) -> Option<Guess>
    ensures { result ≡ chosen guess image.now }
{
    match guess {
        Some(guess) => Some(guess),
        None => guess_of(image),
    }
}

/// What page 0 tells of the image.
#[tactic(auto, unfolding(crate::specs::Guesses::guess_of))]
fn guess_of(image: &[u8]) -> Option<Guess>
    ensures { result ≡ guess_of image.now }
{
    if image.len() < 24 {
        return None;
    }
    guess_in(Order::Little, image).or(guess_in(Order::Big, image))
}

/// The same where page 0 is read in this order.
fn guess_in(order: Order, image: &[u8]) -> Option<Guess>
    requires { 24 ≤ length image.now }
    ensures { result ≡ guess_in order image.now }
{
    let page_size = u32_at(image, 20, order);
    if is_known_magic(u32_at(image, 12, order)) && is_page_size(page_size) {
        Some(Guess { order, page_size })
    } else {
        None
    }
}

/// Whether a number is the magic one of a btree, a hash or a queue.
fn is_known_magic(number: u32) -> bool
    ensures { result ≡ is_known_magic number }
{
    number == magic_of(FileKind::Btree)
        || number == magic_of(FileKind::Hash)
        || number == magic_of(FileKind::Queue)
}

/// The first unsupported case that page 0 names, by the guess that it gives; `None` if it names none, if a guess is given, or if page 0 gives none.
pub fn unsupported_case(guess: Option<Guess>, image: &[u8]) -> Option<Unsupported>
    ensures { result ≡ unsupported_case guess image.now }
{
    match guess {
        Some(_) => None,
        None => first_page_case(image, guess_of(image)?.order),
    }
}

/// Whether page 0, by the guess that it gives, is that of a queue, or of a master; false if a guess is given, or if page 0 gives none.
pub fn is_queue_or_master(guess: Option<Guess>, image: &[u8]) -> bool
    ensures { result ≡ is_queue_or_master guess image.now }
{
    match (guess, guess_of(image)) {
        (None, Some(told)) => first_page_is_queue_or_master(image, told.order),
        _ => false,
    }
}
