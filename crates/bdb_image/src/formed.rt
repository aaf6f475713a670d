ghost use Rattle.std.specs.Prelude.{◌≡◌, ◌^◌, ◌<◌, ◌≤◌, IsTrue, length, None, true};
ghost use Rattle.bdb_image.specs.Formed.{IsAccepted, IsFormed};
ghost use Rattle.bdb_slots.specs.Plain.{ArePlain};
ghost use Rattle.bdb_faults.specs.of_format.Terms.{file_of, form_code, head_of, is_page_size, page_bytes};

use bdb_faults::Head;
use bdb_meta::page_slice;
use std::marker::Model;

/// An image on which no row of the first two stages holds: its file is one that is read, and each of its
/// pages by itself has no fault.
#[derive(Drop)]
pub struct Formed<'a> {
    image: &'a [u8],
    head: Head,
    // No item names another page, as far as that was asked.
    plain: bool,
}

impl<'a> Model for Formed<'a> {
    ghost use Rattle.std.specs.Prelude.{◌≡◌, List, ℕ, true};
    ghost use Rattle.bdb_image.specs.Formed.{IsFormed};
    ghost use Rattle.bdb_slots.specs.Plain.{ArePlain};

    ghost Value = { List ℕ };

    ghost view = { λ v. v.image.now };

    ghost invariant = { λ v. IsFormed v.image.now v.head × (v.plain ≡ true → ArePlain v.head v.image.now) };
}

#[tactic(auto, using(crate::proofs::FirstLemmas::formed_pages))]
impl<'a> Formed<'a> {
    /// An image for which the two stages are decided.
    pub fn over(image: &'a [u8], head: Head, plain: bool) -> Formed<'a>
        requires formed { IsFormed image.now head }
        requires plain { plain ≡ true → ArePlain head image.now }
        ensures { result ≡ image.now }
    {
        Formed { image, head, plain }
    }

    /// Another handle to the same image.
    pub fn again(&self) -> Formed<'a>
        ensures same { result ≡ self.now }
        ensures formed { IsFormed self.now (head_of self.now) }
    {
        Formed {
            image: self.image,
            head: self.head,
            plain: self.plain,
        }
    }

    /// What page 0 says of the whole file.
    pub fn head(&self) -> Head
        ensures head { result ≡ head_of self.now }
        ensures last { result.last ≡ (file_of self.now).last }
        ensures few { result.last < 2 ^ 21 }
        ensures formed { IsFormed self.now result }
    {
        self.head
    }

    // Whether no item names another page; where it isn't known, it says no.
    pub(crate) fn is_plain(&self) -> bool
        ensures { result ≡ true → ArePlain (head_of self.now) self.now }
    {
        self.plain
    }

    // The bytes of the file.
    /// Its bytes.
    pub fn image(&self) -> &'a [u8]
        ensures { result.now ≡ self.now }
    {
        self.image
    }

    /// The bytes of a page up to the last one.
    pub fn page_bytes(&self, number: u32) -> &'a [u8]
        requires { number ≤ (head_of self.now).last }
        ensures bytes { result.now ≡ page_bytes (head_of self.now) self.now number }
        ensures size { length result.now ≡ (head_of self.now).page_size }
        ensures legal { IsTrue (is_page_size (length result.now)) }
        ensures form { form_code (head_of self.now) number result.now ≡ None }
    {
        page_bytes(self.image, &self.head, number)
    }
}

/// The bytes of a page of an image whose page 0 is accepted.
#[tactic(auto, using(crate::proofs::FormedLemmas::page_room))]
pub fn page_bytes<'a>(image: &'a [u8], head: &Head, number: u32) -> &'a [u8]
    requires head { IsAccepted image.now head.now }
    requires there { number < head.now.pages }
    ensures bytes { result.now ≡ page_bytes head.now image.now number }
    ensures size { length result.now ≡ head.now.page_size }
    ensures legal { IsTrue (is_page_size (length result.now)) }
{
    page_slice(image, head.page_size, number)
}
