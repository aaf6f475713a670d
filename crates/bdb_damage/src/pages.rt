ghost use Rattle.std.specs.Prelude.{◌≡◌, ◌<◌, length};
ghost use Rattle.bdb_apart.specs.of_rescue.Kept.{file_in};
ghost use Rattle.bdb_damage.specs.Pages.{cut_bytes, is_zero_at, zero_pages};
ghost use Rattle.bdb_damage.specs.Tallies.{IsBounded, is_zero_above};

use crate::one::one;
use bdb_apart::{Apart, Salvaged};
use bdb_form::is_zero;

/// How many whole pages the image has.
pub fn page_count(apart: &Apart<'_, '_>) -> u32
    ensures count { result ≡ (file_in apart.now).count }
    ensures bounded { IsBounded apart.now }
{
    let salvaged = apart.salvaged();
    let _image = salvaged.image();
    salvaged.pages().count()
}

/// How many bytes stand behind the last whole page.
pub fn cut_bytes(apart: &Apart<'_, '_>) -> u32
    ensures { result ≡ cut_bytes apart.now }
{
    let size = apart.guess().page_size as usize;
    (apart.salvaged().image().len() % size) as u32
}

/// Whether all bytes of a page are 0.
pub(crate) fn is_zero_at(salvaged: &Salvaged<'_>, page: u32) -> bool
    requires { page < (file_in salvaged.now).count }
    ensures { result ≡ is_zero_at salvaged.now page }
{
    is_zero(salvaged.bytes_at(page))
}

/// Whether a page is above page 0, and all its bytes are 0.
fn is_zero_above(salvaged: &Salvaged<'_>, page: u32) -> bool
    requires { page < (file_in salvaged.now).count }
    ensures { result ≡ is_zero_above salvaged.now page }
{
    page > 0 && is_zero_at(salvaged, page)
}

/// How many pages above page 0 have only bytes that are 0.
pub fn zero_count(apart: &Apart<'_, '_>) -> u32
    ensures { result ≡ length (zero_pages apart.now) }
{
    let salvaged = apart.salvaged();
    let mut zeros = 0;
    for page in 0..apart.count() {
        zeros += one(is_zero_above(salvaged, page));
    }
    zeros
}
