ghost use Rattle.std.specs.Prelude.{◌≡◌};
ghost use Rattle.bdb_survey.specs.of_format.Terms.{is_asked};
ghost use Rattle.bdb_homes.specs.Fits.{bucket_asked, fits_by, meets};

use crate::face::Face;
use bdb_graph::{PageType, has_type};
use std::marker::Model;

/// What a reference asks of its target: one of these types, or a zero page; a level; a previous page.
#[derive(Drop)]
pub(crate) struct Asked {
    pub(crate) types: &'static [u8],
    pub(crate) or_zero: bool,
    pub(crate) level: Option<u8>,
    pub(crate) previous: Option<u32>,
}

impl Model for Asked {
    ghost use Rattle.bdb_survey.specs.of_format.Terms.{Asked as AnyAsked};

    ghost Value = { AnyAsked };

    ghost view = { λ v. record { types = v.types.now; or_zero = v.or_zero; level = v.level; previous = v.previous } };
}

fn is_level(asked: Option<u8>, level: u8) -> bool
    ensures { result ≡ is_asked asked level }
{
    match asked {
        Some(asked) => asked == level,
        None => true,
    }
}

fn is_previous(asked: Option<u32>, previous: u32) -> bool
    ensures { result ≡ is_asked asked previous }
{
    match asked {
        Some(asked) => asked == previous,
        None => true,
    }
}

impl Asked {
    /// What a table asks of the first page of a bucket.
    pub(crate) fn bucket() -> Asked
        ensures { result ≡ bucket_asked }
    {
        Asked {
            types: &[PageType::UNSORTED_HASH, PageType::HASH],
            or_zero: true,
            level: None,
            previous: Some(0),
        }
    }

    fn meets(&self, face: &Face) -> bool
        ensures { result ≡ meets self.now face.now }
    {
        (has_type(self.types, face.page_type) || (self.or_zero && face.is_zero))
            && is_level(self.level, face.level)
            && is_previous(self.previous, face.previous)
    }

    /// Whether a page that is there and isn't page 0 has what is asked.
    pub(crate) fn fits(&self, faces: &[Face], page: u32) -> bool
        ensures { result ≡ fits_by faces.now self.now page }
    {
        page != 0 && (page as usize) < faces.len() && self.meets(&faces[page as usize])
    }
}
