ghost use Rattle.std.specs.Prelude.{◌≡◌, ◌<◌, IfOk, map};
ghost use Rattle.std.specs.List.{range_with_len};
ghost use Rattle.std.specs.Option.{is_some, option_map};
ghost use Rattle.bdb_rescue.specs.Kept.{file_in};
ghost use Rattle.bdb_rescue.specs.of_format.Terms.{master_in, page_at};
ghost use Rattle.bdb_rescue.specs.of_image.Metas.{meta_seen};
ghost use Rattle.bdb_apart.specs.Found.{is_alone};
ghost use Rattle.bdb_apart.specs.Given.{above, meta_at};
ghost use Rattle.bdb_apart.specs.Kept.{alone_in, names_in};

use crate::holds::{is_pair_kind, kind_of};
use bdb_homes::{Home, Meta, PageHomes};
use bdb_rescue::Salvaged;
use std::alloc::{AllocError, Global};

/// Whether metadata on page 0 are those of the only database.
fn is_alone(meta: &Option<Meta>) -> bool
    ensures { result ≡ alone_in (option_map meta_seen meta.now) }
{
    match meta {
        Some(Meta::Btree(meta)) => !meta.names_databases(),
        Some(Meta::Hash(_)) => true,
        Some(Meta::Queue(_)) | None => false,
    }
}

/// Whether metadata on page 0 are those of a master.
fn is_master(meta: &Option<Meta>) -> bool
    ensures { result ≡ names_in (option_map meta_seen meta.now) }
{
    match meta {
        Some(Meta::Btree(meta)) => meta.names_databases(),
        _ => false,
    }
}

/// Whether page 0 is the metadata of the only database.
pub(crate) fn has_one(salvaged: &Salvaged<'_>) -> bool
    ensures { result ≡ is_alone (page_at (file_in salvaged.now) 0) }
{
    is_alone(&salvaged.pages().meta(0))
}

/// Whether page 0 is the metadata of a master.
#[tactic(auto, using(crate::proofs::KindLemmas::master_page))]
pub(crate) fn has_master(salvaged: &Salvaged<'_>) -> bool
    ensures { result ≡ is_some (master_in (page_at (file_in salvaged.now) 0)) }
{
    is_master(&salvaged.pages().meta(0))
}

/// The metadata page of a home.
pub(crate) fn meta_of(home: Option<Home>) -> Option<u32>
    ensures { result ≡ meta_at home }
{
    match home {
        Some(home) => Some(home.meta),
        None => None,
    }
}

/// The metadata page of the database to which a page may belong, where page 0 is that of the only one, or isn't.
#[tactic(auto, using(crate::proofs::KindLemmas::pair_kind))]
fn above(salvaged: &Salvaged<'_>, homes: &PageHomes<'_>, one: bool, page: u32) -> Option<u32>
    requires homes { homes.now ≡ file_in salvaged.now }
    requires alone { one ≡ is_alone (page_at (file_in salvaged.now) 0) }
    requires there { page < (file_in salvaged.now).count }
    ensures { result ≡ above (file_in salvaged.now) page }
{
    if one && is_pair_kind(kind_of(&salvaged.pages().page(page))) {
        return Some(0);
    }
    meta_of(homes.home(page))
}

/// The same of all pages.
pub(crate) fn aboves(
    alloc: Global,
    salvaged: &Salvaged<'_>,
    homes: &PageHomes<'_>,
) -> Result<Vec<Option<u32>>, AllocError>
    requires { homes.now ≡ file_in salvaged.now }
    ensures { IfOk result (λ aboves. aboves.items ≡ map (above (file_in salvaged.now)) (range_with_len 0 (file_in salvaged.now).count)) }
{
    let count = salvaged.pages().count();
    let one = has_one(salvaged);
    let mut aboves = Vec::with_capacity(alloc, count as usize)?;
    for page in 0..count {
        aboves.push(above(salvaged, homes, one, page))?;
    }
    Ok(aboves)
}
