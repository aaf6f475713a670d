//! The pairs of a hash, in the order of its list: each key with its data.
ghost use Rattle.std.specs.Prelude.{◌≡◌, ◌++◌, [], IfOk, OnOk, map};
ghost use Rattle.std.specs.List.{flat_map};
ghost use Rattle.bdb_file.specs.of_buckets.Chained.{AreOf};
ghost use Rattle.bdb_file.specs.of_buckets.Told.{listed_told};
ghost use Rattle.bdb_file.specs.of_image.Linked.{HasMetadata};
ghost use Rattle.bdb_model.specs.of_format.Terms.{HashFields, database_faults, file_of, list_of, structure_faults};
ghost use Rattle.bdb_onto.specs.Bases.{text_pair};
ghost use Rattle.bdb_tool_build.specs.Gathered.{AddsEnough, IsEnough};

use crate::gathered::Gatherer;
use bdb_file::{Linked, TablePairs, pairs_in_order};
use bdb_model::TextPairs;
use bdb_onto::Beside;
use bdb_ranks::HashMeta;
use std::alloc::{AllocError, Global};

// Adds pairs of a hash, but for those that a section replaces.
#[tactic(auto, using(crate::proofs::EnoughLemmas::listing_begins))]
fn push_pairs<'a>(
    pairs: TablePairs<'a>,
    all: &mut Gatherer<'a>,
    beside: &Beside<'_>,
) -> Result<(), AllocError>
    requires { AreOf all.old.image pairs }
    ensures { OnOk result (AddsEnough beside.now all.old.gathered.pairs all.new.gathered.pairs (map text_pair (flat_map listed_told pairs.entry))) }
{
    for pair in pairs {
        all.push_table_pair(pair, beside)?;
    }
    Ok(())
}

/// The pairs of a hash with this metadata, as if they stood in a text without numbers of lines, but for those that a section replaces.
pub(crate) fn table_pairs(
    alloc: Global,
    linked: &Linked<'_>,
    meta: &HashMeta,
    beside: &Beside<'_>,
) -> Result<TextPairs, AllocError>
    requires meta { HasMetadata (file_of linked.now) (HashFields meta.now) }
    requires stage { structure_faults (file_of linked.now) ≡ [] }
    requires contents { database_faults (file_of linked.now) (HashFields meta.now) ≡ [] }
    ensures { IfOk result (IsEnough beside.now (map text_pair (list_of (file_of linked.now) (HashFields meta.now)))) }
{
    let pairs = pairs_in_order(alloc, linked, meta)?;
    let mut all = Gatherer::new(alloc, linked.forest())?;
    push_pairs(pairs, &mut all, beside)?;
    Ok(all.into_pairs())
}
