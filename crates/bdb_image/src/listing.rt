ghost use Rattle.std.specs.Prelude.{◌≡◌, ◌^◌, ◌<◌, ℕ, []};
ghost use Rattle.std.specs.Iterator.{YieldsFirst, item_count};
ghost use Rattle.bdb_slots.specs.of_form.Seen.{page_seen};
ghost use Rattle.bdb_image.specs.Buckets.{IsApart};
ghost use Rattle.bdb_slots.specs.Plain.{IsPlain};
ghost use Rattle.bdb_slots.specs.Slots.{HasRoom, IsNoMetadata, names_from, placed};
ghost use Rattle.bdb_faults.specs.of_format.Terms.{BtreeFields, HashFields, Meta, first_free, targets_in, unless_zero};
ghost use Rattle.bdb_faults.specs.of_format.declared.references.Sort.TheVariants.{Free};

use crate::buckets::Buckets;
use bdb_faults::{BtreeMeta, HashMeta, Reference, Sort};
use bdb_slots::{PageView, Source};
use std::marker::Model;

/// The references that a page holds, in order.
#[derive(Drop)]
pub struct References<'a> {
    source: Source<'a>,
    slot: u32,
    place: u32,
}

impl<'a> Model for References<'a> {
    ghost use Rattle.std.specs.Prelude.{List};
    ghost use Rattle.bdb_faults.specs.of_format.declared.references.Reference.{Reference};
    ghost use Rattle.bdb_slots.specs.Slots.{HasPlace, names_from, placed};

    ghost Value = { List Reference };

    ghost view = { λ it. placed it.place (names_from it.source it.slot) };

    ghost invariant = { λ it. HasPlace it.source it.slot it.place };
}

impl<'a> References<'a> {
    /// No reference.
    #[tactic(auto, using(bdb_slots::proofs::SourceLemmas::of_nothing))]
    pub fn none() -> References<'a>
        ensures { result ≡ [] }
    {
        References::over(Source::Nothing)
    }

    /// The references of a page that isn't metadata.
    pub(crate) fn of_view(view: PageView<'a>) -> References<'a>
        requires { IsNoMetadata view }
        ensures { (p : ℕ) → result ≡ placed 0 (targets_in p (page_seen view.entry)) }
    {
        References::over(Source::of_view(view))
    }

    /// The same of a page whose items name none: they aren't gone over.
    pub(crate) fn of_plain(view: PageView<'a>) -> References<'a>
        requires other { IsNoMetadata view }
        requires plain { IsPlain (page_seen view) }
        ensures { (p : ℕ) → result ≡ placed 0 (targets_in p (page_seen view.entry)) }
    {
        References::over(Source::of_plain(view))
    }

    /// The references of btree metadata on page `p`: the first free page, which page 0 alone names, and the root.
    #[tactic(auto, using(bdb_slots::proofs::SourceLemmas::of_tree))]
    pub(crate) fn of_btree(p: u32, meta: &BtreeMeta) -> References<'a>
        ensures { result ≡ placed 0 (targets_in p (Meta (BtreeFields meta.now))) }
    {
        let free = first_free(p, meta.free);
        References::over(Source::Tree {
            free,
            root: meta.root,
        })
    }

    /// The references of hash metadata on page `p`: the first free page, which page 0 alone names, and the buckets.
    #[tactic(auto, using(bdb_slots::proofs::SourceLemmas::of_table))]
    pub(crate) fn of_hash(p: u32, meta: &HashMeta) -> References<'a>
        requires { meta.now.max_bucket < 2 ^ 31 }
        ensures { result ≡ placed 0 (targets_in p (Meta (HashFields meta.now))) }
    {
        let free = first_free(p, meta.free);
        References::over(Source::Table {
            free,
            max_bucket: meta.max_bucket,
            spares: meta.spares,
        })
    }

    /// The references one by one, but for those to the buckets of a table, which stand behind all others. They are apart
    /// only before the first one is taken.
    #[tactic(auto, using(crate::proofs::ApartLemmas::none_apart))]
    pub fn apart(self) -> (References<'a>, Option<Buckets>)
        ensures { IsApart self.entry result.0 result.1 }
    {
        match self.source {
            Source::Table {
                free,
                max_bucket,
                spares,
            } if self.slot == 0 => (
                References::over(Source::Next(Sort::Free, free)),
                Some(Buckets { max_bucket, spares }),
            ),
            _ => (self, None),
        }
    }

    // The references of all slots.
    fn over(source: Source<'a>) -> References<'a>
        requires { HasRoom source }
        ensures { result ≡ placed 0 (names_from source.entry 0) }
    {
        References {
            source,
            slot: 0,
            place: 0,
        }
    }
}

// The first free page of the file, which page 0 alone names.
fn first_free(p: u32, free: u32) -> u32
    ensures { unless_zero Free result ≡ first_free p free }
{
    if p == 0 { free } else { 0 }
}

impl<'a> Iterator for References<'a> {
    type Item = Reference;

    ghost next_gives = { YieldsFirst (λ left. left) };

    ghost remaining = { item_count (λ left. left) };

    fn next(&mut self) -> Option<Reference> {
        let ((sort, target), after) = self.source.first_from(self.slot)?;
        let place = self.place;
        self.slot = after;
        self.place = place + 1;
        Some(Reference {
            place,
            sort,
            target,
        })
    }
}
