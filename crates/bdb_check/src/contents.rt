ghost use Rattle.std.specs.Prelude.{◌≡◌, ◌≤◌, ◌==◌, ◌&&◌, IfOk, OnOk, [], is_some};
ghost use Rattle.bdb_recno.specs.of_faults.Notes.{NotesAll, HasJust};
ghost use Rattle.bdb_any_order.specs.declared.rows.Rows.TheVariants.{All, AnyOrder};
ghost use Rattle.bdb_any_order.specs.AnyOrder.{contents_by};
ghost use Rattle.bdb_any_order.specs.Noted.{by_asked, is_asked};
ghost use Rattle.bdb_recno.specs.of_format.Terms.{Meta as MetaPage, database_faults, file_of, master_in, structure_faults};
ghost use Rattle.bdb_recno.specs.of_image.Linked.{HasMetadata};
ghost use Rattle.bdb_recno.specs.of_image.Metas.{meta_seen};

use crate::unordered::Unordered;
use bdb_any_order::{Rows, Which};
use bdb_hash::{Chains, Values, note_contents as note_hash};
use bdb_master::{master_among, note_contents as note_btree};
use bdb_recno::{FaultSink, Linked, Meta, note_contents as note_recno};
use std::alloc::{AllocError, Global};

/// Notes the faults of what the database with this metadata holds. An error means that memory ran out.
fn note_database<'a, F: FaultSink>(
    alloc: Global,
    linked: &Linked<'a>,
    meta: &Meta,
    known: &mut Values<'a>,
    chains: &mut Chains<'a>,
    found: &mut F,
) -> Result<(), AllocError>
    requires meta { HasMetadata (file_of linked.now) (meta_seen meta.now) }
    requires stage { structure_faults (file_of linked.now) ≡ [] }
    requires known { known.old ≡ linked.now }
    requires chains { chains.old ≡ linked.now }
    ensures noted { OnOk result (NotesAll (F.has_noted found.old) (F.has_noted found.new) (database_faults (file_of linked.now) (meta_seen meta.now))) }
    ensures known { known.new ≡ known.old }
    ensures chains { chains.new ≡ chains.old }
{
    match meta {
        Meta::Btree(meta) if !meta.is_recno() => note_btree(linked, meta, known, found),
        Meta::Btree(meta) => note_recno(linked, meta, found),
        Meta::Hash(meta) => note_hash(alloc, linked, meta, chains, found),
        Meta::Queue(_) => Ok(()),
    }
}

/// Whether the metadata on a page is that of the master.
fn is_master(page: u32, meta: Meta) -> bool
    ensures { result ≡ (page == 0 && is_some (master_in (MetaPage (meta_seen meta)))) }
{
    page == 0 && master_among(meta).is_some()
}

/// Whether a database is asked for: the master, or another one.
fn is_asked(which: Which, is_master: bool) -> bool
    ensures { result ≡ is_asked which is_master }
{
    match which {
        Which::Each => true,
        Which::Master => is_master,
        Which::Others => !is_master,
    }
}

/// Notes the faults of those databases that are asked for. What is found of chains that are shared is kept for all of them. An
/// error means that memory ran out.
#[tactic(auto, using(bdb_any_order::proofs::DatabaseLemmas::has_metadata))]
fn note_databases<'a, F: FaultSink>(
    alloc: Global,
    linked: &Linked<'a>,
    which: Which,
    known: &mut Values<'a>,
    chains: &mut Chains<'a>,
    found: &mut F,
) -> Result<(), AllocError>
    requires stage { structure_faults (file_of linked.now) ≡ [] }
    requires known { known.old ≡ linked.now }
    requires chains { chains.old ≡ linked.now }
    ensures noted { OnOk result (NotesAll (F.has_noted found.old) (F.has_noted found.new) (by_asked which (file_of linked.now))) }
    ensures known { known.new ≡ known.old }
    ensures chains { chains.new ≡ chains.old }
{
    for i in 0..linked.metas() {
        let (page, meta) = linked.meta(i);
        if is_asked(which, is_master(page, meta)) {
            note_database(alloc, linked, &meta, known, chains, found)?;
        }
    }
    Ok(())
}

/// Notes the faults of stage 8 that count in any order: those of the master in the sink itself, those of other databases through
/// one that takes no notice of rows of order.
fn note_unordered<'a, F: FaultSink + Drop>(
    alloc: Global,
    linked: &Linked<'a>,
    known: &mut Values<'a>,
    chains: &mut Chains<'a>,
    found: F,
) -> Result<F, AllocError>
    requires stage { structure_faults (file_of linked.now) ≡ [] }
    requires known { known.old ≡ linked.now }
    requires chains { chains.old ≡ linked.now }
    requires begun { F.has_noted found [] }
    ensures { IfOk result (λ found. HasJust (F.has_noted found) (contents_by AnyOrder (file_of linked.now))) }
{
    let mut others = Unordered::before(found);
    note_databases(alloc, linked, Which::Others, known, chains, &mut others)?;
    let mut found = others.into_sink();
    note_databases(alloc, linked, Which::Master, known, chains, &mut found)?;
    Ok(found)
}

/// Notes the faults of stage 8 that count: what the databases hold and breaks their rules. What is found of chains that are shared
/// is kept for all databases. An error means that memory ran out.
pub(crate) fn note_contents<F: FaultSink + Drop>(
    alloc: Global,
    linked: &Linked<'_>,
    rows: Rows,
    found: F,
) -> Result<F, AllocError>
    requires stage { structure_faults (file_of linked.now) ≡ [] }
    requires begun { F.has_noted found [] }
    ensures { IfOk result (λ found. HasJust (F.has_noted found) (contents_by rows (file_of linked.now))) }
{
    let mut known = Values::new(alloc, linked.forest());
    let mut chains = Chains::new(alloc, linked.forest());
    match rows {
        Rows::All => {
            let mut found = found;
            note_databases(
                alloc,
                linked,
                Which::Each,
                &mut known,
                &mut chains,
                &mut found,
            )?;
            Ok(found)
        }
        Rows::AnyOrder => note_unordered(alloc, linked, &mut known, &mut chains, found),
    }
}
