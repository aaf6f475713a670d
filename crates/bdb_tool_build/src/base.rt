//! The databases of a sound file: all of them without their pairs, and the pairs of one at a time, copied out of it.
ghost use Rattle.std.specs.Prelude.{◌≡◌, ◌<◌, ◌≤◌, ◌^◌, IfErr, IfOk, None, OnOk, is_some, length, map, option_copied};
ghost use Rattle.bdb_file.specs.of_databases.Named.{database_at};
ghost use Rattle.bdb_file.specs.of_faults.Refusals.{IsFirstRefusal};
ghost use Rattle.bdb_model.specs.of_format.Terms.{databases, faults_of, file_of, list_of, master_in, page_at, verdict_of};
ghost use Rattle.bdb_onto.specs.Bare.{bare, bare_of};
ghost use Rattle.bdb_onto.specs.Bases.{IsBase, base_of, base_section, text_pair};
ghost use Rattle.bdb_onto.specs.Onto.{pairs_from, partner_of};
ghost use Rattle.bdb_onto.specs.Replaced.{AreEnough};
ghost use Rattle.bdb_tool_build.specs.Gathered.{IsEnough};

use crate::copied::Rooms;
use crate::table::table_pairs;
use crate::tree::tree_pairs;
use bdb_file::{Db, First, FirstError, Meta, Scan, Sound, sound_by};
use bdb_model::{Bytes, Section, Sections, Steps, TextPairs};
use bdb_onto::{Base, Beside, place_of};
use std::alloc::{AllocError, Global};
use std::sync::ledger::Ledger;

// The same name once more.
fn copied_name(alloc: Global, name: Option<&[u8]>) -> Result<Option<Bytes>, AllocError>
    ensures { IfOk result (λ copy. copy ≡ option_copied name.entry) }
{
    let Some(name) = name else {
        return Ok(None);
    };
    let mut copy = Bytes::new(alloc);
    copy.push_all(name)?;
    Ok(Some(copy))
}

// The pairs of a list, as if they stood in a text without numbers of lines.
fn listed_pairs(alloc: Global, list: &mut Scan<'_>) -> Result<TextPairs, AllocError>
    ensures { IfOk result (λ pairs. pairs ≡ map text_pair list.old) }
{
    let mut rooms = Rooms::new(alloc);
    let mut pairs = TextPairs::new(alloc);
    for (key, value) in list {
        rooms.push(key, value, &mut pairs)?;
    }
    Ok(pairs)
}

// The pairs of a database, by its list.
fn scanned_pairs(alloc: Global, sound: &Sound<'_>, db: Db) -> Result<TextPairs, AllocError>
    requires { db < length (databases (file_of sound.now)) }
    ensures { IfOk result (λ pairs. pairs ≡ map text_pair (list_of (file_of sound.now) (database_at (file_of sound.now) db).fields)) }
{
    match sound.scan(alloc, db) {
        Ok(mut list) => listed_pairs(alloc, &mut list),
        Err(_) => Err(AllocError),
    }
}

// The pairs of a database, but for those that a section replaces: of a btree and a recno leaf by leaf, of a hash pair by pair, so that no key and no chain is
// copied twice.
fn base_pairs(
    alloc: Global,
    sound: &Sound<'_>,
    db: Db,
    beside: &Beside<'_>,
) -> Result<TextPairs, AllocError>
    requires { db < length (databases (file_of sound.now)) }
    ensures { IfOk result (IsEnough beside.now (map text_pair (list_of (file_of sound.now) (database_at (file_of sound.now) db).fields))) }
{
    match sound.meta(db) {
        Meta::Btree(meta) => tree_pairs(alloc, sound.linked(), meta, beside),
        Meta::Hash(meta) => table_pairs(alloc, sound.linked(), meta, beside),
        Meta::Queue(_) => scanned_pairs(alloc, sound, db),
    }
}

// A database as a section without its pairs.
fn bare_section(alloc: Global, sound: &Sound<'_>, db: Db) -> Result<Section, AllocError>
    requires { db < length (databases (file_of sound.now)) }
    ensures { IfOk result (λ section. section ≡ bare (base_section sound.now (database_at (file_of sound.now) db))) }
{
    Ok(Section {
        name: copied_name(alloc, sound.name(db))?,
        settings: sound.settings(db),
        header_line: 0,
        pairs: TextPairs::new(alloc),
    })
}

// All databases, in their order.
fn bare_sections(alloc: Global, sound: &Sound<'_>) -> Result<Sections, AllocError>
    ensures { IfOk result (λ all. all ≡ map bare (map (base_section sound.now) (databases (file_of sound.now)))) }
{
    let mut all = Sections::new(alloc);
    for i in 0..sound.databases() {
        all.push(bare_section(alloc, sound, sound.database(i))?)?;
    }
    Ok(all)
}

// Whether page 0 is the metadata of a master.
fn has_master(sound: &Sound<'_>) -> bool
    ensures { result ≡ is_some (master_in (page_at (file_of sound.now) 0)) }
{
    match sound.linked().forest().meta(0) {
        Some(Meta::Btree(meta)) => meta.names_databases(),
        _ => false,
    }
}

/// The base that a sound file is, without the pairs of its databases.
pub(crate) fn bare_base(alloc: Global, sound: &Sound<'_>) -> Result<Base, AllocError>
    ensures { IfOk result (λ base. base ≡ bare_of (base_of sound.now)) }
{
    let databases = bare_sections(alloc, sound)?;
    let head = sound.head();
    Ok(Base {
        master: has_master(sound),
        page_size: head.page_size,
        order: head.order,
        databases,
    })
}

// The pairs of a database, but for those that a section replaces.
fn pairs_beside(
    alloc: Global,
    sound: &Sound<'_>,
    db: Db,
    section: &Section,
) -> Result<TextPairs, AllocError>
    requires { db < length (databases (file_of sound.now)) }
    ensures { IfOk result (AreEnough section.now.settings section.now.pairs
        (map text_pair (list_of (file_of sound.now) (database_at (file_of sound.now) db).fields))) }
{
    let beside = Beside::of(alloc, section.settings, section.pairs.as_slice())?;
    base_pairs(alloc, sound, db, &beside)
}

// The database at a place.
fn database_of(sound: &Sound<'_>, place: usize) -> Db
    requires { place < length (databases (file_of sound.now)) }
    ensures { result ≡ place }
{
    let count = sound.databases() as usize;
    sound.database(place.min(count) as u32)
}

/// The pairs of the database of a sound file that a section is loaded onto, but for those that the section replaces; none where there is no such database. `base`
/// is the file without pairs, in which the database is sought.
pub(crate) fn partner_pairs(
    alloc: Global,
    sound: &Sound<'_>,
    base: &Base,
    section: &Section,
) -> Result<TextPairs, AllocError>
    requires is_base { IsBase (base_of sound.now) }
    requires bare { base.now ≡ bare_of (base_of sound.now) }
    ensures { IfOk result (AreEnough section.now.settings section.now.pairs (pairs_from (partner_of (base_of sound.now) section.now))) }
{
    match place_of(base, section) {
        Some(place) => pairs_beside(alloc, sound, database_of(sound, place), section),
        None => Ok(TextPairs::new(alloc)),
    }
}

/// A sound file as what a text is loaded onto. `Fault` is the first row that holds, an unsupported case among them; `Memory` means that memory ran out.
pub fn open_base<'a, L: Ledger>(
    alloc: Global,
    image: &'a [u8],
    steps: &mut Steps<L>,
) -> Result<Sound<'a>, FirstError>
    requires small { length image.now ≤ 2 ^ 30 }
    ensures same { IfOk result (λ sound. sound ≡ image.now) }
    ensures base { OnOk result (IsBase (base_of image.now)) }
    ensures sound { OnOk result (verdict_of image.now ≡ None) }
    ensures refused { IfErr result (IsFirstRefusal (faults_of image.now)) }
{
    sound_by::<First, L>(alloc, image, steps)
}
