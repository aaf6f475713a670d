ghost use Rattle.std.specs.Prelude.{◌≡◌, ◌<◌, [], IfSome, length, option_copied};
ghost use Rattle.bdb_databases.specs.Named.{database_at};
ghost use Rattle.bdb_check.specs.of_image.Linked.{HasMetadata};
ghost use Rattle.bdb_check.specs.of_image.Metas.{meta_seen};
ghost use Rattle.bdb_check.specs.of_format.Terms.{database_faults, databases, faults_of, file_of, head_of, place_of, settings_of, structure_faults};

use crate::{Db, Readable};
use bdb_check::{Head, Linked, Meta, Settings};
use std::marker::Model;

/// A file on which no row of any stage holds, with its databases: those that its master names, in the order of
/// the master's list, or the one on page 0, which has no name. Its keys can be looked up.
#[derive(Drop)]
pub struct Sound<'a> {
    readable: Readable<'a>,
}

impl<'a> Model for Sound<'a> {
    ghost use Rattle.std.specs.Prelude.{◌≡◌, [], List, ℕ};
    ghost use Rattle.bdb_check.specs.of_format.Terms.{faults_of};

    ghost Value = { List ℕ };

    ghost view = { λ v. v.readable };

    ghost invariant = { λ v. faults_of v.readable ≡ [] };
}

impl<'a> Sound<'a> {
    // A file for which all stages are decided, with its databases.
    pub(crate) fn over(readable: Readable<'a>) -> Sound<'a>
        requires { faults_of readable ≡ [] }
        ensures { result ≡ readable.entry }
    {
        Sound { readable }
    }

    /// The same file, as one whose lists and settings are read.
    pub(crate) fn readable(&self) -> &Readable<'a>
        ensures file { result.now ≡ self.now }
        ensures sound { faults_of self.now ≡ [] }
    {
        &self.readable
    }

    /// Its pages. No row of any stage holds for them.
    pub fn linked(&self) -> &Linked<'a>
        ensures pages { result.now ≡ self.now }
        ensures sound { faults_of self.now ≡ [] }
    {
        self.readable.linked()
    }

    /// What page 0 says of the whole file.
    pub fn head(&self) -> Head
        ensures { result ≡ head_of self.now }
    {
        self.readable.head()
    }

    /// How many databases there are.
    pub fn databases(&self) -> u32
        ensures { result ≡ length (databases (file_of self.now)) }
    {
        self.readable.databases()
    }

    /// The database at a place, from 0, in the order of the names.
    pub fn database(&self, i: u32) -> Db
        requires { i < length (databases (file_of self.now)) }
        ensures { result ≡ i }
    {
        self.readable.database(i)
    }

    /// The bytes of a database's name, or `None` for the one database of a file without names.
    pub fn name(&self, db: Db) -> Option<&[u8]>
        requires { db < length (databases (file_of self.now)) }
        ensures { option_copied result ≡ (database_at (file_of self.now) db).name }
    {
        self.readable.name(db)
    }

    /// The settings of a database, as the header of its dump text shows them.
    pub fn settings(&self, db: Db) -> Settings
        requires { db < length (databases (file_of self.now)) }
        ensures { result ≡ settings_of (head_of self.now).page_size (head_of self.now).order (database_at (file_of self.now) db).fields }
    {
        self.readable.settings(db)
    }

    /// The database with a name, or the one without a name; `None` exactly where there is none. It takes no memory.
    pub fn by_name(&self, name: Option<&[u8]>) -> Option<Db>
        ensures place { result ≡ place_of (option_copied name.entry) (databases (file_of self.now)) }
        ensures inside { IfSome result (λ db. db < length (databases (file_of self.now))) }
    {
        self.readable.by_name(name)
    }

    /// The metadata of a database, which keeps the rules of structure and of contents.
    #[tactic(auto, using(bdb_databases::proofs::SoundLemmas::no_contents_at))]
    pub fn meta(&self, db: Db) -> &Meta
        requires { db < length (databases (file_of self.now)) }
        ensures fields { meta_seen result.now ≡ (database_at (file_of self.now) db).fields }
        ensures there { HasMetadata (file_of self.now) (meta_seen result.now) }
        ensures structure { structure_faults (file_of self.now) ≡ [] }
        ensures contents { database_faults (file_of self.now) (meta_seen result.now) ≡ [] }
    {
        self.readable.meta(db)
    }
}
