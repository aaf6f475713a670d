ghost use Rattle.std.specs.Prelude.{◌≡◌, ◌<◌, [], IfSome, length, option_copied};
ghost use Rattle.bdb_any_order.specs.declared.rows.Rows.TheVariants.{AnyOrder};
ghost use Rattle.bdb_any_order.specs.AnyOrder.{faults_by_rows};
ghost use Rattle.bdb_databases.specs.Named.{IsReadable, database_at};
ghost use Rattle.bdb_recno.specs.of_image.Linked.{HasMetadata};
ghost use Rattle.bdb_recno.specs.of_image.Metas.{meta_seen};
ghost use Rattle.bdb_recno.specs.of_format.Terms.{databases, file_of, head_of, place_of, settings_of, structure_faults};

use crate::Db;
use crate::named::NamedMeta;
use bdb_recno::{Head, Linked, Meta, Settings};
use std::marker::Model;

/// A file whose databases can be read, whatever order its keys and data stand in: no row that counts in any order holds on it. Its
/// databases are those that its master names, in the order of the master's list, or the one on page 0, which has no name.
#[derive(Drop)]
pub struct Readable<'a> {
    linked: Linked<'a>,
    databases: Vec<NamedMeta>,
}

impl<'a> Model for Readable<'a> {
    ghost use Rattle.std.specs.Prelude.{List, ℕ};
    ghost use Rattle.bdb_databases.specs.Named.{IsReadable};

    ghost Value = { List ℕ };

    ghost view = { λ v. v.linked };

    ghost invariant = { λ v. IsReadable v.linked v.databases.items };
}

impl<'a> Readable<'a> {
    /// A file for which all stages are decided, with its databases.
    pub fn over(linked: Linked<'a>, databases: Vec<NamedMeta>) -> Readable<'a>
        requires { IsReadable linked databases.items }
        ensures { result ≡ linked.entry }
    {
        Readable { linked, databases }
    }

    /// Its pages. No row that counts in any order holds for them.
    pub fn linked(&self) -> &Linked<'a>
        ensures pages { result.now ≡ self.now }
        ensures counted { faults_by_rows AnyOrder self.now ≡ [] }
    {
        &self.linked
    }

    /// What page 0 says of the whole file.
    pub fn head(&self) -> Head
        ensures { result ≡ head_of self.now }
    {
        self.linked.head()
    }

    /// How many databases there are.
    #[tactic(auto, using(crate::proofs::CountedLemmas::few_databases))]
    pub fn databases(&self) -> u32
        ensures { result ≡ length (databases (file_of self.now)) }
    {
        prove!(self.databases.len() <= self.linked.head().last as usize + 1);
        self.databases.len() as u32
    }

    /// The database at a place, from 0, in the order of the master's list.
    pub fn database(&self, i: u32) -> Db
        requires { i < length (databases (file_of self.now)) }
        ensures { result ≡ i }
    {
        Db::at(i)
    }

    /// The bytes of a database's name, or `None` for the one database of a file without names.
    pub fn name(&self, db: Db) -> Option<&[u8]>
        requires { db < length (databases (file_of self.now)) }
        ensures { option_copied result ≡ (database_at (file_of self.now) db).name }
    {
        self.named(db).name()
    }

    /// The settings of a database, as the header of its dump text shows them.
    pub fn settings(&self, db: Db) -> Settings
        requires { db < length (databases (file_of self.now)) }
        ensures { result ≡ settings_of (head_of self.now).page_size (head_of self.now).order (database_at (file_of self.now) db).fields }
    {
        let head = self.head();
        self.named(db).meta().settings(head.page_size, head.order)
    }

    /// The database with a name, or the one without a name; `None` exactly where there is none. The names are looked at one by one,
    /// and it takes no memory.
    #[tactic(auto, using(crate::proofs::PlaceLemmas::place_found, crate::proofs::PlaceLemmas::place_later, crate::proofs::PlaceLemmas::place_none))]
    pub fn by_name(&self, name: Option<&[u8]>) -> Option<Db>
        ensures place { result ≡ place_of (option_copied name.entry) (databases (file_of self.now)) }
        ensures inside { IfSome result (λ db. db < length (databases (file_of self.now))) }
    {
        for i in 0..self.databases() {
            let db = Db::at(i);
            if self.named(db).has_name(name) {
                return Some(db);
            }
        }
        None
    }

    /// The metadata of a database, which keeps the rules of structure.
    #[tactic(auto, using(crate::proofs::SoundLemmas::has_metadata_at, bdb_any_order::proofs::RowsLemmas::structure_kept))]
    pub fn meta(&self, db: Db) -> &Meta
        requires { db < length (databases (file_of self.now)) }
        ensures fields { meta_seen result.now ≡ (database_at (file_of self.now) db).fields }
        ensures there { HasMetadata (file_of self.now) (meta_seen result.now) }
        ensures structure { structure_faults (file_of self.now) ≡ [] }
    {
        self.named(db).meta()
    }

    fn named(&self, db: Db) -> &NamedMeta
        requires { db < length (databases (file_of self.now)) }
        ensures database { result.now ≡ database_at (file_of self.now) db }
        ensures counted { faults_by_rows AnyOrder self.now ≡ [] }
    {
        &self.databases[db.place() as usize]
    }
}
