ghost use Rattle.std.specs.Prelude.{◌≡◌, ◌<◌, ◌≤◌, ◌+◌, IfOk, length};
ghost use Rattle.bdb_databases.specs.Lookup.{most_steps};
ghost use Rattle.bdb_databases.specs.Named.{database_at};
ghost use Rattle.bdb_check.specs.of_format.Terms.{data_under, databases, file_of, list_of};

use crate::{Db, Found, Scan, Sound};
use bdb_check::Steps;
use bdb_databases::found_in;
use std::alloc::{AllocError, Global};
use std::sync::ledger::Ledger;

impl<'a> Sound<'a> {
    /// The list of a database: its live pairs, by key or by record number. Of a hash it takes memory for each pair, of other kinds none. An error
    /// means that memory ran out.
    pub fn scan(&self, alloc: Global, db: Db) -> Result<Scan<'a>, AllocError>
        requires { db < length (databases (file_of self.now)) }
        ensures { IfOk result (λ scan. scan ≡ list_of (file_of self.now) (database_at (file_of self.now) db).fields) }
    {
        self.readable().scan(alloc, db)
    }

    /// The data that a database has under a key, in order; none if the key isn't there. For records the key is the number, in one to ten decimal
    /// digits. It takes no memory, and one step for each page of the tree, the bucket or the queue that it reads.
    pub fn get<L: Ledger>(&self, db: Db, key: &[u8], steps: &mut Steps<L>) -> Found<'a>
        requires { db < length (databases (file_of self.now)) }
        ensures found { result ≡ data_under (file_of self.now) (database_at (file_of self.now) db).fields key.now }
        ensures cost { steps.new ≤ steps.old + most_steps (file_of self.now) (database_at (file_of self.now) db).fields }
    {
        found_in(self.linked(), self.meta(db), key, steps)
    }
}
