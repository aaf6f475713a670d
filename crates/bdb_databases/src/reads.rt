ghost use Rattle.std.specs.Prelude.{◌≡◌, ◌<◌, IfOk, length};
ghost use Rattle.bdb_databases.specs.Named.{database_at};
ghost use Rattle.bdb_recno.specs.of_format.Terms.{data_under, databases, file_of, list_of};

use crate::listing::scan_of;
use crate::under::{Under, has_records, key_sought};
use crate::{Db, Found, Readable, Scan};
use std::alloc::{AllocError, Global};

impl<'a> Readable<'a> {
    /// The list of a database: its live pairs in order. Of a hash it takes memory for each pair, of other
    /// kinds none. An error means that memory ran out.
    #[tactic(auto, using(crate::proofs::ReadableLemmas::has_new_keys))]
    pub fn scan(&self, alloc: Global, db: Db) -> Result<Scan<'a>, AllocError>
        requires { db < length (databases (file_of self.now)) }
        ensures { IfOk result (λ scan. scan ≡ list_of (file_of self.now) (database_at (file_of self.now) db).fields) }
    {
        scan_of(alloc, self.linked(), self.meta(db))
    }

    /// The data that a database has under a key, in order; none if the key isn't there. The list is gone over, so its keys may
    /// stand in any order. For records the key is the number, in one to ten decimal digits. An error means that memory ran out.
    #[tactic(auto, using(crate::proofs::UnderLemmas::under_key))]
    pub fn find(&self, alloc: Global, db: Db, key: &[u8]) -> Result<Found<'a>, AllocError>
        requires { db < length (databases (file_of self.now)) }
        ensures { IfOk result (λ found. found ≡ data_under (file_of self.now) (database_at (file_of self.now) db).fields key.now) }
    {
        let sought = key_sought(alloc, has_records(self.meta(db)), key)?;
        let list = self.scan(alloc, db)?;
        Ok(Found::under(Under::of(list, sought)))
    }
}
