ghost use Rattle.std.specs.Prelude.{◌≡◌, ◌∷◌, ◌≤◌, ◌<◌, ◌^◌, IfOk, IsTrue, List, length};
ghost use Rattle.std.specs.List.{All};
ghost use Rattle.bdb_places.specs.of_format.Terms.{is_page_size};
ghost use Rattle.bdb_pack.specs.Built.{bytes_of};
ghost use Rattle.bdb_places.specs.Places.{values_seen};
ghost use Rattle.bdb_mkleaves.specs.LeafEntries.{room_of};
ghost use Rattle.bdb_mkleaves.specs.Runs.{ArePairsPut, HasWholePairs, IsShort, pairs_cost};
ghost use Rattle.bdb_mkleaves.specs.declared.leaf_type.LeafType.TheVariants.{Pairs};

use crate::leaves::Leaves;
use bdb_pack::Pages;
use bdb_places::Values;
use std::alloc::AllocError;

impl Leaves {
    /// Puts a key with its data on the last leaf: the data share the key.
    pub(crate) fn put_pairs(
        &self,
        pages: &mut Pages,
        key: &[u8],
        first: &[u8],
        more: Values<'_>,
    ) -> Result<(), AllocError>
        requires key { IsShort key.now }
        requires first { IsShort first.now }
        requires more { All IsShort (values_seen more) }
        requires leaves { HasWholePairs self.now pages.old }
        requires legal { IsTrue (is_page_size pages.old.size) }
        requires room { pairs_cost pages.old.size key.now first.now (values_seen more) ≤ room_of pages.old.order (bytes_of pages.old self.now.last) }
        ensures { IfOk result (λ _. ArePairsPut self.now pages.old pages.new key.now first.now (values_seen more.entry)) }
    {
        self.put(pages, key, false)?;
        self.put(pages, first, false)?;
        for i in 0..more.len() {
            self.append_shared_key(pages);
            self.put(pages, more.at(i), false)?;
        }
        Ok(())
    }
}
