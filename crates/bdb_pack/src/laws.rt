// Laws of pages that take items.
ghost use Rattle.bdb_pack.specs.Placing.{BegunIsFormed, BegunPagesTakeItems, BegunStays, EntriesAreShared, ItemsArePlaced, RowsBegin};
ghost use Rattle.bdb_pack.specs.Stored.{ImagesAreLater, StoredValuesStand};
ghost use Rattle.bdb_pack.specs.Values.{ChainPagesAreFormed, ChainsAreCounted};

/// An item of any sort that is placed stands at the end of the page's items.
pub fn items_are_placed()
    ensures { ItemsArePlaced }
{}

/// A page that takes an item goes on to take items.
pub fn begun_stays()
    ensures { BegunStays }
{}

/// An entry that is shared is the item two before once more, and the page goes on to take items.
pub fn entries_are_shared()
    ensures { EntriesAreShared }
{}

/// A page that begins has its header and no items, and takes items.
pub fn begun_pages_take_items()
    ensures { BegunPagesTakeItems }
{}

/// A page that takes items has no fault of form, where its number, its level and its entries are right.
pub fn begun_is_formed()
    ensures { BegunIsFormed }
{}

/// A page of a chain is an overflow page with its bytes of the value, and has no fault of form.
pub fn chain_pages_are_formed()
    ensures { ChainPagesAreFormed }
{}

/// A page is begun where no row of its items holds and its high free offset is the least of their offsets, or its end.
pub fn rows_begin()
    ensures { RowsBegin }
{}

/// A chain has as many pages as its bytes fill.
pub fn chains_are_counted()
    ensures { ChainsAreCounted }
{}

/// In each later file the pages of a stored value are a grove of their own, entered by the head of the chain, and hold the value.
pub fn stored_values_stand()
    ensures { StoredValuesStand }
{}

/// The bytes of all pages are the image of a later file, where its page 0 says so.
pub fn images_are_later()
    ensures { ImagesAreLater }
{}
