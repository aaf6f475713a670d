// Laws over the definitions alone.
ghost use Rattle.bdb_format.specs.Terms.{HashItemsReadBack, InternalItemsReadBack, LeafItemsReadBack, RecnoItemsReadBack};

/// An item that is written on a page, at the offset that its entry of the index names, is read from
/// there: that item, in either order of bytes.
pub fn items_read_back()
    ensures leaves { LeafItemsReadBack }
    ensures internal { InternalItemsReadBack }
    ensures recno { RecnoItemsReadBack }
    ensures hash { HashItemsReadBack }
{}
