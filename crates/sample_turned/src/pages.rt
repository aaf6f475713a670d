//! Pages of several types.
ghost use Rattle.std.specs.Prelude.{◌≡◌};
ghost use Rattle.bdb_law_turned.specs.of_format.declared.kinds.Order.TheVariants.{Little};
ghost use Rattle.bdb_law_turned.specs.Turning.{turned_page};
ghost use Rattle.sample_turned.specs.Samples.{chain_page, chain_page_big, inner_page, inner_page_big, queue_page, queue_page_big};
ghost use Rattle.sample_turned.specs.Samples.{set_page, set_page_big, table_metadata, table_metadata_big};

/// Both lengths of each block of a set are byte-swapped, and the key behind it has none.
pub fn set_pages()
    ensures { turned_page Little set_page ≡ set_page_big }
{}

/// All spares are byte-swapped, and bytes 24 to 27 stay.
pub fn table_metadatas()
    ensures { turned_page Little table_metadata ≡ table_metadata_big }
{}

/// A key in a chain has its head and its total.
pub fn inner_pages()
    ensures { turned_page Little inner_page ≡ inner_page_big }
{}

/// The bytes of a value stay.
pub fn chain_pages()
    ensures { turned_page Little chain_page ≡ chain_page_big }
{}

/// Records stay.
pub fn queue_pages()
    ensures { turned_page Little queue_page ≡ queue_page_big }
{}
