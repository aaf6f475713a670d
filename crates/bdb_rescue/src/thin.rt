ghost use Rattle.std.specs.Prelude.{◌≡◌, ◌++◌, IfOk, OnOk};
ghost use Rattle.bdb_text_format.specs.of_format.Terms.{joined};
ghost use Rattle.bdb_rescue.specs.Kept.{IsTable, bytes_in, thin_from};

use crate::tables::Table;
use bdb_survey::{Pieces, Survey};
use std::alloc::{AllocError, Global};

/// Adds the bytes of pieces.
fn push_pieces(bytes: &mut Vec<u8>, pieces: Pieces<'_>) -> Result<(), AllocError>
    ensures { OnOk result (bytes.new.items ≡ bytes.old.items ++ joined pieces.entry) }
{
    for piece in pieces {
        bytes.extend_from_slice(piece)?;
    }
    Ok(())
}

/// The same where there are some.
fn push_thin(bytes: &mut Vec<u8>, pieces: Option<Pieces<'_>>) -> Result<(), AllocError>
    ensures { OnOk result (bytes.new.items ≡ bytes.old.items ++ bytes_in pieces.entry) }
{
    match pieces {
        Some(pieces) => push_pieces(bytes, pieces),
        None => Ok(()),
    }
}

/// The bytes of the whole chains that have fewer bytes than pages, each chain's together, in the order of their heads: such a chain is walked once,
/// however many items name it. They are fewer than the pages.
pub(crate) fn thin_table(alloc: Global, survey: &Survey<'_>) -> Result<Table<u8>, AllocError>
    ensures { IfOk result (λ table. IsTable (thin_from survey.now) survey.now.count table.bounds.items table.all.items) }
{
    let mut thin = Table::new(alloc)?;
    for page in 0..survey.pages().count() {
        push_thin(&mut thin.all, survey.thin_pieces(page))?;
        thin.end_page()?;
    }
    Ok(thin)
}
