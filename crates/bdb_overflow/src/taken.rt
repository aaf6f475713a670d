ghost use Rattle.std.specs.Prelude.{◌≡◌, ℕ, List};
ghost use Rattle.bdb_graph.specs.of_format.declared.kinds.Order.{Order as PageOrder};
ghost use Rattle.bdb_overflow.specs.Taken.{ArePassedBy, StandsFor, taken_pieces};
ghost use Rattle.bdb_overflow.specs.Whole.{IsLeft};

use bdb_graph::Blanks;

/// Which pages of a chain are pieces: each, or those with data.
#[derive(Drop)]
pub(crate) enum Taken {
    Each,
    /// With the pages that are passed over without a look at them, as far as they are known.
    WithData(Option<Blanks>),
}

impl Taken {
    /// The same once more.
    pub(crate) fn again(&self) -> Taken
        ensures pieces { (pieces : List (List ℕ)) → taken_pieces result pieces ≡ taken_pieces self.now pieces }
        ensures passed { (order : PageOrder) (size : ℕ) (image : List ℕ) → ArePassedBy order size image self.now → ArePassedBy order size image result }
    {
        match self {
            Taken::Each => Taken::Each,
            Taken::WithData(Some(blanks)) => Taken::WithData(blanks.again()),
            Taken::WithData(None) => Taken::WithData(None),
        }
    }

    /// The page from which a chain has the same bytes as from this one, as far as it's known without a look at a page.
    pub(crate) fn past(&self, page: u32) -> u32
        ensures { (order : PageOrder) (size : ℕ) (image : List ℕ) → ArePassedBy order size image self.now → IsLeft order size image page
            → StandsFor order size image page result }
    {
        match self {
            Taken::WithData(Some(blanks)) => blanks.past(page),
            Taken::Each | Taken::WithData(None) => page,
        }
    }
}
