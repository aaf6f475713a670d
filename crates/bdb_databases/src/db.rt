ghost use Rattle.std.specs.Prelude.{◌≡◌};

use std::marker::Model;

/// A database of a sound file, by its place among them.
#[derive(Clone, Copy, Debug, PartialEq, Eq)]
pub struct Db {
    place: u32,
}

impl Model for Db {
    ghost use Rattle.std.specs.Prelude.{ℕ};

    ghost Value = { ℕ };

    ghost view = { λ it. it.place };

    ghost inverse = { λ n. record { place = n } };
}

impl Db {
    pub(crate) fn at(place: u32) -> Db
        ensures { result ≡ place }
    {
        Db { place }
    }

    pub(crate) fn place(self) -> u32
        ensures { result ≡ self }
    {
        self.place
    }
}
