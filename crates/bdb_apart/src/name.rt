ghost use Rattle.std.specs.Prelude.{◌≡◌, ◌++◌, IfOk, codes};
ghost use Rattle.std.specs.Fmt.{decimal};
ghost use Rattle.bdb_rescue.specs.of_overflow.Datum.{datum_seen};

use bdb_rescue::{Bytes, Datum, compare_datum};
use itoa::Buffer;
use std::alloc::{AllocError, Global};
use std::cmp::Ordering;
use std::marker::Model;

/// Where a name stands: it's the key of an entry, or says the page.
#[derive(Drop)]
enum Label<'s> {
    Key(Datum<'s>),
    Page(Bytes),
}

/// The name of a database.
#[derive(Drop)]
pub(crate) struct Name<'s> {
    label: Label<'s>,
}

impl<'s> Model for Name<'s> {
    ghost use Rattle.std.specs.Prelude.{List, ℕ};
    ghost use Rattle.bdb_apart.specs.Names.{label_seen};

    ghost Value = { List ℕ };

    ghost view = { λ v. label_seen v.label };
}

impl<'s> Name<'s> {
    /// The key of an entry.
    pub(crate) fn key(key: Datum<'s>) -> Name<'s>
        ensures { result ≡ datum_seen key.entry }
    {
        Name {
            label: Label::Key(key),
        }
    }

    /// The name of a page that no entry names.
    pub(crate) fn page(alloc: Global, page: u32) -> Result<Name<'s>, AllocError>
        ensures { IfOk result (λ name. name ≡ codes "page " ++ decimal page) }
    {
        let mut bytes = Bytes::new(alloc);
        let mut buffer = Buffer::new();
        bytes.push_all(b"page ")?;
        bytes.push_all(buffer.format(page).as_bytes())?;
        Ok(Name {
            label: Label::Page(bytes),
        })
    }

    /// Its bytes.
    pub(crate) fn datum<'t>(&'t self) -> Datum<'t>
        ensures { datum_seen result ≡ self.now }
    {
        match &self.label {
            Label::Key(key) => key.again(),
            Label::Page(bytes) => Datum::Inline(bytes.as_slice()),
        }
    }
}

impl<'s> PartialEq for Name<'s> {
    ghost use Rattle.std.specs.Cmp;
    ghost use Rattle.std.specs.Cmp.Lexicographic.{nat_list_eq_equiv};
    ghost use Rattle.std.specs.Str.{bytes_eq};

    ghost eq = { bytes_eq };

    ghost laws = { Cmp.partial_equiv_from_equiv nat_list_eq_equiv };

    #[tactic(auto, using(crate::proofs::Below::is_same))]
    fn eq(&self, other: &Self) -> bool {
        match compare_datum(&self.datum(), &other.datum()) {
            Ordering::Less => false,
            Ordering::Equal => true,
            Ordering::Greater => false,
        }
    }
}

impl<'s> Eq for Name<'s> {
    ghost use Rattle.std.specs.Cmp.Lexicographic.{nat_list_eq_equiv};

    ghost laws = { nat_list_eq_equiv };
}

impl<'s> PartialOrd for Name<'s> {
    ghost use Rattle.std.specs.Cmp.Lexicographic.{slice_cmp, texts_po};
    ghost use Rattle.std.specs.Ordering.{nat_cmp};
    ghost use Rattle.std.specs.Prelude.{Some};

    ghost partial_cmp = { λ x y. Some (slice_cmp nat_cmp x y) };

    ghost laws = { texts_po };

    fn partial_cmp(&self, other: &Self) -> Option<Ordering> {
        Some(self.cmp(other))
    }
}

impl<'s> Ord for Name<'s> {
    ghost use Rattle.std.specs.Cmp.Lexicographic.{nat_list_cmp_total, slice_cmp, texts_ties};
    ghost use Rattle.std.specs.Ordering.{nat_cmp};
    ghost use Rattle.std.proofs.Common.{refl};

    ghost cmp = { slice_cmp nat_cmp };

    ghost total = { nat_list_cmp_total };

    ghost matches_partial_cmp = { λ x y. refl };

    ghost matches_eq = { texts_ties };

    #[tactic(auto, using(crate::proofs::Below::is_order))]
    fn cmp(&self, other: &Self) -> Ordering {
        compare_datum(&self.datum(), &other.datum())
    }
}
