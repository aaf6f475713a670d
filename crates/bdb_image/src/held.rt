ghost use Rattle.std.specs.Prelude.{◌≡◌, ◌≢◌, ◌+◌, ◌^◌, ◌<◌, ◌≤◌, IsTrue, None, length, true};
ghost use Rattle.bdb_slots.specs.Plain.{IsPlain, IsPlainIn};
ghost use Rattle.bdb_slots.specs.Slots.{placed};
ghost use Rattle.bdb_faults.specs.of_format.Terms.{abstract_page, byte_at, file_of, form_code, is_page_size, page_code, refs, targets_in, targets_of};
ghost use Rattle.bdb_faults.specs.of_format.declared.metadata.FileKind.TheVariants.{Queue};

use crate::meta::meta_on;
use crate::{Formed, Meta, References};
use bdb_faults::{FileKind, Head, Order, Steps};
use bdb_slots::known_form;
use std::sync::ledger::Ledger;

/// The references that a page holds, in order: one step, whatever they are. No memory is taken. No other
/// function reads the references of a page.
pub fn references<'a, L: Ledger>(
    formed: &Formed<'a>,
    page: u32,
    steps: &mut Steps<L>,
) -> References<'a>
    requires { page ≤ (file_of formed.now).last }
    ensures list { result ≡ refs (file_of formed.now) page }
    ensures cost { steps.new ≡ steps.old + 1 }
{
    steps.tick();
    references_of(formed, page)
}

/// The references that a page holds, without a step.
#[tactic(auto, using(crate::proofs::HeldLemmas::refs_of_page))]
fn references_of<'a>(formed: &Formed<'a>, page: u32) -> References<'a>
    requires { page ≤ (file_of formed.now).last }
    ensures { result ≡ refs (file_of formed.now) page }
{
    let head = formed.head();
    held_by(formed.page_bytes(page), &head, page, formed.is_plain())
}

/// The references of a page without a fault of form, whose items are known to name none where it is plain. A queue file
/// holds none.
fn held_by<'a>(page: &'a [u8], head: &Head, number: u32, plain: bool) -> References<'a>
    requires size { IsTrue (is_page_size (length page.now)) }
    requires last { head.now.last < 2 ^ 21 }
    requires form { form_code head.now number page.now ≡ None }
    requires plain { plain ≡ true → IsPlainIn head.now page.now }
    ensures { result ≡ placed 0 (targets_of head.now.kind number (abstract_page head.now.order page.now)) }
{
    match head.kind {
        FileKind::Btree | FileKind::Hash => held_in_forest(page, head, number, plain),
        FileKind::Queue => References::none(),
    }
}

/// The references of a page of a btree or hash file.
#[tactic(auto, using(crate::proofs::MetaLemmas::held_fields))]
fn held_in_forest<'a>(page: &'a [u8], head: &Head, number: u32, plain: bool) -> References<'a>
    requires size { IsTrue (is_page_size (length page.now)) }
    requires last { head.now.last < 2 ^ 21 }
    requires form { form_code head.now number page.now ≡ None }
    requires forest { head.now.kind ≢ Queue }
    requires plain { plain ≡ true → IsPlain (abstract_page head.now.order page.now) }
    ensures { result ≡ placed 0 (targets_in number (abstract_page head.now.order page.now)) }
{
    match meta_on(page, head.order) {
        Some(Meta::Hash(meta)) => References::of_hash(number, &meta),
        Some(Meta::Btree(meta)) => References::of_btree(number, &meta),
        Some(Meta::Queue(_)) => References::none(),
        None => held_by_other(page, head.order, number, plain),
    }
}

/// The references of a page that isn't metadata.
#[tactic(auto, using(crate::proofs::HeldLemmas::no_metadata))]
fn held_by_other<'a>(page: &'a [u8], order: Order, number: u32, plain: bool) -> References<'a>
    requires size { IsTrue (is_page_size (length page.now)) }
    requires form { page_code order number page.now ≡ None }
    requires table { byte_at page.now 25 ≢ 8 }
    requires tree { byte_at page.now 25 ≢ 9 }
    requires plain { plain ≡ true → IsPlain (abstract_page order page.now) }
    ensures { result ≡ placed 0 (targets_in number (abstract_page order page.now)) }
{
    let view = known_form(page, number, order);
    if plain {
        References::of_plain(view)
    } else {
        References::of_view(view)
    }
}
