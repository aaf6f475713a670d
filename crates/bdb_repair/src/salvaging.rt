//! `salvage` apart from what is counted.
ghost use Rattle.std.specs.Prelude.{◌≡◌, ◌≢◌, ◌≤◌, ◌^◌, Err, IfOk, IfSome, IsTrue, None, Some, length};
ghost use Rattle.bdb_model.specs.of_format.Terms.{is_page_size};
ghost use Rattle.bdb_rescue.specs.Guesses.{chosen};
ghost use Rattle.bdb_rescue.specs.declared.error.SalvageError.TheVariants.{Memory, NoMeta};

use bdb_model::Steps;
use bdb_rescue::{Guess, SalvageError, Salvaged, salvage};
use std::alloc::Global;
use std::marker::Brand;
use std::sync::ledger::{Blank, Ledger};

// `salvage` with the counter of this ledger.
fn salvage_on<'a, W: Ledger>(
    alloc: Global,
    image: &'a [u8],
    guess: Option<Guess>,
    blank: Blank,
) -> Result<Salvaged<'a>, SalvageError>
    requires name { blank.name ≡ W.name }
    requires parts { blank.parts ≡ W.parts }
    requires one { W.parts ≡ 1 }
    requires size { IfSome guess (λ guess. IsTrue (is_page_size guess.page_size)) }
    requires small { length image.now ≤ 2 ^ 30 }
    ensures guess { IfOk result (λ salvaged. chosen guess image.now ≡ Some salvaged.guess) }
    ensures image { IfOk result (λ salvaged. salvaged.image ≡ image.now) }
    ensures no_meta { result ≡ Err NoMeta → chosen guess image.now ≡ None }
    ensures memory { result ≡ Err Memory → chosen guess image.now ≢ None }
{
    let mut walks = Steps::<W>::new(blank);
    salvage(alloc, image, guess, &mut walks)
}

/// `salvage` with a counter of its own, which nobody reads, for its walks along chains and leaves; so the counter of a caller counts nothing but the
/// pages whose references are read for claims. The errors are those of `salvage`.
pub fn salvage_uncounted<'a>(
    alloc: Global,
    image: &'a [u8],
    guess: Option<Guess>,
) -> Result<Salvaged<'a>, SalvageError>
    requires size { IfSome guess (λ guess. IsTrue (is_page_size guess.page_size)) }
    requires small { length image.now ≤ 2 ^ 30 }
    ensures guess { IfOk result (λ salvaged. chosen guess image.now ≡ Some salvaged.guess) }
    ensures image { IfOk result (λ salvaged. salvaged.image ≡ image.now) }
    ensures no_meta { result ≡ Err NoMeta → chosen guess image.now ≡ None }
    ensures memory { result ≡ Err Memory → chosen guess image.now ≢ None }
{
    salvage_on::<Brand>(alloc, image, guess, Blank::new(1))
}
