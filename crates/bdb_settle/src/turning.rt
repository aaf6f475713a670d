ghost use Rattle.std.specs.Prelude.{◌≡◌, IfOk, reverse};

use bdb_mktree::{Section, Sections};
use std::alloc::{AllocError, Global};

/// Sections in the other order.
pub(crate) fn turned(alloc: Global, sections: Vec<Section>) -> Result<Sections, AllocError>
    ensures { IfOk result (λ all. all ≡ reverse sections.items) }
{
    let mut sections = sections;
    let mut all = Sections::new(alloc);
    while let Some(section) = sections.pop() {
        all.push(section)?;
    }
    Ok(all)
}
