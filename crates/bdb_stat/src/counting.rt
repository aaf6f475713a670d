//! The figures of a file, page by page.
ghost use Rattle.std.specs.Prelude.{◌≡◌, IfOk, Some};
ghost use Rattle.bdb_law_turned.specs.of_format.Terms.{file_of};
ghost use Rattle.bdb_stat.specs.Classes.{class_of, tree_level};
ghost use Rattle.bdb_stat.specs.Figures.{IsStat};

use crate::class::Class;
use crate::classing::class_of;
use crate::figures::Stat;
use crate::marks::Marks;
use crate::unused::unused_on;
use bdb_law_turned::Linked;
use std::alloc::{AllocError, Global};

/// The level of a page of a tree; 0 of a page of another class.
fn tree_level(linked: &Linked<'_>, class: Class, number: u32) -> u8
    requires { Some class ≡ class_of (file_of linked.now) number }
    ensures { result ≡ tree_level (file_of linked.now) number }
{
    match class {
        Class::Internal => linked.page(number).header().level,
        Class::Leaf => linked.page(number).header().level,
        Class::Meta
        | Class::Hash
        | Class::Overflow
        | Class::Free
        | Class::Reserve
        | Class::Queue
        | Class::Tail => 0,
    }
}

/// The figures of a sound file's pages. `image` is the image that `linked` was made of. It takes memory for an eighth of a page. An error means that
/// memory ran out.
pub fn stat(alloc: Global, linked: &Linked<'_>, image: &[u8]) -> Result<Stat, AllocError>
    requires { image.now ≡ linked.now }
    ensures { IfOk result (IsStat (file_of linked.now)) }
{
    let head = linked.head();
    let mut starts = Marks::new(alloc, head.page_size as usize)?;
    let mut stat = Stat::of(head.pages);
    for number in 0..head.pages {
        let class = class_of(linked, number);
        stat.count(class);
        stat.levels = stat.levels.max(tree_level(linked, class, number));
        stat.unused += unused_on(&mut starts, image, &head, number) as u64;
    }
    Ok(stat)
}
