ghost use Rattle.std.specs.Prelude.{Some, IsSome, is_some, [], ◌≡◌, ◌<◌, IfSome, MatchOption, length};
ghost use Rattle.std.specs.Iterator.{YieldsFirstBy, item_count};
ghost use Rattle.std.specs.Option.{option_map, unwrap_or};
ghost use Rattle.bdb_format.specs.Terms.{blocks_of};
ghost use Rattle.bdb_layout.specs.Blocks.{BeginsNoBlock, GoesOn, run_in};

use crate::{PageBytes, u16_at};
use bdb_format::Order;
use std::marker::Model;

/// The data of a set on its page, in order, as slices of the page.
#[derive(Drop)]
pub struct DupBlocks<'a> {
    rest: PageBytes<'a>,
}

impl<'a> Model for DupBlocks<'a> {
    ghost use Rattle.std.specs.Prelude.{[], IsSome};
    ghost use Rattle.std.specs.Option.{unwrap_or};
    ghost use Rattle.bdb_format.specs.Terms.{blocks_of};
    ghost use Rattle.bdb_layout.specs.Blocks.{BlockRun, run_in};

    ghost Value = { BlockRun };

    ghost view = { λ it. run_in it.rest.order (unwrap_or (blocks_of it.rest.order it.rest.bytes.now) []) };

    ghost invariant = { λ it. IsSome (blocks_of it.rest.order it.rest.bytes.now) };
}

impl<'a> DupBlocks<'a> {
    /// The set that a run of blocks is, or `None` exactly where the bytes aren't a run in that order.
    pub fn over(blocks: &'a [u8], order: Order) -> Option<DupBlocks<'a>>
        ensures { result ≡ option_map (run_in order) (blocks_of order blocks.now) }
    {
        if is_run(blocks, order) {
            Some(DupBlocks::known(blocks, order))
        } else {
            None
        }
    }

    // The set that bytes are which are known to be a run of blocks.
    pub(crate) fn known(blocks: &'a [u8], order: Order) -> DupBlocks<'a>
        requires { IsSome (blocks_of order blocks.now) }
        ensures { result ≡ run_in order (unwrap_or (blocks_of order blocks.now) []) }
    {
        DupBlocks {
            rest: PageBytes {
                bytes: blocks,
                order,
            },
        }
    }

    /// The bytes of the blocks that are left, as they stand on the page.
    pub fn bytes(&self) -> &'a [u8]
        ensures { blocks_of self.now.order result.now ≡ Some self.now.blocks }
    {
        self.rest.bytes
    }

    /// The blocks that are left, once more.
    pub fn again(&self) -> DupBlocks<'a>
        ensures { result ≡ self.now }
    {
        DupBlocks { rest: self.rest }
    }
}

impl<'a> Iterator for DupBlocks<'a> {
    type Item = &'a [u8];

    ghost next_gives = { YieldsFirstBy (λ block. block.now) (λ left. left.blocks) };

    ghost remaining = { item_count (λ left. left.blocks) };

    fn next(&mut self) -> Option<&'a [u8]> {
        let (block, rest) = first_block(self.rest.bytes, self.rest.order)?;
        self.rest.bytes = rest;
        Some(block)
    }
}

// Whether bytes are a run of blocks.
#[tactic(auto, using(crate::proofs::BlockLemmas::run_ends))]
pub(crate) fn is_run(bytes: &[u8], order: Order) -> bool
    ensures { result ≡ is_some (blocks_of order bytes.now) }
{
    let mut rest = bytes;
    while let Some((_, after)) = first_block(rest, order) {
        rest = after;
    }
    rest.is_empty()
}

// The first block of a run and what comes after it, where a block is complete.
fn first_block(run: &[u8], order: Order) -> Option<(&[u8], &[u8])>
    ensures block { MatchOption result (BeginsNoBlock order run.now) (λ parts. GoesOn order run.now parts.0.now parts.1.now) }
    ensures shorter { IfSome result (λ parts. length parts.1.now < length run.now) }
{
    if run.len() < 4 {
        return None;
    }
    let size = usize::from(u16_at(run, 0, order));
    if run.len() < size + 4 || usize::from(u16_at(run, size + 2, order)) != size {
        return None;
    }
    Some((&run[2..2 + size], &run[size + 4..]))
}
