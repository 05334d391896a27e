// Blocks: the spans of so many objects together, as one span, so that all of them can be passed over, or taken, at once.
ghost use Rattle.std.specs.Prelude.{◌/◌, ◌≤◌, length};
ghost use Rattle.sheet.specs.Limits.{most};
ghost use Rattle.listing.specs.Spans.{block_size, Blocks, Widened};

use crate::spans::Span;
use sheet::Object;

// The objects of a block, and how many blocks a sheet can have.
pub(crate) const BLOCK: usize = 32;

pub(crate) const BLOCKS: usize = Object::MOST / BLOCK;

// Of two numbers the larger one or the smaller one; the second, where it is the first of its block.
fn widen(larger: bool, first: bool, old: usize, new: usize) -> usize
    ensures { Widened larger first old new result }
{
    if first {
        return new;
    }
    if larger { old.max(new) } else { old.min(new) }
}

// A span of each block. With `near` it is near only where every object of the block is: from the largest of the first numbers to the smallest of
// the second ones. Without, it is apart only where every object is: from the smallest to the largest.
pub(crate) fn fill_blocks(spans: &[Span], n: usize, near: bool, blocks: &mut [Span])
    requires { (n ≤ length spans.now) × (n ≤ most) × (most / block_size ≤ length blocks.old) }
    ensures { Blocks near spans.now blocks.new n }
{
    for j in 0..n {
        let first = j % BLOCK == 0;
        let old = blocks[j / BLOCK];
        let new = spans[j];
        blocks[j / BLOCK] = Span {
            low: widen(near, first, old.low, new.low),
            high: widen(!near, first, old.high, new.high),
        };
    }
}
