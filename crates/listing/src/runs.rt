// Runs: which later objects an object is compared with, as parts of the list.
ghost use Rattle.std.specs.Prelude.{◌<◌, ◌≤◌, length};
ghost use Rattle.sheet.specs.Limits.{most};
ghost use Rattle.listing.specs.Spans.{Blocks, Scan, BlockEnd};

use crate::blocks::BLOCK;
use crate::spans::Span;
use sheet::Object;

// From the first object of a run to the one behind its last.
#[derive(Clone, Copy)]
pub struct Run {
    pub from: usize,
    pub to: usize,
}

impl Run {
    // What lists of runs are filled with before.
    pub(crate) const NONE: Run = Run { from: 0, to: 0 };
}

// The first span of a run that is not near `span`, where `near` is so, or that is, where it is not; the place behind the run, where there is none.
fn scan(span: Span, near: bool, spans: &[Span], run: Run) -> usize
    requires { (run.from ≤ run.to) × (run.to ≤ length spans.now) }
    ensures { Scan span near spans.now run.from run.to result }
{
    for k in run.from..run.to {
        if span.is_near(spans[k]) != near {
            return k;
        }
    }
    run.to
}

// Where the block that object j is in ends, of n objects.
fn block_end(j: usize, n: usize) -> usize
    requires { (j < n) × (n ≤ most) }
    ensures { BlockEnd j n result }
{
    (j / BLOCK * BLOCK + BLOCK).min(n)
}

// The same among all n objects, from one on: whole blocks are passed over at once.
pub(crate) fn end_where(
    span: Span,
    near: bool,
    spans: &[Span],
    blocks: &[Span],
    from: usize,
    n: usize,
) -> usize
    requires { (from ≤ n) × (n ≤ most) × (n ≤ length spans.now) × Blocks near spans.now blocks.now n }
    ensures { Scan span near spans.now from n result }
{
    let count = n.div_ceil(BLOCK);
    let mut j = from;
    // A `while`: it goes on at the block that the second scan found.
    while j < n {
        let end = block_end(j, n);
        let stop = scan(span, near, spans, Run { from: j, to: end });
        if stop < end {
            return stop;
        }
        let next = end.div_ceil(BLOCK);
        let block = scan(
            span,
            near,
            blocks,
            Run {
                from: next,
                to: count,
            },
        );
        j = block * BLOCK;
    }
    n
}
