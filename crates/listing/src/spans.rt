// Spans: for each object of a list how many left ends are not right of its left end, and how many not right of its right end. Two objects stand
// apart exactly where the second number of one is below the first number of the other.
ghost use Rattle.std.specs.Prelude.{◌≡◌, ◌+◌, ◌<◌, ◌≤◌, length};
ghost use Rattle.sheet.specs.Lists.{count_of};
ghost use Rattle.sheet.specs.Listable.{Listable};
ghost use Rattle.listing.specs.Marks.{Marked};
ghost use Rattle.listing.specs.Order.{Ordered, EachOnce, RankedNext, Lows, Highs};
ghost use Rattle.listing.specs.Spans.{Spans, near_span};

use crate::extents::{Mark, fill_marks};
use crate::order::{rank, sort};
use sheet::Object;

#[derive(Clone, Copy)]
pub struct Span {
    pub low: usize,
    pub high: usize,
}

impl Span {
    // What lists of spans are filled with before.
    pub(crate) const NONE: Span = Span { low: 0, high: 0 };

    // Whether the span overlaps or touches another one.
    pub(crate) fn is_near(self, other: Span) -> bool
        ensures { result ≡ near_span self other }
    {
        !(self.high < other.low) & !(other.high < self.low)
    }
}

// How many left ends are not right of that of the object at t of the order, where `next` is the same of the object behind it, or all where
// there is none.
fn rank_before(lefts: &[Mark], n: usize, order: &[usize], t: usize, next: usize) -> usize
    requires { (n ≤ length order.now) × (t < n) × Ordered lefts.now order.now n × RankedNext lefts.now order.now n (t + 1) next }
    ensures { RankedNext lefts.now order.now n t result }
{
    let behind = t + 1;
    if n <= behind {
        return n;
    }
    if lefts[order[t]].is_left_of(lefts[order[behind]]) {
        return behind;
    }
    next
}

// The first number of each span: in the order of left ends, from the last one on.
fn fill_lows(lefts: &[Mark], n: usize, order: &[usize], spans: &mut [Span])
    requires { (n ≤ length order.now) × Ordered lefts.now order.now n × EachOnce order.now n × (n ≤ length spans.old) }
    ensures { (length spans.new ≡ length spans.old) × Lows lefts.now order.now n spans.new 0 }
{
    let mut rank = n;
    for t in (0..n).rev() {
        rank = rank_before(lefts, n, order, t, rank);
        spans[order[t]].low = rank;
    }
}

// The second number of each span, by a search among the left ends. The first numbers stay.
fn fill_highs(lefts: &[Mark], rights: &[Mark], n: usize, order: &[usize], spans: &mut [Span])
    requires n_in_bounds { (n ≤ length order.now) × Ordered lefts.now order.now n × Marked rights.now n × (n ≤ length spans.old) }
    requires lows { Lows lefts.now order.now n spans.old 0 }
    ensures { (length spans.new ≡ length spans.old) × Lows lefts.now order.now n spans.new 0 × Highs lefts.now rights.now order.now n spans.new n }
{
    for i in 0..n {
        spans[i].high = rank(lefts, order, n, rights[i]);
    }
}

// The spans of a list's objects: they are put in the order of their left ends, and counted there.
pub(crate) fn find_spans(list: &[i64], spans: &mut [Span])
    requires { Listable list.now × (count_of list.now ≤ length spans.old) }
    ensures { Spans list.now spans.new }
{
    let n = list.len() / Object::WIDTH;
    let mut lefts = [Mark::NONE; Object::MOST];
    let mut rights = [Mark::NONE; Object::MOST];
    let mut order = [0; Object::MOST];
    fill_marks(list, &mut lefts, &mut rights);
    sort(&lefts, n, &mut order);
    fill_lows(&lefts, n, &order, spans);
    fill_highs(&lefts, &rights, n, &order, spans);
}
