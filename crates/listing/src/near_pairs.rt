// The later objects that are near an object: the others stand apart and share nothing with it.
ghost use Rattle.std.specs.Prelude.{◌<◌, ◌≤◌, length};
ghost use Rattle.sheet.specs.Limits.{most};
ghost use Rattle.sheet.specs.Lent.{Wrote};
ghost use Rattle.sheet.specs.Lists.{count_of};
ghost use Rattle.sheet.specs.Listable.{Listable};
ghost use Rattle.listing.specs.Rows.{row_of};
ghost use Rattle.listing.specs.Runs.{in_runs, Runs, NearRuns, Known};

use crate::blocks::{BLOCKS, fill_blocks};
use crate::pairs::Later;
use crate::rows::put_row;
use crate::runs::{Run, end_where};
use crate::spans::{Span, find_spans};
use sheet::Object;
use sheet::lists::object_at;

// What near objects are known by: the spans of a list's objects, and those of blocks of them. And room for the runs of one object.
#[derive(Drop)]
pub struct Near {
    pub spans: [Span; Object::MOST],
    pub outer: [Span; BLOCKS],
    pub inner: [Span; BLOCKS],
    pub runs: [Run; Object::MOST],
}

impl Near {
    // That of no list, until it is told one.
    pub(crate) fn none() -> Near {
        Near {
            spans: [Span::NONE; Object::MOST],
            outer: [Span::NONE; BLOCKS],
            inner: [Span::NONE; BLOCKS],
            runs: [Run::NONE; Object::MOST],
        }
    }

    // Makes it that of a list. It is filled where it stands: a filled one that is handed out is copied, which costs a short list a third of its
    // time, and each list 16,896 bytes of stack. An empty one is made where it will stand.
    pub(crate) fn know(&mut self, list: &[i64])
        requires { Listable list.now }
        ensures { Known list.now self.new.spans self.new.outer self.new.inner }
    {
        let n = list.len() / Object::WIDTH;
        find_spans(list, &mut self.spans);
        fill_blocks(&self.spans, n, false, &mut self.outer);
        fill_blocks(&self.spans, n, true, &mut self.inner);
    }

    // The runs of the later objects whose extents overlap or touch that of object i. Gives how many there are.
    fn find_runs(&mut self, list: &[i64], i: usize) -> usize
        requires listable { Listable list.now × (i < count_of list.now) }
        requires known { Known list.now self.old.spans self.old.outer self.old.inner }
        ensures runs { NearRuns list.now i self.new.runs result }
        ensures few { result ≤ most }
        ensures known { Known list.now self.new.spans self.new.outer self.new.inner }
    {
        let n = list.len() / Object::WIDTH;
        let span = self.spans[i];
        let mut count = 0;
        let mut j = i + 1;
        // A `while`: it goes on behind each run that it finds.
        while j < n {
            let from = end_where(span, false, &self.spans, &self.outer, j, n);
            let to = end_where(span, true, &self.spans, &self.inner, from, n);
            self.runs[count] = Run { from, to };
            count += 1;
            j = to;
        }
        count
    }
}

// The rows of object i with the objects of runs, from a place of the lent list on. Gives the place behind them. The end of a run is asked for once
// more, so that the compiler knows that object j is in the list.
fn put_runs(list: &[i64], i: usize, runs: &[Run], joints: bool, out: &mut [i64], at: usize) -> usize
    requires { Listable list.now × (i < count_of list.now) × Runs (count_of list.now) runs.now (length runs.now) }
    ensures { Wrote out.old out.new at result (in_runs (row_of joints list.now i) runs.now (length runs.now)) }
{
    let n = list.len() / Object::WIDTH;
    let a = object_at(list, i);
    let mut next = at;
    for run in runs {
        for j in run.from..run.to.min(n) {
            next = put_row(a, list, i, j, joints, out, next);
        }
    }
    next
}

impl Later for Near {
    ghost knows = { λ s l. Known l s.spans s.outer s.inner };

    fn put_rows_with(
        &mut self,
        list: &[i64],
        i: usize,
        joints: bool,
        out: &mut [i64],
        at: usize,
    ) -> usize {
        let count = self.find_runs(list, i);
        put_runs(list, i, &self.runs[..count], joints, out, at)
    }
}
