// Which pairs are looked at, in which order: by i and then j. All listings go this way, one over the pairs of one object with later ones, the
// others over those of all objects.
ghost use Rattle.std.specs.Prelude.{◌≡◌, List, ◌<◌, ◌≤◌, ℤ, length};
ghost use Rattle.sheet.specs.Limits.{most};
ghost use Rattle.sheet.specs.Lent.{Wrote};
ghost use Rattle.sheet.specs.Lists.{count_of};
ghost use Rattle.sheet.specs.Listable.{Listable};
ghost use Rattle.listing.specs.Rows.{rows_with};
ghost use Rattle.listing.specs.Listing.{listed_told};
ghost use Rattle.listing.specs.Pairs.{Section, rows_between, pairs_of, room_for, Listing};

use crate::Listed;
use crate::rows::put_row;
use crate::runs::Run;
use sheet::Object;
use sheet::lists::{ROW_WIDTH, object_at};
use sheet::refusal::Unfilled;

// The later objects that an object is compared with: every one, or only those that can share something with it.
pub(crate) trait Later {
    // What it is known by, of a list.
    ghost knows: { Self → List ℤ → Type 0 };

    // The rows of object i with the later ones, from a place of the lent list on. Gives the place behind them.
    fn put_rows_with(
        &mut self,
        list: &[i64],
        i: usize,
        joints: bool,
        out: &mut [i64],
        at: usize,
    ) -> usize
        requires listable { Listable list.now × (i < count_of list.now) }
        requires known { knows self.old list.now }
        ensures rows { Wrote out.old out.new at result (rows_with joints list.now i) }
        ensures known { knows self.new list.now };
}

// Every later object.
#[derive(Clone, Copy)]
pub(crate) struct All;

impl Later for All {
    ghost knows = { λ _ _. Unit };

    fn put_rows_with(
        &mut self,
        list: &[i64],
        i: usize,
        joints: bool,
        out: &mut [i64],
        at: usize,
    ) -> usize {
        let n = list.len() / Object::WIDTH;
        let a = object_at(list, i);
        let mut next = at;
        for j in i + 1..n {
            next = put_row(a, list, i, j, joints, out, next);
        }
        next
    }
}

// The rows of the objects of a run, each with the later ones, at the front of the lent list. Gives the place behind them.
fn put_rows<L: Later>(later: &mut L, list: &[i64], run: Run, joints: bool, out: &mut [i64]) -> usize
    requires section { Section list.now run.from run.to }
    requires known { L.knows later.old list.now }
    ensures rows { Wrote out.old out.new 0 result (rows_between joints list.now run.from run.to) }
    ensures known { L.knows later.new list.now }
{
    let mut next = 0;
    for i in run.from..run.to {
        next = later.put_rows_with(list, i, joints, out, next);
    }
    next
}

// How many pairs n objects have.
fn pairs_of(n: usize) -> usize
    requires { n ≤ most }
    ensures { result ≡ pairs_of n }
{
    let square = n * n;
    (square - n) / 2
}

// The rows have room, or so much is needed. Where there is room for every pair, nothing is counted.
fn check_room<L: Later>(
    later: &mut L,
    list: &[i64],
    run: Run,
    joints: bool,
    room: usize,
) -> Result<(), Unfilled>
    requires section { Section list.now run.from run.to }
    requires known { L.knows later.old list.now }
    ensures room { result ≡ room_for (length (rows_between joints list.now run.from run.to)) room }
    ensures known { L.knows later.new list.now }
{
    let n = list.len() / Object::WIDTH;
    let pairs = pairs_of(n - run.from) - pairs_of(n - run.to);
    if pairs * ROW_WIDTH <= room {
        return Ok(());
    }
    let mut nowhere = [0; 0];
    let need = put_rows(later, list, run, joints, &mut nowhere);
    if need <= room {
        return Ok(());
    }
    Err(Unfilled::NoRoom(need))
}

// The rows of the objects of a run, each with the later ones, of a list that is not refused.
pub(crate) fn list_pairs<L: Later>(
    later: &mut L,
    list: &[i64],
    run: Run,
    joints: bool,
    out: &mut [i64],
) -> Result<Listed, Unfilled>
    requires section { Section list.now run.from run.to }
    requires known { L.knows later.old list.now }
    ensures { Listing (rows_between joints list.now run.from run.to) out.old (listed_told result) out.new }
{
    check_room(later, list, run, joints, out.len())?;
    let length = put_rows(later, list, run, joints, out);
    Ok(Listed {
        rows: length / ROW_WIDTH,
        length,
    })
}
