// Rows: what two objects of a list share, put into a lent list.
ghost use Rattle.std.specs.Prelude.{◌≡◌, [], ◌∷◌, ◌<◌, pos};
ghost use Rattle.sheet.specs.Limits.{most};
ghost use Rattle.sheet.specs.Refusal.{Accepted};
ghost use Rattle.sheet.specs.Joint.{kept};
ghost use Rattle.sheet.specs.Lent.{Wrote};
ghost use Rattle.sheet.specs.Lists.{object_at};
ghost use Rattle.sheet.specs.Meetings.{meeting_by};
ghost use Rattle.listing.specs.Rows.{row_of};
ghost use Rattle.listing.specs.Pairs.{Pair};

use sheet::lent::put_numbers;
use sheet::lists::object_at;
use sheet::{Crossing, Object};

// What two accepted objects are listed with: the kernel never refuses them.
fn meet(a: Object, b: Object, joints: bool) -> Crossing
    requires { Accepted a × Accepted b }
    ensures { meeting_by result ≡ kept joints a b }
{
    kernel::crossing::cross_kept(a, b, joints).unwrap()
}

// A row at a place of the lent list, the only place that makes one; ti and tj are the tags of i and j. Gives the place behind it. Five numbers and no
// point: those of many are none.
fn write_row(
    out: &mut [i64],
    at: usize,
    i: usize,
    j: usize,
    how: i64,
    mx: i64,
    nx: i64,
    my: i64,
    ny: i64,
    w: i64,
    ti: i64,
    tj: i64,
) -> usize
    requires { (i < most) × (j < most) }
    ensures { Wrote out.old out.new at result (pos i ∷ pos j ∷ how ∷ mx ∷ nx ∷ my ∷ ny ∷ w ∷ ti ∷ tj ∷ []) }
{
    let first = i as i64;
    let second = j as i64;
    let row = [first, second, how, mx, nx, my, ny, w, ti, tj];
    put_numbers(&row, out, at)
}

// The row of objects i and j at a place of the lent list, nothing where they make none. Gives the place behind it. Object i is handed in,
// since it is the same for many rows.
pub(crate) fn put_row(
    a: Object,
    list: &[i64],
    i: usize,
    j: usize,
    joints: bool,
    out: &mut [i64],
    at: usize,
) -> usize
    requires { Pair list.now i j × (a ≡ object_at list.now i) }
    ensures { Wrote out.old out.new at result (row_of joints list.now i j) }
{
    let b = object_at(list, j);
    match meet(a, b, joints) {
        Crossing::Once(p) => {
            return write_row(out, at, i, j, 1, p.mx, p.nx, p.my, p.ny, p.w, a.tag, b.tag);
        }
        Crossing::Many => {
            return write_row(out, at, i, j, 2, 0, 0, 0, 0, 0, a.tag, b.tag);
        }
        Crossing::Nothing => {
            return at;
        }
    }
}
