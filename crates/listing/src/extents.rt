// Extents in x: of each object of a list the x of its left end and that of its right end, as marks.
ghost use Rattle.std.specs.Prelude.{◌≡◌, ◌≤◌, length};
ghost use Rattle.sheet.specs.Refusal.{Accepted};
ghost use Rattle.sheet.specs.Lists.{count_of};
ghost use Rattle.sheet.specs.Listable.{Listable};
ghost use Rattle.listing.specs.Marks.{mark_of, is_left_mark, Sound, extent_by, extent_of, Held, left_mark, right_mark};

use sheet::lists::object_at;
use sheet::{Object, Point};

// x of an end, (m R + n)/w.
#[derive(Clone, Copy)]
pub struct Mark {
    pub m: i64,
    pub n: i64,
    pub w: i64,
}

// The marks of an object's two ends, the left one first.
#[derive(Clone, Copy)]
pub struct Extent {
    pub left: Mark,
    pub right: Mark,
}

impl Mark {
    // No mark of an end, but what lists of marks are filled with before: zeros, which the compiler fills at once.
    pub(crate) const NONE: Mark = Mark { m: 0, n: 0, w: 0 };

    // Whether the mark is left of another one, both w above 0.
    pub(crate) fn is_left_of(self, other: Mark) -> bool
        requires { Sound self × Sound other }
        ensures { result ≡ is_left_mark self other }
    {
        let a = self.m * other.w - other.m * self.w;
        let b = self.n * other.w - other.n * self.w;
        if a == 0 {
            return b < 0;
        }
        a < 0
    }
}

impl From<Point> for Mark {
    ghost from_gives = { λ point mark. mark ≡ mark_of point };

    fn from(point: Point) -> Mark {
        Mark {
            m: point.mx,
            n: point.nx,
            w: point.w,
        }
    }
}

// The extent of an object with these two ends.
fn extent_by(p: Point, q: Point) -> Extent
    requires { Sound (mark_of p) × Sound (mark_of q) }
    ensures { result ≡ extent_by p q }
{
    let first = Mark::from(p);
    let last = Mark::from(q);
    if last.is_left_of(first) {
        return Extent {
            left: last,
            right: first,
        };
    }
    Extent {
        left: first,
        right: last,
    }
}

// The extent of an accepted object, of which the kernel never refuses the ends.
fn extent_of(o: Object) -> Extent
    requires { Accepted o }
    ensures { result ≡ extent_of o }
{
    let ends = kernel::ends::ends_of(o).unwrap();
    extent_by(ends.first, ends.last)
}

// The marks of the left ends and of the right ends of a list's objects.
pub(crate) fn fill_marks(list: &[i64], lefts: &mut [Mark], rights: &mut [Mark])
    requires { Listable list.now × (count_of list.now ≤ length lefts.old) × (count_of list.now ≤ length rights.old) }
    ensures { Held (left_mark list.now) lefts.new (count_of list.now) × Held (right_mark list.now) rights.new (count_of list.now) }
{
    let n = list.len() / Object::WIDTH;
    for i in 0..n {
        let o = object_at(list, i);
        let e = extent_of(o);
        lefts[i] = e.left;
        rights[i] = e.right;
    }
}
