// The two ends of an object, in its direction.
ghost use Rattle.std.specs.Prelude.{◌≡◌, ◌++◌};
ghost use Rattle.sheet.specs.Figure.{side_of, figure_of};
ghost use Rattle.sheet.specs.Refusal.{object_refusal};
ghost use Rattle.sheet.specs.Points.{numbers};
ghost use Rattle.sheet.specs.Ends.{begins, first_of, last_of, first_end, last_end};
ghost use Rattle.sheet.specs.Answers.{answer, ends_numbers, ends_say};
ghost use Rattle.kernel.specs.Bounds.{Numbers};

use crate::far::far_end;
use sheet::refusal::Refusal;
use sheet::{Ends, Object, Point, check_object};

// The corner where side n begins.
fn side_begins(n: i64) -> Point
    ensures { result ≡ begins (side_of n) }
{
    if n == 1 {
        return Point::corner(-1, 1);
    }
    if n == 2 {
        return Point::corner(-1, -1);
    }
    if n == 3 {
        return Point::corner(1, -1);
    }
    Point::corner(1, 1)
}

fn first_end(kind: i64, px: i64, py: i64, qx: i64, qy: i64) -> Point
    requires { Numbers kind px py qx qy }
    ensures { result ≡ first_of (figure_of kind px py qx qy) }
{
    if kind == Object::SIDE {
        return side_begins(px);
    }
    if kind == Object::LINE {
        let back = px - qx;
        let down = py - qy;
        return far_end(px, py, back, down);
    }
    Point::given(px, py)
}

fn last_end(kind: i64, px: i64, py: i64, qx: i64, qy: i64) -> Point
    requires { Numbers kind px py qx qy }
    ensures { result ≡ last_of (figure_of kind px py qx qy) }
{
    if kind == Object::SIDE {
        // a side ends where the next one begins, and 1 comes after 4
        let next = px % 4 + 1;
        return side_begins(next);
    }
    if kind == Object::SEGMENT {
        return Point::given(qx, qy);
    }
    let dx = qx - px;
    let dy = qy - py;
    far_end(px, py, dx, dy)
}

fn both_ends(kind: i64, px: i64, py: i64, qx: i64, qy: i64) -> Ends
    requires { Numbers kind px py qx qy }
    ensures { ends_numbers result ≡ numbers (first_of (figure_of kind px py qx qy)) ++ numbers (last_of (figure_of kind px py qx qy)) }
{
    let first = first_end(kind, px, py, qx, qy);
    let last = last_end(kind, px, py, qx, qy);
    Ends { first, last }
}

// The two ends of an object, first the one that its arrow comes from.
pub fn ends_of(o: Object) -> Result<Ends, Refusal>
    ensures { ends_say result ≡ answer (object_refusal o) (numbers (first_end o) ++ numbers (last_end o)) }
{
    check_object(o)?;
    Ok(both_ends(o.kind, o.px, o.py, o.qx, o.qy))
}
