// The side of the circle through three given points that a fourth point is on: the sign of the four by four determinant of the report.
//
// Why its numbers fit i64. The determinant's coefficients do not: that without R can be above 1,000,000,000,000,000,000,000. But of three
// given points p, q, s and a point u it is turn(p, q, s) (q - u)(s - u) - turn(u, q, s) (q - p)(s - p), with inner products for the brackets:
// the sine of the angle under which q and s are seen from p, less that under which they are seen from u, times lengths. From the points of an
// arc over q and s they are seen under one angle, from outside under a smaller one. Of four given points each product is at most 32,000,000 x
// 32,000,000. A frame point is so far that (q - u)(s - u), which grows with R R, outweighs the rest: the turn of the three decides, and where
// they are on one line the other product.
ghost use Rattle.std.specs.Prelude.{◌≡◌, [], ◌∷◌};
ghost use Rattle.whole.specs.Sign.{sgn};
ghost use Rattle.sheet.specs.Figure.{vec};
ghost use Rattle.sheet.specs.Points.{point_refusal};
ghost use Rattle.sheet.specs.Refused.{refused_by};
ghost use Rattle.sheet.specs.Answers.{answer, signed_says};
ghost use Rattle.sheet.specs.Circle.{side_of_circle, given_refusal, circle_refusal};
ghost use Rattle.sheet.specs.CirclePoints.{Given, Fourth};
ghost use Rattle.sheet.specs.CircleForms.{given_form, frame_form};
ghost use Rattle.kernel.specs.Bounds.{ThreePoints, FourPoints, CoordinateBounds};

use crate::lead::lead;
use crate::points::{check_point, is_given, is_standard};
use crate::signs::pair_side;
use sheet::Point;
use sheet::refusal::Refusal;

// Of four given points.
fn given_circle(px: i64, py: i64, qx: i64, qy: i64, sx: i64, sy: i64, ux: i64, uy: i64) -> i64
    requires { FourPoints px py qx qy sx sy ux uy }
    ensures { result ≡ sgn (given_form (vec px py) (vec qx qy) (vec sx sy) (vec ux uy)) }
{
    let ax = qx - px;
    let ay = qy - py;
    let bx = sx - px;
    let by = sy - py;
    let cx = qx - ux;
    let cy = qy - uy;
    let ex = sx - ux;
    let ey = sy - uy;
    let turn_p = ax * by - ay * bx;
    let inner_p = ax * bx + ay * by;
    let turn_u = cx * ey - cy * ex;
    let inner_u = cx * ex + cy * ey;
    whole::sign(turn_p * inner_u - inner_p * turn_u)
}

// Of three given points and a frame point.
fn frame_circle(px: i64, py: i64, qx: i64, qy: i64, sx: i64, sy: i64, u: Point) -> i64
    requires { ThreePoints px py qx qy sx sy × CoordinateBounds u.mx u.nx u.w × CoordinateBounds u.my u.ny u.w }
    ensures { result ≡ frame_form (vec px py) (vec qx qy) (vec sx sy) u }
{
    let ax = qx - px;
    let ay = qy - py;
    let bx = sx - px;
    let by = sy - py;
    let turn_p = ax * by - ay * bx;
    let inner_p = ax * bx + ay * by;
    let seen = whole::sign(inner_p) * pair_side(qx, qy, sx, sy, u);
    lead(turn_p, -seen)
}

fn circle_of(p: Point, q: Point, s: Point, u: Point) -> i64
    requires { Given p × Given q × Given s × Fourth u }
    ensures { result ≡ side_of_circle p q s u }
{
    if is_given(u) {
        return given_circle(p.nx, p.ny, q.nx, q.ny, s.nx, s.ny, u.nx, u.ny);
    }
    frame_circle(p.nx, p.ny, q.nx, q.ny, s.nx, s.ny, u)
}

// Four points are refused by 21 where one of the first three is no given point, or the fourth is a standard point that is none.
fn check_given(p: Point, q: Point, s: Point, u: Point) -> Result<(), Refusal>
    ensures { refused_by result ≡ given_refusal p q s u }
{
    let fourth = is_given(u) | !is_standard(u);
    if is_given(p) & is_given(q) & is_given(s) & fourth {
        return Ok(());
    }
    Err(Refusal::NotGiven)
}

// As `check_point`, but of a given point, which is one, the divisor has not to be found.
fn check_one(p: Point) -> Result<(), Refusal>
    ensures { refused_by result ≡ point_refusal p }
{
    if is_given(p) {
        return Ok(());
    }
    check_point(p)
}

// 5 for each in turn, then 21. Four given points, which most are, need one test alone.
fn check_circle(p: Point, q: Point, s: Point, u: Point) -> Result<(), Refusal>
    ensures { refused_by result ≡ circle_refusal p q s u }
{
    if is_given(p) & is_given(q) & is_given(s) & is_given(u) {
        return Ok(());
    }
    check_one(p)?;
    check_one(q)?;
    check_one(s)?;
    check_one(u)?;
    check_given(p, q, s, u)
}

// The side of the circle through three given points that a fourth is on, which is a given point or on the frame. Where the three turn left: 1
// outside, 0 on the circle, -1 inside; where they turn right: -1 outside, 0 on it, 1 inside. Functions of this name elsewhere may have the
// other sign. Where the three are on one line it is the determinant's sign.
pub fn side_of_circle(p: Point, q: Point, s: Point, u: Point) -> Result<i64, Refusal>
    ensures { signed_says result ≡ answer (circle_refusal p q s u) (side_of_circle p q s u ∷ []) }
{
    check_circle(p, q, s, u)?;
    Ok(circle_of(p, q, s, u))
}
