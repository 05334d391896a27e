// Order of two points, turn of three, and the side of an object that a point is on.
ghost use Rattle.std.specs.Prelude.{◌≡◌, [], ◌∷◌, ◌-ℤ◌, ◌*ℤ◌};
ghost use Rattle.whole.specs.Sign.{sgn};
ghost use Rattle.whole.specs.Choice.{or_else};
ghost use Rattle.sheet.specs.Figure.{side_of, side};
ghost use Rattle.sheet.specs.Refusal.{Accepted};
ghost use Rattle.sheet.specs.Refused.{refused_by};
ghost use Rattle.sheet.specs.PointSizes.{PointSizes};
ghost use Rattle.sheet.specs.Signs.{order, turn, side_of_figure, side_sign, order_refusal, wide_refusal, turn_refusal, side_sign_refusal};
ghost use Rattle.sheet.specs.Coefficients.{det};
ghost use Rattle.sheet.specs.Answers.{answer, signed_says};
ghost use Rattle.kernel.specs.Forms.{pair_side};
ghost use Rattle.kernel.specs.Bounds.{CoordinateBounds, Row, NarrowSizes, TwoPoints};

use crate::lead::lead;
use crate::points::{check_point, is_narrow};
use sheet::refusal::Refusal;
use sheet::{Object, Point, check_object};

// ---- order

// Of one coordinate, (m R + n)/w against (m2 R + n2)/w2.
fn along(m: i64, n: i64, w: i64, m2: i64, n2: i64, w2: i64) -> i64
    requires { CoordinateBounds m n w × CoordinateBounds m2 n2 w2 }
    ensures { result ≡ or_else (sgn (m *ℤ w2 -ℤ m2 *ℤ w)) (sgn (n *ℤ w2 -ℤ n2 *ℤ w)) }
{
    let a = m * w2 - m2 * w;
    let b = n * w2 - n2 * w;
    lead(a, b)
}

fn order_of(p: Point, q: Point) -> i64
    requires { PointSizes p × PointSizes q }
    ensures { result ≡ order p q }
{
    let x = along(p.mx, p.nx, p.w, q.mx, q.nx, q.w);
    let y = along(p.my, p.ny, p.w, q.my, q.ny, q.w);
    lead(x, y)
}

// -1, 0 or 1 as the first point is before, at or after the second: x first, then y.
pub fn order_points(p: Point, q: Point) -> Result<i64, Refusal>
    ensures { signed_says result ≡ answer (order_refusal p q) (order p q ∷ []) }
{
    check_point(p)?;
    check_point(q)?;
    Ok(order_of(p, q))
}

// ---- turn

// The determinant of three rows w, x, y.
fn det_of(w1: i64, x1: i64, y1: i64, w2: i64, x2: i64, y2: i64, w3: i64, x3: i64, y3: i64) -> i64
    requires { Row w1 x1 y1 × Row w2 x2 y2 × Row w3 x3 y3 }
    ensures { result ≡ det w1 x1 y1 w2 x2 y2 w3 x3 y3 }
{
    let one = x2 * y3 - x3 * y2;
    let two = x1 * y3 - x3 * y1;
    let three = x1 * y2 - x2 * y1;
    w1 * one - w2 * two + w3 * three
}

// By the coefficient of R R, that of R in two parts, and that without R.
fn turn_of(p: Point, q: Point, s: Point) -> i64
    requires { NarrowSizes p × NarrowSizes q × NarrowSizes s }
    ensures { result ≡ turn p q s }
{
    let a = det_of(p.w, p.mx, p.my, q.w, q.mx, q.my, s.w, s.mx, s.my);
    let mn = det_of(p.w, p.mx, p.ny, q.w, q.mx, q.ny, s.w, s.mx, s.ny);
    let nm = det_of(p.w, p.nx, p.my, q.w, q.nx, q.my, s.w, s.nx, s.my);
    let b = mn + nm;
    let c = det_of(p.w, p.nx, p.ny, q.w, q.nx, q.ny, s.w, s.nx, s.ny);
    lead(lead(a, b), c)
}

// Three points of which one is too wide for a turn are refused by 6.
fn check_wide(p: Point, q: Point, s: Point) -> Result<(), Refusal>
    ensures { refused_by result ≡ wide_refusal p q s }
{
    if is_narrow(p) & is_narrow(q) & is_narrow(s) {
        return Ok(());
    }
    Err(Refusal::WidePoint)
}

fn check_turn(p: Point, q: Point, s: Point) -> Result<(), Refusal>
    ensures { refused_by result ≡ turn_refusal p q s }
{
    check_point(p)?;
    check_point(q)?;
    check_point(s)?; // each has to be a point before any is too wide
    check_wide(p, q, s)
}

// The way that three narrow points turn: 1 to the left, -1 to the right, 0 straight.
pub fn turn_points(p: Point, q: Point, s: Point) -> Result<i64, Refusal>
    ensures { signed_says result ≡ answer (turn_refusal p q s) (turn p q s ∷ []) }
{
    check_turn(p, q, s)?;
    Ok(turn_of(p, q, s))
}

// ---- side

// Of the line from p to q: dx Y - dy X - w k.
pub(crate) fn pair_side(px: i64, py: i64, qx: i64, qy: i64, s: Point) -> i64
    requires { TwoPoints px py qx qy × CoordinateBounds s.mx s.nx s.w × CoordinateBounds s.my s.ny s.w }
    ensures { result ≡ pair_side px py qx qy s.mx s.nx s.my s.ny s.w }
{
    let dx = qx - px;
    let dy = qy - py;
    let k = dx * py - dy * px;
    let b = dx * s.my - dy * s.mx;
    let c = dx * s.ny - dy * s.nx - s.w * k;
    lead(b, c)
}

// Of side n of the frame: how far the point is inside of it.
fn frame_side(n: i64, s: Point) -> i64
    requires { CoordinateBounds s.mx s.nx s.w × CoordinateBounds s.my s.ny s.w }
    ensures { result ≡ side_of_figure (side (side_of n)) s }
{
    if n == 1 {
        return lead(s.mx + s.w, s.nx);
    }
    if n == 2 {
        return lead(s.my + s.w, s.ny);
    }
    if n == 3 {
        return lead(s.w - s.mx, -s.nx);
    }
    lead(s.w - s.my, -s.ny)
}

fn side_sign(o: Object, s: Point) -> i64
    requires { Accepted o × PointSizes s }
    ensures { result ≡ side_sign o s }
{
    let kind = o.kind;
    if kind == Object::SIDE {
        return frame_side(o.px, s);
    }
    pair_side(o.px, o.py, o.qx, o.qy, s)
}

// The side of an object that a point is on: 1 to the left of its arrow, 0 on its line, -1 to the right. Wide points are taken too.
pub fn side_of(o: Object, s: Point) -> Result<i64, Refusal>
    ensures { signed_says result ≡ answer (side_sign_refusal o s) (side_sign o s ∷ []) }
{
    check_object(o)?;
    check_point(s)?;
    Ok(side_sign(o, s))
}
