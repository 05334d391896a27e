// A side of the frame with another object. A side is taken by the way out of the square over it: (-1, 0), (0, -1), (1, 0) or (0, 1).
ghost use Rattle.std.specs.Prelude.{◌≡◌};
ghost use Rattle.sheet.specs.Figure.{vec, out_x, out_y, side_of, figure_of};
ghost use Rattle.sheet.specs.Ends.{flat, steep, far_end, reverse};
ghost use Rattle.sheet.specs.Crossing.{none, with_side};
ghost use Rattle.sheet.specs.Answers.{meeting_numbers, crossing_numbers};
ghost use Rattle.kernel.specs.Bounds.{Numbers, Direction, Ahead, Out};
ghost use Rattle.kernel.specs.Stretches.{on_by, end_by, sides_by};
ghost use Rattle.kernel.specs.Joints.{corners_left};

use crate::far::{far_end, is_flat};
use crate::joint::unless_corner;
use sheet::{Crossing, Object, Point};

fn out_x(n: i64) -> i64
    ensures { result ≡ out_x (side_of n) }
{
    if n == 1 {
        return -1;
    }
    if n == 2 {
        return 0;
    }
    if n == 3 {
        return 1;
    }
    0
}

fn out_y(n: i64) -> i64
    ensures { result ≡ out_y (side_of n) }
{
    if n == 1 {
        return 0;
    }
    if n == 2 {
        return -1;
    }
    if n == 3 {
        return 0;
    }
    1
}

// Two sides: the same one, their corner, or nothing.
fn sides(ox: i64, oy: i64, ux: i64, uy: i64) -> Crossing
    requires out { Out ox oy }
    requires out_2 { Out ux uy }
    ensures { crossing_numbers result ≡ meeting_numbers (sides_by ox oy ux uy) }
{
    let alike = ox * ux + oy * uy;
    if alike == 0 {
        let mx = ox + ux;
        let my = oy + uy;
        let e = Point::corner(mx, my);
        return Crossing::Once(e);
    }
    if 0 < alike {
        return Crossing::Many;
    }
    Crossing::Nothing
}

// Whether a far end of the first form is on the side, and one of the second.
fn is_on_flat(ox: i64, oy: i64, dx: i64, dy: i64, k: i64) -> bool
    requires out { Out ox oy }
    requires direction { Direction dx dy k }
    ensures { result ≡ on_by ox oy (flat dx dy k) }
{
    let w = dx.abs();
    let sx = whole::sign(dx);
    let m = ox * dx + oy * dy;
    let n = oy * (sx * k);
    (m == w) & (n == 0)
}

fn is_on_steep(ox: i64, oy: i64, dx: i64, dy: i64, k: i64) -> bool
    requires out { Out ox oy }
    requires direction { Direction dx dy k }
    ensures { result ≡ on_by ox oy (steep dx dy k) }
{
    let w = dy.abs();
    let sy = whole::sign(dy);
    let m = ox * dx + oy * dy;
    let n = ox * -(sy * k);
    (m == w) & (n == 0)
}

// Whether the far end is on the side; the common divisor is not needed for that.
fn is_on(ox: i64, oy: i64, px: i64, py: i64, dx: i64, dy: i64) -> bool
    requires out { Out ox oy }
    requires ahead { Ahead px py dx dy }
    ensures { result ≡ on_by ox oy (far_end (vec px py) (vec dx dy)) }
{
    let k = dx * py - dy * px;
    if is_flat(dx, dy, k) {
        return is_on_flat(ox, oy, dx, dy, k);
    }
    is_on_steep(ox, oy, dx, dy, k)
}

// A side with the far end in the direction d alone, and with both far ends of a line.
fn with_end(ox: i64, oy: i64, px: i64, py: i64, dx: i64, dy: i64) -> Crossing
    requires out { Out ox oy }
    requires ahead { Ahead px py dx dy }
    ensures { crossing_numbers result ≡ meeting_numbers (end_by ox oy (far_end (vec px py) (vec dx dy)) none) }
{
    if is_on(ox, oy, px, py, dx, dy) {
        let e = far_end(px, py, dx, dy);
        return Crossing::Once(e);
    }
    Crossing::Nothing
}

fn with_line(ox: i64, oy: i64, px: i64, py: i64, dx: i64, dy: i64) -> Crossing
    requires out { Out ox oy }
    requires ahead { Ahead px py dx dy }
    ensures { crossing_numbers result ≡ meeting_numbers (end_by ox oy (far_end (vec px py) (vec dx dy)) (end_by ox oy (far_end (vec px py) (reverse (vec dx dy))) none)) }
{
    if is_on(ox, oy, px, py, dx, dy) {
        let e = far_end(px, py, dx, dy);
        return Crossing::Once(e);
    }
    let back = -dx;
    let down = -dy;
    with_end(ox, oy, px, py, back, down)
}

// What side n shares with an object.
fn with_side(n: i64, kind: i64, px: i64, py: i64, qx: i64, qy: i64) -> Crossing
    requires { Numbers kind px py qx qy }
    ensures { crossing_numbers result ≡ meeting_numbers (with_side (side_of n) (figure_of kind px py qx qy)) }
{
    if kind == Object::SEGMENT {
        return Crossing::Nothing;
    }
    let ox = out_x(n);
    let oy = out_y(n);
    if kind == Object::SIDE {
        let ux = out_x(px);
        let uy = out_y(px);
        return sides(ox, oy, ux, uy);
    }
    let dx = qx - px;
    let dy = qy - py;
    if kind == Object::RAY {
        return with_end(ox, oy, px, py, dx, dy);
    }
    with_line(ox, oy, px, py, dx, dy)
}

// What a side shares with an object, joints left out or not. It stands apart, since it has two callers: the compiler then leaves it, and what it
// asks of corners, out of their loop.
pub fn with_side_kept(
    n: i64,
    kind: i64,
    px: i64,
    py: i64,
    qx: i64,
    qy: i64,
    joints: bool,
) -> Crossing
    requires { Numbers kind px py qx qy }
    ensures { crossing_numbers result ≡ meeting_numbers (corners_left joints (with_side (side_of n) (figure_of kind px py qx qy))) }
{
    let found = with_side(n, kind, px, py, qx, qy);
    unless_corner(found, joints)
}
