// Two segments, rays or lines: whether they are parallel, and where two that are not meet. A joint is left out here, before its point is worked
// out, unless joints are asked for.
ghost use Rattle.std.specs.Prelude.{◌≡◌, pos, ◌*ℤ◌};
ghost use Rattle.whole.specs.Sign.{sgn};
ghost use Rattle.sheet.specs.Points.{divided};
ghost use Rattle.sheet.specs.Figure.{vec, ◌⇀◌};
ghost use Rattle.sheet.specs.Crossing.{cross, meeting_point};
ghost use Rattle.sheet.specs.Answers.{meeting_numbers, crossing_numbers};
ghost use Rattle.kernel.specs.Bounds.{FourPoints, Apart, TimesSign};
ghost use Rattle.kernel.specs.Stretches.{stretch, reaches_by};
ghost use Rattle.kernel.specs.Joints.{skew_kept, stretches_kept};

use crate::divide::divide;
use crate::joint::{leaves_place, unless_touch};
use crate::oneline::together;
use sheet::{Crossing, Object, Point};

// The sign of w, which is not 0, times z.
fn times_sign(w: i64, z: i64) -> i64
    requires { TimesSign w z }
    ensures { result ≡ sgn w *ℤ z }
{
    if w < 0 {
        return -z;
    }
    z
}

// Whether an object of this kind has the place p + (h / w) d of its line: not before p but for a line, not beyond q for a segment. What a
// segment asks is one test: most pairs of short segments end here, and at which end one was missed is hard to foresee.
fn reaches(kind: i64, h: i64, w: i64) -> bool
    ensures { result ≡ reaches_by kind h w }
{
    if kind == Object::SEGMENT {
        return (0 <= h) & (h <= w);
    }
    (kind == Object::LINE) | (0 <= h)
}

// The point that the two lines share, with the common divisor out.
fn meeting_point(px: i64, py: i64, qx: i64, qy: i64, rx: i64, ry: i64, sx: i64, sy: i64) -> Point
    requires { Apart px py qx qy rx ry sx sy }
    ensures { result ≡ divided (meeting_point (stretch (pos 3) px py qx qy) (stretch (pos 3) rx ry sx sy)) }
{
    let dx = qx - px;
    let dy = qy - py;
    let fx = sx - rx;
    let fy = sy - ry;
    let across = dx * fy - dy * fx;
    let k = qx * py - qy * px;
    let m = sx * ry - sy * rx;
    let over = k * fx - m * dx;
    let up = k * fy - m * dy;
    let nx = times_sign(across, over);
    let ny = times_sign(across, up);
    let w = times_sign(across, across);
    divide(Point {
        mx: 0,
        nx,
        my: 0,
        ny,
        w,
    })
}

// Not parallel: the lines meet at p + (h / w) d and r + (g / w) f, and a point is shared if both reach it. By h, g and w it is told whether it is
// an end of both. The cross product of the directions comes from the caller, which has tested it. No answer is returned before the end: one way
// out keeps the answers in registers, and most pairs, which share nothing, are soon done with.
fn skewed(
    ka: i64,
    px: i64,
    py: i64,
    qx: i64,
    qy: i64,
    kb: i64,
    rx: i64,
    ry: i64,
    sx: i64,
    sy: i64,
    across: i64,
    joints: bool,
) -> Crossing
    requires apart { Apart px py qx qy rx ry sx sy }
    requires across_value { across ≡ cross (vec px py ⇀ vec qx qy) (vec rx ry ⇀ vec sx sy) }
    ensures { crossing_numbers result ≡ meeting_numbers (skew_kept joints ka px py qx qy kb rx ry sx sy) }
{
    let dx = qx - px;
    let dy = qy - py;
    let fx = sx - rx;
    let fy = sy - ry;
    let ex = rx - px;
    let ey = ry - py;
    let one = ex * fy - ey * fx;
    let h = times_sign(across, one);
    let w = times_sign(across, across);
    if !reaches(ka, h, w) {
        Crossing::Nothing
    } else {
        let two = ex * dy - ey * dx;
        let g = times_sign(across, two);
        if !reaches(kb, g, w) {
            Crossing::Nothing
        } else if leaves_place(joints, ka, h, kb, g, w) {
            Crossing::Nothing
        } else {
            let e = meeting_point(px, py, qx, qy, rx, ry, sx, sy);
            Crossing::Once(e)
        }
    }
}

// What two segments, rays or lines share, joints left out or not.
pub fn cross_stretches(
    ka: i64,
    px: i64,
    py: i64,
    qx: i64,
    qy: i64,
    kb: i64,
    rx: i64,
    ry: i64,
    sx: i64,
    sy: i64,
    joints: bool,
) -> Crossing
    requires { FourPoints px py qx qy rx ry sx sy }
    ensures { crossing_numbers result ≡ meeting_numbers (stretches_kept joints ka px py qx qy kb rx ry sx sy) }
{
    let dx = qx - px;
    let dy = qy - py;
    let fx = sx - rx;
    let fy = sy - ry;
    let across = dx * fy - dy * fx;
    if across != 0 {
        return skewed(ka, px, py, qx, qy, kb, rx, ry, sx, sy, across, joints);
    }
    let ex = rx - px;
    let ey = ry - py;
    let off = dx * ey - dy * ex;
    if off != 0 {
        return Crossing::Nothing;
    }
    let found = together(ka, px, py, qx, qy, kb, rx, ry, sx, sy);
    unless_touch(found, joints, ka, px, py, qx, qy, kb, rx, ry, sx, sy)
}
