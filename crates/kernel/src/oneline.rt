// Two objects on one line: what they share lies from the later start to the sooner stop, by inner products with the first one's direction.
ghost use Rattle.std.specs.Prelude.{◌≡◌, cond};
ghost use Rattle.sheet.specs.Figure.{vec};
ghost use Rattle.sheet.specs.Crossing as crossing;
ghost use Rattle.sheet.specs.Answers.{meeting_numbers, crossing_numbers};
ghost use Rattle.kernel.specs.Bounds.{FourPoints};
ghost use Rattle.kernel.specs.Stretches.{stretch, between_by, overlap_by};

use sheet::{Crossing, Object, Point};

// Larger than any inner product: where there is no limit.
const FAR: i64 = 100_000_000;

// An `if` at each use would be no plainer.
fn pick(test: bool, yes: i64, no: i64) -> i64
    ensures { result ≡ cond test yes no }
{
    if test {
        return yes;
    }
    no
}

// From lo, which is the place x, y, to hi: many, that place, or nothing.
fn between(lo: i64, hi: i64, x: i64, y: i64) -> Crossing
    ensures { crossing_numbers result ≡ meeting_numbers (between_by lo hi (vec x y)) }
{
    if lo < hi {
        return Crossing::Many;
    }
    if hi < lo {
        return Crossing::Nothing;
    }
    let e = Point::given(x, y);
    Crossing::Once(e)
}

// From the later of two starts to the sooner of two stops.
fn overlap(lo: i64, hi: i64, x: i64, y: i64, low: i64, high: i64, u: i64, v: i64) -> Crossing
    ensures { crossing_numbers result ≡ meeting_numbers (overlap_by lo hi (vec x y) low high (vec u v)) }
{
    let stop = high.min(hi);
    if lo < low {
        return between(low, stop, u, v);
    }
    between(lo, stop, x, y)
}

// What two objects on one line share. Where the arrows are opposed, the second one's stop is a start.
pub fn together(
    ka: i64,
    px: i64,
    py: i64,
    qx: i64,
    qy: i64,
    kb: i64,
    rx: i64,
    ry: i64,
    sx: i64,
    sy: i64,
) -> Crossing
    requires { FourPoints px py qx qy rx ry sx sy }
    ensures { crossing_numbers result ≡ meeting_numbers (crossing.together (stretch ka px py qx qy) (stretch kb rx ry sx sy)) }
{
    let dx = qx - px;
    let dy = qy - py;
    let at_p = dx * px + dy * py;
    let at_q = dx * qx + dy * qy;
    let at_r = dx * rx + dy * ry;
    let at_s = dx * sx + dy * sy;
    let fx = sx - rx;
    let fy = sy - ry;
    let alike = dx * fx + dy * fy;
    let lo = pick(ka == Object::LINE, -FAR, at_p);
    let hi = pick(ka == Object::SEGMENT, at_q, FAR);
    if 0 < alike {
        let low = pick(kb == Object::LINE, -FAR, at_r);
        let high = pick(kb == Object::SEGMENT, at_s, FAR);
        return overlap(lo, hi, px, py, low, high, rx, ry);
    }
    let low = pick(kb == Object::SEGMENT, at_s, -FAR);
    let high = pick(kb == Object::LINE, FAR, at_r);
    overlap(lo, hi, px, py, low, high, sx, sy)
}
