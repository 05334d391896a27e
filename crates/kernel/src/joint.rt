// Joints: two objects whose one common point is an end of both. Nothing is worked out to tell one: where two lines that are not parallel meet, it
// is told by how far along each; on one line a shared point is given, and an end where it is an object's own p or q; and a point that a side
// shares is an end of the other object, and one of the side where it is a corner of the frame. Where joints are asked for, none is looked for.
ghost use Rattle.std.specs.Prelude.{◌≡◌, not, ◌&&◌};
ghost use Rattle.kernel.specs.Joints.{place_end, own_end, corner_at, touch_left, corner_left};

use sheet::{Crossing, Object, Point};

// Whether the place p + (h / w) d of a segment, ray or line is an end: p, where h is 0, or q of a segment, where h is w.
fn is_place_end(kind: i64, h: i64, w: i64) -> bool
    ensures { result ≡ place_end kind h w }
{
    let first = (kind <= Object::RAY) & (h == 0);
    let last = (kind == Object::SEGMENT) & (h == w);
    first | last
}

// Whether a place of two lines is left out, by how far it is along each.
pub(crate) fn leaves_place(joints: bool, ka: i64, h: i64, kb: i64, g: i64, w: i64) -> bool
    ensures { result ≡ not joints && (place_end ka h w && place_end kb g w) }
{
    if joints {
        return false;
    }
    is_place_end(ka, h, w) & is_place_end(kb, g, w)
}

// Whether a given point is an end: p of a segment or a ray, or q of a segment.
fn is_own_end(kind: i64, px: i64, py: i64, qx: i64, qy: i64, x: i64, y: i64) -> bool
    ensures { result ≡ own_end kind px py qx qy x y }
{
    let first = (kind <= Object::RAY) & sheet::are_equal(x, y, px, py);
    let last = (kind == Object::SEGMENT) & sheet::are_equal(x, y, qx, qy);
    first | last
}

// Whether a given point of two objects on one line is left out.
fn leaves_touch(
    joints: bool,
    ka: i64,
    px: i64,
    py: i64,
    qx: i64,
    qy: i64,
    kb: i64,
    rx: i64,
    ry: i64,
    sx: i64,
    sy: i64,
    x: i64,
    y: i64,
) -> bool
    ensures { result ≡ not joints && (own_end ka px py qx qy x y && own_end kb rx ry sx sy x y) }
{
    if joints {
        return false;
    }
    is_own_end(ka, px, py, qx, qy, x, y) & is_own_end(kb, rx, ry, sx, sy, x, y)
}

// What two objects on one line share, but for a point that is left out.
pub(crate) fn unless_touch(
    found: Crossing,
    joints: bool,
    ka: i64,
    px: i64,
    py: i64,
    qx: i64,
    qy: i64,
    kb: i64,
    rx: i64,
    ry: i64,
    sx: i64,
    sy: i64,
) -> Crossing
    ensures { result ≡ touch_left joints ka px py qx qy kb rx ry sx sy found }
{
    if let Crossing::Once(e) = found {
        if leaves_touch(joints, ka, px, py, qx, qy, kb, rx, ry, sx, sy, e.nx, e.ny) {
            return Crossing::Nothing;
        }
    }
    found
}

// Whether a point is a corner of the frame.
fn is_corner(e: Point) -> bool
    ensures { result ≡ corner_at e }
{
    let across = (e.mx == 1) | (e.mx == -1);
    let up = (e.my == 1) | (e.my == -1);
    (e.w == 1) & across & up & (e.nx == 0) & (e.ny == 0)
}

// Whether a point that a side shares is left out.
fn leaves_corner(joints: bool, e: Point) -> bool
    ensures { result ≡ not joints && corner_at e }
{
    if joints {
        return false;
    }
    is_corner(e)
}

// What a side shares, but for a corner that is left out.
pub(crate) fn unless_corner(found: Crossing, joints: bool) -> Crossing
    ensures { result ≡ corner_left joints found }
{
    if let Crossing::Once(e) = found {
        if leaves_corner(joints, e) {
            return Crossing::Nothing;
        }
    }
    found
}
