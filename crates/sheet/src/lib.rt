// The vocabulary of a clearance sheet: objects, points, and what a call answers. The paper's definitions are in specs/.
#![tactic(auto)]

pub mod lent;
pub mod lists;
pub mod refusal;

ghost use Rattle.std.specs.Prelude.{◌≡◌, pos};
ghost use Rattle.sheet.specs.Limits.{reach, most, last_tag};
ghost use Rattle.sheet.specs.Refusal.{outside, beyond, any_beyond, equal, no_side, pair_refusal, side_refusal, refusal_of, tag_refusal, object_refusal};
ghost use Rattle.sheet.specs.Refused.{refused_by};
ghost use Rattle.sheet.specs.Answers.{made_says, makes};
ghost use Rattle.sheet.specs.Lists.{width};
ghost use Rattle.sheet.specs.Points.{given};
ghost use Rattle.sheet.specs.Ends.{corner};

use refusal::Refusal;

// An object of a sheet. Kind 1 is a segment, 2 a ray, 3 a line, each from p toward q; kind 4 is the frame's side of number px. The tag tells
// which layer it is of, and nothing else depends on it. Kinds are numbers and no enum: C hands an object in by value, and any number is taken.
#[repr(C)]
#[derive(Clone, Copy)]
pub struct Object {
    pub kind: i64,
    pub px: i64,
    pub py: i64,
    pub qx: i64,
    pub qy: i64,
    pub tag: i64,
}

// A point: x is (mx R + nx)/w and y is (my R + ny)/w, where the frame goes from -R to R; what holds, holds for every large R.
#[repr(C)]
#[derive(Clone, Copy)]
pub struct Point {
    pub mx: i64,
    pub nx: i64,
    pub my: i64,
    pub ny: i64,
    pub w: i64,
}

// The two ends of an object in its direction.
#[derive(Clone, Copy)]
pub struct Ends {
    pub first: Point,
    pub last: Point,
}

// What two objects share: nothing, one point, or many.
#[derive(Clone, Copy)]
pub enum Crossing {
    Nothing,
    Once(Point),
    Many,
}

impl Object {
    // The largest coordinate, either way.
    pub const REACH: i64 = 2000;
    // The most objects that a sheet has.
    pub const MOST: usize = 512;
    // The largest tag; the smallest is 0.
    pub const LAST_TAG: i64 = 2_000_000;
    // The numbers of an object in a list.
    pub const WIDTH: usize = 6;

    pub const SEGMENT: i64 = 1;

    pub const RAY: i64 = 2;

    pub const LINE: i64 = 3;

    pub const SIDE: i64 = 4;

    // The paper has four makers, one a kind. Each is `make` of its kind, which says all there is to say once.
    pub fn segment(px: i64, py: i64, qx: i64, qy: i64, tag: i64) -> Result<Object, Refusal>
        ensures { made_says result ≡ makes (pos 1) px py qx qy tag }
    {
        make(Object::SEGMENT, px, py, qx, qy, tag)
    }

    pub fn ray(px: i64, py: i64, qx: i64, qy: i64, tag: i64) -> Result<Object, Refusal>
        ensures { made_says result ≡ makes (pos 2) px py qx qy tag }
    {
        make(Object::RAY, px, py, qx, qy, tag)
    }

    pub fn line(px: i64, py: i64, qx: i64, qy: i64, tag: i64) -> Result<Object, Refusal>
        ensures { made_says result ≡ makes (pos 3) px py qx qy tag }
    {
        make(Object::LINE, px, py, qx, qy, tag)
    }

    pub fn side(n: i64, tag: i64) -> Result<Object, Refusal>
        ensures { made_says result ≡ makes (pos 4) n (pos 0) (pos 0) (pos 0) tag }
    {
        make(Object::SIDE, n, 0, 0, 0, tag)
    }
}

impl Point {
    // The limits of standard points.
    pub const STANDARD_W: i64 = 32_000_000;

    pub const STANDARD_N: i64 = 64_000_000_000;
    // The limits of points on the frame, and of narrow points.
    pub const FRAME_W: i64 = 4_000;

    pub const FRAME_N: i64 = 8_000_000;

    // The point of a given place.
    pub fn given(x: i64, y: i64) -> Point
        ensures { result ≡ given (record { x = x; y = y }) }
    {
        Point {
            mx: 0,
            nx: x,
            my: 0,
            ny: y,
            w: 1,
        }
    }

    // The point of a corner of the frame, where mx and my are 1 or -1.
    pub fn corner(mx: i64, my: i64) -> Point
        ensures { result ≡ corner mx my }
    {
        Point {
            mx,
            nx: 0,
            my,
            ny: 0,
            w: 1,
        }
    }
}

fn make(kind: i64, px: i64, py: i64, qx: i64, qy: i64, tag: i64) -> Result<Object, Refusal>
    ensures { made_says result ≡ makes kind px py qx qy tag }
{
    let object = Object {
        kind,
        px,
        py,
        qx,
        qy,
        tag,
    };
    check_object(object)?;
    Ok(object)
}

fn is_outside(lo: i64, hi: i64, z: i64) -> bool
    ensures { result ≡ outside lo hi z }
{
    (z < lo) | (hi < z)
}

// Whether a coordinate is beyond the largest, either way.
pub fn is_beyond(z: i64) -> bool
    ensures { result ≡ beyond z }
{
    is_outside(-Object::REACH, Object::REACH, z)
}

fn any_beyond(px: i64, py: i64, qx: i64, qy: i64) -> bool
    ensures { result ≡ any_beyond px py qx qy }
{
    is_beyond(px) | is_beyond(py) | is_beyond(qx) | is_beyond(qy)
}

// Whether p and q are equal. An object has them as four numbers and no two points, since C hands it in.
pub fn are_equal(px: i64, py: i64, qx: i64, qy: i64) -> bool
    ensures { result ≡ equal px py qx qy }
{
    (px == qx) & (py == qy)
}

fn is_no_side(n: i64, a: i64, b: i64, c: i64) -> bool
    ensures { result ≡ no_side n a b c }
{
    (n < 1) | (4 < n) | !(a == 0) | !(b == 0) | !(c == 0)
}

// Two given points are refused by 2 and then 3.
fn check_pair(px: i64, py: i64, qx: i64, qy: i64) -> Result<(), Refusal>
    ensures { refused_by result ≡ pair_refusal px py qx qy }
{
    if any_beyond(px, py, qx, qy) {
        return Err(Refusal::TooFar);
    }
    if are_equal(px, py, qx, qy) {
        return Err(Refusal::SamePoints);
    }
    Ok(())
}

// A side number with the three numbers after it is refused by 4.
fn check_side(n: i64, a: i64, b: i64, c: i64) -> Result<(), Refusal>
    ensures { refused_by result ≡ side_refusal n a b c }
{
    if is_no_side(n, a, b, c) {
        return Err(Refusal::NoSide);
    }
    Ok(())
}

// What an object is, before its tag.
fn check_shape(kind: i64, px: i64, py: i64, qx: i64, qy: i64) -> Result<(), Refusal>
    ensures { refused_by result ≡ refusal_of kind px py qx qy }
{
    if is_outside(Object::SEGMENT, Object::SIDE, kind) {
        return Err(Refusal::NoKind);
    }
    if kind == Object::SIDE {
        return check_side(px, py, qx, qy);
    }
    check_pair(px, py, qx, qy)
}

// A tag is refused by 15.
fn check_tag(tag: i64) -> Result<(), Refusal>
    ensures { refused_by result ≡ tag_refusal tag }
{
    if is_outside(0, Object::LAST_TAG, tag) {
        return Err(Refusal::NoTag);
    }
    Ok(())
}

// An object is refused by 1, then by 4 for kind 4, else by 2 and then 3; then by 15. The clause `names` holds the type's numbers to the paper's.
pub fn check_object(o: Object) -> Result<(), Refusal>
    ensures value { refused_by result ≡ object_refusal o }
    ensures names { (Object.REACH ≡ reach) × (Object.MOST ≡ most) × (Object.LAST_TAG ≡ last_tag) × (Object.WIDTH ≡ width) }
{
    check_shape(o.kind, o.px, o.py, o.qx, o.qy)?;
    check_tag(o.tag)
}
