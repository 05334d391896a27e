// Calls for a C program that checks the kernel by what its answers mean (tests/spot_check.c): ends, order, side and crossing. And the
// side of circle, for tests/circle.c and bench/. C takes no enum, so a refusal is a number here, beside the others.
#![tactic(auto)]

mod numbers;

ghost use Rattle.std.specs.Prelude.{◌≡◌};
ghost use Rattle.spot.specs.Numbers.{ends_answer, order_answer, side_answer, crossing_answer, circle_answer};

use sheet::{Object, Point};

// The two ends of an object: the refusal or 0, and the ends in its direction.
#[repr(C)]
#[derive(Clone, Copy)]
pub struct TwoEnds {
    pub refusal: i64,
    pub first: Point,
    pub last: Point,
}

// A sign or a crossing: the refusal or 0; the sign, or 0, 1 or 2 for none, point or many; and the point of a crossing.
#[repr(C)]
#[derive(Clone, Copy)]
pub struct Answer {
    pub refusal: i64,
    pub number: i64,
    pub at: Point,
}

pub fn silvanelga_spot_ends(o: Object) -> TwoEnds
    ensures { result ≡ ends_answer o }
{
    kernel::ends::ends_of(o).into()
}

pub fn silvanelga_spot_order(p: Point, q: Point) -> Answer
    ensures { result ≡ order_answer p q }
{
    kernel::signs::order_points(p, q).into()
}

pub fn silvanelga_spot_side(o: Object, s: Point) -> Answer
    ensures { result ≡ side_answer o s }
{
    kernel::signs::side_of(o, s).into()
}

pub fn silvanelga_spot_cross(a: Object, b: Object) -> Answer
    ensures { result ≡ crossing_answer a b }
{
    kernel::crossing::cross(a, b).into()
}

pub fn silvanelga_spot_circle(p: Point, q: Point, s: Point, u: Point) -> Answer
    ensures { result ≡ circle_answer p q s u }
{
    kernel::circle::side_of_circle(p, q, s, u).into()
}
