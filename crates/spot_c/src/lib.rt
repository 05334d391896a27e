// The calls of the crate spot as C links them: each is the call of that name there, with its contract.
#![tactic(auto)]

ghost use Rattle.std.specs.Prelude.{◌≡◌};
ghost use Rattle.spot.specs.Numbers.{ends_answer, order_answer, side_answer, crossing_answer, circle_answer};

use sheet::{Object, Point};
use spot::{Answer, TwoEnds};

#[unsafe(no_mangle)]
pub extern "C" fn silvanelga_spot_ends(o: Object) -> TwoEnds
    ensures { result ≡ ends_answer o }
{
    spot::silvanelga_spot_ends(o)
}

#[unsafe(no_mangle)]
pub extern "C" fn silvanelga_spot_order(p: Point, q: Point) -> Answer
    ensures { result ≡ order_answer p q }
{
    spot::silvanelga_spot_order(p, q)
}

#[unsafe(no_mangle)]
pub extern "C" fn silvanelga_spot_side(o: Object, s: Point) -> Answer
    ensures { result ≡ side_answer o s }
{
    spot::silvanelga_spot_side(o, s)
}

#[unsafe(no_mangle)]
pub extern "C" fn silvanelga_spot_cross(a: Object, b: Object) -> Answer
    ensures { result ≡ crossing_answer a b }
{
    spot::silvanelga_spot_cross(a, b)
}

#[unsafe(no_mangle)]
pub extern "C" fn silvanelga_spot_circle(p: Point, q: Point, s: Point, u: Point) -> Answer
    ensures { result ≡ circle_answer p q s u }
{
    spot::silvanelga_spot_circle(p, q, s, u)
}
