// The common divisor of a point's five numbers, and the point without it.
ghost use Rattle.std.specs.Prelude.{◌≡◌, [], ◌∷◌, pos};
ghost use Rattle.std.specs.Int.Signed.{quot_z};
ghost use Rattle.whole.specs.Divisor.{gcd_of};
ghost use Rattle.whole.specs.EitherWay.{EitherWay};
ghost use Rattle.sheet.specs.Points.{divided};
ghost use Rattle.kernel.specs.Bounds.{Raw, PartBounds};

use sheet::Point;

// Two sizes, the smaller one first; but of two that are not both 0, a 0 is second. That they are the same two is all that an answer depends on;
// which of them is first decides how long it takes.
fn smaller_first(a: u64, b: u64) -> (u64, u64)
    ensures { EitherWay a b result.0 result.1 }
{
    let sooner = (b < a) | (a == 0);
    if sooner & !(b == 0) {
        return (b, a);
    }
    (a, b)
}

// The greatest common divisor by remainders, folded over the five numbers. It begins with the smallest that is not 0, since no remainder is
// more than half of that, and most points have divisor 1, where no step is left to do. A 0 has no test of its own: that costs more than the
// step which it saves.
//
// It takes five numbers and no point: it is called, and not taken in, and numbers go in registers. By a point the crossing was 4 in 100 slower and
// the turn 10.
pub fn divisor(mx: i64, nx: i64, my: i64, ny: i64, w: i64) -> u64
    ensures { result ≡ gcd_of (mx ∷ nx ∷ my ∷ ny ∷ w ∷ []) }
{
    let (least, one) = smaller_first(whole::size(mx), whole::size(nx));
    let (least, two) = smaller_first(least, whole::size(my));
    let (least, three) = smaller_first(least, whole::size(ny));
    let (least, four) = smaller_first(least, whole::size(w));
    let of_two = whole::gcd(four, least);
    let of_three = whole::gcd(three, of_two);
    let of_four = whole::gcd(two, of_three);
    whole::gcd(one, of_four)
}

fn part(n: i64, g: u64) -> i64
    requires { PartBounds n g }
    ensures { result ≡ quot_z n (pos g) }
{
    n / g as i64
}

// The point that five numbers are, once the common divisor is out of them.
pub fn divide(p: Point) -> Point
    requires { Raw p.mx p.nx p.my p.ny p.w }
    ensures { result ≡ divided p }
{
    let g = divisor(p.mx, p.nx, p.my, p.ny, p.w);
    if g == 1 {
        return p;
    }
    let mx = part(p.mx, g);
    let nx = part(p.nx, g);
    let my = part(p.my, g);
    let ny = part(p.ny, g);
    let w = part(p.w, g);
    Point { mx, nx, my, ny, w }
}
