// The far end of the line through p in the direction d: where it leaves the frame.
ghost use Rattle.std.specs.Prelude.{◌≡◌, pos, ◌<ℤ◌};
ghost use Rattle.sheet.specs.Figure.{vec};
ghost use Rattle.sheet.specs.Ends.{flat, steep, far_end};
ghost use Rattle.sheet.specs.Points.{size, divided};
ghost use Rattle.kernel.specs.Bounds.{Direction, Ahead};
ghost use Rattle.kernel.specs.Forms.{is_flat};

use crate::divide::divide;
use sheet::Point;

// The end is on the left or the right side: |dx| is the larger, or both are equal and sx sy k is 0 or less.
pub fn is_flat(dx: i64, dy: i64, k: i64) -> bool
    requires { Direction dx dy k }
    ensures { result ≡ is_flat dx dy k }
{
    let across = dx.abs();
    let up = dy.abs();
    let sx = whole::sign(dx);
    let sy = whole::sign(dy);
    let tie = sx * sy * k;
    (up < across) | ((across == up) & (tie <= 0))
}

fn flat_end(dx: i64, dy: i64, k: i64) -> Point
    requires direction { Direction dx dy k }
    requires pos_bound { pos 0 <ℤ size dx }
    ensures { result ≡ divided (flat dx dy k) }
{
    let w = dx.abs();
    let sx = whole::sign(dx);
    let ny = sx * k;
    divide(Point {
        mx: dx,
        nx: 0,
        my: dy,
        ny,
        w,
    })
}

fn steep_end(dx: i64, dy: i64, k: i64) -> Point
    requires direction { Direction dx dy k }
    requires pos_bound { pos 0 <ℤ size dy }
    ensures { result ≡ divided (steep dx dy k) }
{
    let w = dy.abs();
    let sy = whole::sign(dy);
    let sk = sy * k;
    let nx = -sk;
    divide(Point {
        mx: dx,
        nx,
        my: dy,
        ny: 0,
        w,
    })
}

pub fn far_end(px: i64, py: i64, dx: i64, dy: i64) -> Point
    requires { Ahead px py dx dy }
    ensures { result ≡ far_end (vec px py) (vec dx dy) }
{
    let k = dx * py - dy * px;
    if is_flat(dx, dy, k) {
        return flat_end(dx, dy, k);
    }
    steep_end(dx, dy, k)
}
