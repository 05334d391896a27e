// Where a point is on the screen: at a position, or on a side of the frame.
ghost use Rattle.std.specs.Prelude.{◌≡◌};
ghost use Rattle.sheet.specs.Points.{point_refusal};
ghost use Rattle.sheet.specs.PointFacts.{APoint};
ghost use Rattle.sheet.specs.Figure.{side_number};
ghost use Rattle.screen.specs.Quotient.{quotient};
ghost use Rattle.screen.specs.Parts.{Parts};
ghost use Rattle.screen.specs.Values.{float_answer};
ghost use Rattle.screen.specs.Places.{exactly, side_where, edge_of, place_of, on_screen_says, place_says};
ghost use Rattle.screen.specs.ByNumber.{along_number};

use crate::OnScreen;
use crate::quotient::ratio;
use kernel::points::check_point;
use sheet::Point;
use sheet::refusal::Refusal;

// A coordinate (m R + n)/v is exactly R.
fn is_exactly(m: i64, n: i64, v: i64) -> bool
    ensures { result ≡ exactly m n v }
{
    (m == v) & (n == 0)
}

// The number of the side that a frame point is on: of a corner, the side that begins there.
fn side_number(p: Point) -> i64
    requires { Parts p.mx p.w }
    ensures { result ≡ side_number (side_where p) }
{
    let back = -p.w;
    let left = is_exactly(p.mx, p.nx, back);
    let bottom = is_exactly(p.my, p.ny, back);
    let right = is_exactly(p.mx, p.nx, p.w);
    let top = is_exactly(p.my, p.ny, p.w);
    if left & !bottom {
        return 1;
    }
    if bottom & !right {
        return 2;
    }
    if right & !top {
        return 3;
    }
    4
}

// Of x and y the one that runs along a side, over w.
fn value_along(side: i64, x: i64, y: i64, w: i64) -> f64
    requires { Parts x w × Parts y w }
    ensures { result ≡ quotient (along_number side x y) w }
{
    if (side == 1) | (side == 3) {
        return ratio(y, w);
    }
    ratio(x, w)
}

// The slope tells the direction that leads to the side, the offset which of all parallel ways it is.
fn edge_place(p: Point) -> OnScreen
    requires { Parts p.mx p.w × Parts p.my p.w × Parts p.nx p.w × Parts p.ny p.w }
    ensures { on_screen_says result ≡ edge_of p }
{
    let side = side_number(p);
    let slope = value_along(side, p.mx, p.my, p.w);
    let offset = value_along(side, p.nx, p.ny, p.w);
    OnScreen::Edge(side, slope, offset)
}

fn point_place(p: Point) -> OnScreen
    requires { APoint p }
    ensures { on_screen_says result ≡ place_of p }
{
    if (p.mx == 0) & (p.my == 0) {
        let x = ratio(p.nx, p.w);
        let y = ratio(p.ny, p.w);
        return OnScreen::At(x, y);
    }
    edge_place(p)
}

// Where a point is: a standard one at a position, a frame one on a side.
pub fn place_of(p: Point) -> Result<OnScreen, Refusal>
    ensures { place_says result ≡ float_answer (point_refusal p) (place_of p) }
{
    check_point(p)?;
    Ok(point_place(p))
}
