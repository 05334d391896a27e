// Which five numbers are a point.
ghost use Rattle.std.specs.Prelude.{◌≡◌, pos};
ghost use Rattle.sheet.specs.Points.{standard, edge, in_square, narrow, frame, is_point, point_refusal};
ghost use Rattle.sheet.specs.Refused.{refused_by};
ghost use Rattle.sheet.specs.Circle.{is_given};

use crate::divide::divisor;
use sheet::Point;
use sheet::refusal::Refusal;

pub(crate) fn is_standard(p: Point) -> bool
    ensures { result ≡ standard p }
{
    let flat = (p.mx == 0) & (p.my == 0);
    let over = (0 < p.w) & (p.w <= Point::STANDARD_W);
    let nx_in = (-Point::STANDARD_N..=Point::STANDARD_N).contains(&p.nx);
    let ny_in = (-Point::STANDARD_N..=Point::STANDARD_N).contains(&p.ny);
    flat & over & nx_in & ny_in
}

// Whether a point is a given one, as those of objects are.
pub(crate) fn is_given(p: Point) -> bool
    ensures { result ≡ is_given p }
{
    let nx_in = !sheet::is_beyond(p.nx);
    let ny_in = !sheet::is_beyond(p.ny);
    is_standard(p) & (p.w == 1) & nx_in & ny_in
}

// Whether a point is fit for a turn.
pub(crate) fn is_narrow(p: Point) -> bool
    ensures { result ≡ narrow p }
{
    let over = (0 < p.w) & (p.w <= Point::FRAME_W);
    let nx_in = (-Point::FRAME_N..=Point::FRAME_N).contains(&p.nx);
    let ny_in = (-Point::FRAME_N..=Point::FRAME_N).contains(&p.ny);
    over & nx_in & ny_in
}

// The coordinate is exactly R or -R.
fn is_edge(m: i64, n: i64, w: u64) -> bool
    ensures { result ≡ edge m n (pos w) }
{
    (whole::size(m) == w) & (n == 0)
}

// The coordinate is not outside -R to R.
fn is_in_square(m: i64, n: i64, w: u64) -> bool
    ensures { result ≡ in_square m n (pos w) }
{
    let full = whole::size(m);
    let toward = whole::sign(n);
    let inward = -whole::sign(m);
    (full < w) | ((full == w) & ((n == 0) | (toward == inward)))
}

fn is_frame(p: Point) -> bool
    ensures { result ≡ frame p }
{
    if !is_narrow(p) {
        return false;
    }
    let full = p.w as u64;
    let on_edge = is_edge(p.mx, p.nx, full) | is_edge(p.my, p.ny, full);
    on_edge & is_in_square(p.mx, p.nx, full) & is_in_square(p.my, p.ny, full)
}

fn is_point(p: Point) -> bool
    ensures { result ≡ is_point p }
{
    let placed = is_standard(p) | is_frame(p);
    if !placed {
        return false;
    }
    divisor(p.mx, p.nx, p.my, p.ny, p.w) == 1
}

// Five numbers that are no point are refused by 5.
pub fn check_point(p: Point) -> Result<(), Refusal>
    ensures { refused_by result ≡ point_refusal p }
{
    if is_point(p) {
        return Ok(());
    }
    Err(Refusal::NoPoint)
}
