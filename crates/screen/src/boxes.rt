// The box of a whole sheet: the lowest and the highest x and y over the standard ends of its objects.
ghost use Rattle.std.specs.Prelude.{◌≡◌, None};
ghost use Rattle.sheet.specs.Figure.{figure};
ghost use Rattle.sheet.specs.Lists.{list_refusal};
ghost use Rattle.screen.specs.Values.{float_answer};
ghost use Rattle.screen.specs.Boxes.{standard_ends, ends_of, nothing, box_of, box_says, boxed_says};
ghost use Rattle.screen.specs.Extremes.{extremes_at, extremes_with, with_end, with_ends, box_around, AllWithin};

use crate::quotient::exact;
use crate::{Position, SheetBox};
use sheet::Object;
use sheet::lists::{check_list, object_at};
use sheet::refusal::Refusal;

// The lowest and the highest x and y of some places.
#[derive(Clone, Copy)]
struct Extremes {
    low_x: i64,
    low_y: i64,
    high_x: i64,
    high_y: i64,
}

impl Extremes {
    // Of one place.
    fn at(x: i64, y: i64) -> Extremes
        ensures { result ≡ extremes_at (record { x = x; y = y }) }
    {
        Extremes {
            low_x: x,
            low_y: y,
            high_x: x,
            high_y: y,
        }
    }

    // Of those places and one more.
    fn with(self, x: i64, y: i64) -> Extremes
        ensures { result ≡ extremes_with self (record { x = x; y = y }) }
    {
        Extremes {
            low_x: self.low_x.min(x),
            low_y: self.low_y.min(y),
            high_x: self.high_x.max(x),
            high_y: self.high_y.max(y),
        }
    }
}

// Those of some places, if there are any, and one more.
fn with_end(extremes: Option<Extremes>, x: i64, y: i64) -> Option<Extremes>
    ensures { result ≡ with_end extremes (record { x = x; y = y }) }
{
    match extremes {
        Some(e) => Some(e.with(x, y)),
        None => Some(Extremes::at(x, y)),
    }
}

// Those of some places, if there are any, and the standard ends of an object.
fn with_object(extremes: Option<Extremes>, o: Object) -> Option<Extremes>
    ensures { result ≡ with_ends extremes (standard_ends (figure o)) }
{
    match o.kind {
        Object::SEGMENT => with_end(with_end(extremes, o.px, o.py), o.qx, o.qy),
        Object::RAY => with_end(extremes, o.px, o.py),
        _ => extremes,
    }
}

// Those of all standard ends, if there are any.
fn extremes_of(list: &[i64]) -> Option<Extremes>
    ensures { result ≡ with_ends None (ends_of list.now) }
{
    let mut extremes = None;
    for i in 0..list.len() / Object::WIDTH {
        extremes = with_object(extremes, object_at(list, i));
    }
    extremes
}

// What stands for no box where four numbers have to: +0 four times.
pub fn nothing() -> SheetBox
    ensures { result ≡ nothing }
{
    SheetBox {
        low: Position { x: 0.0, y: 0.0 },
        high: Position { x: 0.0, y: 0.0 },
    }
}

fn around(e: Extremes) -> SheetBox
    requires { AllWithin 2000 e }
    ensures { result ≡ box_around e }
{
    SheetBox {
        low: Position {
            x: exact(e.low_x),
            y: exact(e.low_y),
        },
        high: Position {
            x: exact(e.high_x),
            y: exact(e.high_y),
        },
    }
}

// The box of all objects of a list, six numbers each; none where no object has a standard end.
pub fn box_of(list: &[i64]) -> Result<Option<SheetBox>, Refusal>
    ensures { boxed_says result ≡ float_answer (list_refusal list.now) (box_says (box_of (ends_of list.now))) }
{
    check_list(list)?;
    Ok(extremes_of(list).map(around))
}
