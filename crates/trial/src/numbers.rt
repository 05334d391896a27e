// What C takes by value, from what the calls answer, since C takes no enum: a refusal is its number, and every other number is then 0, but for
// the length needed where lent cells have no room.
ghost use Rattle.std.specs.Prelude.{◌≡◌};
ghost use Rattle.number.specs.Number.{number_says};
ghost use Rattle.screen.specs.Places.{place_says};
ghost use Rattle.screen.specs.Boxes.{boxed_says};
ghost use Rattle.listing.specs.Listing.{listed_told};
ghost use Rattle.store.specs.Answers.{form_number};
ghost use Rattle.store.specs.Told.{write_told};
ghost use Rattle.trial.specs.Numbers.{form_from, counts_of, two_of, three_of, six_of};

use crate::{RowCounts, SixNumbers, ThreeNumbers, TwoNumbers};
use listing::Listed;
use number::Number;
use screen::{OnScreen, SheetBox};
use sheet::refusal::{Refusal, Unfilled};
use store::Form;

impl From<Result<Listed, Unfilled>> for RowCounts {
    ghost from_gives = { λ listed counts. counts ≡ counts_of (listed_told listed) };

    fn from(listed: Result<Listed, Unfilled>) -> RowCounts {
        match listed {
            Ok(listed) => RowCounts {
                refusal: 0,
                rows: listed.rows,
                length: listed.length,
            },
            Err(unlisted) => RowCounts {
                refusal: unlisted.into(),
                rows: 0,
                length: unlisted.needed(),
            },
        }
    }
}

// Of what was written, its length.
impl From<Result<usize, Unfilled>> for TwoNumbers {
    ghost from_gives = { λ written numbers. numbers ≡ two_of (write_told written) };

    fn from(written: Result<usize, Unfilled>) -> TwoNumbers {
        match written {
            Ok(length) => TwoNumbers { refusal: 0, length },
            Err(unwritten) => TwoNumbers {
                refusal: unwritten.into(),
                length: unwritten.needed(),
            },
        }
    }
}

impl From<Result<Number, Refusal>> for ThreeNumbers {
    ghost from_gives = { λ read numbers. numbers ≡ three_of (number_says read) };

    fn from(read: Result<Number, Refusal>) -> ThreeNumbers {
        match read {
            Ok(number) => ThreeNumbers {
                refusal: 0,
                value: number.value,
                size: number.size,
            },
            Err(refusal) => ThreeNumbers {
                refusal: refusal.into(),
                value: 0,
                size: 0,
            },
        }
    }
}

// The numbers of the forms, for C.
const OLD: i64 = 1;

const NEW: i64 = 2;

pub fn form_number(form: Form) -> i64
    ensures { result ≡ form_number form }
{
    match form {
        Form::Old => OLD,
        Form::New => NEW,
    }
}

// The form of a number: any but the new one's is the old one's.
pub fn form_from(number: i64) -> Form
    ensures { result ≡ form_from number }
{
    if number == NEW {
        return Form::New;
    }
    Form::Old
}

fn six(refusal: i64, number: i64, first: f64, second: f64, third: f64, fourth: f64) -> SixNumbers
    ensures { result ≡ record { refusal = refusal; number = number; first = first; second = second; third = third; fourth = fourth } }
{
    SixNumbers {
        refusal,
        number,
        first,
        second,
        third,
        fourth,
    }
}

impl From<Result<OnScreen, Refusal>> for SixNumbers {
    ghost from_gives = { λ place numbers. numbers ≡ six_of (place_says place) };

    fn from(place: Result<OnScreen, Refusal>) -> SixNumbers {
        match place {
            Ok(OnScreen::At(x, y)) => six(0, 0, x, y, 0.0, 0.0),
            Ok(OnScreen::Edge(side, slope, offset)) => six(0, side, slope, offset, 0.0, 0.0),
            Err(no) => six(no.into(), 0, 0.0, 0.0, 0.0, 0.0),
        }
    }
}

// The flag is 1 where there is no end to be around.
impl From<Result<Option<SheetBox>, Refusal>> for SixNumbers {
    ghost from_gives = { λ boxed numbers. numbers ≡ six_of (boxed_says boxed) };

    fn from(boxed: Result<Option<SheetBox>, Refusal>) -> SixNumbers {
        match boxed {
            Ok(Some(e)) => six(0, 0, e.low.x, e.low.y, e.high.x, e.high.y),
            Ok(None) => six(0, 1, 0.0, 0.0, 0.0, 0.0),
            Err(refusal) => six(refusal.into(), 0, 0.0, 0.0, 0.0, 0.0),
        }
    }
}
