// What the kernel answers as a struct of its numbers, since C takes no enum: every other number is 0.
ghost use Rattle.std.specs.Prelude.{◌≡◌, [], ◌∷◌};
ghost use Rattle.sheet.specs.Answers.{ends_say, signed_says, crossing_says};
ghost use Rattle.spot.specs.Numbers.{point_from, two_ends_of, answer_of};

use crate::{Answer, TwoEnds};
use sheet::refusal::Refusal;
use sheet::{Crossing, Ends, Point};

fn no_point() -> Point
    ensures { result ≡ point_from [] 0 }
{
    Point {
        mx: 0,
        nx: 0,
        my: 0,
        ny: 0,
        w: 0,
    }
}

impl From<Result<Ends, Refusal>> for TwoEnds {
    ghost from_gives = { λ ends answer. answer ≡ two_ends_of (ends_say ends) };

    fn from(ends: Result<Ends, Refusal>) -> TwoEnds {
        match ends {
            Ok(Ends { first, last }) => TwoEnds {
                refusal: 0,
                first,
                last,
            },
            Err(refusal) => TwoEnds {
                refusal: refusal.into(),
                first: no_point(),
                last: no_point(),
            },
        }
    }
}

fn without_point(refusal: i64, number: i64) -> Answer
    ensures { result ≡ answer_of (refusal ∷ number ∷ []) }
{
    Answer {
        refusal,
        number,
        at: no_point(),
    }
}

impl From<Result<i64, Refusal>> for Answer {
    ghost from_gives = { λ signed answer. answer ≡ answer_of (signed_says signed) };

    fn from(signed: Result<i64, Refusal>) -> Answer {
        match signed {
            Ok(sign) => without_point(0, sign),
            Err(no) => without_point(no.into(), 0),
        }
    }
}

impl From<Result<Crossing, Refusal>> for Answer {
    ghost from_gives = { λ crossing answer. answer ≡ answer_of (crossing_says crossing) };

    fn from(crossing: Result<Crossing, Refusal>) -> Answer {
        match crossing {
            Ok(Crossing::Nothing) => without_point(0, 0),
            Ok(Crossing::Once(at)) => Answer {
                refusal: 0,
                number: 1,
                at,
            },
            Ok(Crossing::Many) => without_point(0, 2),
            Err(refusal) => without_point(refusal.into(), 0),
        }
    }
}
