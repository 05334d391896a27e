// The refusals, by the names that include/silvanelga.h has for C. Where each is given is document 01's to say; the contracts hold them to its
// definitions.
ghost use Rattle.std.specs.Prelude.{◌≡◌};
ghost use Rattle.sheet.specs.declared.refusal.Unfilled.TheVariants.{Refused};
ghost use Rattle.sheet.specs.Refused.{no_of, unfilled_no, needed};

#[derive(Clone, Copy, Debug, PartialEq, Eq, Hash)]
pub enum Refusal {
    // kind not 1 to 4
    NoKind,
    // a coordinate beyond 2,000 either way
    TooFar,
    // p equals q
    SamePoints,
    // side number not 1 to 4, or one of py, qx and qy not 0
    NoSide,
    // five numbers that are no point
    NoPoint,
    // a point too wide for a turn
    WidePoint,
    // the bytes end where a number must begin or go on
    BytesEnd,
    // a stored number's third byte has its top bit set (at once, before any 7), or its last group, not being the first, is 0
    BadNumber,
    // bytes after the last object
    BytesAfter,
    // more than 512 objects
    TooMany,
    // object index not below the count
    NoObject,
    // list length not a multiple of six, or of ten for rows
    ListLength,
    // a tag below 0 or above 2,000,000
    NoTag,
    // a tag other than 0 written as a stored drawing, which has no place for it
    TagLost,
    // of the first three points of a circle, or a standard fourth, one that is no given point
    NotGiven,
}

// The number that says no. 10 is that of `Unfilled::NoRoom`, and 12 is not used again.
impl From<Refusal> for i64 {
    ghost from_gives = { λ refusal number. number ≡ no_of refusal };

    fn from(refusal: Refusal) -> i64 {
        match refusal {
            Refusal::NoKind => 1,
            Refusal::TooFar => 2,
            Refusal::SamePoints => 3,
            Refusal::NoSide => 4,
            Refusal::NoPoint => 5,
            Refusal::WidePoint => 6,
            Refusal::BytesEnd => 7,
            Refusal::BadNumber => 8,
            Refusal::BytesAfter => 9,
            Refusal::TooMany => 11,
            Refusal::NoObject => 13,
            Refusal::ListLength => 14,
            Refusal::NoTag => 15,
            Refusal::TagLost => 16,
            Refusal::NotGiven => 21,
        }
    }
}

// Why lent cells were not filled: the call refuses, or they are too few for the result, which has so many.
#[derive(Clone, Copy, Debug, PartialEq, Eq, Hash)]
pub enum Unfilled {
    Refused(Refusal),
    NoRoom(usize),
}

impl From<Refusal> for Unfilled {
    ghost from_gives = { λ refusal unfilled. unfilled ≡ Refused refusal };

    fn from(refusal: Refusal) -> Unfilled {
        Unfilled::Refused(refusal)
    }
}

// The number that says no.
impl From<Unfilled> for i64 {
    ghost from_gives = { λ unfilled number. number ≡ unfilled_no unfilled };

    fn from(unfilled: Unfilled) -> i64 {
        match unfilled {
            Unfilled::Refused(refusal) => i64::from(refusal),
            Unfilled::NoRoom(_) => 10,
        }
    }
}

impl Unfilled {
    // The length that is needed, 0 where the call refuses.
    pub fn needed(self) -> usize
        ensures { result ≡ needed self }
    {
        match self {
            Unfilled::Refused(_) => 0,
            Unfilled::NoRoom(needed) => needed,
        }
    }
}
