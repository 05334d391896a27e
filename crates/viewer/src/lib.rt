// The viewer's calls, for C: stored bytes, an index and two numbers in, one number out. Nothing is kept or changed.
#![tactic(auto)]

ghost use Rattle.std.specs.Prelude.{◌≡◌, [], ◌∷◌, pos};
ghost use Rattle.whole.specs.Choice.{or_else};
ghost use Rattle.sheet.specs.Refusal.{Accepted};
ghost use Rattle.sheet.specs.Signs.{side_sign};
ghost use Rattle.sheet.specs.Answers.{answer, signed_says};
ghost use Rattle.store.specs.Stored.{read_drawing};
ghost use Rattle.store.specs.Reader.{item_of};
ghost use Rattle.store.specs.Told.{item_told};
ghost use Rattle.viewer.specs.Calls.{check_answer, object, whole, index_refusal, place_refusal, call_refusal, side_answer};

use sheet::refusal::Refusal;
use sheet::{Object, Point, is_beyond};

// What a refusal is added to, so that it is no sign.
const REFUSED: i64 = 100;

// 0, or the number of the refusal that reading the stored bytes meets first.
pub fn silvanelga_check(bytes: &[u8]) -> i64
    ensures { result ≡ check_answer bytes.now }
{
    match store::check_drawing(bytes) {
        Ok(()) => 0,
        Err(refusal) => refusal.into(),
    }
}

// What the reader's call number i gives: object i, or what comes after the last.
fn item_at(bytes: &[u8], i: usize) -> Result<Option<Object>, Refusal>
    ensures { item_told result ≡ item_of (read_drawing bytes.now) i }
{
    let mut place = store::start();
    for _ in 0..i {
        place = store::step(bytes, place).place;
    }
    store::step(bytes, place).item
}

// Of an accepted object, for the point x, y. The kernel then refuses nothing.
fn side_for(o: Object, x: i64, y: i64) -> Result<i64, Refusal>
    requires { Accepted o }
    ensures { signed_says result ≡ answer (place_refusal x y) (side_sign o (whole x y) ∷ []) }
{
    if is_beyond(x) | is_beyond(y) {
        return Err(Refusal::TooFar);
    }
    kernel::signs::side_of(o, Point::given(x, y))
}

// Of object i of a drawing that is not refused: the index's refusal comes first, then the point's.
fn side_of_object(bytes: &[u8], i: i64, x: i64, y: i64) -> Result<i64, Refusal>
    requires { (read_drawing bytes.now).refusal ≡ pos 0 }
    ensures { signed_says result ≡ answer (or_else (index_refusal (read_drawing bytes.now) i) (place_refusal x y))
        (side_sign (object (read_drawing bytes.now) i) (whole x y) ∷ []) }
{
    if (i < 0) | (Object::MOST as i64 <= i) {
        return Err(Refusal::NoObject);
    }
    let Some(o) = item_at(bytes, i as usize)? else {
        return Err(Refusal::NoObject);
    };
    side_for(o, x, y)
}

// As `side_of_object`, of any bytes: their own refusal comes first.
fn side_at(bytes: &[u8], i: i64, x: i64, y: i64) -> Result<i64, Refusal>
    ensures { signed_says result ≡ answer (call_refusal (read_drawing bytes.now) i x y)
        (side_sign (object (read_drawing bytes.now) i) (whole x y) ∷ []) }
{
    store::check_drawing(bytes)?;
    side_of_object(bytes, i, x, y)
}

// The side of object i for the point x, y: 1 to the left of its arrow, 0 on its line, -1 to the right; or 100 plus the refusal.
pub fn silvanelga_side(bytes: &[u8], i: i64, x: i64, y: i64) -> i64
    ensures { result ≡ side_answer bytes.now i x y }
{
    match side_at(bytes, i, x, y) {
        Ok(sign) => sign,
        Err(refusal) => REFUSED + i64::from(refusal),
    }
}
