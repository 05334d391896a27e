// Reading: what bytes begin with, and the bytes behind it; or the refusal. The two forms differ in `origin`, `read_tag` and `read_form`.
ghost use Rattle.std.specs.Prelude.{◌≡◌, ◌<◌, ◌≤◌, nat_abs, IfOk};
ghost use Rattle.std.proofs.lemmas.List.Edits.{sets};
ghost use Rattle.sheet.specs.Answers.{object_numbers};
ghost use Rattle.sheet.specs.Figure.{vec};
ghost use Rattle.sheet.specs.Lent.{Wrote};
ghost use Rattle.sheet.specs.Limits.{reach_size, most};
ghost use Rattle.sheet.specs.Refused.{refused_by};
ghost use Rattle.number.specs.Number.{number_limit, unzigzag, read_number};
ghost use Rattle.store.specs.declared.Form.TheVariants.{New};
ghost use Rattle.store.specs.Forms.{read_tag};
ghost use Rattle.store.specs.Told.{reading_of, point_of};
ghost use Rattle.store.specs.Stored.{object_of, read_coordinate, read_point, read_side, read_pair, read_shape, read_object, read_form, read_count, read_head, read_objects};

use crate::{Form, MARK, UNTAGGED, origin};
use number::read_number;
use sheet::lent::put_numbers;
use sheet::refusal::Refusal;
use sheet::{Object, are_equal, is_beyond};

// What was read, and the bytes behind it.
#[derive(Clone, Copy)]
pub(crate) struct Got<'a, T> {
    pub value: T,
    pub rest: &'a [u8],
}

pub(crate) type Reading<'a, T> = Result<Got<'a, T>, Refusal>;

#[derive(Clone, Copy)]
pub(crate) struct Spot {
    pub x: i64,
    pub y: i64,
}

// What stands before the objects.
#[derive(Clone, Copy)]
pub(crate) struct Head {
    pub form: Form,
    pub count: u64,
}

// An object by what is stored of it.
pub(crate) fn object_of(kind: i64, tag: i64, px: i64, py: i64, qx: i64, qy: i64) -> Object
    ensures { result ≡ object_of kind tag px py qx qy }
{
    Object {
        kind,
        px,
        py,
        qx,
        qy,
        tag,
    }
}

// The stored number that bytes begin with.
pub(crate) fn take_number<'a>(bytes: &'a [u8]) -> Reading<'a, u64>
    ensures told { reading_of result ≡ read_number bytes.now }
    ensures small { IfOk result (λ number. number.value < number_limit) }
{
    let number = read_number(bytes)?;
    Ok(Got {
        value: number.value,
        rest: &bytes[number.size..],
    })
}

// The coordinate that is stored as n.
pub(crate) fn coordinate_of(n: u64) -> i64
    requires { n < number_limit }
    ensures { result ≡ unzigzag n }
{
    let half = (n / 2) as i64;
    if n % 2 == 0 {
        return half;
    }
    -half - 1
}

// A coordinate, counted from a start.
#[tactic(auto, unfolding(crate::specs::Stored::read_coordinate))]
pub(crate) fn read_coordinate<'a>(start: i64, bytes: &'a [u8]) -> Reading<'a, i64>
    requires { nat_abs start ≤ reach_size }
    ensures told { reading_of result ≡ read_coordinate start bytes.now }
    ensures small { IfOk result (λ z. nat_abs z.value ≤ reach_size) }
{
    let number = take_number(bytes)?;
    let far = coordinate_of(number.value);
    let value = start + far;
    if is_beyond(value) {
        return Err(Refusal::TooFar);
    }
    Ok(Got {
        value,
        rest: number.rest,
    })
}

// A point, counted from another.
#[tactic(auto, unfolding(crate::specs::Stored::read_point))]
pub(crate) fn read_point<'a>(start: Spot, bytes: &'a [u8]) -> Reading<'a, Spot>
    requires { (nat_abs start.x ≤ reach_size) × (nat_abs start.y ≤ reach_size) }
    ensures told { point_of result ≡ read_point (vec start.x start.y) bytes.now }
    ensures small { IfOk result (λ p. (nat_abs p.value.x ≤ reach_size) × (nat_abs p.value.y ≤ reach_size)) }
{
    let x = read_coordinate(start.x, bytes)?;
    let y = read_coordinate(start.y, x.rest)?;
    Ok(Got {
        value: Spot {
            x: x.value,
            y: y.value,
        },
        rest: y.rest,
    })
}

// A tag that is stored.
#[tactic(auto, unfolding(crate::specs::Forms::read_tag))]
fn read_stored_tag<'a>(bytes: &'a [u8]) -> Reading<'a, i64>
    ensures { reading_of result ≡ read_tag New bytes.now }
{
    let number = take_number(bytes)?;
    let tag = number.value;
    if (Object::LAST_TAG as u64) < tag {
        return Err(Refusal::NoTag);
    }
    Ok(Got {
        value: tag as i64,
        rest: number.rest,
    })
}

// The tag of an object: in the old form none is stored.
#[tactic(auto, unfolding(crate::specs::Forms::read_tag))]
pub(crate) fn read_tag<'a>(form: Form, bytes: &'a [u8]) -> Reading<'a, i64>
    ensures { reading_of result ≡ read_tag form bytes.now }
{
    match form {
        Form::Old => Ok(Got {
            value: UNTAGGED,
            rest: bytes,
        }),
        Form::New => read_stored_tag(bytes),
    }
}

// A side of the frame, by its plain number.
#[tactic(auto, unfolding(crate::specs::Stored::read_side))]
pub(crate) fn read_side<'a>(tag: i64, bytes: &'a [u8]) -> Reading<'a, Object>
    ensures { reading_of result ≡ read_side tag bytes.now }
{
    let number = take_number(bytes)?;
    let n = number.value;
    if (n < 1) | (4 < n) {
        return Err(Refusal::NoSide);
    }
    Ok(Got {
        value: object_of(Object::SIDE, tag, n as i64, 0, 0, 0),
        rest: number.rest,
    })
}

// p and q
const POINTS: usize = 2;

// The object of a kind by its points p and q, q counted from where the form counts it: of p as a point before it, that is 0. Both are read in
// one place, since the compiler takes a function into its only caller.
pub(crate) fn read_pair<'a>(form: Form, kind: u64, tag: i64, bytes: &'a [u8]) -> Reading<'a, Object>
    requires { kind < number_limit }
    ensures { reading_of result ≡ read_pair form kind tag bytes.now }
{
    let mut p = Spot { x: 0, y: 0 };
    let mut q = p;
    let mut rest = bytes;
    for _ in 0..POINTS {
        let start = Spot {
            x: origin(form, q.x),
            y: origin(form, q.y),
        };
        let point = read_point(start, rest)?;
        p = q;
        q = point.value;
        rest = point.rest;
    }
    if are_equal(p.x, p.y, q.x, q.y) {
        return Err(Refusal::SamePoints);
    }
    Ok(Got {
        value: object_of(kind as i64, tag, p.x, p.y, q.x, q.y),
        rest,
    })
}

#[tactic(auto, unfolding(crate::specs::Stored::read_shape))]
pub(crate) fn read_shape<'a>(
    form: Form,
    kind: u64,
    tag: i64,
    bytes: &'a [u8],
) -> Reading<'a, Object>
    requires { kind < number_limit }
    ensures { reading_of result ≡ read_shape form kind tag bytes.now }
{
    if kind == 4 {
        return read_side(tag, bytes);
    }
    read_pair(form, kind, tag, bytes)
}

// The object that bytes begin with.
#[tactic(auto, unfolding(crate::specs::Stored::read_object))]
pub(crate) fn read_object<'a>(form: Form, bytes: &'a [u8]) -> Reading<'a, Object>
    ensures { reading_of result ≡ read_object form bytes.now }
{
    let number = take_number(bytes)?;
    let kind = number.value;
    if (kind < 1) | (4 < kind) {
        return Err(Refusal::NoKind);
    }
    let tag = read_tag(form, number.rest)?;
    read_shape(form, kind, tag.value, tag.rest)
}

// The form that bytes begin with: the mark is taken, any other number is left to be the count.
#[tactic(auto, unfolding(crate::specs::Stored::read_form))]
pub(crate) fn read_form<'a>(bytes: &'a [u8]) -> Reading<'a, Form>
    ensures { reading_of result ≡ read_form bytes.now }
{
    let first = take_number(bytes)?;
    if first.value == MARK {
        return Ok(Got {
            value: Form::New,
            rest: first.rest,
        });
    }
    Ok(Got {
        value: Form::Old,
        rest: bytes,
    })
}

// The count that stands before the objects.
#[tactic(auto, unfolding(crate::specs::Stored::read_count))]
pub(crate) fn read_count<'a>(bytes: &'a [u8]) -> Reading<'a, u64>
    ensures told { reading_of result ≡ read_count bytes.now }
    ensures small { IfOk result (λ count. count.value ≤ most) }
{
    let count = take_number(bytes)?;
    if (Object::MOST as u64) < count.value {
        return Err(Refusal::TooMany);
    }
    Ok(count)
}

#[tactic(auto, unfolding(crate::specs::Stored::read_head))]
pub(crate) fn read_head<'a>(bytes: &'a [u8]) -> Reading<'a, Head>
    ensures told { reading_of result ≡ read_head bytes.now }
    ensures small { IfOk result (λ head. head.value.count ≤ most) }
{
    let form = read_form(bytes)?;
    let count = read_count(form.rest)?;
    Ok(Got {
        value: Head {
            form: form.value,
            count: count.value,
        },
        rest: count.rest,
    })
}

// An object's numbers, at a place of a list as far as it has cells.
pub(crate) fn put_object(o: Object, out: &mut [i64], at: usize) -> usize
    ensures { Wrote out.old out.new at result (object_numbers o) }
{
    put_numbers(&[o.kind, o.px, o.py, o.qx, o.qy, o.tag], out, at)
}

// Refuses bytes that do not hold count objects of a form and nothing more. The objects, or those before the refusal, are put at the front of a
// list as far as it has cells: one loop for reading and, with a list of none, for the check alone, so that an object is read in one place.
pub(crate) fn read_objects(
    form: Form,
    count: u64,
    bytes: &[u8],
    out: &mut [i64],
) -> Result<(), Refusal>
    ensures refusal { refused_by result ≡ (read_objects form count bytes.now).refusal }
    ensures cells { out.new ≡ sets out.old 0 (read_objects form count bytes.now).objects }
{
    let mut rest = bytes;
    let mut to = 0;
    for _ in 0..count {
        let object = read_object(form, rest)?;
        if out.len() != 0 {
            to = put_object(object.value, out, to);
        }
        rest = object.rest;
    }
    if !rest.is_empty() {
        return Err(Refusal::BytesAfter);
    }
    Ok(())
}
