// Writing: the numbers that are stored for an object, and their bytes, put at a place of lent bytes as far as there are cells. Each function
// gives the place behind, whether or not there is room: put into no bytes they are a count of them, so that an object is written in one place.
// The two forms differ in `origin`, and in what `write_front` and `write_head` put.
ghost use Rattle.std.specs.Prelude.{◌≡◌, ◌++◌, ◌+◌, ◌≤◌, nat_abs, ◌-ℤ◌};
ghost use Rattle.sheet.specs.Refused.{refused_by};
ghost use Rattle.sheet.specs.Limits.{reach_size, most};
ghost use Rattle.sheet.specs.Lent.{Wrote};
ghost use Rattle.sheet.specs.Lists.{count_of};
ghost use Rattle.sheet.specs.Listable.{Listable};
ghost use Rattle.number.specs.Number.{zigzag, write_number};
ghost use Rattle.store.specs.Forms.{write_mark, write_tag};
ghost use Rattle.store.specs.Stored.{write_shape, write_object, write_objects, write_drawing, all_untagged, tags_refusal, write_refusal};
ghost use Rattle.store.specs.Bounded.{Bounded, pair_numbers};

use crate::{Form, MARK, UNTAGGED, origin};
use number::{put_stored, stored_size};
use sheet::Object;
use sheet::lent::behind;
use sheet::lists::{check_list, object_at};
use sheet::refusal::Refusal;

// How many numbers are stored for two points.
const PAIR: usize = 4;

// What is stored for a signed number: its double, below 0 with every bit turned over. Said of the double the compiler needs no branch.
pub(crate) fn stored(z: i64) -> u64
    requires { nat_abs z ≤ reach_size + reach_size }
    ensures { result ≡ zigzag z }
{
    let double = 2 * z;
    if double < 0 {
        return (-double - 1) as u64;
    }
    double as u64
}

// What is stored for a coordinate, counted from a start.
pub(crate) fn stored_from(start: i64, z: i64) -> u64
    requires { (nat_abs start ≤ reach_size) × (nat_abs z ≤ reach_size) }
    ensures { result ≡ zigzag (z -ℤ start) }
{
    let far = z - start;
    stored(far)
}

// The numbers that are stored for the points of an object: those of p, and those of q, counted from where the form counts them.
pub(crate) fn pair_numbers(form: Form, o: Object) -> [u64; PAIR]
    requires { Bounded o }
    ensures { result ≡ pair_numbers form o }
{
    let sx = origin(form, o.px);
    let sy = origin(form, o.py);
    let px = stored_from(0, o.px);
    let py = stored_from(0, o.py);
    let qx = stored_from(sx, o.qx);
    let qy = stored_from(sy, o.qy);
    [px, py, qx, qy]
}

// Whether no object of a list has a tag, for which this form has no place. It goes over all of them, with no way out between: so it takes
// less time.
fn all_untagged(list: &[i64]) -> bool
    ensures { result ≡ all_untagged list.now (count_of list.now) }
{
    let n = list.len() / Object::WIDTH;
    let mut all = true;
    for i in 0..n {
        let o = object_at(list, i);
        all = all & (o.tag == UNTAGGED);
    }
    all
}

// Refuses an accepted list by what a form has no place for: in the old form a tag.
fn check_tags(form: Form, list: &[i64]) -> Result<(), Refusal>
    ensures { refused_by result ≡ tags_refusal form list.now }
{
    match form {
        Form::Old => {
            if all_untagged(list) {
                return Ok(());
            }
            Err(Refusal::TagLost)
        }
        Form::New => Ok(()),
    }
}

// Refuses a list that is to be written: by the list's own, then by its tags.
pub(crate) fn check_writing(form: Form, list: &[i64]) -> Result<(), Refusal>
    ensures { refused_by result ≡ write_refusal form list.now }
{
    check_list(list)?;
    check_tags(form, list)
}

// Puts an object's kind, and in the new form its tag.
pub(crate) fn write_front(form: Form, o: Object, out: &mut [u8], at: usize) -> usize
    requires { Bounded o }
    ensures { Wrote out.old out.new at result (write_number (nat_abs o.kind) ++ write_tag form o.tag) }
{
    let kind = o.kind as u64;
    match form {
        Form::Old => put_stored(&[kind], out, at),
        Form::New => {
            let tag = o.tag as u64;
            put_stored(&[kind, tag], out, at)
        }
    }
}

// Puts what stands behind the kind and the tag: the number of a side, or the points. Put into no bytes these are counted by their numbers at
// once: so it takes half the time.
pub(crate) fn write_shape(form: Form, o: Object, out: &mut [u8], at: usize) -> usize
    requires { Bounded o }
    ensures { Wrote out.old out.new at result (write_shape form o.kind o.px o.py o.qx o.qy) }
{
    if o.kind == Object::SIDE {
        let number = whole::size(o.px);
        return put_stored(&[number], out, at);
    }
    let numbers = pair_numbers(form, o);
    if out.len() == 0 {
        return behind(at, stored_size(&numbers));
    }
    put_stored(&numbers, out, at)
}

// Puts an object at a place, and gives the place behind it.
pub(crate) fn write_object(form: Form, o: Object, out: &mut [u8], at: usize) -> usize
    requires { Bounded o }
    ensures { Wrote out.old out.new at result (write_object form o) }
{
    let next = write_front(form, o, out, at);
    write_shape(form, o, out, next)
}

// Puts the objects of an accepted list at a place, each behind the one before, and gives the place behind them.
pub(crate) fn write_objects(
    form: Form,
    list: &[i64],
    count: usize,
    out: &mut [u8],
    at: usize,
) -> usize
    requires { Listable list.now × (count ≤ count_of list.now) }
    ensures { Wrote out.old out.new at result (write_objects form count list.now) }
{
    let mut to = at;
    for i in 0..count {
        let object = object_at(list, i);
        to = write_object(form, object, out, to);
    }
    to
}

// Puts what stands before the objects at the front: the count, and before it the mark of the new form.
pub(crate) fn write_head(form: Form, count: u64, out: &mut [u8]) -> usize
    requires { count ≤ most }
    ensures { Wrote out.old out.new 0 result (write_mark form ++ write_number count) }
{
    match form {
        Form::Old => put_stored(&[count], out, 0),
        Form::New => put_stored(&[MARK, count], out, 0),
    }
}

// Puts the drawing of an accepted list at the front, and gives its length.
pub(crate) fn write_all(form: Form, list: &[i64], out: &mut [u8]) -> usize
    requires { Listable list.now }
    ensures { Wrote out.old out.new 0 result (write_drawing form list.now) }
{
    let count = list.len() / Object::WIDTH;
    let next = write_head(form, count as u64, out);
    write_objects(form, list, count, out, next)
}
