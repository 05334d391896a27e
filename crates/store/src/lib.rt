// Stored drawings: a list of objects as bytes in either of two forms, back, and from form to form. The definitions are in specs/Forms.antt and
// specs/Stored.antt.
#![tactic(auto)]

ghost use Rattle.std.specs.Prelude.{◌≡◌};
ghost use Rattle.sheet.specs.Refused.{refused_by};
ghost use Rattle.store.specs.Forms.{origin, longest_of};
ghost use Rattle.store.specs.Stored.{read_drawing};
ghost use Rattle.store.specs.Reader.{start_place, step_from, step_of, taken_of};
ghost use Rattle.store.specs.Told.{read_told, write_told, step_told, take_told};
ghost use Rattle.store.specs.Answers.{read_answer, read_into, write_answer, write_into, move_answer, move_into, formed_says, form_answer};

use reading::{read_head, read_object, read_objects};
use sheet::Object;
use sheet::refusal::{Refusal, Unfilled};
use writing::{check_writing, write_all};

mod reading; // reading.rt: points, objects and openings that bytes begin with
mod writing; // writing.rt: the bytes of points and objects

// The forms of a stored drawing: document 01's, and the shorter one of document 02, with tags, and with q by its differences from p.
#[derive(Clone, Copy)]
pub enum Form {
    Old,
    New,
}

// The number that the new form starts with. No old drawing has it as its count.
const MARK: u64 = 1000;
// The tag of every object of an old drawing, which has no place for another.
const UNTAGGED: i64 = 0;
// The largest length of an old drawing: the count in two bytes, and each object with its kind in one and four coordinates in two.
const OLD_LONGEST: usize = 2 + Object::MOST * 9;
// The largest length of a new drawing, and so of any: two bytes more for the mark, and three for each tag. Lent bytes that are as many have room
// for every drawing.
pub const LONGEST: usize = 4 + Object::MOST * 12;
// The numbers of the most objects.
const NUMBERS: usize = Object::MOST * Object::WIDTH;

// Where a coordinate of q is counted from: from 0 in the old form, and in the new one from the same coordinate of p.
fn origin(form: Form, z: i64) -> i64
    ensures { result ≡ origin form z }
{
    match form {
        Form::Old => 0,
        Form::New => z,
    }
}

// The largest length of a drawing of a form.
fn longest_of(form: Form) -> usize
    ensures { result ≡ longest_of form }
{
    match form {
        Form::Old => OLD_LONGEST,
        Form::New => LONGEST,
    }
}

// What was read into a lent list: how many objects, and how many numbers.
#[derive(Clone, Copy)]
pub struct Read {
    pub count: usize,
    pub length: usize,
}

// Refuses bytes that are no drawing, by what reading them meets first.
pub fn check_drawing(bytes: &[u8]) -> Result<(), Refusal>
    ensures { refused_by result ≡ (read_drawing bytes.now).refusal }
{
    let head = read_head(bytes)?;
    let mut nowhere = [0; 0];
    read_objects(head.value.form, head.value.count, head.rest, &mut nowhere)
}

// The form that accepted bytes have; of others, what reading them meets first.
pub fn form_of(bytes: &[u8]) -> Result<Form, Refusal>
    ensures { formed_says result ≡ form_answer bytes.now }
{
    check_drawing(bytes)?;
    Ok(read_head(bytes)?.value.form)
}

// The objects of a drawing, in order, at the front of a lent list: six numbers each.
pub fn read_drawing(bytes: &[u8], out: &mut [i64]) -> Result<Read, Unfilled>
    ensures answer { read_told result ≡ read_answer (read_drawing bytes.now) out.old }
    ensures cells { out.new ≡ read_into (read_drawing bytes.now) out.old }
{
    let front = read_head(bytes)?;
    let head = front.value;
    let mut nowhere = [0; 0];
    read_objects(head.form, head.count, front.rest, &mut nowhere)?;
    let count = head.count as usize;
    let length = count * Object::WIDTH;
    if out.len() < length {
        return Err(Unfilled::NoRoom(length));
    }
    // the same objects again: none is refused
    let _ = read_objects(head.form, head.count, front.rest, out);
    Ok(Read { count, length })
}

// A list of objects as a drawing of a form, at the front of lent bytes. What is answered is its length.
pub fn write_drawing(form: Form, list: &[i64], out: &mut [u8]) -> Result<usize, Unfilled>
    ensures answer { write_told result ≡ write_answer form list.now out.old }
    ensures cells { out.new ≡ write_into form list.now out.old }
{
    check_writing(form, list)?;
    if out.len() < longest_of(form) {
        let mut nowhere = [0; 0];
        let needed = write_all(form, list, &mut nowhere);
        if out.len() < needed {
            return Err(Unfilled::NoRoom(needed));
        }
    }
    Ok(write_all(form, list, out))
}

// A drawing of either form as a drawing of the form that is asked for, at the front of lent bytes: it is read into a list, which has room for
// every drawing, and written.
pub fn move_drawing(bytes: &[u8], form: Form, out: &mut [u8]) -> Result<usize, Unfilled>
    ensures answer { write_told result ≡ move_answer form bytes.now out.old }
    ensures cells { out.new ≡ move_into form bytes.now out.old }
{
    let mut list = [0; NUMBERS];
    let read = read_drawing(bytes, &mut list)?;
    write_drawing(form, &list[..read.length], out)
}

// Where a reader is: whether the form and the count are read, the form, how many objects are left, and where the next one begins. A flag and
// no enum: `step` and `next` are public and answer for every such value, and an enum has fewer.
#[derive(Clone, Copy)]
pub struct Bookmark {
    pub begun: bool,
    pub form: Form,
    pub left: u64,
    pub at: usize,
}

// What a call of the reader gives, an object, the end or the refusal, and the place after it.
#[derive(Clone, Copy)]
pub struct Stepped {
    pub item: Result<Option<Object>, Refusal>,
    pub place: Bookmark,
}

// A reader holds the lent bytes and its place.
#[derive(Clone, Copy)]
pub struct Reader<'a> {
    pub bytes: &'a [u8],
    pub place: Bookmark,
}

// The same, and the reader after it.
#[derive(Clone, Copy)]
pub struct Taken<'a> {
    pub reader: Reader<'a>,
    pub item: Result<Option<Object>, Refusal>,
}

fn step_from(bytes: &[u8], place: Bookmark, form: Form, left: u64, at: usize) -> Stepped
    ensures { step_told result ≡ step_from bytes.now place form left at }
{
    if left == 0 {
        if at < bytes.len() {
            return Stepped {
                item: Err(Refusal::BytesAfter),
                place,
            };
        }
        return Stepped {
            item: Ok(None),
            place,
        };
    }
    let start = at.min(bytes.len());
    match read_object(form, &bytes[start..]) {
        Err(refusal) => Stepped {
            item: Err(refusal),
            place,
        },
        Ok(object) => Stepped {
            item: Ok(Some(object.value)),
            place: Bookmark {
                begun: true,
                form,
                left: left - 1,
                at: bytes.len() - object.rest.len(),
            },
        },
    }
}

// The work of a reader's call: what stands at a place of bytes, and the place after it. It is to be taken into its caller, hence the hint and the
// one call of `step_from`: where a caller goes on from place to place, as the viewer does, no object is then made on the way.
#[inline]
pub fn step(bytes: &[u8], place: Bookmark) -> Stepped
    ensures { step_told result ≡ step_of bytes.now place }
{
    let from = if place.begun {
        place
    } else {
        match read_head(bytes) {
            Err(refusal) => {
                return Stepped {
                    item: Err(refusal),
                    place,
                };
            }
            Ok(head) => Bookmark {
                begun: true,
                form: head.value.form,
                left: head.value.count,
                at: bytes.len() - head.rest.len(),
            },
        }
    };
    step_from(bytes, place, from.form, from.left, from.at)
}

// The place before the first call.
pub fn start() -> Bookmark
    ensures { result ≡ start_place }
{
    Bookmark {
        begun: false,
        form: Form::Old,
        left: 0,
        at: 0,
    }
}

// A reader of bytes, before its first call. It never refuses.
pub fn open_reader<'a>(bytes: &'a [u8]) -> Reader<'a>
    ensures { (result.bytes ≡ bytes.entry) × (result.place ≡ start_place) }
{
    Reader {
        bytes,
        place: start(),
    }
}

// One object, the end or the refusal, with the reader after it. At the end and at a refusal the reader keeps its place.
pub fn next<'a>(r: Reader<'a>) -> Taken<'a>
    ensures { take_told result ≡ taken_of r.entry }
{
    let got = step(r.bytes, r.place);
    Taken {
        reader: Reader {
            bytes: r.bytes,
            place: got.place,
        },
        item: got.item,
    }
}
