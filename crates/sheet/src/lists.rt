// Lists of objects: an object of one, and which lists are refused. And how many numbers a row of a listing has, for those who write rows and those who read them.
ghost use Rattle.std.specs.Prelude.{◌≡◌, ◌+◌, ◌≤◌, length};
ghost use Rattle.sheet.specs.Refused.{refused_by};
ghost use Rattle.sheet.specs.Lists.{width, count_of, number, object_from, object_at, objects_refusal, list_refusal};

use crate::refusal::Refusal;
use crate::{Object, check_object};

// The numbers of a row that say what a pair shares; and all of a row, which ends with the tags of the two.
pub const SHARE_WIDTH: usize = 8;

pub const ROW_WIDTH: usize = SHARE_WIDTH + 2;

// The object whose numbers begin at a place of a list that has them all.
fn object_from(list: &[i64], at: usize) -> Object
    requires { at + width ≤ length list.now }
    ensures { result ≡ object_from list.now at }
{
    Object {
        kind: list[at],
        px: list[at + 1],
        py: list[at + 2],
        qx: list[at + 3],
        qy: list[at + 4],
        tag: list[at + 5],
    }
}

// The number at a place of a list, 0 past its end.
fn number_at(list: &[i64], at: usize) -> i64
    ensures { result ≡ number list.now at }
{
    list.get(at).copied().unwrap_or(0)
}

// What is left of an object at the end of a list.
fn object_cut(list: &[i64], at: usize) -> Object
    requires { at ≤ length list.now }
    ensures { result ≡ object_from list.now at }
{
    Object {
        kind: number_at(list, at),
        px: number_at(list, at + 1),
        py: number_at(list, at + 2),
        qx: number_at(list, at + 3),
        qy: number_at(list, at + 4),
        tag: number_at(list, at + 5),
    }
}

// Object i of a list, the only place that reads one. Numbers past the end of the list are 0.
pub fn object_at(list: &[i64], i: usize) -> Object
    ensures { result ≡ object_at list.now i }
{
    let count = list.len() / Object::WIDTH;
    if i < count {
        return object_from(list, i * Object::WIDTH);
    }
    if count < i {
        return object_cut(list, list.len());
    }
    object_cut(list, i * Object::WIDTH)
}

// Each object in turn.
fn check_objects(list: &[i64]) -> Result<(), Refusal>
    ensures { refused_by result ≡ objects_refusal list.now (count_of list.now) }
{
    for i in 0..list.len() / Object::WIDTH {
        check_object(object_at(list, i))?;
    }
    Ok(())
}

// A list of objects is refused by 14, by 11, and then as each object in turn.
pub fn check_list(list: &[i64]) -> Result<(), Refusal>
    ensures { refused_by result ≡ list_refusal list.now }
{
    if list.len() % Object::WIDTH != 0 {
        return Err(Refusal::ListLength);
    }
    if Object::MOST < list.len() / Object::WIDTH {
        return Err(Refusal::TooMany);
    }
    check_objects(list)
}
