// The listing: a list of objects in, the rows of the pairs that share something out. A list is numbers, six an object. Joints, pairs whose one
// common point is an end of both, are left out of rows, counts and lengths unless the caller asks for them.
#![tactic(auto)]

mod blocks; // blocks.rt: spans of several objects together
mod extents; // extents.rt: the x of left ends and of right ends
mod order; // order.rt: the objects in the order of their left ends
mod spans; // spans.rt: two numbers of an object, which tell what stands apart
mod runs; // runs.rt: later objects that stand together in the list
mod near_pairs; // near_pairs.rt: the later objects that are near
mod pairs; // pairs.rt: which pairs, in which order, and whether their rows have room
mod rows; // rows.rt: what two objects share, and the row that tells it

ghost use Rattle.std.specs.Prelude.{◌≡◌, length};
ghost use Rattle.sheet.specs.Lent.{filled};
ghost use Rattle.sheet.specs.Refused.{refused_by};
ghost use Rattle.sheet.specs.Lists.{list_refusal};
ghost use Rattle.listing.specs.Rows.{rows_with, rows_of, sharing_with, sharing};
ghost use Rattle.listing.specs.Listing.{one_refusal, listed_told, listed};

use crate::near_pairs::Near;
use crate::pairs::{All, list_pairs};
use crate::runs::Run;
use sheet::Object;
use sheet::lists::check_list;
use sheet::refusal::{Refusal, Unfilled};

// What was listed: how many rows, and how many numbers they are.
#[derive(Clone, Copy)]
pub struct Listed {
    pub rows: usize,
    pub length: usize,
}

// A list is refused as it stands, and then an index by 13.
fn check_index(list: &[i64], i: usize) -> Result<(), Refusal>
    ensures { refused_by result ≡ one_refusal list.now i }
{
    check_list(list)?;
    if i < list.len() / Object::WIDTH {
        return Ok(());
    }
    Err(Refusal::NoObject)
}

// The rows of object i with all later ones, at the front of a lent list.
pub fn list_one(list: &[i64], i: usize, joints: bool, out: &mut [i64]) -> Result<Listed, Unfilled>
    ensures answer { listed_told result ≡ listed (one_refusal list.now i) (sharing_with joints list.now i) (length out.old) }
    ensures rows { out.new ≡ filled (one_refusal list.now i) (rows_with joints list.now i) out.old }
{
    check_index(list, i)?;
    list_pairs(&mut All, list, Run { from: i, to: i + 1 }, joints, out)
}

// The rows of all pairs, by i and then j, at the front of a lent list.
pub fn list_all(list: &[i64], joints: bool, out: &mut [i64]) -> Result<Listed, Unfilled>
    ensures answer { listed_told result ≡ listed (list_refusal list.now) (sharing joints list.now) (length out.old) }
    ensures rows { out.new ≡ filled (list_refusal list.now) (rows_of joints list.now) out.old }
{
    check_list(list)?;
    let all = Run {
        from: 0,
        to: list.len() / Object::WIDTH,
    };
    list_pairs(&mut All, list, all, joints, out)
}

// The same rows as `list_all` gives. The objects are put in the order of their left ends, and only those are compared whose extents in x overlap
// or touch: what stands apart shares nothing.
pub fn list_near(list: &[i64], joints: bool, out: &mut [i64]) -> Result<Listed, Unfilled>
    ensures answer { listed_told result ≡ listed (list_refusal list.now) (sharing joints list.now) (length out.old) }
    ensures rows { out.new ≡ filled (list_refusal list.now) (rows_of joints list.now) out.old }
{
    check_list(list)?;
    let all = Run {
        from: 0,
        to: list.len() / Object::WIDTH,
    };
    let mut near = Near::none();
    near.know(list);
    list_pairs(&mut near, list, all, joints, out)
}
