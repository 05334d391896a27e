// Listings, with the lent cells shown: room for one row and one cell more. A cell that holds 7 has not been touched.
use crate::say::Cells;
use listing::{Listed, list_all, list_one};
use sheet::lists::ROW_WIDTH;
use sheet::refusal::Unfilled;
use std::io;

const UNTOUCHED: i64 = 7;

const ROOM: usize = ROW_WIDTH + 1;

// Whether joints are asked for.
const ASKED: bool = true;

const UNASKED: bool = false;

fn answer(
    rt: &impl Print,
    words: &str,
    answer: Result<Listed, Unfilled>,
    rows: &[i64],
) -> io::Result<()> {
    let cells = Cells(rows);
    match answer {
        Ok(listed) => println!(rt; "{words} 0 {} {} cells{cells}", listed.rows, listed.length),
        Err(no) => println!(rt; "{words} {} 0 {} cells{cells}", i64::from(no), no.needed()),
    }
}

fn all(rt: &impl Print, words: &str, list: &[i64], joints: bool) -> io::Result<()> {
    let mut rows = [UNTOUCHED; ROOM];
    let listed = list_all(list, joints, &mut rows);
    answer(rt, words, listed, &rows)
}

// The rows of object i with all later ones.
fn one(rt: &impl Print, words: &str, list: &[i64], i: usize, joints: bool) -> io::Result<()> {
    let mut rows = [UNTOUCHED; ROOM];
    let listed = list_one(list, i, joints, &mut rows);
    answer(rt, words, listed, &rows)
}

pub fn every_pair(rt: &impl Print) -> io::Result<()> {
    let overlapping = [1, 0, 0, 4, 0, 7, 1, 6, 0, 2, 0, 0];
    all(
        rt,
        "list segments 0 0 to 4 0 of tag 7 and 6 0 to 2 0",
        &overlapping,
        ASKED,
    )?;
    let three = [3, 0, 0, 2, 1, 0, 1, 0, 2, 2, 0, 0, 4, 3, 0, 0, 0, 0];
    all(rt, "list a line, a segment and side 3", &three, ASKED)?;
    all(rt, "list kind 9", &[9, 0, 0, 0, 0, 0], ASKED)
}

pub fn one_object(rt: &impl Print) -> io::Result<()> {
    let sides = [4, 1, 0, 0, 0, 1, 4, 3, 0, 0, 0, 3, 4, 4, 0, 0, 0, 4];
    one(
        rt,
        "list side 3 of sides 1, 3 and 4 of tags 1, 3 and 4",
        &sides,
        1,
        ASKED,
    )?;
    let equal = [4, 2, 0, 0, 0, 0, 4, 2, 0, 0, 0, 0, 4, 2, 0, 0, 0, 0];
    one(rt, "list the first of three equal sides", &equal, 0, ASKED)?;
    one(
        rt,
        "list object 2 of two objects",
        &[1, 0, 0, 4, 0, 0, 1, 6, 0, 2, 0, 0],
        2,
        ASKED,
    )?;
    one(rt, "list object 2 of kind 9", &[9, 0, 0, 0, 0, 0], 2, ASKED)
}

// A pair whose one common point is an end of both, with joints asked for and without.
pub fn joints(rt: &impl Print) -> io::Result<()> {
    let three = [3, 0, 0, 2, 1, 0, 1, 0, 2, 2, 0, 0, 4, 3, 0, 0, 0, 0];
    all(
        rt,
        "list a line, a segment and side 3, without joints",
        &three,
        UNASKED,
    )?;
    let bent = [1, 0, 0, 6, 0, 0, 1, 6, 0, 6, 4, 0];
    all(
        rt,
        "list segments 0 0 to 6 0 and 6 0 to 6 4, with joints and without",
        &bent,
        ASKED,
    )?;
    all(rt, "", &bent, UNASKED)?;
    let branched = [1, 0, 0, 6, 0, 0, 1, 6, 0, 6, 4, 0, 1, 3, 0, 3, 4, 0];
    one(
        rt,
        "list the first of these and 3 0 to 3 4, with joints and without",
        &branched,
        0,
        ASKED,
    )?;
    one(rt, "", &branched, 0, UNASKED)?;
    let line_and_side = [3, 0, 0, 1, 1, 0, 4, 4, 0, 0, 0, 0];
    all(
        rt,
        "list line 0 0 to 1 1 and side 4, with joints and without",
        &line_and_side,
        ASKED,
    )?;
    all(rt, "", &line_and_side, UNASKED)?;
    all(
        rt,
        "list two equal sides without joints",
        &[4, 2, 0, 0, 0, 0, 4, 2, 0, 0, 0, 0],
        UNASKED,
    )
}
