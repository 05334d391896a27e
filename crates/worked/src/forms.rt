// The new form read and written, which form bytes have, and moves from form to form. A byte that holds 7 has not been touched.
use crate::drawings::{UNTOUCHED_BYTE, read, written};
use std::io;
use store::{Form, form_of, move_drawing, write_drawing};

// Room for one side of a small tag in the new form.
const ROOM: usize = 6;

fn write_new(rt: &impl Print, words: &str, list: &[i64]) -> io::Result<()> {
    let mut bytes = [UNTOUCHED_BYTE; ROOM];
    let answer = write_drawing(Form::New, list, &mut bytes);
    written(rt, words, answer, &bytes)
}

fn moved(rt: &impl Print, words: &str, form: Form, bytes: &[u8]) -> io::Result<()> {
    let mut out = [UNTOUCHED_BYTE; ROOM];
    let answer = move_drawing(bytes, form, &mut out);
    written(rt, words, answer, &out)
}

fn form(rt: &impl Print, words: &str, bytes: &[u8]) -> io::Result<()> {
    match form_of(bytes) {
        Ok(Form::Old) => println!(rt; "{words} old"),
        Ok(Form::New) => println!(rt; "{words} new"),
        Err(no) => println!(rt; "{words} {}", i64::from(no)),
    }
}

pub fn reading(rt: &impl Print) -> io::Result<()> {
    read(
        rt,
        "new, segment 1 -2 to 3 100 of tag 7",
        &[0xe8, 7, 1, 1, 7, 2, 3, 4, 0xcc, 1],
    )?;
    read(
        rt,
        "new, side 1 of tag 2000000, of tag 2000001",
        &[0xe8, 7, 1, 4, 0x80, 0x89, 0x7a, 1],
    )?;
    read(rt, "", &[0xe8, 7, 1, 4, 0x81, 0x89, 0x7a, 1])?;
    read(
        rt,
        "new, from 2000 0 to 2001 0, from p to p",
        &[0xe8, 7, 1, 1, 0, 0xa0, 0x1f, 0, 2, 0],
    )?;
    read(rt, "", &[0xe8, 7, 1, 1, 0, 2, 2, 0, 0])
}

pub fn heads(rt: &impl Print) -> io::Result<()> {
    read(rt, "1000, 1000 twice, 1000 and 513", &[0xe8, 7])?;
    read(rt, "", &[0xe8, 7, 0xe8, 7])?;
    read(rt, "", &[0xe8, 7, 0x81, 4])?;
    read(rt, "new, none at all", &[0xe8, 7, 0])
}

pub fn writing(rt: &impl Print) -> io::Result<()> {
    write_new(rt, "write new side 3 of tag 1", &[4, 3, 0, 0, 0, 1])?;
    let two = [4, 1, 0, 0, 0, 0, 4, 2, 0, 0, 0, 0];
    write_new(rt, "write new sides 1 and 2, side 3 of tag 2000001", &two)?;
    write_new(rt, "", &[4, 3, 0, 0, 0, 2_000_001])
}

pub fn moves(rt: &impl Print) -> io::Result<()> {
    moved(rt, "side 3 to new, back to old", Form::New, &[1, 4, 3])?;
    moved(rt, "", Form::Old, &[0xe8, 7, 1, 4, 0, 3])?;
    moved(rt, "side 3 to old, of tag 1 to new", Form::Old, &[1, 4, 3])?;
    moved(rt, "", Form::New, &[0xe8, 7, 1, 4, 1, 3])
}

pub fn refused_moves(rt: &impl Print) -> io::Result<()> {
    let tagged = [0xe8, 7, 1, 4, 1, 3];
    moved(
        rt,
        "side 3 of tag 1 to old, with a byte after it",
        Form::Old,
        &tagged,
    )?;
    moved(rt, "", Form::Old, &[0xe8, 7, 1, 4, 1, 3, 0])?;
    moved(
        rt,
        "sides 1 and 2 to new, side 5 to new",
        Form::New,
        &[2, 4, 1, 4, 2],
    )?;
    moved(rt, "", Form::New, &[1, 4, 5])
}

pub fn which(rt: &impl Print) -> io::Result<()> {
    form(
        rt,
        "form of side 3, of the same in the new form, of side 5",
        &[1, 4, 3],
    )?;
    form(rt, "", &[0xe8, 7, 1, 4, 0, 3])?;
    form(rt, "", &[1, 4, 5])
}
