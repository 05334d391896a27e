// Stored drawings: read, checked and written, with the lent cells shown. A cell that holds 7 has not been touched.
use crate::say::{Cells, refused_by};
use sheet::Object;
use sheet::refusal::Unfilled;
use std::io;
use store::{Form, check_drawing, read_drawing, write_drawing};

const UNTOUCHED: i64 = 7;

pub const UNTOUCHED_BYTE: u8 = 7;

// Room for one object, and one cell more.
const ROOM: usize = Object::WIDTH + 1;

// The numbers of one object more than a sheet has.
pub const TOO_MANY: usize = (Object::MOST + 1) * Object::WIDTH;

// The bytes of as many sides as a sheet has: the count in two, and a kind and a number each.
const FULL: usize = 2 + Object::MOST * 2;

// The answer, and the cells of a lent list after the call: room for one object, and one cell more.
pub fn read(rt: &impl Print, words: &str, bytes: &[u8]) -> io::Result<()> {
    let mut list = [UNTOUCHED; ROOM];
    let answer = read_drawing(bytes, &mut list);
    let cells = Cells(&list);
    match answer {
        Ok(read) => println!(rt; "{words} 0 {} {} cells{cells}", read.count, read.length),
        Err(no) => println!(rt; "{words} {} 0 {} cells{cells}", i64::from(no), no.needed()),
    }
}

// The answer of a call that writes, and the lent bytes after it.
pub fn written(
    rt: &impl Print,
    words: &str,
    answer: Result<usize, Unfilled>,
    bytes: &[u8],
) -> io::Result<()> {
    let cells = Cells(bytes);
    match answer {
        Ok(length) => println!(rt; "{words} 0 {length} bytes{cells}"),
        Err(no) => println!(rt; "{words} {} {} bytes{cells}", i64::from(no), no.needed()),
    }
}

// In the old form, with four lent bytes.
pub fn write(rt: &impl Print, words: &str, list: &[i64]) -> io::Result<()> {
    let mut bytes = [UNTOUCHED_BYTE; 4];
    let answer = write_drawing(Form::Old, list, &mut bytes);
    written(rt, words, answer, &bytes)
}

pub fn reading(rt: &impl Print) -> io::Result<()> {
    read(rt, "stored 4000", &[1, 1, 0xa0, 0x1f, 0, 0, 0])?;
    read(rt, "stored 4001", &[1, 1, 0xa1, 0x1f, 0, 0, 0])?;
    read(rt, "80 00", &[0x80, 0])
}

pub fn groups(rt: &impl Print) -> io::Result<()> {
    // 8 in document 01; since document 02's R-2 a third group may follow
    read(rt, "80 80", &[0x80, 0x80])?;
    read(rt, "80 80 80", &[0x80, 0x80, 0x80])?;
    read(rt, "80", &[0x80])?;
    read(rt, "no bytes", &[])
}

pub fn short_drawings(rt: &impl Print) -> io::Result<()> {
    read(rt, "00", &[0])?;
    read(rt, "kind 5", &[1, 5])?;
    read(rt, "side 5", &[1, 4, 5])
}

pub fn after_the_last(rt: &impl Print) -> io::Result<()> {
    read(rt, "p equals q", &[1, 2, 3, 3, 3, 3])?;
    read(rt, "a byte after the last", &[1, 4, 2, 0])?;
    read(rt, "two objects, room for one", &[2, 4, 1, 4, 2])
}

// 512 objects are taken and 513 refused. Every byte after the count is a 4: the side 4, again and again.
pub fn limits(rt: &impl Print) -> io::Result<()> {
    let mut most = [4u8; FULL];
    most[0] = 0x80;
    most[1] = 4;
    println!(rt; "512 objects {}", refused_by(check_drawing(&most)))?;
    most[0] = 0x81;
    println!(rt; "513 objects {}", refused_by(check_drawing(&most)))
}

pub fn writing(rt: &impl Print) -> io::Result<()> {
    write(rt, "write side 3", &[4, 3, 0, 0, 0, 0])?;
    write(rt, "write nothing", &[])?;
    write(rt, "write five numbers, seven numbers", &[4, 3, 0, 0, 0])?;
    write(rt, "", &[4, 3, 0, 0, 0, 0, 1])
}

pub fn refused_writing(rt: &impl Print) -> io::Result<()> {
    write(rt, "write kind 9", &[9, 0, 0, 0, 0, 0])?;
    write(rt, "write a segment in four bytes", &[1, 0, 0, 1, 1, 0])?;
    write(rt, "write 513 objects", &[4; TOO_MANY])
}
