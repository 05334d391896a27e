// Tags: which are taken, what comes before their refusal, and that nothing else depends on them.
use crate::drawings::write;
use crate::kernels::{obj, pt};
use crate::say::Said;
use kernel::crossing::cross;
use kernel::ends::ends_of;
use kernel::signs::side_of;
use sheet::{Object, Point};
use std::io;

fn tagged(tag: i64, kind: i64, px: i64, py: i64, qx: i64, qy: i64) -> Object {
    Object {
        tag,
        ..obj(kind, px, py, qx, qy)
    }
}

// 2,000,000 is taken; 2,000,001 is not, nor what is below 0.
pub fn makers(rt: &impl Print) -> io::Result<()> {
    println!(rt; "side 1 of tag 2000000{}", Said(Object::side(1, 2_000_000)))?;
    println!(rt;
        "side 1 of tag 2000001, of tag -1{}",
        Said(Object::side(1, 2_000_001))
    )?;
    println!(rt; "{}", Said(Object::side(1, -1)))?;
    let line = Object::line(5, 6, 5, 6, 2_000_001);
    println!(rt;
        "line from p to p, side 5 and segment to 2001 0 of tag 2000001{}",
        Said(line)
    )?;
    println!(rt; "{}", Said(Object::side(5, 2_000_001)))?;
    println!(rt; "{}", Said(Object::segment(0, 0, 2001, 0, 2_000_001)))
}

// The line of row 4, and document 01's point.
pub fn nothing_else(rt: &impl Print) -> io::Result<()> {
    println!(rt;
        "line 0 1 to 2 2 of tag 9{}",
        Said(ends_of(tagged(9, 3, 0, 1, 2, 2)))
    )?;
    let sign = side_of(tagged(9, 3, 0, 0, 1, 0), Point::given(0, 1));
    println!(rt; "side of line 0 0 to 1 0 of tag 9 for 0 1{}", Said(sign))?;
    let point = cross(tagged(9, 3, 0, 0, 2, 1), obj(1, 0, 2, 2, 0));
    println!(rt;
        "line 0 0 to 2 1 of tag 9 and segment 0 2 to 2 0{}",
        Said(point)
    )
}

pub fn refusals(rt: &impl Print) -> io::Result<()> {
    println!(rt;
        "ends of line 0 1 to 2 2 of tag -1{}",
        Said(ends_of(tagged(-1, 3, 0, 1, 2, 2)))
    )?;
    let sign = side_of(tagged(2_000_001, 3, 0, 0, 1, 0), pt(0, 0, 0, 0, 2));
    println!(rt;
        "side of line 0 0 to 1 0 of tag 2000001 for no point{}",
        Said(sign)
    )?;
    let crossing = cross(tagged(-1, 3, 0, 0, 2, 1), obj(0, 0, 0, 0, 0));
    println!(rt; "line 0 0 to 2 1 of tag -1 and kind 0{}", Said(crossing))
}

// The old form has no place for a tag.
pub fn writing(rt: &impl Print) -> io::Result<()> {
    write(rt, "write side 3 of tag 1", &[4, 3, 0, 0, 0, 1])?;
    write(
        rt,
        "write side 3 of tag 1 and kind 9",
        &[4, 3, 0, 0, 0, 1, 9, 0, 0, 0, 0, 0],
    )?;
    write(
        rt,
        "write a segment of tag 1 in four bytes",
        &[1, 0, 0, 1, 1, 1],
    )
}
