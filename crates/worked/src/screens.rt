// Places and boxes on the screen.
use crate::drawings::TOO_MANY;
use crate::kernels::{obj, pt};
use crate::say::{Said, Words};
use kernel::crossing::cross;
use kernel::ends::ends_of;
use screen::boxes::{box_of, nothing};
use screen::places::place_of;
use screen::{OnScreen, SheetBox};
use sheet::Crossing;
use std::{fmt, io};

// A float as its 64 bits, in hex. Bits are not to be had of what is no number, which alone differs from itself.
#[derive(Clone, Copy)]
struct Bits(f64);

impl fmt::Display for Bits {
    fn fmt<W: fmt::Write>(&self, f: &mut fmt::Formatter<W>) -> fmt::Result {
        let x = self.0;
        if x == x {
            let bits = f64::to_bits(x);
            write!(f, "{bits:016x}")
        } else {
            f.write_str("no number")
        }
    }
}

impl Words for OnScreen {
    fn words<W: fmt::Write>(&self, f: &mut fmt::Formatter<W>) -> fmt::Result {
        match *self {
            OnScreen::At(x, y) => write!(f, " at {} {}", Bits(x), Bits(y)),
            OnScreen::Edge(side, slope, offset) => write!(
                f,
                " side {side} {} {}",
                Bits(slope),
                Bits(offset)
            ),
        }
    }
}

impl Words for Option<SheetBox> {
    fn words<W: fmt::Write>(&self, f: &mut fmt::Formatter<W>) -> fmt::Result {
        f.write_str(if self.is_some() {
            " from"
        } else {
            " around nothing"
        })?;
        let SheetBox { low, high } = self.unwrap_or(nothing());
        write!(
            f,
            " {} {} {} {}",
            Bits(low.x),
            Bits(low.y),
            Bits(high.x),
            Bits(high.y)
        )
    }
}

fn point(rt: &impl Print, mx: i64, nx: i64, my: i64, ny: i64, w: i64) -> io::Result<()> {
    println!(rt; "{}", Said(place_of(pt(mx, nx, my, ny, w))))
}

fn ends(
    rt: &impl Print,
    words: &str,
    kind: i64,
    px: i64,
    py: i64,
    qx: i64,
    qy: i64,
) -> io::Result<()> {
    match ends_of(obj(kind, px, py, qx, qy)) {
        Ok(ends) => println!(rt;
            "{words}{}\n{}",
            Said(place_of(ends.first)),
            Said(place_of(ends.last))
        ),
        Err(no) => println!(rt; "{words} refused {}", i64::from(no)),
    }
}

pub fn edges(rt: &impl Print) -> io::Result<()> {
    print!(rt; "on the left, the bottom, the right, the top")?;
    point(rt, -2, 0, 1, 3, 2)?;
    point(rt, 1, 5, -3, 0, 3)?;
    point(rt, 7, 0, -2, 6, 7)?;
    point(rt, 0, 5, 1, 0, 1)
}

pub fn corners(rt: &impl Print) -> io::Result<()> {
    print!(rt; "corners where sides 1, 2, 3 and 4 begin")?;
    point(rt, -1, 0, 1, 0, 1)?;
    point(rt, -1, 0, -1, 0, 1)?;
    point(rt, 1, 0, -1, 0, 1)?;
    point(rt, 1, 0, 1, 0, 1)
}

pub fn every_end(rt: &impl Print) -> io::Result<()> {
    ends(rt, "ends of segment 1 2 to -3 4", 1, 1, 2, -3, 4)?;
    ends(rt, "ends of ray 0 1 through 3 2", 2, 0, 1, 3, 2)
}

pub fn line_ends(rt: &impl Print) -> io::Result<()> {
    ends(rt, "ends of line 0 1 to 2 2", 3, 0, 1, 2, 2)?;
    ends(rt, "ends of line 0 0 to 2 1", 3, 0, 0, 2, 1)?;
    ends(rt, "ends of line 5 0 to 5 1", 3, 5, 0, 5, 1)
}

pub fn side_ends(rt: &impl Print) -> io::Result<()> {
    print!(rt; "ends of sides 1, 2, 3 and 4")?;
    for n in 1..5 {
        ends(rt, "", 4, n, 0, 0, 0)?;
    }
    Ok(())
}

pub fn positions(rt: &impl Print) -> io::Result<()> {
    print!(rt; "line 0 0 to 2 1 and segment 0 2 to 2 0")?;
    if let Ok(Crossing::Once(p)) = cross(obj(3, 0, 0, 2, 1), obj(1, 0, 2, 2, 0)) {
        println!(rt; "{}", Said(place_of(p)))?;
    }
    Ok(())
}

pub fn points(rt: &impl Print) -> io::Result<()> {
    print!(rt; "origin, the widest, origin twice, beyond the frame")?;
    point(rt, 0, 0, 0, 0, 1)?;
    point(rt, 0, 64_000_000_000, 0, -63_999_999_999, 32_000_000)?;
    point(rt, 0, 0, 0, 0, 2)?;
    point(rt, 1, 1, -1, 0, 1)
}

pub fn boxes(rt: &impl Print) -> io::Result<()> {
    let ends = [1, 1, 2, -3, 4, 0, 2, 7, -8, 9, 10, 5];
    println!(rt;
        "box of segment 1 2 to -3 4 and ray 7 -8 through 9 10{}",
        Said(box_of(&ends))
    )?;
    let no_ends = [3, 100, 100, 200, 300, 0, 4, 1, 0, 0, 0, 0];
    println!(rt;
        "box of a line and a side, of nothing{}",
        Said(box_of(&no_ends))
    )?;
    println!(rt; "{}", Said(box_of(&[])))
}

pub fn refused_boxes(rt: &impl Print) -> io::Result<()> {
    print!(rt; "box of seven numbers, of p equal to q, of 513 objects")?;
    println!(rt; "{}", Said(box_of(&[4, 3, 0, 0, 0, 0, 1])))?;
    println!(rt; "{}", Said(box_of(&[4, 3, 0, 0, 0, 0, 1, 5, 6, 5, 6, 0])))?;
    println!(rt; "{}", Said(box_of(&[4; TOO_MANY])))
}
