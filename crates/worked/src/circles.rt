// The side of circle: signs, and the refusals in their order.
use crate::kernels::pt;
use crate::say::Said;
use kernel::circle::side_of_circle;
use sheet::Point;
use std::io;

// The three turn left: outside, on the circle, inside, and far outside.
pub fn sides(rt: &impl Print) -> io::Result<()> {
    let p = Point::given(0, 0);
    let q = Point::given(2, 0);
    let s = Point::given(0, 2);
    println!(rt;
        "circle 0 0, 2 0, 0 2 for 3 3{}",
        Said(side_of_circle(p, q, s, Point::given(3, 3)))
    )?;
    println!(rt;
        "circle 0 0, 2 0, 0 2 for 2 2{}",
        Said(side_of_circle(p, q, s, Point::given(2, 2)))
    )?;
    println!(rt;
        "circle 0 0, 2 0, 0 2 for 1 1{}",
        Said(side_of_circle(p, q, s, Point::given(1, 1)))
    )?;
    println!(rt;
        "circle 0 0, 2 0, 0 2 for row 4's point{}",
        Said(side_of_circle(p, q, s, pt(2, 0, 1, 2, 2)))
    )
}

pub fn on_one_line(rt: &impl Print) -> io::Result<()> {
    let p = Point::given(0, 1);
    let q = Point::given(2, 2);
    let s = Point::given(4, 3);
    println!(rt;
        "circle 0 1, 2 2, 4 3 for 2 0 1 0 2{}",
        Said(side_of_circle(p, q, s, pt(2, 0, 1, 0, 2)))
    )?;
    println!(rt;
        "circle 0 1, 2 2, 4 3 for row 4's point{}",
        Said(side_of_circle(p, q, s, pt(2, 0, 1, 2, 2)))
    )
}

pub fn refusals(rt: &impl Print) -> io::Result<()> {
    let p = Point::given(0, 0);
    let q = Point::given(2, 0);
    let s = Point::given(0, 2);
    let far = Point::given(2001, 0);
    println!(rt;
        "circle 0 0, 2001 0, 0 2 for 1 1{}",
        Said(side_of_circle(p, far, s, Point::given(1, 1)))
    )?;
    println!(rt;
        "circle 0 0, 2 0, 0 2 for 0 1 0 1 2{}",
        Said(side_of_circle(p, q, s, pt(0, 1, 0, 1, 2)))
    )?;
    println!(rt;
        "circle 2001 0, 2 0, 0 2 for no point{}",
        Said(side_of_circle(far, q, s, pt(0, 0, 0, 0, 2)))
    )
}
