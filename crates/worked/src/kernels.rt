// Whole numbers, makers, ends, signs and crossings.
use crate::say::{Said, refused_by};
use kernel::crossing::cross;
use kernel::ends::ends_of;
use kernel::points::check_point;
use kernel::signs::{order_points, side_of, turn_points};
use sheet::{Object, Point, check_object};
use std::io;
use whole::{gcd, sign, size};

pub fn pt(mx: i64, nx: i64, my: i64, ny: i64, w: i64) -> Point {
    Point { mx, nx, my, ny, w }
}

// An object of tag 0.
pub fn obj(kind: i64, px: i64, py: i64, qx: i64, qy: i64) -> Object {
    Object {
        kind,
        px,
        py,
        qx,
        qy,
        tag: 0,
    }
}

// The extreme i64 and the smallest divisors.
pub fn numbers(rt: &impl Print) -> io::Result<()> {
    println!(rt;
        "sign of the least, 0, the largest {} {} {}",
        sign(i64::MIN),
        sign(0),
        sign(i64::MAX)
    )?;
    println!(rt;
        "size of the least, -1, the largest {} {} {}",
        size(i64::MIN),
        size(-1),
        size(i64::MAX)
    )?;
    println!(rt;
        "divisors of 0 0, 0 7, 12 18 {} {} {}",
        gcd(0, 0),
        gcd(0, 7),
        gcd(12, 18)
    )
}

// Each kind is made. Coordinate 2,000 is taken and 2,001 refused, either way.
pub fn makers(rt: &impl Print) -> io::Result<()> {
    println!(rt;
        "segment to 2000 2000{}",
        Said(Object::segment(0, 0, 2000, 2000, 0))
    )?;
    println!(rt;
        "ray 1 2 through 3 4 of tag 5{}",
        Said(Object::ray(1, 2, 3, 4, 5))
    )?;
    println!(rt;
        "line 1 2 to 3 4 of tag 5{}",
        Said(Object::line(1, 2, 3, 4, 5))
    )?;
    println!(rt;
        "segment to 2001 0{}",
        Said(Object::segment(0, 0, 2001, 0, 0))
    )?;
    println!(rt; "ray from 0 -2001{}", Said(Object::ray(0, -2001, 0, 0, 0)))?;
    println!(rt;
        "line from the least{}",
        Said(Object::line(i64::MIN, 0, i64::MAX, 0, 0))
    )
}

pub fn points_and_sides(rt: &impl Print) -> io::Result<()> {
    println!(rt; "line from p to p{}", Said(Object::line(5, 6, 5, 6, 0)))?;
    println!(rt; "side 3 of tag 5{}", Said(Object::side(3, 5)))?;
    println!(rt; "side 5{}", Said(Object::side(5, 0)))
}

pub fn checks(rt: &impl Print) -> io::Result<()> {
    print!(rt; "kind 0, kind 5, side with a fourth number, point of nothing")?;
    for o in [obj(0, 0, 0, 0, 0), obj(5, 0, 0, 1, 1), obj(4, 1, 0, 0, 1)] {
        print!(rt; " {}", refused_by(check_object(o)))?;
    }
    println!(rt; " {}", refused_by(check_point(pt(0, 0, 0, 0, 0))))?;
    print!(rt; "origin, origin twice, corner, beyond the frame")?;
    for p in [
        pt(0, 0, 0, 0, 1),
        pt(0, 0, 0, 0, 2),
        pt(1, 0, -1, 0, 1),
        pt(1, 1, -1, 0, 1),
    ] {
        print!(rt; " {}", refused_by(check_point(p)))?;
    }
    println!(rt;)
}

// Rows 1 to 4, and each kind's ends.
pub fn ends(rt: &impl Print) -> io::Result<()> {
    println!(rt; "line 0 3 to 1 4{}", Said(ends_of(obj(3, 0, 3, 1, 4))))?;
    println!(rt; "line 5 0 to 5 1{}", Said(ends_of(obj(3, 5, 0, 5, 1))))?;
    println!(rt; "line 0 1 to 2 2{}", Said(ends_of(obj(3, 0, 1, 2, 2))))?;
    println!(rt; "ray 0 0 through 4 2{}", Said(ends_of(obj(2, 0, 0, 4, 2))))
}

// Ends that stay where they are, and the sides.
pub fn standing_ends(rt: &impl Print) -> io::Result<()> {
    println!(rt; "segment 1 2 to -3 4{}", Said(ends_of(obj(1, 1, 2, -3, 4))))?;
    println!(rt; "side 1{}", Said(ends_of(obj(4, 1, 0, 0, 0))))?;
    println!(rt; "side 4{}", Said(ends_of(obj(4, 4, 0, 0, 0))))?;
    println!(rt; "segment to 0 2001{}", Said(ends_of(obj(1, 0, 0, 0, 2001))))
}

// Rows 5 and 6, and which points a turn takes.
pub fn signs(rt: &impl Print) -> io::Result<()> {
    let p = Point::given(0, 0);
    let q = Point::given(2, 1);
    let wide = pt(0, 1, 0, 1, 5000);
    println!(rt;
        "turn of 0 0, 2 1 and row 4's point{}",
        Said(turn_points(p, q, pt(2, 0, 1, 2, 2)))
    )?;
    println!(rt;
        "turn of 0 0, 2 1 and 2 0 1 0 2{}",
        Said(turn_points(p, q, pt(2, 0, 1, 0, 2)))
    )?;
    println!(rt; "turn with a wide point{}", Said(turn_points(p, q, wide)))?;
    println!(rt;
        "turn with no point, then a wide one{}",
        Said(turn_points(p, pt(0, 0, 0, 0, 2), wide))
    )
}

// Row 7.
pub fn orders(rt: &impl Print) -> io::Result<()> {
    let p = Point::given(0, 0);
    println!(rt;
        "order of -1 -R against 0 0{}",
        Said(order_points(pt(0, -1, -1, 0, 1), p))
    )?;
    println!(rt;
        "order of 0 0 against 1 -R{}",
        Said(order_points(p, pt(0, 1, -1, 0, 1)))
    )?;
    println!(rt;
        "order of no point{}",
        Said(order_points(p, pt(2, 0, 1, 0, 1)))
    )
}

pub fn sides(rt: &impl Print) -> io::Result<()> {
    let s = Point::given(0, 1);
    println!(rt;
        "side of line 0 0 to 1 0 for 0 1{}",
        Said(side_of(obj(3, 0, 0, 1, 0), s))
    )?;
    println!(rt;
        "side of line 1 0 to 0 0 for 0 1{}",
        Said(side_of(obj(3, 1, 0, 0, 0), s))
    )
}

pub fn frame_sides(rt: &impl Print) -> io::Result<()> {
    print!(rt; "side of side 2 for 0 0, for a wide point, for its corner")?;
    for s in [
        Point::given(0, 0),
        pt(0, 63_999_999_999, 0, 1, 32_000_000),
        pt(1, 0, -1, 0, 1),
    ] {
        println!(rt; "{}", Said(side_of(obj(4, 2, 0, 0, 0), s)))?;
    }
    println!(rt;
        "side of no object, then no point{}",
        Said(side_of(obj(9, 0, 0, 0, 0), pt(0, 0, 0, 0, 0)))
    )
}

// Rows 8 and 9.
pub fn crossings(rt: &impl Print) -> io::Result<()> {
    let a = obj(2, 0, 0, 1, 0);
    println!(rt;
        "rays from 0 0 through 1 0 and through -1 0{}",
        Said(cross(a, obj(2, 0, 0, -1, 0)))
    )?;
    let b = obj(3, 0, 0, 1, 1);
    println!(rt;
        "line 0 0 to 1 1 with side 3{}",
        Said(cross(b, obj(4, 3, 0, 0, 0)))
    )?;
    println!(rt;
        "line 0 0 to 1 1 with side 4{}",
        Said(cross(b, obj(4, 4, 0, 0, 0)))
    )
}

// Touching, overlapping and apart.
pub fn on_one_line(rt: &impl Print) -> io::Result<()> {
    let touching = cross(obj(1, 0, 0, 1, 1), obj(1, 1, 1, 2, 2));
    println!(rt; "segments 0 0 to 1 1 and 1 1 to 2 2{}", Said(touching))?;
    let overlapping = cross(obj(1, 0, 0, 2, 2), obj(1, 1, 1, 3, 3));
    println!(rt; "segments 0 0 to 2 2 and 1 1 to 3 3{}", Said(overlapping))?;
    let apart = cross(obj(3, 0, 0, 1, 1), obj(3, 0, 1, 1, 2));
    println!(rt; "lines 0 0 to 1 1 and 0 1 to 1 2{}", Said(apart))
}

// The point of document 01's listing, sides, and the refusals in their order.
pub fn shared_points(rt: &impl Print) -> io::Result<()> {
    let point = cross(obj(3, 0, 0, 2, 1), obj(1, 0, 2, 2, 0));
    println!(rt; "line 0 0 to 2 1 and segment 0 2 to 2 0{}", Said(point))?;
    print!(rt; "sides 1 and 1, 1 and 2, 1 and 3")?;
    for n in 1..4 {
        println!(rt; "{}", Said(cross(obj(4, 1, 0, 0, 0), obj(4, n, 0, 0, 0))))?;
    }
    let refused = cross(obj(0, 0, 0, 1, 1), obj(1, 1, 1, 1, 1));
    println!(rt; "kind 0 with p equal to q{}", Said(refused))
}
