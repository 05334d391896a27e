// Places on the screen: where a point is, as floats, and the box of a whole sheet. Every public call takes any numbers.
#![tactic(auto)]

pub mod boxes;
pub mod places;
mod quotient;

// Where a point is: a position x, y; or the number of a frame side, the slope toward it and the offset along it.
#[derive(Clone, Copy)]
pub enum OnScreen {
    At(f64, f64),
    Edge(i64, f64, f64),
}

// A position, as floats.
#[derive(Clone, Copy)]
pub struct Position {
    pub x: f64,
    pub y: f64,
}

// A box: the lowest and the highest x and y.
#[derive(Clone, Copy)]
pub struct SheetBox {
    pub low: Position,
    pub high: Position,
}
