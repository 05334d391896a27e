// What the calls answer, in words and numbers with a space before each.
use sheet::refusal::Refusal;
use sheet::{Crossing, Ends, Object, Point};
use std::fmt;

// The words for an answer that is no refusal.
pub trait Words {
    fn words<W: fmt::Write>(&self, f: &mut fmt::Formatter<W>) -> fmt::Result;
}

impl Words for Object {
    fn words<W: fmt::Write>(&self, f: &mut fmt::Formatter<W>) -> fmt::Result {
        write!(
            f,
            " object {} {} {} {} {} {}",
            self.kind, self.px, self.py, self.qx, self.qy, self.tag
        )
    }
}

impl Words for Point {
    fn words<W: fmt::Write>(&self, f: &mut fmt::Formatter<W>) -> fmt::Result {
        write!(
            f,
            " point {} {} {} {} {}",
            self.mx, self.nx, self.my, self.ny, self.w
        )
    }
}

impl Words for Ends {
    fn words<W: fmt::Write>(&self, f: &mut fmt::Formatter<W>) -> fmt::Result {
        self.first.words(f)?;
        self.last.words(f)
    }
}

// Of order, turn and side.
impl Words for i64 {
    fn words<W: fmt::Write>(&self, f: &mut fmt::Formatter<W>) -> fmt::Result {
        write!(f, " sign {self}")
    }
}

impl Words for Crossing {
    fn words<W: fmt::Write>(&self, f: &mut fmt::Formatter<W>) -> fmt::Result {
        match self {
            Crossing::Nothing => f.write_str(" none"),
            Crossing::Once(p) => p.words(f),
            Crossing::Many => f.write_str(" many"),
        }
    }
}

// What a call answers: the words for it, or the number of its refusal.
#[derive(Drop)]
pub struct Said<T>(pub Result<T, Refusal>);

impl<T: Words> fmt::Display for Said<T> {
    fn fmt<W: fmt::Write>(&self, f: &mut fmt::Formatter<W>) -> fmt::Result {
        match &self.0 {
            Ok(answer) => answer.words(f),
            Err(no) => write!(f, " refused {}", i64::from(*no)),
        }
    }
}

// The cells of a lent list.
#[derive(Clone, Copy)]
pub struct Cells<'a, T>(pub &'a [T]);

impl<T: fmt::Display> fmt::Display for Cells<'_, T> {
    fn fmt<W: fmt::Write>(&self, f: &mut fmt::Formatter<W>) -> fmt::Result {
        for cell in self.0 {
            write!(f, " {cell}")?;
        }
        Ok(())
    }
}

// The number that a call refuses by, 0 where it does not refuse.
pub fn refused_by<T: Drop>(answer: Result<T, Refusal>) -> i64 {
    match answer {
        Ok(_) => 0,
        Err(no) => no.into(),
    }
}
