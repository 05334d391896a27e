// Bytes to an output, as standard output.
ghost use Rattle.std.specs.Prelude.{◌≡◌, ◌-◌, ◌≤◌, is_ok, true, length, take, drop};
ghost use Rattle.std.specs.Io.KnownBytes.{Appends, WriteAppends};
ghost use Rattle.stream.specs.Stream.{Moved, HandedOn, sent};

use crate::calls::{TURNS, again, fail, fail_because};
use std::io::{Error, Write};
use std::time::Clock;

// That a text was not written, and how many of its bytes went. Why was said of it, or of a text before it.
#[derive(Clone, Copy, PartialEq, Eq, Debug)]
pub struct Unwritten {
    pub length: usize,
}

// An output, the words that its failures are said of, and whether all that was handed on to it went: a flag and no type of its own for each of
// the two, since whoever has the output goes on with it whichever it is, and `HandedOn` says what then holds.
#[derive(Drop)]
pub struct Output<'a, W> {
    pub to: W,
    pub what: &'a [u8],
    pub whole: bool,
}

// Writes the text from `done` on, as much of it as goes at once.
fn write_rest<W: Write>(to: &mut W, text: &[u8], done: usize) -> Result<usize, Error>
    requires { done ≤ length text.now }
    ensures moved { Moved (length text.now - done) result }
    ensures bytes { WriteAppends (W.contents to.old) (W.contents to.new) result (drop done text.now) }
{
    to.write(&text[done..])
}

// Writes a text: all of it, or it stops at the first write that fails or takes nothing, and says so of `what`. std's `write_all` gives up where
// a write would block, and does not tell how many bytes went.
fn write_text<W: Write>(
    rt: &(impl Clock + Eprint),
    to: &mut W,
    what: &[u8],
    text: &[u8],
) -> Result<(), Unwritten>
    ensures handed_on { HandedOn true text.now result }
    ensures bytes { Appends (W.contents to.old) (W.contents to.new) (take (sent text.now result) text.now) }
{
    let mut done: usize = 0;
    for _ in 0..TURNS {
        if done == text.len() {
            break;
        }
        match write_rest(to, text, done) {
            Ok(0) => break,
            Ok(moved) => done += moved,
            Err(error) if again(rt, error) => {}
            Err(error) => {
                fail(rt, what, error);
                return Err(Unwritten { length: done });
            }
        }
    }
    if done < text.len() {
        fail_because(rt, what, "a write took nothing");
        return Err(Unwritten { length: done });
    }
    Ok(())
}

impl<W: Write> Output<'_, W> {
    // Hands a text on: all of it, or why not is said. Where a text before it did not go, this one is not begun, and nothing is said.
    pub fn hand_on(&mut self, rt: &(impl Clock + Eprint), text: &[u8]) -> Result<(), Unwritten>
        ensures handed_on { HandedOn self.old.whole text.now result }
        ensures bytes { Appends (W.contents self.old.to) (W.contents self.new.to) (take (sent text.now result) text.now) }
        ensures whole { self.new.whole ≡ is_ok result }
        ensures what { self.new.what ≡ self.old.what }
    {
        if !self.whole {
            return Err(Unwritten { length: 0 });
        }
        let went = write_text(rt, &mut self.to, self.what, text);
        self.whole = went.is_ok();
        went
    }
}
