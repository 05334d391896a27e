// Bytes from an input, as standard input.
ghost use Rattle.std.specs.Prelude.{◌≡◌, ◌-◌, ◌<◌, ◌≤◌, IfOk, MatchResult, length, take, drop};
ghost use Rattle.std.specs.Io.KnownBytes.{Consumes, IsAtEnd, Keeps};
ghost use Rattle.stream.specs.Stream.{IsPrefixLen, Moved, ReadInto};

use crate::calls::{TURNS, again, fail, fail_because};
use std::io::{Error, Read};
use std::time::Clock;

// That an input could not be read, which was said.
#[derive(Clone, Copy, PartialEq, Eq, Debug)]
pub struct Unread;

// Reads into the bytes from `done` on, as much as comes at once.
fn read_rest<R: Read>(from: &mut R, bytes: &mut [u8], done: usize) -> Result<usize, Error>
    requires { done ≤ length bytes.old }
    ensures moved { Moved (length bytes.old - done) result }
    ensures front { take done bytes.new ≡ take done bytes.old }
    ensures bytes { MatchResult result (λ n. Consumes (R.remaining from.old) (R.remaining from.new) (take n (drop done bytes.new)))
        (λ _. Keeps (R.remaining from.old) (R.remaining from.new)) }
    ensures end { IfOk result (λ n. n ≡ 0 → done < length bytes.old → IsAtEnd (R.remaining from.new)) }
{
    from.read(&mut bytes[done..])
}

// Reads until the input ends or the bytes are full, and answers how many were read. Where a read fails it says so of `what`, and what was read
// before does not count. std's `read_exact` gives up where a read would block, and takes an end for a failure.
pub fn read_bytes<R: Read>(
    rt: &(impl Clock + Eprint),
    from: &mut R,
    what: &[u8],
    bytes: &mut [u8],
) -> Result<usize, Unread>
    ensures read_into { ReadInto bytes.old bytes.new result }
    ensures prefix_len { IfOk result (λ n. IsPrefixLen n bytes.new) }
    ensures bytes { IfOk result (λ n. Consumes (R.remaining from.old) (R.remaining from.new) (take n bytes.new)) }
    ensures end { IfOk result (λ n. n < length bytes.new → IsAtEnd (R.remaining from.new)) }
{
    let mut done: usize = 0;
    for _ in 0..TURNS {
        if done == bytes.len() {
            return Ok(done);
        }
        match read_rest(from, bytes, done) {
            Ok(0) => return Ok(done),
            Ok(moved) => done += moved,
            Err(error) if again(rt, error) => {}
            Err(error) => {
                fail(rt, what, error);
                return Err(Unread);
            }
        }
    }
    fail_because(rt, what, "it does not end");
    Err(Unread)
}
