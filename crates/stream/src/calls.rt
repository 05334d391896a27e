// Reads and writes that are made until they need not be made again: one that was interrupted at once, and one that would block after a while.
use std::fmt::InlineText;
use std::io::{Error, ErrorKind};
use std::thread;
use std::time::{Clock, Duration};

// The turns of a loop that may have to wait. A proved loop has to end, and nothing says that the other end of a pipe is ever read: this many
// turns last longer than a machine.
pub(crate) const TURNS: u64 = u64::MAX;
// How long the program waits, in nanoseconds, before it makes a call again that would have blocked.
const NAP: u64 = 2000000;

// Waits for a while.
fn wait(rt: &impl Clock) {
    thread::sleep(rt, Duration::from_nanos(NAP));
}

// Whether a call that failed is to be made again.
pub(crate) fn again(rt: &impl Clock, error: Error) -> bool {
    match error.kind() {
        ErrorKind::Interrupted => true,
        ErrorKind::WouldBlock => {
            wait(rt);
            true
        }
        _ => false,
    }
}

// The bytes that an error's text has at most, with the number behind it.
const LONGEST_ERROR: usize = 256;

// An error's text as the C library has it: std puts the error's number behind it.
fn without_number(text: &str) -> &str {
    text.split_once(" (os error ").map_or(text, |(why, _)| why)
}

// Says on standard error that a call failed, and why.
pub(crate) fn fail(rt: &impl Eprint, what: &[u8], error: Error) {
    let text = InlineText::<LONGEST_ERROR>::of(error);
    fail_because(rt, what, without_number(text.as_str()));
}

// Says on standard error that a call failed, for this reason. That it cannot be said is not told.
pub(crate) fn fail_because(rt: &impl Eprint, what: &[u8], why: &str) {
    let _ = rt.eprintln(format_args!("{}: {}", what.escape_ascii(), why));
}
