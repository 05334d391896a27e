// Bytes in and out of a program, and what it tells of its end. A failure is said on standard error, of the words that the caller names the
// stream by.
#![tactic(auto)]

pub mod input; // input.rt: bytes from an input
pub mod output; // output.rt: bytes to an output
pub mod status; // status.rt: what a program tells of its end
mod calls; // calls.rt: calls that are made again, and why they failed

ghost use Rattle.std.specs.Prelude.{◌≡◌, min, length};
ghost use Rattle.stream.specs.Stream.{IsPrefixLen};

// n, or as many items as there are.
pub fn front<T>(n: usize, items: &[T]) -> usize
    ensures value { result ≡ min n (length items.now) }
    ensures prefix_len { IsPrefixLen result items.now }
{
    n.min(items.len())
}
