// Stored numbers: the number that bytes begin with, and the bytes of numbers. The only place that knows groups of seven bits, on the way
// in and on the way out. The definitions are in specs/Number.antt.
#![tactic(auto)]

ghost use Rattle.std.specs.Prelude.{◌≡◌, ◌+◌, ◌<◌, ◌≤◌, min, length, IfOk};
ghost use Rattle.sheet.specs.Lent.{Wrote};
ghost use Rattle.number.specs.Storable.{all_storable};
ghost use Rattle.number.specs.Number.{group, most_groups, number_limit, largest_number, write_number, write_numbers, read_number, number_of, number_says};

use sheet::lent::{behind, put_byte};
use sheet::refusal::Refusal;

// A stored number and how many bytes it takes.
#[derive(Clone, Copy, PartialEq, Eq, Debug)]
pub struct Number {
    pub value: u64,
    pub size: usize,
}

impl Number {
    // A group of seven bits holds the numbers below this. It is also the top bit of a byte, which says that another group follows.
    pub const GROUP: u64 = 128;
    // How many groups a number may have.
    pub const MOST: usize = 3;
    // The largest number that so many groups hold.
    pub const LARGEST: u64 = 2_097_151;
}

// The number that the bytes begin with, byte by byte. What most numbers are is asked first: one group, which kinds and small coordinates
// have, and then two. The clause `names` holds the type's number to the paper's.
pub fn read_number(bytes: &[u8]) -> Result<Number, Refusal>
    ensures told { number_says result ≡ number_of bytes.now (read_number bytes.now) }
    ensures small { IfOk result (λ n. n.value < number_limit) }
    ensures names { Number.GROUP ≡ group }
{
    if bytes.len() == 0 {
        return Err(Refusal::BytesEnd);
    }
    let first = bytes[0] as u64;
    if first < Number::GROUP {
        return Ok(Number {
            value: first,
            size: 1,
        });
    }
    if bytes.len() == 1 {
        return Err(Refusal::BytesEnd);
    }
    let low = first - Number::GROUP;
    let second = bytes[1] as u64;
    if (0 < second) & (second < Number::GROUP) {
        return Ok(Number {
            value: low + Number::GROUP * second,
            size: 2,
        });
    }
    if second == 0 {
        return Err(Refusal::BadNumber);
    }
    if bytes.len() == 2 {
        return Err(Refusal::BytesEnd);
    }
    let two = low + Number::GROUP * (second - Number::GROUP);
    let third = bytes[2] as u64;
    if (0 < third) & (third < Number::GROUP) {
        return Ok(Number {
            value: two + Number::GROUP * Number::GROUP * third,
            size: 3,
        });
    }
    Err(Refusal::BadNumber)
}

// Whether none of some numbers is too large. It goes over all of them, with no way out between as `all` has: so it takes less time.
fn are_storable(numbers: &[u64]) -> bool
    ensures { result ≡ all_storable numbers.now }
{
    let mut small = true;
    for &n in numbers {
        small = small & (n <= Number::LARGEST);
    }
    small
}

// The smaller of a number and the largest that is stored.
fn clip(n: u64) -> u64
    ensures { result ≡ min n largest_number }
{
    n.min(Number::LARGEST)
}

// The bytes of a number at a place of bytes that have room for them, and the place behind them.
fn write_number(n: u64, out: &mut [u8], at: usize) -> usize
    requires { (n < number_limit) × (at + length (write_number n) ≤ length out.old) }
    ensures { Wrote out.old out.new at result (write_number n) }
{
    if n < Number::GROUP {
        out[at] = n as u8;
        return at + 1;
    }
    let first = Number::GROUP + n % Number::GROUP;
    let left = n / Number::GROUP;
    out[at] = first as u8;
    if left < Number::GROUP {
        out[at + 1] = left as u8;
        return at + 2;
    }
    let second = Number::GROUP + left % Number::GROUP;
    let third = left / Number::GROUP;
    out[at + 1] = second as u8;
    out[at + 2] = third as u8;
    at + 3
}

// How many bytes a number takes.
fn size_of(n: u64) -> usize
    requires { n < number_limit }
    ensures { result ≡ length (write_number n) }
{
    let mut own = [0; Number::MOST];
    write_number(n, &mut own, 0)
}

// How many bytes some numbers take, one behind the other. A number past the largest counts as the largest.
pub fn stored_size(numbers: &[u64]) -> usize
    ensures { result ≡ length (write_numbers numbers.now) }
{
    numbers.iter().map(|n| size_of(clip(*n))).sum()
}

// The bytes of a number at a place of lent bytes, as far as there are cells, and the place behind them. They are written to cells of their own
// first, so that groups are known in one place. Where no cell is left no byte's is looked for.
fn put_number(n: u64, out: &mut [u8], at: usize) -> usize
    requires { n < number_limit }
    ensures { Wrote out.old out.new at result (write_number n) }
{
    let mut own = [0; Number::MOST];
    let size = write_number(n, &mut own, 0);
    if out.len() <= at {
        return behind(at, size);
    }
    let mut next = at;
    for &b in &own[..size] {
        next = put_byte(b, out, next);
    }
    next
}

// The bytes of some numbers, one behind the other, at a place of lent bytes, as far as there are cells, and the place behind them. A number
// past the largest is put as the largest. Where no number is too large, and there are the most cells that so many take, no byte's cell is
// looked for: so it is with all objects of a drawing but the last ones. The hint has the compiler take it into the loop over objects.
#[inline]
pub fn put_stored(numbers: &[u64], out: &mut [u8], at: usize) -> usize
    ensures put { Wrote out.old out.new at result (write_numbers numbers.now) }
    ensures names { (Number.MOST ≡ most_groups) × (Number.LARGEST ≡ largest_number) }
{
    let room = out.len().saturating_sub(at);
    let direct = are_storable(numbers) & (numbers.len() * Number::MOST <= room);
    let mut to = at;
    for &n in numbers {
        if direct {
            to = write_number(n, out, to);
        } else {
            to = put_number(clip(n), out, to);
        }
    }
    to
}
