// Text and decimal numbers, put into lent bytes at a place: as far as there are bytes, and the place behind is given (sheet's lent cells).
// The definitions are in specs/Decimal.antt.
#![tactic(auto)]

ghost use Rattle.sheet.specs.Lent.{Wrote};
ghost use Rattle.decimal.specs.Decimal.{digits, sized, signed, field, numbers};

use sheet::lent::put_byte;
use whole::size;

// The bytes of a text.
pub fn put_text(text: &[u8], out: &mut [u8], at: usize) -> usize
    ensures { Wrote out.old out.new at result text.now }
{
    let mut next = at;
    for &b in text {
        next = put_byte(b, out, next);
    }
    next
}

// The digits before the last two, and then these two: two of them to a call take less time than one.
fn put_digits(n: u64, out: &mut [u8], at: usize) -> usize
    ensures { Wrote out.old out.new at result (digits n) }
{
    let last = b'0' + (n % 10) as u8;
    if n < 10 {
        return put_byte(last, out, at);
    }
    let tenth = n / 10;
    let other = b'0' + (tenth % 10) as u8;
    if tenth < 10 {
        let second = put_byte(other, out, at);
        return put_byte(last, out, second);
    }
    let front = put_digits(tenth / 10, out, at);
    let next = put_byte(other, out, front);
    put_byte(last, out, next)
}

// A number of a size, with a minus where it is below 0.
pub fn put_sized(below: bool, n: u64, out: &mut [u8], at: usize) -> usize
    ensures { Wrote out.old out.new at result (sized below n) }
{
    if below {
        let next = put_byte(b'-', out, at);
        return put_digits(n, out, next);
    }
    put_digits(n, out, at)
}

// A number.
pub fn put_number(n: i64, out: &mut [u8], at: usize) -> usize
    ensures { Wrote out.old out.new at result (signed n) }
{
    put_sized(n < 0, size(n), out, at)
}

// A number behind a blank.
pub fn put_field(n: i64, out: &mut [u8], at: usize) -> usize
    ensures { Wrote out.old out.new at result (field n) }
{
    let next = put_byte(b' ', out, at);
    put_number(n, out, next)
}

// The numbers of a list, each behind a blank.
pub fn put_fields(list: &[i64], out: &mut [u8], at: usize) -> usize
    ensures { Wrote out.old out.new at result (numbers list.now) }
{
    let mut next = at;
    for &n in list {
        next = put_field(n, out, next);
    }
    next
}
