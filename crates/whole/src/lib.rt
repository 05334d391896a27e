// Whole numbers: their sign, their size, their greatest common divisor, and the first that is not 0. Nothing here knows of sheets.
#![tactic(auto)]

ghost use Rattle.std.specs.Prelude.{◌≡◌, nat_abs};
ghost use Rattle.whole.specs.Sign.{sgn};
ghost use Rattle.whole.specs.Divisor.{IsGcd};
ghost use Rattle.whole.specs.Choice.{or_else};

// -1, 0 or 1.
pub fn sign(x: i64) -> i64
    ensures { result ≡ sgn x }
{
    x.signum()
}

// How far x is from 0. The smallest i64 has no opposite in an i64, but in a u64.
pub fn size(x: i64) -> u64
    ensures { result ≡ nat_abs x }
{
    x.unsigned_abs()
}

// The greatest common divisor by remainders, the second argument falling, and stopping as soon as it is 1. Of the remainders of x, what it
// has above a multiple of y and what it lacks to the next one, the least is at most half of y. Of 0 and 0 it is 0.
pub fn gcd(a: u64, b: u64) -> u64
    ensures { IsGcd a b result }
{
    let mut x = a;
    let mut y = b;
    while 1 < y {
        let rest = x % y;
        let lack = y - rest;
        x = y;
        y = rest.min(lack);
    }
    if y == 1 {
        return 1;
    }
    x
}

// The first of two numbers that is not 0; 0 where both are.
pub fn or_else(n: i64, m: i64) -> i64
    ensures { result ≡ or_else n m }
{
    if n == 0 {
        return m;
    }
    n
}
