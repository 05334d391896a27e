// Signs of polynomials in R by their coefficients.
ghost use Rattle.std.specs.Prelude.{◌≡◌};
ghost use Rattle.whole.specs.Sign.{sgn};
ghost use Rattle.whole.specs.Choice.{or_else};

// The sign of a R + b: that of a, or of b where a is 0. By `or_else` of the two signs it would be no plainer, and both would be worked out.
pub fn lead(a: i64, b: i64) -> i64
    ensures { result ≡ or_else (sgn a) (sgn b) }
{
    if a == 0 {
        return whole::sign(b);
    }
    whole::sign(a)
}
