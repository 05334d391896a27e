// A quotient of two whole numbers as a float: the only place where a whole number becomes one and is divided.
ghost use Rattle.std.specs.Prelude.{◌≡◌};
ghost use Rattle.whole.specs.Within.{Within};
ghost use Rattle.screen.specs.Quotient.{float, quotient, Near};
ghost use Rattle.screen.specs.Parts.{Parts};

// n / w, rounded once.
pub fn ratio(n: i64, w: i64) -> f64
    requires { Parts n w }
    ensures { (result ≡ quotient n w) × Near n w result }
{
    (n as f64) / (w as f64)
}

// A whole number as a float, exactly.
pub fn exact(n: i64) -> f64
    requires { Within 2000 n }
    ensures { result ≡ float n }
{
    n as f64
}
