ghost use Rattle.std.specs.Prelude.{◌↔◌, IsTrue};
ghost use Rattle.std.specs.Int.{IsGcd};
ghost use Rattle.poly_maps.specs.Fraction.{IsLowest, IsFraction};

/// A fraction: a numerator that may be negative, and a denominator.
#[derive(Clone, Copy, PartialEq, Eq, Debug)]
pub struct Frac {
    pub num: i128,
    pub den: u128,
}

impl Frac {
    /// Whether the fraction is in lowest terms, its denominator not being zero.
    pub fn is_lowest(self) -> bool
        ensures { IsTrue result ↔ IsLowest self }
    {
        are_lowest(self.num, self.den)
    }

    /// Whether the fraction is in lowest terms and not zero.
    pub fn is_reduced(self) -> bool
        ensures { IsTrue result ↔ IsFraction self }
    {
        self.num != 0 && self.is_lowest()
    }
}

/// Whether the numbers are the parts of a fraction in lowest terms.
fn are_lowest(num: i128, den: u128) -> bool
    ensures { IsTrue result ↔ IsLowest (record { num = num; den = den }) }
{
    den > 0 && common_divisor(num.unsigned_abs(), den) == 1
}

/// The greatest common divisor of two numbers, by Euclid's remainders.
fn common_divisor(a: u128, b: u128) -> u128
    ensures { IsGcd a b result }
{
    let mut above = a;
    let mut rest = b;
    while rest > 0 {
        let remainder = above % rest;
        above = rest;
        rest = remainder;
    }
    above
}
