/// Bounds on the coefficients of a quotient: the size of a numerator is at most `num`, and a denominator at most `den`.
#[derive(Clone, Copy, PartialEq, Eq, Debug)]
pub struct Coeff {
    pub num: u128,
    pub den: u128,
}

/// One of the two polynomials of a quotient.
#[derive(Clone, Copy, PartialEq, Eq, Debug)]
pub enum Part {
    Numerator,
    Denominator,
}
