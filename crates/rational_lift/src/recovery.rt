//! Rational numbers with a given residue.

ghost use Rattle.std.specs.Prelude.{◌≡◌, ◌*◌, ◌^◌, ◌<◌, ◌≤◌, ◌↔◌, ℕ, pos, unsigned_abs, IsTrue, IfSome, IfNone};
ghost use Rattle.prime_field.specs.Residue.{IsUnit};
ghost use Rattle.poly_maps.specs.declared.fraction.Frac.{Frac};
ghost use Rattle.rational_lift.specs.Recovery.{IsRecovery, IsTied};

use poly_maps::Frac;

/// The fraction with residue `c` modulo `m` whose numerator's size is at most `n` and whose denominator is at most `d`
/// and a unit modulo `m`, in lowest terms; there is one at most. None where there is none.
///
/// The numbers are those of one division by remainders of `m` and `c`; the work grows with their digits.
pub fn recover(c: u128, m: u128, n: u128, d: u128) -> Option<Frac>
    requires residue { c < m }
    requires modulus { m < 2 ^ 124 }
    requires num { 1 ≤ n }
    requires den { 1 ≤ d }
    requires narrow { 2 * (n * d) < m }
    ensures some { IfSome result (IsRecovery m c n d) }
    ensures only { IfSome result (λ f. (g : Frac) → IsRecovery m c n d g → g ≡ f) }
    ensures none { IfNone result ((f : Frac) → IsRecovery m c n d f → ⊥) }
{
    let fraction = candidate(c, m, n);
    if fraction.den <= d && fraction.is_lowest() && is_unit(fraction.den, m) {
        Some(fraction)
    } else {
        None
    }
}

/// Whether `a` is a unit modulo `m`.
fn is_unit(a: u128, m: u128) -> bool
    requires residue { a < m }
    requires more { 1 < m }
    requires modulus { m < 2 ^ 124 }
    ensures { IsTrue result ↔ IsUnit m a }
{
    candidate(a, m, 1).num != 0
}

/// The first of Euclid's remainders of `m` and `c` that is at most `n`, over the number that leads from `c` to it. No
/// other fraction of this size leaves `c`.
fn candidate(c: u128, m: u128, n: u128) -> Frac
    requires residue { c < m }
    requires modulus { m < 2 ^ 124 }
    requires some { 1 ≤ n }
    requires small { n < m }
    ensures tied { IsTied m c result.num result.den }
    ensures num { unsigned_abs result.num ≤ n }
    ensures den { 0 < result.den }
    ensures only { (d : ℕ) → 2 * (n * d) < m → (f : Frac) → IsRecovery m c n d f → f ≡ result }
    ensures no_unit { result.num ≡ pos 0 → IsUnit m c → ⊥ }
{
    let mut above = m;
    let mut rest = c;
    let mut earlier = 0;
    let mut factor = 1;
    let mut is_negative = false;
    while rest > n {
        let quotient = above / rest;
        let remainder = above - quotient * rest;
        let next = earlier + quotient * factor;
        above = rest;
        rest = remainder;
        earlier = factor;
        factor = next;
        is_negative = !is_negative;
    }
    let size = rest as i128;
    Frac {
        num: if is_negative { -size } else { size },
        den: factor,
    }
}

#[cfg(test)]
mod tests {
    use super::*;
    use crate::joint::BOTH;

    #[test]
    fn fractions_are_found_and_refused(rt: HostRuntime) {
        assert_eq!(rt;
            recover(10633823966279326949795732848644194317, BOTH, 1, 2),
            Some(Frac { num: 1, den: 2 })
        );
        assert_eq!(rt; recover(5, BOTH, 4, 1), None);
        assert_eq!(rt;
            recover(21267647932558653899591465697288388630, BOTH, 3, 1),
            Some(Frac { num: -3, den: 1 })
        );
        assert_eq!(rt; recover(0, BOTH, 1, 1), Some(Frac { num: 0, den: 1 }));
    }

    #[test]
    fn numbers_at_the_ends_of_their_ranges(rt: HostRuntime) {
        // The greatest size for which the numbers from -n to n leave different residues.
        let size = 10633823966279326949795732848644194316;
        assert_eq!(rt;
            recover(size, BOTH, size, 1),
            Some(Frac {
                num: 10633823966279326949795732848644194316,
                den: 1
            })
        );
        assert_eq!(rt;
            recover(BOTH - size, BOTH, size, 1),
            Some(Frac {
                num: -10633823966279326949795732848644194316,
                den: 1
            })
        );
        assert_eq!(rt; recover(size, BOTH, size - 1, 1), None);
    }

    #[test]
    fn denominators_that_are_no_units_are_refused(rt: HostRuntime) {
        // 5 * 2 leaves 0 modulo 10, and 0 = 0/1 is the only fraction that leaves 0.
        assert_eq!(rt; recover(5, 10, 1, 2), None);
        assert_eq!(rt; recover(7, 10, 1, 3), Some(Frac { num: 1, den: 3 }));
    }
}
