//! What is computed with one list of coefficients, or two.

ghost use Rattle.std.specs.Prelude.{◌≡◌, ◌+◌, ◌-◌, ◌*◌, ◌%◌, ◌<◌, ◌≤◌, [], ◌∷◌, length};
ghost use Rattle.prime_field.specs.Modulus.{value_of};
ghost use Rattle.univariate.specs.Univariate.{univariate_value};
ghost use Rattle.univariate.specs.Coefficients.{sum_of, multiple, raised, product_of, IsBelow, Alike, AreResidues, HasLength};

use prime_field::Modulus;

/// The value at the residue `x`.
pub fn value(m: Modulus, coefficients: &[u64], x: u64) -> u64
    requires residues { AreResidues (value_of m) coefficients.now }
    requires place { x < value_of m }
    ensures value { result ≡ univariate_value coefficients.now x % value_of m }
    ensures residue { result < value_of m }
{
    let mut sum = 0;
    for i in (0..coefficients.len()).rev() {
        sum = fused(m, coefficients[i], x, sum);
    }
    sum
}

/// The residue of `summand + left * right`, folded once.
pub fn fused(m: Modulus, summand: u64, left: u64, right: u64) -> u64
    requires summand { summand < value_of m }
    requires left { left < value_of m }
    requires right { right < value_of m }
    ensures sum { result ≡ (summand + left * right) % value_of m }
    ensures residue { result < value_of m }
{
    m.reduce_u128(summand as u128 + left as u128 * right as u128)
}

/// Adds `factor` times the source, moved up by `shift` places, to the target.
pub fn add_multiple(m: Modulus, target: &mut [u64], source: &[u64], factor: u64, shift: usize)
    requires room { length source.now + shift ≤ length target.old }
    requires target_residues { AreResidues (value_of m) target.old }
    requires source_residues { AreResidues (value_of m) source.now }
    requires factor { factor < value_of m }
    ensures sum { Alike (value_of m) target.new (sum_of target.old (multiple factor (raised shift source.now))) }
    ensures residues { AreResidues (value_of m) target.new }
{
    for (k, coefficient) in source.iter().enumerate() {
        let place = shift + k;
        target[place] = fused(m, target[place], factor, *coefficient);
    }
}

/// Multiplies each coefficient by `factor`.
pub fn scale(m: Modulus, coefficients: &mut [u64], factor: u64)
    requires residues { AreResidues (value_of m) coefficients.old }
    requires factor { factor < value_of m }
    ensures multiple { Alike (value_of m) coefficients.new (multiple factor coefficients.old) }
    ensures residues { AreResidues (value_of m) coefficients.new }
{
    for coefficient in coefficients.iter_mut() {
        *coefficient = m.mul(factor, *coefficient);
    }
}

/// The number of coefficients up to the last that isn't 0.
pub fn trimmed_length(coefficients: &[u64]) -> usize
    ensures { HasLength result coefficients.now }
{
    let mut count = coefficients.len();
    while count > 0 && coefficients[count - 1] == 0 {
        count -= 1;
    }
    count
}

/// Multiplies a polynomial of the given degree or less by the variable less `root`. There is a place past the degree.
pub fn multiply_by_root(m: Modulus, coefficients: &mut [u64], degree: usize, root: u64)
    requires room { degree + 1 < length coefficients.old }
    requires degree { IsBelow (value_of m) (degree + 1) coefficients.old }
    requires residues { AreResidues (value_of m) coefficients.old }
    requires root { root < value_of m }
    ensures product { Alike (value_of m) coefficients.new (product_of ((value_of m - root) ∷ 1 ∷ []) coefficients.old) }
    ensures residues { AreResidues (value_of m) coefficients.new }
{
    let opposite = m.neg(root);
    for i in (0..degree + 1).rev() {
        coefficients[i + 1] = fused(m, coefficients[i], opposite, coefficients[i + 1]);
    }
    coefficients[0] = m.mul(opposite, coefficients[0]);
}
