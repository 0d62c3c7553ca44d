//! Nodes that pick, join, add or multiply the entries of lists.

ghost use Rattle.std.specs.Prelude.{◌≡◌, ◌+◌, ◌<◌, ◌≤◌, ◌++◌, [], ◌∷◌, All, length, take, drop, slice_index, slice_set};
ghost use Rattle.basic_nodes.specs.Plain.{summed, multiplied};
ghost use Rattle.prime_field.specs.Modulus.{value_of};

use prime_field::Modulus;

/// Writes the entry of `parts` at the place `from`, counted from 0, to the first place of `out`.
pub fn take(parts: &[u64], out: &mut [u64], from: usize)
    requires place { from < length parts.now }
    requires room { 0 < length out.old }
    ensures { out.new ≡ slice_set out.old 0 (slice_index parts.now from) }
{
    out[0] = parts[from];
}

/// Fills `out` with the entries of `a` from the place `first` on, counted from 0.
pub fn slice(a: &[u64], first: usize, out: &mut [u64])
    requires { first + length out.old ≤ length a.now }
    ensures { out.new ≡ take (length out.old) (drop first a.now) }
{
    out.copy_from_slice(&a[first..first + out.len()]);
}

/// Copies `a` to the places of `out` from `at` on, counted from 0; the other places stay.
pub fn chain_into(a: &[u64], out: &mut [u64], at: usize)
    requires { at + length a.now ≤ length out.old }
    ensures { out.new ≡ take at out.old ++ a.now ++ drop (at + length a.now) out.old }
{
    out[at..at + a.len()].copy_from_slice(a);
}

/// Adds the entries of `a` to those of `out`, place by place.
pub fn sum_into(m: Modulus, a: &[u64], out: &mut [u64])
    requires lengths { length a.now ≡ length out.old }
    requires summands { All (λ x. x < value_of m) a.now }
    requires residues { All (λ x. x < value_of m) out.old }
    ensures sum { out.new ≡ summed (value_of m) (out.old ∷ a.now ∷ []) }
    ensures residues { All (λ x. x < value_of m) out.new }
{
    for (k, entry) in out.iter_mut().enumerate() {
        *entry = m.add(*entry, a[k]);
    }
}

/// Multiplies the entries of `out` by those of `a`, place by place.
pub fn product_into(m: Modulus, a: &[u64], out: &mut [u64])
    requires lengths { length a.now ≡ length out.old }
    requires factors { All (λ x. x < value_of m) a.now }
    requires residues { All (λ x. x < value_of m) out.old }
    ensures product { out.new ≡ multiplied (value_of m) (out.old ∷ a.now ∷ []) }
    ensures residues { All (λ x. x < value_of m) out.new }
{
    for (k, entry) in out.iter_mut().enumerate() {
        *entry = m.mul(*entry, a[k]);
    }
}
