//! The values of unknowns by kept rows, from the last unknown to the first.

ghost use Rattle.std.specs.Prelude.{◌≡◌, ◌≢◌, ℕ, ◌+◌, ◌-◌, ◌*◌, ◌%◌, ◌<◌, ◌≤◌, length, slice_index};
ghost use Rattle.prime_field.specs.Modulus.{value_of};
ghost use Rattle.prime_field.specs.Sum.{sum_to};
ghost use Rattle.elim_core.specs.Rows.{AllMet, put};
ghost use Rattle.elim_core.specs.Layout.{entry, IsLaidOut};

use crate::dot::dot;
use prime_field::Modulus;

/// The value that the row at `place` leaves for its unknown, given the later ones.
fn solved(
    modulus: Modulus,
    unknowns: usize,
    rows: &[u64],
    ends: &[u64],
    values: &[u64],
    place: usize,
) -> u64
    requires few { unknowns ≤ 4096 }
    requires laid_out { IsLaidOut (value_of modulus) unknowns rows.now ends.now }
    requires room { length values.now ≡ unknowns }
    requires residues { (k : ℕ) → k < unknowns → slice_index values.now k < value_of modulus }
    requires place { place < unknowns }
    requires used { slice_index ends.now place ≢ 0 }
    ensures residue { result < value_of modulus }
    ensures left { result ≡ (entry unknowns rows.now ends.now place unknowns + (value_of modulus
        - sum_to unknowns (λ k. entry unknowns rows.now ends.now place k * put place 0 (slice_index values.now) k)
        % value_of modulus)) % value_of modulus }
{
    let start = place * (unknowns + 1);
    let end = ends[place] as usize;
    let words = &rows[start + place + 1..start + end];
    let sum = dot(modulus, words, &values[place + 1..end]);
    modulus.sub(rows[start + place], sum)
}

/// Completes the values at the places of empty slots by those that the kept rows tell.
pub fn back_substitute(
    modulus: Modulus,
    unknowns: usize,
    rows: &[u64],
    ends: &[u64],
    values: &mut [u64],
)
    requires few { unknowns ≤ 4096 }
    requires laid_out { IsLaidOut (value_of modulus) unknowns rows.now ends.now }
    requires room { length values.old ≡ unknowns }
    requires residues { (k : ℕ) → k < unknowns → slice_index values.old k < value_of modulus }
    ensures room { length values.new ≡ unknowns }
    ensures residues { (k : ℕ) → k < unknowns → slice_index values.new k < value_of modulus }
    ensures met { AllMet (value_of modulus) unknowns (entry unknowns rows.now ends.now) (slice_index values.new) }
    ensures free { (k : ℕ) → k < unknowns → slice_index ends.now k ≡ 0 →
        slice_index values.new k ≡ slice_index values.old k }
{
    for place in (0..unknowns).rev() {
        if ends[place] != 0 {
            values[place] = solved(modulus, unknowns, rows, ends, values, place);
        }
    }
}
