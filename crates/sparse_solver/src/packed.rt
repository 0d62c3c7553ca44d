//! Rows as columns with a value each, beside a row at hand that has a word for each column.

ghost use Rattle.std.specs.Prelude.{◌≡◌, ◌≢◌, ℕ, ◌+◌, ◌*◌, ◌%◌, ◌<◌, ◌≤◌, All, length, slice_index};
ghost use Rattle.std.specs.Bool.{OnTrue};
ghost use Rattle.elim_core.specs.Sparse.{AreSparseRows, entries_of};
ghost use Rattle.sparse_solver.specs.Order.{AreStarts};
ghost use Rattle.sparse_solver.specs.Packed.{AreColumns, IsOutside, IsRowAt, packed_sum, row_sum};

use elim_core::SparseRow;
use prime_field::Field;

/// The columns and the values of the row with this number.
pub fn row_at<'a>(
    unknowns: usize,
    rows: &'a [SparseRow],
    starts: &[usize],
    values: &'a [u64],
    number: usize,
) -> (&'a [u32], &'a [u64])
    requires few { unknowns ≤ 4096 }
    requires sparse { AreSparseRows unknowns rows.now }
    requires starts { AreStarts rows.now starts.now }
    requires entries { length values.now ≡ entries_of rows.now }
    requires number { number < length rows.now }
    ensures row { IsRowAt rows.now starts.now values.now number result.0.now result.1.now }
    ensures lengths { length result.1.now ≡ length result.0.now }
    ensures below { (m : ℕ) → All (λ x. x < m) values.now → All (λ x. x < m) result.1.now }
    ensures within { AreColumns (unknowns + 1) result.0.now }
{
    let columns = rows[number].columns.as_slice();
    let start = starts[number];
    (columns, &values[start..start + columns.len()])
}

/// What the product of two words leaves.
pub fn product<F: Field>(field: F, word: u64, factor: u64) -> u64
    ensures product { result ≡ (word * factor) % F.modulus }
    ensures residue { result < F.modulus }
{
    field.reduce(word as u128 * factor as u128)
}

/// What the sum of a residue and a product of two others leaves, which is folded once.
fn add_product<F: Field>(field: F, residue: u64, factor: u64, value: u64) -> u64
    requires residue { residue < F.modulus }
    requires factor { factor < F.modulus }
    requires value { value < F.modulus }
    ensures sum { result ≡ (residue + factor * value) % F.modulus }
    ensures residue { result < F.modulus }
{
    field.fold(residue as u128 + factor as u128 * value as u128)
}

/// Adds `factor` times the packed row to the row at hand, all of residues.
pub fn add_packed<F: Field>(field: F, row: &mut [u64], columns: &[u32], values: &[u64], factor: u64)
    requires lengths { length values.now ≡ length columns.now }
    requires columns { AreColumns (length row.old) columns.now }
    requires residues { All (λ x. x < F.modulus) row.old }
    requires values { All (λ x. x < F.modulus) values.now }
    requires factor { factor < F.modulus }
    ensures room { length row.new ≡ length row.old }
    ensures added { (w : ℕ → ℕ) → row_sum row.new w % F.modulus
        ≡ (row_sum row.old w + factor * packed_sum columns.now values.now w) % F.modulus }
    ensures residues { All (λ x. x < F.modulus) row.new }
    ensures others { (k : ℕ) → IsOutside columns.now k → slice_index row.new k ≡ slice_index row.old k }
{
    for (i, column) in columns.iter().enumerate() {
        let place = *column as usize;
        row[place] = add_product(field, row[place], factor, values[i]);
    }
}

/// Takes the words in these columns out of the row at hand, which keeps zeros there.
pub fn take_packed(row: &mut [u64], columns: &[u32], values: &mut [u64])
    requires lengths { length values.old ≡ length columns.now }
    requires columns { AreColumns (length row.old) columns.now }
    ensures room { length row.new ≡ length row.old }
    ensures values_room { length values.new ≡ length values.old }
    ensures moved { (w : ℕ → ℕ) → row_sum row.new w + packed_sum columns.now values.new w ≡ row_sum row.old w }
    ensures below { (m : ℕ) → 0 < m → All (λ x. x < m) row.old → All (λ x. x < m) values.new }
    ensures cleared { (i : ℕ) → i < length columns.now → slice_index row.new (slice_index columns.now i) ≡ 0 }
    ensures others { (k : ℕ) → IsOutside columns.now k → slice_index row.new k ≡ slice_index row.old k }
{
    for (i, column) in columns.iter().enumerate() {
        let place = *column as usize;
        values[i] = row[place];
        row[place] = 0;
    }
}

/// Whether the row at hand is 0 in all of these columns.
pub fn is_zero_in(row: &[u64], columns: &[u32]) -> bool
    requires columns { AreColumns (length row.now) columns.now }
    ensures { OnTrue result ((i : ℕ) → i < length columns.now → slice_index row.now (slice_index columns.now i) ≡ 0) }
{
    for column in columns {
        if row[*column as usize] != 0 {
            return false;
        }
    }
    true
}

/// Adds one more product of two residues to a sum of `count` of them, of which each four were folded.
fn add_to_few<F: Field>(field: F, sum: u128, count: usize, value: u64, residue: u64) -> u128
    requires few { sum < F.modulus + count % 4 * (F.modulus * F.modulus) }
    requires value { value < F.modulus }
    requires residue { residue < F.modulus }
    ensures sum { result % F.modulus ≡ (sum + value * residue) % F.modulus }
    ensures few { result < F.modulus + (count + 1) % 4 * (F.modulus * F.modulus) }
{
    let next = sum + value as u128 * residue as u128;
    if count % 4 == 3 {
        field.fold(next) as u128
    } else {
        next
    }
}

/// What the sum of the packed row at a vector leaves, both of residues.
#[inline]
pub fn sum_packed<F: Field>(field: F, columns: &[u32], values: &[u64], vector: &[u64]) -> u64
    requires lengths { length values.now ≡ length columns.now }
    requires columns { AreColumns (length vector.now) columns.now }
    requires values { All (λ x. x < F.modulus) values.now }
    requires residues { (k : ℕ) → k < length vector.now → slice_index vector.now k < F.modulus }
    ensures sum { result ≡ packed_sum columns.now values.now (slice_index vector.now) % F.modulus }
    ensures residue { result < F.modulus }
{
    let mut sum = 0_u128;
    for (i, column) in columns.iter().enumerate() {
        sum = add_to_few(field, sum, i, values[i], vector[*column as usize]);
    }
    field.fold(sum)
}
