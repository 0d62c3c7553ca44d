//! Products of matrices that stand row after row.

ghost use Rattle.std.specs.Prelude.{◌≡◌, ℕ, ◌+◌, ◌*◌, ◌%◌, ◌<◌, ◌≤◌, All, length, slice_index};
ghost use Rattle.basic_nodes.specs.Plain.{matrix_product};
ghost use Rattle.basic_nodes.specs.Wide.{most_products};
ghost use Rattle.prime_field.specs.Modulus.{value_of};
ghost use Rattle.prime_field.specs.Sum.{sum_to};

use prime_field::Modulus;

/// Writes the product of two matrices to `out`, all three row after row: `a` has `rows` rows of `mid` entries, `b` has
/// `mid` rows of `cols`, and `out` has `rows` rows of `cols`.
pub fn matmul(
    m: Modulus,
    a: &[u64],
    b: &[u64],
    rows: usize,
    mid: usize,
    cols: usize,
    out: &mut [u64],
)
    requires left { length a.now ≡ rows * mid }
    requires right { length b.now ≡ mid * cols }
    requires room { length out.old ≡ rows * cols }
    requires left_residues { All (λ x. x < value_of m) a.now }
    requires right_residues { All (λ x. x < value_of m) b.now }
    ensures product { out.new ≡ matrix_product (value_of m) rows mid cols a.now b.now }
    ensures residues { All (λ x. x < value_of m) out.new }
{
    for i in 0..rows {
        row_product(
            m,
            &a[i * mid..(i + 1) * mid],
            b,
            cols,
            &mut out[i * cols..(i + 1) * cols],
        );
    }
}

/// Writes the product of one row with the matrix `b`, whose rows have `cols` entries.
fn row_product(m: Modulus, row: &[u64], b: &[u64], cols: usize, out: &mut [u64])
    requires size { length b.now ≡ length row.now * cols }
    requires room { length out.old ≡ cols }
    requires row_residues { All (λ x. x < value_of m) row.now }
    requires residues { All (λ x. x < value_of m) b.now }
    ensures entries { (j : ℕ) → j < cols → slice_index out.new j
        ≡ sum_to (length row.now) (λ k. slice_index row.now k * slice_index b.now (k * cols + j)) % value_of m }
{
    out.fill(0);
    let mut done = 0;
    while done < row.len() {
        let count = products_at_once(m).min(row.len() - done);
        let next = done + count;
        add_rows(m, &row[done..next], &b[done * cols..next * cols], cols, out);
        done = next;
    }
}

/// How many products of two residues may be added to a residue before the sum is folded.
fn products_at_once(m: Modulus) -> usize
    ensures { result ≡ most_products m }
{
    match m {
        Modulus::First => 64,
        Modulus::Second => 4,
    }
}

/// Adds to `out` the rows of `b`, each times its factor; there are few enough to be folded once.
fn add_rows(m: Modulus, factors: &[u64], b: &[u64], cols: usize, out: &mut [u64])
    requires few { length factors.now ≤ most_products m }
    requires size { length b.now ≡ length factors.now * cols }
    requires room { length out.old ≡ cols }
    requires factor_residues { All (λ x. x < value_of m) factors.now }
    requires row_residues { All (λ x. x < value_of m) b.now }
    requires residues { All (λ x. x < value_of m) out.old }
    ensures entries { (j : ℕ) → j < cols → slice_index out.new j
        ≡ (slice_index out.old j + sum_to (length factors.now) (λ k. slice_index factors.now k * slice_index b.now (k * cols + j))) % value_of m }
    ensures residues { All (λ x. x < value_of m) out.new }
{
    for (j, entry) in out.iter_mut().enumerate() {
        *entry = column_sum(m, factors, b, cols, j, *entry);
    }
}

/// The sum of `start` and the products of the factors with the entries of column `j` of `b`.
fn column_sum(m: Modulus, factors: &[u64], b: &[u64], cols: usize, j: usize, start: u64) -> u64
    requires few { length factors.now ≤ most_products m }
    requires size { length b.now ≡ length factors.now * cols }
    requires column { j < cols }
    requires factor_residues { All (λ x. x < value_of m) factors.now }
    requires residues { All (λ x. x < value_of m) b.now }
    requires start { start < value_of m }
    ensures sum { result
        ≡ (start + sum_to (length factors.now) (λ k. slice_index factors.now k * slice_index b.now (k * cols + j))) % value_of m }
    ensures residue { result < value_of m }
{
    let mut sum = start as u128;
    for (k, factor) in factors.iter().enumerate() {
        sum += *factor as u128 * b[k * cols + j] as u128;
    }
    m.reduce_u128(sum)
}
