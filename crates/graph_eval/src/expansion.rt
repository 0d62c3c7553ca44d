//! The expansions of the outputs of a graph in its first variable, from what it gives at points.

ghost use Rattle.std.specs.Prelude.{◌≡◌, ℕ, List, ◌+◌, ◌*◌, ◌^◌, ◌<◌, ◌≤◌, ◌++◌, All, IfErr, OnOk, drop, length, slice_index, take};
ghost use Rattle.prime_field.specs.Modulus.{value_of};
ghost use Rattle.prime_field.specs.Residue.{IsPrime};
ghost use Rattle.graph_eval.specs.Expanded.{AreExpansionsAdded, AreNotExpanded, FailsToExpand, IsExpandedFrom, IsExpansionAdded, IsWindow, orders_of, points_of, run_from, strided, window_of};

use crate::outcome::Cause;
use laurent_node::expand;
use prime_field::Modulus;
use thiele_interp::least_pair_over;
use word_region::Stack;

/// The greatest degrees of the quotient that is sought, and the orders of its expansion that are wanted.
#[derive(Clone, Copy, Debug)]
pub(crate) struct Window {
    /// The greatest degree of the numerator.
    pub(crate) num: usize,
    /// The greatest degree of the denominator.
    pub(crate) den: usize,
    /// The lowest order.
    pub(crate) lo: i32,
    /// The highest order.
    pub(crate) hi: i32,
}

impl Window {
    /// The number of points whose values tell the quotient.
    pub(crate) fn points(&self) -> usize
        requires { IsWindow self.now }
        ensures { result ≡ self.now.num + self.now.den + 3 }
    {
        self.num + self.den + 3
    }

    /// The number of orders.
    pub(crate) fn orders(&self) -> usize
        requires { IsWindow self.now }
        ensures { result ≡ orders_of self.now }
    {
        (self.hi - self.lo + 1) as usize
    }
}

/// The window of a node with these numbers.
pub(crate) fn window_of(lo: i32, hi: i32, num: u32, den: u32) -> Window
    ensures { result ≡ window_of lo hi num den }
{
    Window {
        num: num as usize,
        den: den as usize,
        lo,
        hi,
    }
}

/// The point with this number, counted from 0.
pub(crate) fn point_at(number: usize) -> u64
    requires { number ≤ 130 }
    ensures { result ≡ 2 ^ 40 + 1 + number }
{
    (1 << 40) + 1 + number as u64
}

/// The points, as many as may be wanted.
fn all_points() -> [u64; 131]
    ensures { result ≡ run_from (2 ^ 40 + 1) 131 }
{
    let mut points = [0; 131];
    for number in 0..131 {
        points[number] = point_at(number);
    }
    points
}

/// The entry `k` of each of so many lists of one width that stand one behind the other.
fn column_of(words: &[u64], width: usize, k: usize, count: usize) -> [u64; 131]
    requires few { count ≤ 131 }
    requires within { k < width }
    requires there { count * width ≤ length words.now }
    ensures { take count result ≡ strided words.now width k count }
{
    let mut column = [0; 131];
    for row in 0..count {
        column[row] = words[row * width + k];
    }
    column
}

/// Writes the coefficients of the expansion of the quotient that has these values at the points.
///
/// # Errors
///
/// [`Cause::Degree`] where no quotient within the degrees has the values, and [`Cause::Pole`] where its expansion begins
/// below the lowest order.
fn write_expansion(m: Modulus, window: Window, values: &[u64], out: &mut [u64]) -> Result<(), Cause>
    requires window { IsWindow window }
    requires values { length values.now ≡ window.num + window.den + 3 }
    requires residues { All (λ x. x < value_of m) values.now }
    requires room { length out.old ≡ orders_of window }
    ensures ok { OnOk result (IsPrime (value_of m) → IsExpandedFrom (value_of m) window values.now out.new) }
    ensures residues { OnOk result (All (λ x. x < value_of m) out.new) }
    ensures err { IfErr result (λ cause. IsPrime (value_of m) → FailsToExpand (value_of m) window values.now cause) }
{
    let all = all_points();
    let points = &all[..values.len()];
    let mut work = [0; 1596];
    let Some((above, below)) = least_pair_over(m, points, values, window.num, window.den, &mut work)
    else {
        return Err(Cause::Degree);
    };
    let (num, rest) = work.split_at(above);
    let (den, _) = rest.split_at(below);
    match expand(m, num, den, window.lo, window.hi, out) {
        Ok(()) => Ok(()),
        Err(_) => Err(Cause::Pole),
    }
}

/// Writes the coefficients of the expansion of the quotient whose values at the points are the entries `k` of lists of one
/// width that stand one behind the other.
///
/// # Errors
///
/// As [`write_expansion`].
fn expand_column(
    m: Modulus,
    window: Window,
    words: &[u64],
    width: usize,
    k: usize,
    out: &mut [u64],
) -> Result<(), Cause>
    requires window { IsWindow window }
    requires within { k < width }
    requires there { length (points_of window) * width ≤ length words.now }
    requires residues { All (λ x. x < value_of m) words.now }
    requires room { length out.old ≡ orders_of window }
    ensures ok { OnOk result (IsPrime (value_of m) → IsExpandedFrom (value_of m) window (strided words.now width k (length (points_of window))) out.new) }
    ensures residues { OnOk result (All (λ x. x < value_of m) out.new) }
    ensures err { IfErr result (λ cause. IsPrime (value_of m) → FailsToExpand (value_of m) window (strided words.now width k (length (points_of window))) cause) }
{
    let count = window.points();
    let column = column_of(words, width, k, count);
    write_expansion(m, window, &column[..count], out)
}

/// Appends the coefficients of the expansion of a graph's output `k`, counted from 0, from the lists of `width` words that
/// stand above the first `base` words, one a point.
///
/// # Errors
///
/// As [`write_expansion`]. Then nothing is known of the words.
fn push_expansion(
    m: Modulus,
    window: Window,
    width: usize,
    k: usize,
    base: usize,
    stack: &mut Stack,
) -> Result<(), Cause>
    requires window { IsWindow window }
    requires within { k < width }
    requires base { base ≤ length stack.old.words }
    requires there { length (points_of window) * width ≤ length (drop base stack.old.words) }
    requires residues { All (λ x. x < value_of m) (drop base stack.old.words) }
    requires room { length stack.old.words + orders_of window ≤ stack.old.size }
    ensures size { stack.new.size ≡ stack.old.size }
    ensures kept { stack.new.kept ≡ stack.old.kept }
    ensures ok { OnOk result (IsExpansionAdded (value_of m) window (strided (drop base stack.old.words) width k (length (points_of window))) stack.old.words stack.new.words) }
    ensures err { IfErr result (λ cause. IsPrime (value_of m) → FailsToExpand (value_of m) window (strided (drop base stack.old.words) width k (length (points_of window))) cause) }
{
    let (words, out) = stack.grow(window.orders());
    expand_column(m, window, &words[base..], width, k, out)
}

/// Puts the coefficients of the expansions of a graph's outputs in place of the lists of `width` words that stand above the
/// first `base` words, one a point.
///
/// # Errors
///
/// As [`write_expansion`], of the first output of which it fails. Then nothing is known of the words.
pub(crate) fn push_expansions(
    m: Modulus,
    window: Window,
    width: usize,
    base: usize,
    stack: &mut Stack,
) -> Result<(), Cause>
    requires window { IsWindow window }
    requires words { length stack.old.words ≡ base + length (points_of window) * width }
    requires residues { All (λ x. x < value_of m) (drop base stack.old.words) }
    requires room { length stack.old.words + width * orders_of window ≤ stack.old.size }
    ensures size { stack.new.size ≡ stack.old.size }
    ensures kept { stack.new.kept ≡ stack.old.kept }
    ensures ok { OnOk result (AreExpansionsAdded (value_of m) window (drop base stack.old.words) width width (take base stack.old.words) stack.new.words) }
    ensures err { IfErr result (λ cause. IsPrime (value_of m) → AreNotExpanded (value_of m) window (drop base stack.old.words) width cause) }
{
    let top = stack.len();
    for k in 0..width {
        match push_expansion(m, window, width, k, base, stack) {
            Ok(()) => {}
            Err(cause) => return Err(cause),
        }
    }
    let end = stack.len();
    stack.collapse(base, top, end);
    Ok(())
}
