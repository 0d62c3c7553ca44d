//! The list of a node of each kind, written to a place of its length.

ghost use Rattle.std.specs.Prelude.{◌≡◌, ℕ, ◌+◌, ◌-◌, ◌*◌, ◌<◌, ◌≤◌, All, Some, None, IfErr, OnOk, length, map, slice_get};
ghost use Rattle.prime_field.specs.Modulus.{value_of};
ghost use Rattle.ratfun_text.specs.Value.{greatest, value};
ghost use Rattle.basic_nodes.specs.Plain.{chained, matrix_product, multiplied, sliced, summed, taken};
ghost use Rattle.graph_file.specs.Line.{all_of};
ghost use Rattle.graph_eval.specs.Reading.{HasLength, IsEntry, IsThere, placed};

use crate::outcome::Cause;
use basic_nodes::{chain_into, product_into, sum_into, take};
use graph_file::Source;
use prime_field::Modulus;
use ratfun_text::{Expr, values_into};

/// The list that a source names, the graph's inputs or the list of a node, among words whose lists end at these places.
pub(crate) fn placed<'a>(words: &'a [u64], places: &[usize], source: Source) -> &'a [u64]
    requires { IsThere words.now places.now source }
    ensures { result.now ≡ placed words.now places.now source }
{
    match source {
        Source::Input => &words[..places[0]],
        Source::Node(number) => {
            let number = number as usize;
            &words[places[number]..places[number + 1]]
        }
    }
}

/// Writes the values of expressions at these arguments, a place for each.
///
/// # Errors
///
/// [`Cause::Division`] where an expression has no value.
pub(crate) fn write_values(
    m: Modulus,
    exprs: &[Expr],
    arguments: &[u64],
    out: &mut [u64],
) -> Result<(), Cause>
    requires residues { All (λ argument. argument < value_of m) arguments.now }
    requires enough { All (λ expr. greatest expr ≤ length arguments.now) exprs.now }
    requires room { length out.old ≡ length exprs.now }
    ensures ok { OnOk result (all_of (map (value (value_of m) arguments.now) exprs.now) ≡ Some out.new) }
    ensures err { IfErr result (λ cause. (all_of (map (value (value_of m) arguments.now) exprs.now) ≡ None) × (cause ≡ Cause.Division)) }
    ensures residues { OnOk result (All (λ x. x < value_of m) out.new) }
{
    if values_into(exprs, m, arguments, out) {
        Ok(())
    } else {
        Err(Cause::Division)
    }
}

/// Writes the entries that parts name, a place for each.
pub(crate) fn write_taken(parts: &[(Source, u32)], words: &[u64], places: &[usize], out: &mut [u64])
    requires entries { All (IsEntry words.now places.now) parts.now }
    requires room { length out.old ≡ length parts.now }
    ensures { out.new ≡ taken (map (λ part. placed words.now places.now part.0) parts.now) (map (λ part. part.1) parts.now) }
{
    for (place, (from, position)) in parts.iter().enumerate() {
        let list = placed(words, places, *from);
        take(list, &mut out[place..place + 1], *position as usize - 1);
    }
}

/// Writes the lists that sources name, one after the other.
pub(crate) fn write_chained(parts: &[Source], words: &[u64], places: &[usize], out: &mut [u64])
    requires there { All (IsThere words.now places.now) parts.now }
    requires room { length out.old ≡ length (chained (map (placed words.now places.now) parts.now)) }
    ensures { out.new ≡ chained (map (placed words.now places.now) parts.now) }
{
    let mut at = 0;
    for part in parts {
        let list = placed(words, places, *part);
        chain_into(list, out, at);
        at += list.len();
    }
}

/// Writes the sum of the lists that sources name, entry by entry.
pub(crate) fn write_sum(
    m: Modulus,
    parts: &[Source],
    words: &[u64],
    places: &[usize],
    out: &mut [u64],
)
    requires some { 0 < length parts.now }
    requires there { All (IsThere words.now places.now) parts.now }
    requires same { All (HasLength words.now places.now (length out.old)) parts.now }
    requires residues { All (λ x. x < value_of m) words.now }
    ensures sum { out.new ≡ summed (value_of m) (map (placed words.now places.now) parts.now) }
    ensures residues { All (λ x. x < value_of m) out.new }
{
    out.copy_from_slice(placed(words, places, parts[0]));
    for part in &parts[1..] {
        sum_into(m, placed(words, places, *part), out);
    }
}

/// Writes the product of the lists that sources name, entry by entry.
pub(crate) fn write_product(
    m: Modulus,
    parts: &[Source],
    words: &[u64],
    places: &[usize],
    out: &mut [u64],
)
    requires some { 0 < length parts.now }
    requires there { All (IsThere words.now places.now) parts.now }
    requires same { All (HasLength words.now places.now (length out.old)) parts.now }
    requires residues { All (λ x. x < value_of m) words.now }
    ensures product { out.new ≡ multiplied (value_of m) (map (placed words.now places.now) parts.now) }
    ensures residues { All (λ x. x < value_of m) out.new }
{
    out.copy_from_slice(placed(words, places, parts[0]));
    for part in &parts[1..] {
        product_into(m, placed(words, places, *part), out);
    }
}
