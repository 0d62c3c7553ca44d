//! How long a node's list is, and the rules on the lengths of the lists that it names.

ghost use Rattle.std.specs.Prelude.{◌≡◌, ◌≤◌, ◌<◌, All, IfOk, OnErr, true, length, sum};
ghost use Rattle.basic_nodes.specs.Lengths.{IsShape, HasLists, length_rule, ruled, are_all, are_within, are_equal};

use sqlite_items::Items;
use thiserror::Error;

/// A rule on the lengths of a node's lists fails, or its own list would have more than 262144 entries.
#[derive(Clone, Copy, PartialEq, Eq, Debug, Error)]
#[error("a length that the node does not allow")]
pub struct LengthError;

/// What the length of a node's list depends on: the node's kind with its numbers.
#[derive(Debug, Drop)]
pub enum NodeShape {
    /// Expressions in the entries of a list, of which `greatest` is the last position that they use, 0 for none.
    Eval {
        count: usize,
        greatest: usize,
    },
    /// One entry of each list, at its position counted from 1.
    Take {
        positions: Items<usize>,
    },
    /// The entries of a list from the position `first` to the position `last`, counted from 1.
    Slice {
        first: usize,
        last: usize,
    },
    /// The lists one after the other.
    Chain,
    /// The sum of the lists, entry by entry.
    Sum,
    /// The product of the lists, entry by entry.
    Product,
    /// The product of a matrix of `rows` times `mid` entries with one of `mid` times `cols`.
    Matmul {
        rows: usize,
        mid: usize,
        cols: usize,
    },
    /// The solution of a system whose list has `entries` entries: for each of `wanted` unknowns its coefficients at the
    /// `independent` unknowns and its constant.
    Solver {
        entries: usize,
        wanted: usize,
        independent: usize,
    },
    /// The output, of so many entries, of a graph with so many inputs, on the lists one after the other.
    Call {
        inputs: usize,
        outputs: usize,
    },
    /// The outputs, of so many entries each, of a graph with so many inputs on each of the lists, one after the other.
    Map {
        inputs: usize,
        outputs: usize,
    },
    /// So many coefficients of the expansion of each of the outputs of a graph in powers of its first input. The lists, one
    /// after the other, give the other inputs.
    Laurent {
        inputs: usize,
        outputs: usize,
        orders: usize,
    },
}

/// The most entries that the list of a node may have.
const GREATEST_LENGTH: usize = 262144;

/// The length of a node's list, from the lengths of the lists that the node names, in their order.
///
/// # Errors
///
/// [`LengthError`] where these lengths break the rule of the node's kind, or the node's own list would have more than
/// 262144 entries.
pub fn length_of(kind: &NodeShape, lengths: &[usize]) -> Result<usize, LengthError>
    requires shape { IsShape kind.now }
    requires lists { HasLists kind.now (length lengths.now) }
    requires within { All (λ n. n ≤ 262144) lengths.now }
    ensures ok { IfOk result (λ n. length_rule kind.now lengths.now ≡ Some n) }
    ensures err { OnErr result (length_rule kind.now lengths.now ≡ None) }
    ensures limit { IfOk result (λ n. n ≤ 262144) }
{
    match kind {
        NodeShape::Eval { count, greatest } => ruled(*greatest <= lengths[0], *count),
        NodeShape::Take { positions } => {
            let positions = positions.as_slice();
            ruled(are_within(positions, lengths), positions.len())
        }
        NodeShape::Slice { first, last } => ruled(*last <= lengths[0], *last + 1 - *first),
        NodeShape::Chain => total_of(lengths),
        NodeShape::Sum | NodeShape::Product => ruled(are_equal(lengths), lengths[0]),
        NodeShape::Matmul { rows, mid, cols } => {
            let fits = lengths[0] == rows * mid && lengths[1] == mid * cols;
            ruled(fits, rows * cols)
        }
        NodeShape::Solver {
            entries,
            wanted,
            independent,
        } => {
            let own = wanted.checked_mul(*independent + 1).ok_or(LengthError)?;
            ruled(lengths[0] == *entries, own)
        }
        NodeShape::Call { inputs, outputs } => {
            let total = total_of(lengths)?;
            ruled(total == *inputs, *outputs)
        }
        NodeShape::Map { inputs, outputs } => {
            let own = lengths.len().checked_mul(*outputs).ok_or(LengthError)?;
            ruled(are_all(*inputs, lengths), own)
        }
        NodeShape::Laurent {
            inputs,
            outputs,
            orders,
        } => {
            let total = total_of(lengths)?;
            let own = outputs.checked_mul(*orders).ok_or(LengthError)?;
            ruled(total + 1 == *inputs, own)
        }
    }
}

/// The node's own length, where the rule of its kind holds and the length is within the limit.
fn ruled(holds: bool, own: usize) -> Result<usize, LengthError>
    ensures ok { IfOk result (λ n. ruled holds own ≡ Some n) }
    ensures err { OnErr result (ruled holds own ≡ None) }
    ensures limit { IfOk result (λ n. n ≤ 262144) }
{
    if holds && own <= GREATEST_LENGTH {
        Ok(own)
    } else {
        Err(LengthError)
    }
}

/// Whether each position is within the list beside it.
fn are_within(positions: &[usize], lengths: &[usize]) -> bool
    requires { length positions.now ≡ length lengths.now }
    ensures { result ≡ are_within positions.now lengths.now }
{
    for (k, position) in positions.iter().enumerate() {
        if *position > lengths[k] {
            return false;
        }
    }
    true
}

/// Whether all lengths are the same.
fn are_equal(lengths: &[usize]) -> bool
    requires { 0 < length lengths.now }
    ensures { result ≡ are_equal lengths.now }
{
    let first = lengths[0];
    lengths.iter().all(|length| *length == first)
}

/// Whether each length is this one.
fn are_all(one: usize, lengths: &[usize]) -> bool
    ensures { result ≡ are_all one lengths.now }
{
    lengths.iter().all(|length| *length == one)
}

/// The sum of the lengths, where it is within the limit.
fn total_of(lengths: &[usize]) -> Result<usize, LengthError>
    requires { All (λ n. n ≤ 262144) lengths.now }
    ensures ok { IfOk result (λ n. ruled true (sum lengths.now) ≡ Some n) }
    ensures err { OnErr result (ruled true (sum lengths.now) ≡ None) }
    ensures limit { IfOk result (λ n. n ≤ 262144) }
{
    let mut total = 0;
    for length in lengths {
        total += *length;
        if total > GREATEST_LENGTH {
            return Err(LengthError);
        }
    }
    Ok(total)
}
