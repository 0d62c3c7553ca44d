//! Where the values of each row begin, and the order in which rows are taken.

ghost use Rattle.std.specs.Prelude.{IfOk, length};
ghost use Rattle.sparse_solver.specs.Order.{AreStarts, TakesEach};

use elim_core::SparseRow;
use std::alloc::{AllocError, Global};
use std::cmp::Reverse;

/// Where the values of each row begin in the values of all rows.
pub fn starts_of(alloc: Global, rows: &[SparseRow]) -> Result<Vec<usize>, AllocError>
    ensures { IfOk result (λ starts. AreStarts rows.now starts.items) }
{
    let mut starts = Vec::new(alloc);
    let mut next = 0_usize;
    for row in rows {
        starts.push(next)?;
        let Some(end) = next.checked_add(row.columns.len()) else {
            return Err(AllocError);
        };
        next = end;
    }
    Ok(starts)
}

/// The first column of an unknown, or 0 where no unknown has one.
fn leading_column(columns: &[u32]) -> u32 {
    for column in columns {
        if *column != 0 {
            return *column;
        }
    }
    0
}

/// By what the rows are put in order: those whose leading column is later come first, and of those with the same one the
/// shorter. So most rows begin where none is kept yet, and are kept as they are.
fn sort_key(rows: &[SparseRow], number: usize) -> (Reverse<u32>, usize, usize) {
    match rows.get(number) {
        Some(row) => (
            Reverse(leading_column(row.columns.as_slice())),
            row.columns.len(),
            number,
        ),
        None => (Reverse(0), 0, number),
    }
}

/// The numbers of the rows, in the order in which they are taken before anything is learned.
pub fn first_order(alloc: Global, rows: &[SparseRow]) -> Result<Vec<usize>, AllocError>
    ensures { IfOk result (λ order. TakesEach (length rows.now) order.items) }
{
    let mut order = Vec::new(alloc);
    for number in 0..rows.len() {
        order.push(number)?;
    }
    order.sort_unstable_by_key(|number| sort_key(rows, *number));
    Ok(order)
}
