//! What one thread does: it draws blocks and fills their rows.

ghost use Rattle.std.specs.Prelude.{◌≡◌, ◌+◌, ◌≤◌, All, [], None, length, replicate, slice_get};
ghost use Rattle.prime_field.specs.Modulus.{value_of};
ghost use Rattle.graph_eval.specs.Evaluated.{HasInputs};
ghost use Rattle.graph_eval.specs.GraphValue.{main_number};
ghost use Rattle.graph_eval.specs.Learned.{Fits, outputs_of};
ghost use Rattle.graph_eval.specs.Made.{IsMadeFor};
ghost use Rattle.parallel_sampler.specs.Filled.{HasEnded, IsFilledBy, blocks_of};

use crate::board::{Board, BoardSeat};
use crate::gate::Gate;
use crate::table::{BLOCK, Table};
use graph_eval::{Learned, Worker};
use graph_file::Job;
use poly_maps::Point;
use prime_field::Modulus;

/// Draws numbers with the seat until one is no block, and fills the rows of each block that it drew: what the main graph has
/// at their points, modulo `m`. It takes no memory. The gate is told of each block before the block's first point.
pub fn work<G: Gate>(
    board: &Board,
    seat: &mut BoardSeat,
    worker: &mut Worker,
    job: &Job,
    learned: &Learned,
    m: Modulus,
    points: &[Point],
    gate: &G,
    table: &mut Table,
)
    requires board { seat.old.board ≡ board.now }
    requires fresh { seat.old.drawn ≡ [] }
    requires draws { blocks_of (length points.now) + 1 ≤ seat.old.left }
    requires made { IsMadeFor job.now.graphs learned.now worker.old }
    requires fits { Fits job.now.graphs learned.now }
    requires few { length points.now ≤ 65536 }
    requires entries { All (HasInputs (slice_get job.now.graphs (main_number job.now.graphs))) points.now }
    requires rows { table.old.rows ≡ replicate (length points.now) None }
    requires room { table.old.room ≡ outputs_of learned.now }
    ensures made { IsMadeFor job.now.graphs learned.now worker.new }
    ensures board { seat.new.board ≡ seat.old.board }
    ensures quota { seat.new.quota ≡ seat.old.quota }
    ensures ended { HasEnded (blocks_of (length points.now)) seat.new.drawn }
    ensures left { seat.new.left + length seat.new.drawn ≡ seat.old.left }
    ensures rows { IsFilledBy (value_of m) job.now.graphs learned.now points.now seat.new.drawn table.new.rows }
    ensures room { table.new.room ≡ table.old.room }
{
    let blocks = points.len().div_ceil(BLOCK);
    loop {
        let number = board.draw(seat);
        if number >= blocks as u64 {
            return;
        }
        gate.block(number);
        table.fill(number as usize, worker, job, learned, m, points);
    }
}
