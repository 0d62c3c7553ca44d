//! The workers of a crew at work, each in a thread of its own where there are threads.

ghost use Rattle.std.specs.Prelude.{◌≡◌, ◌≤◌, All, length, slice_get};
ghost use denote.Param.Send.{IsSync};
ghost use Rattle.prime_field.specs.Modulus.{value_of};
ghost use Rattle.graph_eval.specs.Evaluated.{HasInputs};
ghost use Rattle.graph_eval.specs.GraphValue.{main_number};
ghost use Rattle.graph_eval.specs.Learned.{Fits};
ghost use Rattle.parallel_sampler.specs.Hands.{IsDone, IsReady};

use crate::board::Board;
use crate::crew::Hand;
use crate::gate::Gate;
use crate::working::work;
use graph_eval::Learned;
use graph_file::Job;
use poly_maps::Point;
use prime_field::Modulus;
use std::thread::{Threads, join_mut};

/// One worker works until there are no blocks left to draw.
fn work_alone<G: Gate>(
    board: &Board,
    job: &Job,
    learned: &Learned,
    m: Modulus,
    points: &[Point],
    gate: &G,
    hand: &mut Hand,
)
    requires fits { Fits job.now.graphs learned.now }
    requires few { length points.now ≤ 65536 }
    requires entries { All (HasInputs (slice_get job.now.graphs (main_number job.now.graphs))) points.now }
    requires ready { IsReady job.now.graphs learned.now (length points.now) board.now hand.old }
    ensures { IsDone (value_of m) job.now.graphs learned.now points.now board.now hand.new }
{
    let Some(post) = &mut hand.post else {
        unreachable!()
    };
    work(
        board,
        &mut post.seat,
        &mut hand.worker,
        job,
        learned,
        m,
        points,
        gate,
        &mut post.table,
    );
}

/// All of the workers work, each half of them beside the other half.
pub(crate) fn run<G: Gate, R: Threads + Sync>(
    rt: &R,
    board: &Board,
    job: &Job,
    learned: &Learned,
    m: Modulus,
    points: &[Point],
    gate: &G,
    hands: &mut [Hand],
)
    requires fits { Fits job.now.graphs learned.now }
    requires few { length points.now ≤ 65536 }
    requires entries { All (HasInputs (slice_get job.now.graphs (main_number job.now.graphs))) points.now }
    requires ready { All (IsReady job.now.graphs learned.now (length points.now) board.now) hands.old }
    ensures { All (IsDone (value_of m) job.now.graphs learned.now points.now board.now) hands.new }
{
    if hands.len() == 0 {
        return;
    }
    if hands.len() == 1 {
        work_alone(board, job, learned, m, points, gate, &mut hands[0]);
        return;
    }
    let (front, back) = hands.split_at_mut(hands.len() / 2);
    join_mut(
        rt,
        &mut ||
            requires { IsSync R.row × IsSync G.row × Fits job.now.graphs learned.now × (length points.now ≤ 65536)
                × All (HasInputs (slice_get job.now.graphs (main_number job.now.graphs))) points.now
                × All (IsReady job.now.graphs learned.now (length points.now) board.now) front.now }
            ensures { All (IsDone (value_of m) job.entry.now.graphs learned.entry.now points.entry.now board.entry.now) front.exit.now }
        { run(rt, board, job, learned, m, points, gate, front) },
        &mut ||
            requires { IsSync R.row × IsSync G.row × Fits job.now.graphs learned.now × (length points.now ≤ 65536)
                × All (HasInputs (slice_get job.now.graphs (main_number job.now.graphs))) points.now
                × All (IsReady job.now.graphs learned.now (length points.now) board.now) back.now }
            ensures { All (IsDone (value_of m) job.entry.now.graphs learned.entry.now points.entry.now board.entry.now) back.exit.now }
        { run(rt, board, job, learned, m, points, gate, back) },
    );
}
