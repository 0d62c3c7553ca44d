//! The workers of a job.

ghost use Rattle.std.specs.Prelude.{◌≡◌, ◌+◌, ◌-◌, ◌*◌, ◌≤◌, All, IfOk, IsSomeAnd, OnOk, length};
ghost use Rattle.graph_eval.specs.Learned.{Fits};
ghost use Rattle.graph_eval.specs.Made.{IsMadeFor};
ghost use Rattle.parallel_sampler.specs.Filled.{blocks_of};
ghost use Rattle.parallel_sampler.specs.Hands.{CanSettle, IsPosted, Settles, workers_of};

use crate::NoMemory;
use crate::board::{Board, BoardSeat};
use crate::table::{BLOCK, Table};
use graph_eval::{Learned, Worker};
use graph_file::Job;
use std::alloc::Global;
use std::marker::Model;

/// What a worker has while it works: a seat to draw blocks with, and a table whose rows it fills.
#[derive(Drop)]
pub(crate) struct Post {
    pub(crate) seat: BoardSeat,
    pub(crate) table: Table,
}

/// A worker, with its post while it has one.
#[derive(Drop)]
pub(crate) struct Hand {
    pub(crate) worker: Worker,
    pub(crate) post: Option<Post>,
}

/// 1 to 16 workers, each of which a thread of its own may run. Contracts see the list of the workers.
#[derive(Drop)]
pub struct Crew {
    pub(crate) hands: Vec<Hand>,
}

impl Model for Crew {
    ghost use Rattle.std.specs.Prelude.{◌≤◌, List, vec_len};
    ghost use Rattle.graph_eval.specs.declared.worker.Worker.{Worker};
    ghost use Rattle.parallel_sampler.specs.Hands.{workers_of};

    ghost Value = { List Worker };

    ghost view = { λ c. workers_of c.hands.items };

    ghost invariant = { λ c. (1 ≤ vec_len c.hands) × (vec_len c.hands ≤ 16) };
}

impl Crew {
    /// So many workers, all made for the job and what was learned of its graphs.
    pub fn new(alloc: Global, job: &Job, learned: &Learned, workers: u32) -> Result<Crew, NoMemory>
        requires some { 1 ≤ workers }
        requires few { workers ≤ 16 }
        requires fits { Fits job.now.graphs learned.now }
        ensures count { IfOk result (λ crew. length crew ≡ workers) }
        ensures made { IfOk result (λ crew. All (IsMadeFor job.now.graphs learned.now) crew) }
    {
        let mut hands = Vec::with_capacity(alloc, workers as usize)?;
        for _ in 0..workers {
            let worker = Worker::new(alloc, job, learned)?;
            hands.push(Hand { worker, post: None })?;
        }
        Ok(Crew { hands })
    }
}

/// How many numbers a worker may draw: each block of so many points, and then one that is no block.
pub(crate) fn draws(points: usize) -> u64
    requires { points ≤ 65536 }
    ensures { result ≡ blocks_of points + 1 }
{
    points.div_ceil(BLOCK) as u64 + 1
}

impl Hand {
    /// Gives the worker its post: some draws of the seat, and an empty table.
    fn take_post(
        &mut self,
        alloc: Global,
        board: &Board,
        rest: &mut BoardSeat,
        points: usize,
        outputs: usize,
    ) -> Result<(), NoMemory>
        requires board { rest.old.board ≡ board.now }
        requires left { blocks_of points + 1 ≤ rest.old.left }
        requires few { points ≤ 65536 }
        requires room { points * outputs ≤ 1048576 }
        ensures worker { self.new.worker ≡ self.old.worker }
        ensures post { OnOk result (IsPosted outputs points board.now self.new) }
        ensures rest { OnOk result (rest.new ≡ record rest.old { left = rest.old.left - (blocks_of points + 1) }) }
    {
        let table = Table::new(alloc, points, outputs)?;
        let seat = board.split(rest, draws(points))?;
        self.post = Some(Post { seat, table });
        Ok(())
    }

    /// Ends the worker's post: the seat takes over its seat, and the table its rows.
    pub(crate) fn settle(&mut self, board: &Board, rest: &mut BoardSeat, whole: &mut Table)
        requires board { rest.old.board ≡ board.now }
        requires post { IsSomeAnd self.old.post (CanSettle board.now whole.old) }
        ensures worker { self.new.worker ≡ self.old.worker }
        ensures settled { IsSomeAnd self.old.post (Settles rest.old rest.new whole.old whole.new) }
    {
        let Some(Post { seat, table }) = self.post.take() else {
            unreachable!()
        };
        board.merge(rest, seat);
        whole.take_from(table);
    }
}

/// Gives each worker its post.
pub(crate) fn deal(
    alloc: Global,
    board: &Board,
    rest: &mut BoardSeat,
    points: usize,
    outputs: usize,
    hands: &mut [Hand],
) -> Result<(), NoMemory>
    requires board { rest.old.board ≡ board.now }
    requires left { rest.old.left ≡ length hands.old * (blocks_of points + 1) }
    requires few { points ≤ 65536 }
    requires room { points * outputs ≤ 1048576 }
    ensures workers { workers_of hands.new ≡ workers_of hands.old }
    ensures posts { OnOk result (All (IsPosted outputs points board.now) hands.new) }
    ensures rest { OnOk result (rest.new ≡ record rest.old { left = 0 }) }
{
    for i in 0..hands.len() {
        hands[i].take_post(alloc, board, rest, points, outputs)?;
    }
    Ok(())
}
