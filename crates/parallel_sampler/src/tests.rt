//! The rows of small files, from their text; boards of few numbers, and tables that are filled by them.

ghost use Rattle.std.specs.Prelude.{◌≡◌, ◌≤◌, IfOk};
ghost use Rattle.graph_file.specs.declared.job.Need.TheVariants.{Points};

use super::*;
use graph_eval::{Cause, Learned, Singular, Worker};
use graph_file::{Job, Need, read_graphs};
use learn_phase::learn;
use prime_field::Modulus;
use std::alloc::Global;
use std::sync::atomic::{AtomicU64, Ordering};
use std::test::Fail;
use std::thread;
use std::thread::Threads;

/// The job of the file with this text.
fn job_of(alloc: Global, text: &str) -> Result<Job, Fail>
    ensures { IfOk result (λ job. job.need ≡ Points) }
{
    let bytes = text.as_bytes();
    if bytes.len() > 16_777_216 {
        return Err(Fail::from("a long text"));
    }
    Ok(read_graphs(alloc, bytes, Need::Points)?)
}

/// The rows that a crew of so many workers gives for the file with this text at its points, modulo `m`.
fn rows_by<G: Gate, R: Threads + Sync>(
    rt: &R,
    alloc: Global,
    workers: u32,
    text: &str,
    m: Modulus,
    gate: &G,
) -> Result<Samples, Fail>
    requires some { 1 ≤ workers }
    requires few { workers ≤ 16 }
{
    let job = job_of(alloc, text)?;
    let learned = learn(alloc, &job)?;
    let mut crew = Crew::new(alloc, &job, &learned, workers)?;
    Ok(sample(
        rt,
        alloc,
        &mut crew,
        &job,
        &learned,
        m,
        job.points.as_slice(),
        gate,
    )?)
}

/// The rows that one worker gives.
fn rows_of<R: Threads + Sync>(
    rt: &R,
    alloc: Global,
    text: &str,
    m: Modulus,
) -> Result<Samples, Fail> {
    rows_by(rt, alloc, 1, text, m, &OpenGate)
}

/// Two quotients at a point and then at one where x + y is 2^61 - 1.
const QUOTIENTS: &str =
    "flow 1\ngraph main\ninput x y\nnode r eval input = x/(x+y) ; 1/y\noutput r\npoint 3 5\npoint 1 2305843009213693950\n";

#[test]
fn a_row_has_values_or_tells_a_node(rt: HostRuntime) -> Result<(), Fail> {
    let rows = rows_of(&rt, rt.alloc(), QUOTIENTS, Modulus::first())?;
    assert_eq!(rt; rows.len(), 2);

    let values = [864691128455135232, 1844674407370955161];
    assert_eq!(rt; rows.values(0), Some(values.as_slice()));
    assert_eq!(rt; rows.singular(0), None);

    let divided = Singular {
        node: 0,
        cause: Cause::Division,
    };
    assert_eq!(rt; rows.values(1), None);
    assert_eq!(rt; rows.singular(1), Some(divided));
    Ok(())
}

#[test]
fn rows_are_those_of_the_modulus(rt: HostRuntime) -> Result<(), Fail> {
    let rows = rows_of(&rt, rt.alloc(), QUOTIENTS, Modulus::second())?;
    assert_eq!(rt; rows.len(), 2);
    let first = [3458764513820540919, 5534023222112865470];
    assert_eq!(rt; rows.values(0), Some(first.as_slice()));
    let last = [8784163844623595984, 7053166851712475599];
    assert_eq!(rt; rows.values(1), Some(last.as_slice()));
    Ok(())
}

#[test]
fn a_file_without_points_has_no_rows(rt: HostRuntime) -> Result<(), Fail> {
    let text = "flow 1\ngraph main\ninput x\noutput input\n";
    let rows = rows_of(&rt, rt.alloc(), text, Modulus::first())?;
    assert_eq!(rt; rows.len(), 0);
    Ok(())
}

fn crosses<T: Send>() {}

fn is_shared<T: Send + Sync>() {}

#[test]
fn types_cross_threads() {
    is_shared::<Board>();
    crosses::<BoardSeat>();
    crosses::<Table>();
    is_shared::<OpenGate>();
    is_shared::<Samples>();
    is_shared::<Job>();
    is_shared::<Learned>();
    crosses::<Worker>();
    crosses::<Crew>();
}

#[test]
fn seats_draw_the_numbers_in_turn(rt: HostRuntime) -> Result<(), Fail> {
    let (board, mut first) = Board::new(rt.alloc(), 10)?;
    assert_eq!(rt; board.draw(&mut first), 0);
    let mut second = board.split(&mut first, 4)?;
    assert_eq!(rt; board.draw(&mut second), 1);
    assert_eq!(rt; board.draw(&mut first), 2);
    board.merge(&mut first, second);
    // 7 of the 10 numbers are left, and no more
    let rest = board.split(&mut first, 7)?;
    board.merge(&mut first, rest);
    assert_eq!(rt; board.close(first), 3);
    Ok(())
}

#[test]
fn an_empty_board_closes_at_once(rt: HostRuntime) -> Result<(), Fail> {
    let (board, seat) = Board::new(rt.alloc(), 0)?;
    assert_eq!(rt; board.close(seat), 0);
    Ok(())
}

/// A file of one variable, whose output 1/x has no value at the last of so many points, which is 0.
fn with_points(alloc: Global, count: u64) -> Result<String, Fail> {
    let mut text = String::from_str(
        alloc,
        "flow 1\ngraph main\ninput x\nnode r eval input = 1/x\noutput r\n",
    )?;
    for x in (0..count).rev() {
        let line = format!(in alloc; "point {x}\n")?;
        text.push_str(line.as_str())?;
    }
    Ok(text)
}

/// Counts the blocks that it is told of, and keeps the number of the last of them.
#[derive(Drop)]
struct Told {
    blocks: AtomicU64,
    last: AtomicU64,
}

impl Gate for Told {
    fn block(&self, number: u64) {
        self.blocks.fetch_add(1, Ordering::SeqCst);
        self.last.store(number, Ordering::SeqCst);
    }
}

#[test]
fn work_fills_the_rows_of_its_own_blocks(rt: HostRuntime) -> Result<(), Fail> {
    let alloc = rt.alloc();
    let text = with_points(alloc, 33)?;
    let job = job_of(alloc, text.as_str())?;
    let learned = learn(alloc, &job)?;
    let points = job.points.as_slice();
    if points.len() != 33 {
        return Err(Fail::from("not 33 points"));
    }
    let mut worker = Worker::new(alloc, &job, &learned)?;
    let mut table = Table::new(alloc, points.len(), learned.outputs())?;
    let (board, mut first) = Board::new(alloc, 4)?;
    let mut other = board.split(&mut first, 1)?;
    assert_eq!(rt; board.draw(&mut other), 0);
    let told = Told {
        blocks: AtomicU64::new(0),
        last: AtomicU64::new(0),
    };
    let m = Modulus::first();
    work(
        &board,
        &mut first,
        &mut worker,
        &job,
        &learned,
        m,
        points,
        &told,
        &mut table,
    );
    for i in 0..33 {
        assert_eq!(rt; table.filled(i), i == 32, "row {i}");
    }
    assert_eq!(rt; told.blocks.load(Ordering::SeqCst), 1);
    assert_eq!(rt; told.last.load(Ordering::SeqCst), 1);
    board.merge(&mut first, other);
    assert_eq!(rt; board.close(first), 3);
    Ok(())
}

#[test]
fn work_of_one_seat_fills_all_rows(rt: HostRuntime) -> Result<(), Fail> {
    let alloc = rt.alloc();
    let text = with_points(alloc, 70)?;
    let job = job_of(alloc, text.as_str())?;
    let learned = learn(alloc, &job)?;
    let points = job.points.as_slice();
    if points.len() != 70 {
        return Err(Fail::from("not 70 points"));
    }
    let mut worker = Worker::new(alloc, &job, &learned)?;
    let mut table = Table::new(alloc, points.len(), learned.outputs())?;
    assert!(rt; !table.filled(69));
    let (board, mut seat) = Board::new(alloc, 4)?;
    let m = Modulus::second();
    work(
        &board,
        &mut seat,
        &mut worker,
        &job,
        &learned,
        m,
        points,
        &OpenGate,
        &mut table,
    );
    for i in 0..70 {
        assert!(rt; table.filled(i), "row {i}");
    }
    assert_eq!(rt; board.close(seat), 4);
    Ok(())
}

/// A file of one variable, whose output is it, at so many points, the last of which is 0 and each the one behind it and 1.
fn counting_down(alloc: Global, count: u64) -> Result<String, Fail> {
    let mut text = String::from_str(alloc, "flow 1\ngraph main\ninput x\noutput input\n")?;
    for x in (0..count).rev() {
        let line = format!(in alloc; "point {x}\n")?;
        text.push_str(line.as_str())?;
    }
    Ok(text)
}

#[test]
fn each_point_has_its_own_row(rt: HostRuntime) -> Result<(), Fail> {
    let alloc = rt.alloc();
    for count in [31, 32, 33, 65] {
        let text = counting_down(alloc, count)?;
        let rows = rows_by(&rt, alloc, 3, text.as_str(), Modulus::first(), &OpenGate)?;
        assert_eq!(rt; rows.len() as u64, count);
        for i in 0..rows.len() {
            let want = [count.wrapping_sub(i as u64 + 1)];
            assert_eq!(rt; rows.values(i), Some(want.as_slice()), "row {i} of {count}");
        }
    }
    Ok(())
}

#[test]
fn rows_are_the_same_for_every_number_of_workers(rt: HostRuntime) -> Result<(), Fail> {
    let alloc = rt.alloc();
    let mut text = String::from_str(
        alloc,
        "flow 1\ngraph main\ninput x\nnode r eval input = 1/((x-3)*(x-40)*(x-99)) ; x\noutput r\n",
    )?;
    for x in 0..100 {
        let line = format!(in alloc; "point {x}\n")?;
        text.push_str(line.as_str())?;
    }
    let m = Modulus::second();
    let one = rows_of(&rt, alloc, text.as_str(), m)?;
    assert_eq!(rt; one.len(), 100);
    for i in 0..one.len() {
        assert_eq!(rt;
            one.values(i).is_none(),
            i == 3 || i == 40 || i == 99,
            "row {i}"
        );
    }
    for workers in [2, 3, 16] {
        let rows = rows_by(&rt, alloc, workers, text.as_str(), m, &OpenGate)?;
        assert_eq!(rt; rows.len(), 100);
        for i in 0..one.len().min(rows.len()) {
            assert_eq!(rt; rows.values(i), one.values(i), "row {i} by {workers}");
            assert_eq!(rt; rows.singular(i), one.singular(i), "row {i} by {workers}");
        }
    }
    Ok(())
}

/// Holds the first worker that comes until three more have come, and keeps whether they did.
#[derive(Drop)]
struct Meeting {
    calls: AtomicU64,
    met: AtomicU64,
}

impl Gate for Meeting {
    fn block(&self, _number: u64) {
        if self.calls.fetch_add(1, Ordering::SeqCst) != 0 {
            return;
        }
        for _ in 0..200_000_000 {
            if self.calls.load(Ordering::SeqCst) == 4 {
                self.met.store(1, Ordering::SeqCst);
                return;
            }
            thread::yield_now();
        }
    }
}

#[test]
fn a_worker_that_is_held_leaves_the_blocks_to_the_other(rt: HostRuntime) -> Result<(), Fail> {
    let alloc = rt.alloc();
    let text = counting_down(alloc, 128)?;
    let meeting = Meeting {
        calls: AtomicU64::new(0),
        met: AtomicU64::new(0),
    };
    let rows = rows_by(&rt, alloc, 2, text.as_str(), Modulus::first(), &meeting)?;
    assert_eq!(rt; rows.len(), 128);
    assert_eq!(rt; meeting.calls.load(Ordering::SeqCst), 4);
    assert_eq!(rt; meeting.met.load(Ordering::SeqCst), 1);
    Ok(())
}
