//! A board of numbered work: seats draw the numbers 0, 1, 2 and so on from it, in whatever thread they are, and no number
//! is drawn twice.

ghost use Rattle.std.specs.Prelude.{◌≡◌, ℕ, ◌+◌, ◌-◌, ◌^◌, ◌<◌, ◌≤◌, List, [], ◌∷◌, ◌++◌, length, IfOk, OnErr};
ghost use Rattle.parallel_sampler.specs.Board.{Sitting, times, HasEachBelow, fresh, spent, lessened, joined, IsKept, DrawsNumber};

mod view;

use crate::NoMemory;
use atomic_table::{Join, Play, Seat, Split, Table, TableRule};
use std::alloc::Global;
use std::marker::{Brand, Model, PhantomData};
use view::View;

// What holds of the word and of all views between any two steps.
struct Rule;

impl TableRule<(), View, u64> for Rule {
    ghost holds = { IsKept };

    ghost first = { λ quota. fresh quota quota };
}

struct Draw;

impl Play<(), View> for Draw {
    ghost then = { DrawsNumber };
}

struct Merge;

impl Join<View> for Merge {
    ghost both = { joined };

    ghost spent = { spent };
}

// How many of its numbers a seat gives away.
trait Gift {
    ghost amount: { ℕ };
}

impl Gift for Brand {
    ghost amount = { 0 };
}

struct Cut<G: Gift> {
    of: PhantomData<G>,
}

impl<G: Gift> Split<View> for Cut<G> {
    ghost left = { λ v. lessened v G.amount };

    ghost right = { λ v. fresh v.quota G.amount };
}

/// One counter that seats in several threads draw from. Contracts see which board it is, and no two are the same.
#[derive(Drop)]
pub struct Board {
    table: Table<(), View, u64, Rule, Global>,
}

impl Model for Board {
    ghost use Rattle.std.specs.Prelude.{◌≡◌};
    ghost use Rattle.atomic_table.specs.Seated.{TableId, table_id_coded};

    ghost Value = { TableId };

    ghost coded = { table_id_coded };

    ghost view = { λ b. b.table.shared.table_id };

    ghost invariant = { λ b. (b.table.shared.table_id.words ≡ 1) × (b.table.shared.table_id.slots ≡ 0) };
}

/// The right to draw some numbers of a board. Contracts see the board and its quota, how many numbers are left to draw, and
/// those that were drawn.
#[derive(Drop)]
pub struct BoardSeat {
    seat: Seat<(), View>,
}

impl Model for BoardSeat {
    ghost use Rattle.std.specs.Prelude.{◌≡◌, ◌≤◌, ◌^◌, false, []};
    ghost use Rattle.parallel_sampler.specs.Board.{Sitting, sitting_coded};

    ghost Value = { Sitting };

    ghost coded = { sitting_coded };

    ghost view = { λ s. record { board = s.seat.table_id; quota = s.seat.me.0.quota; left = s.seat.me.0.left; drawn = s.seat.me.0.drawn } };

    ghost invariant = { λ s. (s.seat.me.1 ≡ []) × (s.seat.me.0.spent ≡ false) × (s.seat.me.0.quota ≤ 2 ^ 32) };
}

// The seat's new seat, which has `give` of its numbers.
fn given<G: Gift>(board: &Board, seat: &mut BoardSeat, give: u64) -> BoardSeat
    requires amount { give ≡ G.amount }
    requires board { seat.old.board ≡ board.now }
    requires left { give ≤ seat.old.left }
    ensures new { result ≡ record seat.old { left = give; drawn = [] } }
    ensures rest { seat.new ≡ record seat.old { left = seat.old.left - give } }
{
    let seat = board.table.shared.split_seat::<Cut<G>>(&mut seat.seat);
    BoardSeat { seat }
}

impl Board {
    /// A board of `quota` numbers, and the seat that may draw them all.
    pub fn new(alloc: Global, quota: u64) -> Result<(Board, BoardSeat), NoMemory>
        requires { quota ≤ 2 ^ 32 }
        ensures { IfOk result (λ made. made.1 ≡ record { board = made.0; quota = quota; left = quota; drawn = [] }) }
    {
        let (table, seat) = Table::of_words(alloc, &[0], &quota)?;
        Ok((Board { table }, BoardSeat { seat }))
    }

    /// A new seat, which has `give` of the numbers that the seat has left. It takes no memory.
    pub fn split(&self, seat: &mut BoardSeat, give: u64) -> Result<BoardSeat, NoMemory>
        requires board { seat.old.board ≡ self.now }
        requires left { give ≤ seat.old.left }
        ensures new { IfOk result (λ made. made ≡ record seat.old { left = give; drawn = [] }) }
        ensures rest { IfOk result (λ _. seat.new ≡ record seat.old { left = seat.old.left - give }) }
        ensures refused { OnErr result (seat.new ≡ seat.old) }
    {
        Ok(given::<Brand>(self, seat, give))
    }

    /// The lowest number that no seat has drawn yet.
    pub fn draw(&self, seat: &mut BoardSeat) -> u64
        requires board { seat.old.board ≡ self.now }
        requires left { 1 ≤ seat.old.left }
        ensures below { result < seat.old.quota }
        ensures unseen { times result seat.old.drawn ≡ 0 }
        ensures drawn { seat.new ≡ record seat.old { left = seat.old.left - 1; drawn = seat.old.drawn ++ result ∷ [] } }
    {
        self.table.shared.fetch_add::<Draw>(&mut seat.seat, 0, 1)
    }

    /// `into` takes over what `from` has left and what it drew.
    pub fn merge(&self, into: &mut BoardSeat, from: BoardSeat)
        requires into { into.old.board ≡ self.now }
        requires from { from.board ≡ self.now }
        ensures { into.new ≡ record into.old { left = into.old.left + from.left; drawn = into.old.drawn ++ from.drawn } }
    {
        let BoardSeat { seat: other } = from;
        self.table.shared.join_seat::<Merge>(&mut into.seat, other);
    }

    /// How many numbers were drawn, once one seat has taken over all others: these numbers are those that it has drawn.
    pub fn close(self, seat: BoardSeat) -> u64
        requires board { seat.board ≡ self }
        requires all { seat.left + length seat.drawn ≡ seat.quota }
        ensures { HasEachBelow result seat.drawn }
    {
        let Board { table } = self;
        let BoardSeat { seat } = seat;
        let closed = table.close_with(seat);
        let count = closed.word(0);
        closed.free();
        count
    }
}
