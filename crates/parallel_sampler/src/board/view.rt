ghost use Rattle.std.specs.Prelude.{ℕ, Bool, List};
ghost use Rattle.std.specs.Borrow.{ftrue};

use std::marker::Model;

/// What a seat knows. No value of it is made.
pub struct View {
    /// How many numbers the board has in all; 0 where the view is spent.
    pub ghost quota: { ℕ },
    /// How many numbers the seat may still draw.
    pub ghost left: { ℕ },
    /// The numbers that the seat drew, in turn, and those that it took over from other seats.
    pub ghost drawn: { List ℕ },
    /// Whether another seat took this one's view over. Only such a view is spent.
    pub ghost spent: { Bool },
}

impl Model for View {
    ghost also_owns = { λ _. ftrue };
}
