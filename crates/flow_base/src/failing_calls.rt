ghost use Rattle.std.specs.Prelude.{◌≡◌, ◌↔◌, IsTrue};
ghost use Rattle.flow_base.specs.Counts.{counted};
ghost use Rattle.flow_base.specs.FailingCalls.{IsToFail};

/// How many calls a device in memory had, and the numbers, counted from 1, of those that fail.
#[derive(Drop)]
pub(crate) struct FailingCalls {
    pub(crate) failing: Vec<u64>,
    pub(crate) calls: u64,
}

impl FailingCalls {
    pub(crate) fn new(failing: Vec<u64>) -> Self
        ensures { result ≡ record { failing = failing; calls = 0 } }
    {
        FailingCalls { failing, calls: 0 }
    }

    /// Counts one more call, and says whether it is to fail.
    pub(crate) fn next_fails(&mut self) -> bool
        ensures fails { IsTrue result ↔ IsToFail self.old.failing.items self.old.calls }
        ensures calls { self.new.calls ≡ counted self.old.calls 1 }
        ensures failing { self.new.failing ≡ self.old.failing }
    {
        let number = u128::from(self.calls) + 1;
        self.calls = self.calls.saturating_add(1);
        self.failing
            .iter()
            .any(|failing| u128::from(*failing) == number)
    }
}
