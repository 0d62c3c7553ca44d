//! An attempt whose samples are all defined.

ghost use Rattle.std.specs.Prelude.{◌≡◌, ◌<◌, All, IfOk, length, map};
ghost use Rattle.good_attempt.specs.Attempts.{column};
ghost use Rattle.good_attempt.specs.Kept.{IsDefined, values_of};

use crate::NoMemory;
use parallel_sampler::Samples;
use std::alloc::Global;
use std::marker::Model;

/// An attempt at each of whose points the graph has values, which contracts see as the attempt's number with the values at
/// each point.
#[derive(Debug, Drop)]
pub struct GoodAttempt {
    attempt: u32,
    samples: Samples,
}

impl Model for GoodAttempt {
    ghost use Rattle.std.specs.Prelude.{All, map};
    ghost use Rattle.good_attempt.specs.Attempts.{Taken};
    ghost use Rattle.good_attempt.specs.Kept.{IsDefined, values_of};

    ghost Value = { Taken };

    ghost view = { λ g. record { attempt = g.attempt; rows = map values_of g.samples } };

    ghost invariant = { λ g. All IsDefined g.samples };
}

impl GoodAttempt {
    /// The attempt of this number, with its samples.
    pub(crate) fn of(attempt: u32, samples: Samples) -> GoodAttempt
        requires { All IsDefined samples }
        ensures number { result.attempt ≡ attempt }
        ensures rows { result.rows ≡ map values_of samples }
    {
        GoodAttempt { attempt, samples }
    }

    /// The attempt's number, counted from 0.
    pub fn attempt(&self) -> u32
        ensures { result ≡ self.now.attempt }
    {
        self.attempt
    }

    /// How many points the attempt has.
    pub fn points(&self) -> usize
        ensures { result ≡ length self.now.rows }
    {
        self.samples.len()
    }

    /// The values of output `k`, counted from 0, in the order of the points.
    pub fn column(&self, alloc: Global, k: usize) -> Result<Vec<u64>, NoMemory>
        requires { All (λ row. k < length row) self.now.rows }
        ensures { IfOk result (λ values. values.items ≡ column k self.now.rows) }
    {
        let count = self.samples.len();
        let mut values = Vec::with_capacity(alloc, count)?;
        for i in 0..count {
            let Some(row) = self.samples.values(i) else {
                unreachable!()
            };
            values.push(row[k])?;
        }
        Ok(values)
    }
}
