use crate::shelf::NoMemory;
use std::alloc::Global;
use std::collections::BTreeMap;

/// How many faults each name had, with one entry for each name that was asked for.
#[derive(Drop)]
pub(crate) struct FaultCounts {
    alloc: Global,
    counts: BTreeMap<String, u64>,
}

impl FaultCounts {
    ghost use Rattle.std.specs.Prelude.{◌≡◌, ◌≢◌, ℕ, List, OnOk};
    ghost use Rattle.flow_base.specs.Counts.{counted};
    ghost use Rattle.flow_base.specs.FaultCounts.{faults_of, HasEntry};

    pub(crate) fn new(alloc: Global) -> Self
        ensures { (asked : List ℕ) → faults_of result asked ≡ 0 }
    {
        FaultCounts {
            alloc,
            counts: BTreeMap::new(alloc),
        }
    }

    /// Makes the entry of `name`, if it has none.
    #[tactic(auto, using(std::proofs::lemmas::Map::Text::text_keys))]
    pub(crate) fn enter(&mut self, name: &str) -> Result<(), NoMemory>
        ensures entered { OnOk result (HasEntry self.new name.now) }
        ensures same { (asked : List ℕ) → faults_of self.new asked ≡ faults_of self.old asked }
        ensures kept { (asked : List ℕ) → HasEntry self.old asked → HasEntry self.new asked }
    {
        if self.counts.contains_key(name) {
            return Ok(());
        }
        let key = String::from_str(self.alloc, name)?;
        self.counts.insert(key, 0)?;
        Ok(())
    }

    /// Counts one more fault of `name`.
    #[tactic(auto, using(std::proofs::lemmas::Map::Text::text_keys))]
    pub(crate) fn raise(&mut self, name: &str)
        requires { HasEntry self.old name.now }
        ensures raised { faults_of self.new name.now ≡ counted (faults_of self.old name.now) 1 }
        ensures others { (asked : List ℕ) → name.now ≢ asked → faults_of self.new asked ≡ faults_of self.old asked }
        ensures kept { (asked : List ℕ) → HasEntry self.old asked → HasEntry self.new asked }
    {
        if let Some(count) = self.counts.get_mut(name) {
            *count = count.saturating_add(1);
        }
    }
}
