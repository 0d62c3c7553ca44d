ghost use Rattle.std.specs.Prelude.{◌≡◌, ◌≤◌, length, None, string_bytes, IfOk, MatchResult};
ghost use Rattle.std.specs.Option.{ForSome};
ghost use Rattle.std.specs.Io.{ReadsAtMost};
ghost use Rattle.flow_base.specs.Counts.{counted};
ghost use Rattle.flow_base.specs.FaultCounts.{HasEntry};

use crate::fault_counts::FaultCounts;
use crate::shelf::{Failed, OpenError, Shelf};
use std::alloc::Global;
use std::fs::{self, File};
use std::io::{Read, Stdin};

/// The name under which standard input is opened.
const INPUT: &str = "-";

/// The files of the machine, and standard input under the name `-`. It tells no bytes.
#[derive(Drop)]
pub struct RealShelf {
    rt: HostRuntime,
    alloc: Global,
    counts: FaultCounts,
    reading: Option<Reading>,
    ghost entered: { ForSome reading (λ r. HasEntry counts (string_bytes r.name)) },
}

/// The file that is open, and how many bytes were taken from it.
#[derive(Drop)]
struct Reading {
    name: String,
    source: Source,
    taken: u64,
}

/// Where bytes come from.
#[derive(Drop)]
enum Source {
    File(File),
    Input(Stdin),
}

impl Reading {
    /// Reads into the front of `buf`, and counts the bytes.
    fn read(&mut self, buf: &mut [u8]) -> Result<usize, Failed>
        ensures bound { ReadsAtMost result buf.new }
        ensures taken { MatchResult result (λ n. self.new.taken ≡ counted self.old.taken n) (λ _. self.new.taken ≡ self.old.taken) }
        ensures name { self.new.name ≡ self.old.name }
    {
        let outcome = match &mut self.source {
            Source::File(file) => file.read(buf),
            Source::Input(input) => input.read(buf),
        };
        let Ok(count) = outcome else {
            return Err(Failed);
        };
        self.taken = self.taken.saturating_add(count as u64);
        Ok(count)
    }
}

impl RealShelf {
    ghost use Rattle.std.specs.Prelude.{ℕ, List};
    ghost use Rattle.flow_base.specs.RealShelf.{real_shelf_view};

    /// A shelf with no file open.
    pub fn new(rt: HostRuntime, alloc: Global) -> Self
        ensures not_told { (name : List ℕ) → (real_shelf_view result).files name ≡ None }
        ensures not_open { (real_shelf_view result).name ≡ None }
        ensures none_taken { (real_shelf_view result).taken ≡ 0 }
        ensures no_faults { (name : List ℕ) → (real_shelf_view result).faults name ≡ 0 }
    {
        RealShelf {
            rt,
            alloc,
            counts: FaultCounts::new(alloc),
            reading: None,
        }
    }

    /// Where the bytes of this name come from.
    fn source(&self, name: &str) -> Result<Source, Failed> {
        if name == INPUT {
            return Ok(Source::Input(self.rt.stdin()));
        }
        match fs::open(&self.rt, name) {
            Ok(file) => Ok(Source::File(file)),
            Err(_) => Err(Failed),
        }
    }
}

impl Shelf for RealShelf {
    ghost use Rattle.std.specs.Prelude.{ℕ, ◌<◌, [], List, take, IsErrOf, IsSome, OnErr, OnOk, Some};
    ghost use Rattle.std.specs.Io.KnownBytes.{IsAtEnd};
    ghost use Rattle.flow_base.specs.Counts.{Rose};
    ghost use Rattle.flow_base.specs.RealShelf.{real_shelf_view};
    ghost use Rattle.flow_base.specs.Shelf.{TouchesOnly, Opens, Takes, IsSame, open_faults};

    ghost view = { real_shelf_view };

    fn open(&mut self, name: &str) -> Result<(), OpenError>
        ensures touched { TouchesOnly (real_shelf_view self.old) (real_shelf_view self.new) (Some name.now) }
        ensures is_open { OnOk result ((real_shelf_view self.new).name ≡ Some name.now) }
        ensures none_taken { OnOk result ((real_shelf_view self.new).taken ≡ 0) }
        ensures whole { OnOk result (Opens ((real_shelf_view self.old).files name.now) (real_shelf_view self.new).rest) }
        ensures failed { IsErrOf result OpenError.Failed → Rose ((real_shelf_view self.old).faults name.now) ((real_shelf_view self.new).faults name.now) }
        ensures none_open { IsErrOf result OpenError.Failed → (real_shelf_view self.new).name ≡ None }
        ensures no_memory { IsErrOf result OpenError.NoMemory → IsSame (real_shelf_view self.old) (real_shelf_view self.new) }

        ensures no_fault { OnOk result ((asked : List ℕ) → (real_shelf_view self.new).faults asked ≡ (real_shelf_view self.old).faults asked) }
    {
        let key = String::from_str(self.alloc, name)?;
        self.counts.enter(name)?;
        let Ok(source) = self.source(name) else {
            self.counts.raise(name);
            self.reading = None;
            return Err(OpenError::Failed);
        };
        self.reading = Some(Reading {
            name: key,
            source,
            taken: 0,
        });
        Ok(())
    }

    fn read(&mut self, buf: &mut [u8]) -> Result<usize, Failed>
        requires is_open { IsSome (real_shelf_view self.old).name }
        requires room { 0 < length buf.old }
        ensures bound { ReadsAtMost result buf.new }
        ensures bytes { MatchResult result (λ n. Takes (real_shelf_view self.old) (real_shelf_view self.new) (take n buf.new)) (λ _. Takes (real_shelf_view self.old) (real_shelf_view self.new) []) }
        ensures at_end { result ≡ Ok 0 → IsAtEnd (real_shelf_view self.new).rest }
        ensures failed { OnErr result (Rose (open_faults (real_shelf_view self.old)) (open_faults (real_shelf_view self.new))) }
        ensures rest_kept { OnErr result ((real_shelf_view self.new).rest ≡ (real_shelf_view self.old).rest) }
        ensures taken_kept { OnErr result ((real_shelf_view self.new).taken ≡ (real_shelf_view self.old).taken) }

        ensures no_fault { OnOk result ((asked : List ℕ) → (real_shelf_view self.new).faults asked ≡ (real_shelf_view self.old).faults asked) }
    {
        let Some(reading) = &mut self.reading else {
            unreachable!()
        };
        let outcome = reading.read(buf);
        if outcome.is_err() {
            self.counts.raise(reading.name.as_str());
        }
        outcome
    }
}
