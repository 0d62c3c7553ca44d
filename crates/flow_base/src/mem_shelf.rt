ghost use Rattle.std.specs.Prelude.{◌≡◌, ℕ, ◌<◌, ◌≤◌, ◌++◌, length, drop, take, min, None, Some, Option, MatchOption, string_bytes};
ghost use Rattle.std.specs.Option.{ForSome};
ghost use Rattle.flow_base.specs.Counts.{counted};
ghost use Rattle.flow_base.specs.Files.{bytes_under, bytes_at};
ghost use Rattle.flow_base.specs.MemShelf.{IsPlaced};

use crate::failing_calls::FailingCalls;
use crate::fault_counts::FaultCounts;
use crate::shelf::{Failed, OpenError, Shelf};
use std::alloc::Global;

/// Files in memory, which give few bytes at a read and fail where they are told to. The first of several files of one
/// name counts.
#[derive(Drop)]
pub struct MemShelf {
    alloc: Global,
    files: Vec<(String, Vec<u8>)>,
    most: usize,
    calls: FailingCalls,
    counts: FaultCounts,
    reading: Option<OpenFile>,
    ghost some_bytes: { 1 ≤ most },
    ghost placed: { ForSome reading (λ r. IsPlaced files.items counts r) },
}

/// The file that is open, by its place in the list of files, and how far it was read.
#[derive(Drop)]
struct OpenFile {
    name: String,
    file: usize,
    at: usize,
    taken: u64,
}

impl OpenFile {
    /// Moves bytes from the front of the file's rest to the front of `buf`, at most `most`, and says how many.
    fn take(&mut self, bytes: &[u8], most: usize, buf: &mut [u8]) -> usize
        requires { self.old.at ≤ length bytes.now }
        ensures given { result ≡ min most (min (length buf.old) (length (drop self.old.at bytes.now))) }
        ensures front { drop self.old.at bytes.now ≡ take result buf.new ++ drop self.new.at bytes.now }
        ensures within { self.new.at ≤ length bytes.now }
        ensures taken { self.new.taken ≡ counted self.old.taken result }
        ensures name { self.new.name ≡ self.old.name }
        ensures file { self.new.file ≡ self.old.file }
    {
        let rest = &bytes[self.at..];
        let count = most.min(buf.len()).min(rest.len());
        buf[..count].copy_from_slice(&rest[..count]);
        self.at += count;
        self.taken = self.taken.saturating_add(count as u64);
        count
    }
}

/// The place of the first file of this name.
fn place_of(files: &[(String, Vec<u8>)], name: &str) -> Option<usize>
    ensures { MatchOption result (bytes_under files.now name.now ≡ None) (λ i. (i < length files.now) × (bytes_under files.now name.now ≡ Some (bytes_at files.now i))) }
{
    for (place, file) in files.iter().enumerate() {
        if file.0.as_str() == name {
            return Some(place);
        }
    }
    None
}

/// The bytes of the file at this place.
fn bytes_of(files: &[(String, Vec<u8>)], place: usize) -> &[u8]
    requires { place < length files.now }
    ensures { result.now ≡ bytes_at files.now place }
{
    files[place].1.as_slice()
}

impl MemShelf {
    ghost use Rattle.std.specs.Prelude.{List};
    ghost use Rattle.flow_base.specs.MemShelf.Told.{mem_shelf_view, most_of, failing_of, calls_of};

    /// A shelf with these files. A read gives at most `most` bytes; an open or a read fails where its number, counted
    /// from 1 and opens and reads together, stands in `failing`.
    pub fn new(alloc: Global, files: Vec<(String, Vec<u8>)>, most: usize, failing: Vec<u64>) -> Self
        requires { 1 ≤ most }
        ensures files { (name : List ℕ) → (mem_shelf_view result).files name ≡ Some (bytes_under files.items name) }
        ensures not_open { (mem_shelf_view result).name ≡ None }
        ensures no_rest { (mem_shelf_view result).rest ≡ None }
        ensures none_taken { (mem_shelf_view result).taken ≡ 0 }
        ensures no_faults { (name : List ℕ) → (mem_shelf_view result).faults name ≡ 0 }
        ensures most { most_of result ≡ most }
        ensures failing { failing_of result ≡ failing.items }
        ensures calls { calls_of result ≡ 0 }
    {
        MemShelf {
            alloc,
            files,
            most,
            calls: FailingCalls::new(failing),
            counts: FaultCounts::new(alloc),
            reading: None,
        }
    }
}

impl Shelf for MemShelf {
    ghost use Rattle.std.specs.Prelude.{◌+◌, ◌≢◌, ◌↔◌, ◌⊎◌, [], List, IfOk, IsErr, IsErrOf, IsSome, MatchResult, OnErr, OnOk};
    ghost use Rattle.std.specs.Io.{ReadsAtMost};
    ghost use Rattle.std.specs.Io.KnownBytes.{IsAtEnd};
    ghost use Rattle.flow_base.specs.Counts.{Rose};
    ghost use Rattle.flow_base.specs.MemShelf.Told.{mem_shelf_view, IsNextToFail, CountsCall, CountsNone, given_of};
    ghost use Rattle.flow_base.specs.Shelf.{TouchesOnly, Opens, Takes, IsSame, open_faults};

    ghost view = { mem_shelf_view };

    fn open(&mut self, name: &str) -> Result<(), OpenError>
        ensures touched { TouchesOnly (mem_shelf_view self.old) (mem_shelf_view self.new) (Some name.now) }
        ensures is_open { OnOk result ((mem_shelf_view self.new).name ≡ Some name.now) }
        ensures none_taken { OnOk result ((mem_shelf_view self.new).taken ≡ 0) }
        ensures whole { OnOk result (Opens ((mem_shelf_view self.old).files name.now) (mem_shelf_view self.new).rest) }
        ensures failed { IsErrOf result OpenError.Failed → Rose ((mem_shelf_view self.old).faults name.now) ((mem_shelf_view self.new).faults name.now) }
        ensures none_open { IsErrOf result OpenError.Failed → (mem_shelf_view self.new).name ≡ None }
        ensures no_memory { IsErrOf result OpenError.NoMemory → IsSame (mem_shelf_view self.old) (mem_shelf_view self.new) }

        ensures fails { result ≢ Err OpenError.NoMemory → (IsErrOf result OpenError.Failed ↔ (IsNextToFail self.old ⊎ ((mem_shelf_view self.old).files name.now ≡ Some None))) }
        ensures called { result ≢ Err OpenError.NoMemory → CountsCall self.old self.new }
        ensures uncalled { IsErrOf result OpenError.NoMemory → CountsNone self.old self.new }
        ensures no_fault { OnOk result ((asked : List ℕ) → (mem_shelf_view self.new).faults asked ≡ (mem_shelf_view self.old).faults asked) }
        ensures fault { IsErrOf result OpenError.Failed → (mem_shelf_view self.new).faults name.now ≡ counted ((mem_shelf_view self.old).faults name.now) 1 }
    {
        let key = String::from_str(self.alloc, name)?;
        self.counts.enter(name)?;
        let is_to_fail = self.calls.next_fails();
        match place_of(self.files.as_slice(), name) {
            Some(file) if !is_to_fail => {
                self.reading = Some(OpenFile {
                    name: key,
                    file,
                    at: 0,
                    taken: 0,
                });
                Ok(())
            }
            _ => {
                self.counts.raise(name);
                self.reading = None;
                Err(OpenError::Failed)
            }
        }
    }

    fn read(&mut self, buf: &mut [u8]) -> Result<usize, Failed>
        requires is_open { IsSome (mem_shelf_view self.old).name }
        requires room { 0 < length buf.old }
        ensures bound { ReadsAtMost result buf.new }
        ensures bytes { MatchResult result (λ n. Takes (mem_shelf_view self.old) (mem_shelf_view self.new) (take n buf.new)) (λ _. Takes (mem_shelf_view self.old) (mem_shelf_view self.new) []) }
        ensures at_end { result ≡ Ok 0 → IsAtEnd (mem_shelf_view self.new).rest }
        ensures failed { OnErr result (Rose (open_faults (mem_shelf_view self.old)) (open_faults (mem_shelf_view self.new))) }
        ensures rest_kept { OnErr result ((mem_shelf_view self.new).rest ≡ (mem_shelf_view self.old).rest) }
        ensures taken_kept { OnErr result ((mem_shelf_view self.new).taken ≡ (mem_shelf_view self.old).taken) }

        ensures fails { IsErr result ↔ IsNextToFail self.old }
        ensures given { IfOk result (λ n. ForSome (mem_shelf_view self.old).rest (λ rest. n ≡ given_of self.old (length buf.old) rest)) }
        ensures called { CountsCall self.old self.new }
        ensures no_fault { OnOk result ((asked : List ℕ) → (mem_shelf_view self.new).faults asked ≡ (mem_shelf_view self.old).faults asked) }
        ensures fault { OnErr result (open_faults (mem_shelf_view self.new) ≡ counted (open_faults (mem_shelf_view self.old)) 1) }
    {
        let Some(reading) = &mut self.reading else {
            unreachable!()
        };
        if self.calls.next_fails() {
            self.counts.raise(reading.name.as_str());
            return Err(Failed);
        }
        let bytes = bytes_of(self.files.as_slice(), reading.file);
        Ok(reading.take(bytes, self.most, buf))
    }
}
