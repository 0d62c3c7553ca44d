ghost use Rattle.std.specs.Prelude.{◌≡◌, ℕ, ◌+◌, ◌<◌, ◌≤◌, [], length, take, IfOk, IsSome, IsErrOf, MatchResult, OnErr, OnOk};
ghost use Rattle.std.specs.Option.{ForSome};
ghost use Rattle.std.specs.Io.{ReadsAtMost};
ghost use Rattle.std.specs.Io.KnownBytes.{IsAtEnd};
ghost use Rattle.flow_base.specs.Counts.{Rose, counted};
ghost use Rattle.flow_base.specs.Shelf.{ShelfView, TouchesOnly, Opens, Takes, TakesSome, TakesMore, IsSame, open_faults};

use std::alloc::{AllocError, Global};
use thiserror::Error;

/// Want of memory, where a call has no other error.
pub type NoMemory = AllocError;

/// A read or a write that a device refused.
#[derive(Clone, Copy, Debug, PartialEq, Eq, Error)]
#[error("the device failed")]
pub struct Failed;

/// Why a file was not opened.
#[derive(Clone, Copy, Debug, PartialEq, Eq, Error)]
pub enum OpenError {
    /// The file is not there, or the device refused it.
    #[error("the file could not be opened")]
    Failed,
    /// No memory was left to count the name's faults.
    #[error("out of memory")]
    NoMemory,
}

/// Why the rest of a file was not read.
#[derive(Clone, Copy, Debug, PartialEq, Eq, Error)]
pub enum ReadError {
    /// A read failed.
    #[error("read fault")]
    ReadFault,
    /// The rest is longer than the limit.
    #[error("the file is too long")]
    TooLong,
    /// No memory was left for the bytes.
    #[error("out of memory")]
    NoMemory,
}

impl From<AllocError> for OpenError {
    ghost use Rattle.std.specs.Prelude.{◌≡◌};
    ghost use Rattle.flow_base.specs.declared.shelf.OpenError.TheVariants.{NoMemory as no_memory};

    ghost from_gives = { λ _ e. e ≡ no_memory };

    fn from(_: AllocError) -> Self {
        OpenError::NoMemory
    }
}

impl From<AllocError> for ReadError {
    ghost use Rattle.std.specs.Prelude.{◌≡◌};
    ghost use Rattle.flow_base.specs.declared.shelf.ReadError.TheVariants.{NoMemory as no_memory};

    ghost from_gives = { λ _ e. e ≡ no_memory };

    fn from(_: AllocError) -> Self {
        ReadError::NoMemory
    }
}

/// Files under names, of which one at a time is open. Each fault is counted under the name at which it came; a count
/// stays at `u64::MAX` once it is there.
pub trait Shelf {
    ghost view: { Self → ShelfView };

    /// Opens the file `name` from its beginning, in place of the file that was open.
    ///
    /// # Errors
    /// `Failed` where the device refused, which is counted under `name`; no file is then open. `NoMemory` leaves the
    /// shelf as it was.
    fn open(&mut self, name: &str) -> Result<(), OpenError>
        ensures touched { TouchesOnly (view self.old) (view self.new) (Some name.now) }

        ensures is_open { OnOk result ((view self.new).name ≡ Some name.now) }
        ensures none_taken { OnOk result ((view self.new).taken ≡ 0) }
        ensures whole { OnOk result (Opens ((view self.old).files name.now) (view self.new).rest) }

        ensures failed { IsErrOf result OpenError.Failed → Rose ((view self.old).faults name.now) ((view self.new).faults name.now) }
        ensures none_open { IsErrOf result OpenError.Failed → (view self.new).name ≡ None }
        ensures no_memory { IsErrOf result OpenError.NoMemory → IsSame (view self.old) (view self.new) };

    /// Moves bytes from the front of the open file's rest to the front of `buf`, and answers how many.
    ///
    /// # Errors
    /// `Failed` where the device refused, which is counted under the open name; nothing is then taken.
    fn read(&mut self, buf: &mut [u8]) -> Result<usize, Failed>
        requires is_open { IsSome (view self.old).name }
        requires room { 0 < length buf.old }
        ensures bound { ReadsAtMost result buf.new }
        ensures bytes { MatchResult result (λ n. Takes (view self.old) (view self.new) (take n buf.new)) (λ _. Takes (view self.old) (view self.new) []) }
        ensures at_end { result ≡ Ok 0 → IsAtEnd (view self.new).rest }
        ensures failed { OnErr result (Rose (open_faults (view self.old)) (open_faults (view self.new))) }
        ensures rest_kept { OnErr result ((view self.new).rest ≡ (view self.old).rest) }
        ensures taken_kept { OnErr result ((view self.new).taken ≡ (view self.old).taken) };
}

/// How many bytes `read_all` asks for at a time.
const PIECE: usize = 4096;

/// Reads the whole rest of the open file, which is at most `limit` bytes long.
///
/// # Errors
/// `ReadFault` where a read failed, `TooLong` where the rest is longer than `limit`. After any error the file is still
/// open, and a front of its rest is taken.
pub fn read_all<H: Shelf>(alloc: Global, shelf: &mut H, limit: usize) -> Result<Vec<u8>, ReadError>
    requires is_open { IsSome (H.view shelf.old).name }
    requires limited { limit < usize.MAX }
    ensures ok { IfOk result (λ all. Takes (H.view shelf.old) (H.view shelf.new) all.items) }
    ensures whole { IfOk result (λ all. ForSome (H.view shelf.old).rest (λ rest. all.items ≡ rest)) }
    ensures fits { IfOk result (λ all. length all.items ≤ limit) }
    ensures at_end { OnOk result (IsAtEnd (H.view shelf.new).rest) }

    ensures err { OnErr result (TakesSome (H.view shelf.old) (H.view shelf.new)) }
    ensures too_long { IsErrOf result ReadError.TooLong → TakesMore (H.view shelf.old) (H.view shelf.new) limit }
    ensures rest_too_long { IsErrOf result ReadError.TooLong → ForSome (H.view shelf.old).rest (λ rest. limit < length rest) }
    ensures too_many { IsErrOf result ReadError.TooLong → counted (H.view shelf.old).taken (limit + 1) ≤ (H.view shelf.new).taken }
    ensures failed { IsErrOf result ReadError.ReadFault → Rose (open_faults (H.view shelf.old)) (open_faults (H.view shelf.new)) }
{
    let mut all = Vec::new(alloc);
    let mut piece = [0u8; PIECE];
    'read: loop {
        let Ok(count) = shelf.read(&mut piece) else {
            return Err(ReadError::ReadFault);
        };
        if count == 0 {
            return Ok(all);
        }
        if count > limit - all.len() {
            return Err(ReadError::TooLong);
        }
        all.extend_from_slice(&piece[..count])?;
    }
}
