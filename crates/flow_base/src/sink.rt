ghost use Rattle.std.specs.Prelude.{◌≡◌, ℕ, ◌<◌, [], length, take, MatchResult, OnErr, OnOk};
ghost use Rattle.std.specs.Io.{WritesAtMost};
ghost use Rattle.flow_base.specs.Counts.{Rose};
ghost use Rattle.flow_base.specs.Sink.{SinkView, Adds, AddsFront};

use crate::shelf::Failed;
use thiserror::Error;

/// A sink that refused a byte or made no progress.
#[derive(Clone, Copy, Debug, PartialEq, Eq, Error)]
#[error("write fault")]
pub struct WriteFault;

/// What takes bytes. Each fault is counted; the count stays at `u64::MAX` once it is there.
pub trait Sink {
    ghost view: { Self → SinkView };

    /// Appends bytes from the front of `piece`, and answers how many.
    ///
    /// # Errors
    /// `Failed` where the device refused, which is counted; nothing is then appended.
    fn write(&mut self, piece: &[u8]) -> Result<usize, Failed>
        ensures bound { WritesAtMost result piece.now }
        ensures bytes { MatchResult result (λ n. Adds (view self.old) (view self.new) (take n piece.now)) (λ _. Adds (view self.old) (view self.new) []) }
        ensures none_taken { result ≡ Ok 0 → 0 < length piece.now → Rose (view self.old).faults (view self.new).faults }
        ensures failed { OnErr result (Rose (view self.old).faults (view self.new).faults) };
}

/// Appends all of `bytes`, offering at each write all that is not yet appended.
///
/// # Errors
/// `WriteFault` where a write failed or made no progress; a front of `bytes` is then appended.
pub fn write_all_of<S: Sink>(sink: &mut S, bytes: &[u8]) -> Result<(), WriteFault>
    ensures ok { OnOk result (Adds (S.view sink.old) (S.view sink.new) bytes.now) }
    ensures err { OnErr result (AddsFront (S.view sink.old) (S.view sink.new) bytes.now) }
    ensures failed { OnErr result (Rose (S.view sink.old).faults (S.view sink.new).faults) }
{
    let mut done = 0;
    'write: while done < bytes.len() {
        match sink.write(&bytes[done..]) {
            Ok(0) | Err(_) => return Err(WriteFault),
            Ok(count) => done += count,
        }
    }
    Ok(())
}
