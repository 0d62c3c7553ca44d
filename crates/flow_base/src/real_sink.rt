use crate::shelf::Failed;
use crate::sink::Sink;
use std::io::{Stderr, Stdout, Write};

/// Standard output or standard error. It does not tell what it holds.
#[derive(Drop)]
pub struct RealSink {
    stream: Stream,
    faults: u64,
}

/// Where bytes go.
#[derive(Drop)]
enum Stream {
    Out(Stdout),
    Err(Stderr),
}

impl RealSink {
    ghost use Rattle.std.specs.Prelude.{◌≡◌, None};
    ghost use Rattle.flow_base.specs.RealSink.{real_sink_view};

    /// Standard output.
    pub fn out(rt: &HostRuntime) -> Self
        ensures { real_sink_view result ≡ record { held = None; faults = 0 } }
    {
        RealSink {
            stream: Stream::Out(rt.stdout()),
            faults: 0,
        }
    }

    /// Standard error.
    pub fn err(rt: &HostRuntime) -> Self
        ensures { real_sink_view result ≡ record { held = None; faults = 0 } }
    {
        RealSink {
            stream: Stream::Err(rt.stderr()),
            faults: 0,
        }
    }
}

impl Sink for RealSink {
    ghost use Rattle.std.specs.Prelude.{◌≡◌, ℕ, ◌<◌, [], length, take, MatchResult, OnErr, OnOk};
    ghost use Rattle.std.specs.Io.{WritesAtMost};
    ghost use Rattle.flow_base.specs.Counts.{Rose};
    ghost use Rattle.flow_base.specs.RealSink.{real_sink_view};
    ghost use Rattle.flow_base.specs.Sink.{Adds};

    ghost view = { real_sink_view };

    fn write(&mut self, piece: &[u8]) -> Result<usize, Failed>
        ensures bound { WritesAtMost result piece.now }
        ensures bytes { MatchResult result (λ n. Adds (real_sink_view self.old) (real_sink_view self.new) (take n piece.now)) (λ _. Adds (real_sink_view self.old) (real_sink_view self.new) []) }
        ensures none_taken { result ≡ Ok 0 → 0 < length piece.now → Rose (real_sink_view self.old).faults (real_sink_view self.new).faults }
        ensures failed { OnErr result (Rose (real_sink_view self.old).faults (real_sink_view self.new).faults) }

        ensures no_fault { OnOk result ((real_sink_view self.new).faults ≡ (real_sink_view self.old).faults) }
    {
        let outcome = match &mut self.stream {
            Stream::Out(out) => out.write(piece),
            Stream::Err(err) => err.write(piece),
        };
        match outcome {
            Ok(count) if count > 0 || piece.is_empty() => Ok(count),
            _ => {
                self.faults = self.faults.saturating_add(1);
                Err(Failed)
            }
        }
    }
}
