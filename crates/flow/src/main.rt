//! `flow`: runs on the words after its name, over real files and the standard streams.
#![tactic(auto)]

use flow_base::{RealShelf, RealSink};
use flow_program::{refuse, run, words_of};
use parallel_sampler::OpenGate;
use std::process::ExitCode;

#[cfg(test)]
mod tests;

fn main(rt: HostRuntime) -> ExitCode {
    let alloc = rt.alloc();
    let mut out = RealSink::out(&rt);
    let mut err = RealSink::err(&rt);
    let status = match words_of(alloc, &rt) {
        Ok(words) => {
            let mut shelf = RealShelf::new(rt, alloc);
            run(
                &rt, alloc, &words, &mut shelf, &mut out, &mut err, &OpenGate,
            )
        }
        Err(error) => refuse(alloc, error, &mut err),
    };
    ExitCode::from(status.code())
}
