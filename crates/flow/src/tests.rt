//! Runs over real files, with what they told kept in memory.

use flow_base::{MemSink, RealShelf};
use flow_program::run;
use parallel_sampler::OpenGate;
use std::test::Fail;
use std::thread::Threads;

/// Runs `sample` on the file of this name, and fails where it tells anything but this, with nothing on out.
fn expect<R: Threads + Sync>(
    threads: &R,
    rt: HostRuntime,
    name: &str,
    status: u8,
    text: &str,
) -> Result<(), Fail> {
    let alloc = rt.alloc();
    let mut words = Vec::new(alloc);
    words.push(String::from_str(alloc, "sample")?)?;
    words.push(String::from_str(alloc, name)?)?;
    let mut out = MemSink::new(alloc, 4096, Vec::new(alloc))?;
    let mut err = MemSink::new(alloc, 4096, Vec::new(alloc))?;
    let mut shelf = RealShelf::new(rt, alloc);
    let end = run(
        threads, alloc, &words, &mut shelf, &mut out, &mut err, &OpenGate,
    );
    if end.code() != status || !out.held().is_empty() || err.held() != text.as_bytes() {
        return Err(Fail::from("the run told something else"));
    }
    Ok(())
}

#[test]
fn an_empty_file_has_a_bad_line(rt: HostRuntime) -> Result<(), Fail> {
    expect(&rt, rt, "/dev/null", 3, "flow: line 1: syntax\n")
}

#[test]
fn a_file_without_an_end_is_too_long(rt: HostRuntime) -> Result<(), Fail> {
    expect(&rt, rt, "/dev/zero", 3, "flow: file too long\n")
}

#[test]
fn a_missing_file_is_a_read_fault(rt: HostRuntime) -> Result<(), Fail> {
    expect(&rt, rt, "/dev/null/missing", 6, "flow: read fault\n")
}

#[test]
fn a_folder_is_a_read_fault(rt: HostRuntime) -> Result<(), Fail> {
    expect(&rt, rt, "/dev", 6, "flow: read fault\n")
}
