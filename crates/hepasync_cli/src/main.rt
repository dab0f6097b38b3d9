//! Runs a program of a file over the trace on standard input, and writes its outputs to standard output.
#![tactic(auto)]

use hepasync_top::run;
use hept_io::{DiskStore, OpenGate, StdSink, StdSource};
use std::env;
use std::io::ErrorKind;
use std::process::ExitCode;
use std::rt::Env;

/// The status where the words are not to be had for want of memory.
const NO_MEMORY: u8 = 8;
/// The status at a word that isn't UTF-8.
const USAGE: u8 = 2;

/// The words after the program's name, or the status to end with.
fn words<R: Env + AllocGlobal>(rt: &R) -> Result<Vec<String>, u8> {
    match env::args(rt) {
        Ok(args) => args.skip(1).collect(rt.alloc()).map_err(|_| NO_MEMORY),
        Err(error) if error.kind() == ErrorKind::OutOfMemory => Err(NO_MEMORY),
        Err(_) => Err(USAGE),
    }
}

fn main(rt: HostRuntime) -> ExitCode {
    let words = match words(&rt) {
        Ok(words) => words,
        Err(status) => return ExitCode::from(status),
    };
    let mut files = DiskStore::new(&rt);
    let mut trace = StdSource::new(rt.stdin());
    let mut out = StdSink::new(rt.stdout());
    let mut err = StdSink::new(rt.stderr());
    let end = run(
        &rt,
        rt.alloc(),
        words.as_slice(),
        &mut files,
        &mut trace,
        &mut out,
        &mut err,
        &OpenGate,
    );
    ExitCode::from(end.status)
}
