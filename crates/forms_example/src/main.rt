//! Runs the small program of each form of the language on the rows that its last comment tells, and
//! prints what it comes to.
#![tactic(auto)]

use hepasync_top::run;
use hept_io::{DiskStore, MemorySource, OpenGate, StdSink};
use std::alloc::{AllocError, Global};
use std::{env, fs, io, slice};

/// The rows of inputs that the last comment of a text tells before `gives`, a line each.
fn trace_of(alloc: Global, text: &str) -> Result<Vec<u8>, AllocError> {
    let comment = text.rsplit_once("(* ").map_or("", |parts| parts.1);
    let rows = comment.split_once(" gives").map_or("", |parts| parts.0);
    Ok(rows.replace(alloc, " | ", "\n")?.into_bytes())
}

/// Runs the program of a file, and prints its name, the rows or the line that says why there are
/// none, and the status.
fn run_form(rt: &HostRuntime, file: &String) -> io::Result<()> {
    let alloc = rt.alloc();
    let text = fs::read_to_string(rt, file.as_str())?;
    let bytes = trace_of(alloc, text.as_str())?;
    println!(rt; "{file}")?;
    let mut trace = MemorySource::new(bytes, 9, Vec::new(alloc));
    let end = run(
        rt,
        alloc,
        slice::from_ref(file),
        &mut DiskStore::new(rt),
        &mut trace,
        &mut StdSink::new(rt.stdout()),
        &mut StdSink::new(rt.stdout()),
        &OpenGate,
    );
    println!(rt; "status {}\n", end.status)
}

fn main(rt: HostRuntime) -> io::Result<()> {
    for word in env::args(&rt)?.skip(1) {
        run_form(&rt, &word)?;
    }
    Ok(())
}
