//! A run over devices in memory.
ghost use Rattle.std.specs.Prelude.{◌≤◌, IfOk};

use hepasync_top::{RunEnd, run};
use hept_io::{MemorySink, MemorySource, MemoryStore, OpenGate};
use std::alloc::{AllocError, Global};
use std::collections::BTreeMap;

/// Which calls of each object fail, counted from 1.
#[derive(Clone, Copy)]
pub struct Failing<'a> {
    pub files: &'a [u64],
    pub trace: &'a [u64],
    pub out: &'a [u64],
    pub err: &'a [u64],
}

/// No call fails.
pub const NONE: Failing<'static> = Failing {
    files: &[],
    trace: &[],
    out: &[],
    err: &[],
};

/// What a run came to: its status, the output, and the line on standard error.
#[derive(Drop)]
pub struct Outcome {
    pub status: u8,
    pub output: Vec<u8>,
    pub line: Vec<u8>,
}

/// A run of these words over a store that has the text under `a.ept`, or nothing where there is no
/// text. Each read and write moves at most `chunk` bytes.
pub fn outcome_of(
    alloc: Global,
    words: &[&str],
    text: Option<&[u8]>,
    trace: &[u8],
    chunk: usize,
    failing: Failing,
) -> Result<Outcome, AllocError>
    requires { 1 ≤ chunk }
    ensures { IfOk result (λ outcome. outcome.status ≤ 8) }
{
    let mut files = BTreeMap::new(alloc);
    if let Some(text) = text {
        files.insert(String::from_str(alloc, "a.ept")?, text.to_vec(alloc)?)?;
    }
    let mut all = Vec::new(alloc);
    for word in words {
        all.push(String::from_str(alloc, *word)?)?;
    }
    let mut store = MemoryStore::new(files, failing.files.to_vec(alloc)?);
    let mut source = MemorySource::new(trace.to_vec(alloc)?, chunk, failing.trace.to_vec(alloc)?);
    let mut out = MemorySink::new(alloc, chunk, failing.out.to_vec(alloc)?);
    let mut err = MemorySink::new(alloc, chunk, failing.err.to_vec(alloc)?);
    if out.reserve(1_000).is_err() || err.reserve(1_000).is_err() {
        return Err(AllocError);
    }
    let RunEnd { status } = run(
        &(),
        alloc,
        all.as_slice(),
        &mut store,
        &mut source,
        &mut out,
        &mut err,
        &OpenGate,
    );
    Ok(Outcome {
        status,
        output: out.bytes().to_vec(alloc)?,
        line: err.bytes().to_vec(alloc)?,
    })
}
