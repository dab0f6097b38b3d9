//! A run over a store that tells no files.
ghost use Rattle.std.specs.Prelude.{◌≡◌, ℕ, List, [], None, IfOk};
ghost use Rattle.hepasync_top.specs.Run.{Written};

use crate::Outcome;
use hepasync_top::{RunEnd, run};
use hept_io::{MemorySink, MemorySource, OpenGate, Store, StoreFault};
use std::alloc::{AllocError, Global};

/// Gives one text, whatever the name, and tells nothing of it.
#[derive(Drop)]
struct SilentStore<'a> {
    text: &'a [u8],
}

impl Store for SilentStore<'_> {
    ghost use Rattle.std.specs.Prelude.{None};

    ghost files = { λ s. None };

    ghost faults = { λ s. 0 };

    fn read_file(&mut self, _name: &str, out: &mut Vec<u8>) -> Result<(), StoreFault> {
        out.clear();
        if self.text.len() > 1_048_576 {
            return Err(StoreFault::TooLarge);
        }
        match out.extend_from_slice(self.text) {
            Ok(()) => Ok(()),
            Err(_) => Err(StoreFault::Memory),
        }
    }
}

/// A run of a text over a trace, where the store tells no files. At the end of the trace the output is
/// still that of a program: the one that some text spells which the store gave.
pub fn silent_outcome(alloc: Global, text: &[u8], trace: &[u8]) -> Result<Outcome, AllocError>
    ensures { IfOk result (λ outcome. outcome.status ≡ 0 → (words : List (List ℕ)) × Written None words trace.now [] outcome.output.items) }
{
    let mut words = Vec::new(alloc);
    words.push(String::from_str(alloc, "a.ept")?)?;
    let mut store = SilentStore { text };
    let mut source = MemorySource::new(trace.to_vec(alloc)?, 9, Vec::new(alloc));
    let mut out = MemorySink::new(alloc, 9, Vec::new(alloc));
    let mut err = MemorySink::new(alloc, 9, Vec::new(alloc));
    if out.reserve(1_000).is_err() || err.reserve(1_000).is_err() {
        return Err(AllocError);
    }
    let RunEnd { status } = run(
        &(),
        alloc,
        words.as_slice(),
        &mut store,
        &mut source,
        &mut out,
        &mut err,
        &OpenGate,
    );
    Ok(Outcome {
        status,
        output: out.bytes().to_vec(alloc)?,
        line: err.bytes().to_vec(alloc)?,
    })
}
