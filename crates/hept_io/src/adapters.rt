//! The streams and files of the system. They tell nothing of what they hold.
ghost use Rattle.std.specs.Prelude.{◌≡◌};

use crate::outside::{FILE_LIMIT, Failed, Sink, Source, Store, StoreFault};
use std::fs;
use std::io::{self, ErrorKind, Read, Write};
use std::rt::Files;

/// Reads from a stream, as standard input.
#[derive(Drop)]
pub struct StdSource<R> {
    input: R,
    faults: u64,
}

impl<R: Read> StdSource<R> {
    pub fn new(input: R) -> StdSource<R>
        ensures { ⟦<StdSource<R> as Source>⟧.faults result ≡ 0 }
    {
        StdSource { input, faults: 0 }
    }
}

impl<R: Read> Source for StdSource<R> {
    ghost use Rattle.std.specs.Prelude.{None};

    ghost left = { λ s. None };

    ghost faults = { λ s. s.faults };

    fn read(&mut self, buf: &mut [u8]) -> Result<usize, Failed> {
        match self.input.read(buf) {
            Ok(n) => Ok(n),
            Err(_) => {
                self.faults = self.faults.saturating_add(1);
                Err(Failed)
            }
        }
    }
}

/// Writes to a stream, as standard output.
#[derive(Drop)]
pub struct StdSink<W> {
    output: W,
    faults: u64,
}

impl<W: Write> StdSink<W> {
    pub fn new(output: W) -> StdSink<W>
        ensures { ⟦<StdSink<W> as Sink>⟧.faults result ≡ 0 }
    {
        StdSink { output, faults: 0 }
    }
}

impl<W: Write> Sink for StdSink<W> {
    ghost use Rattle.std.specs.Prelude.{None};

    ghost held = { λ s. None };

    ghost faults = { λ s. s.faults };

    fn write(&mut self, piece: &[u8]) -> Result<usize, Failed> {
        match self.output.write(piece) {
            Ok(n) if n > 0 || piece.is_empty() => Ok(n),
            _ => {
                self.faults = self.faults.saturating_add(1);
                Err(Failed)
            }
        }
    }
}

/// Reads files of the system. An absent file is a failure.
#[derive(Drop)]
pub struct DiskStore<R> {
    rt: R,
    faults: u64,
}

impl<R: Files> DiskStore<R> {
    pub fn new(rt: R) -> DiskStore<R>
        ensures { ⟦<DiskStore<R> as Store>⟧.faults result ≡ 0 }
    {
        DiskStore { rt, faults: 0 }
    }
}

impl<R: Files> Store for DiskStore<R> {
    ghost use Rattle.std.specs.Prelude.{None};

    ghost files = { λ s. None };

    ghost faults = { λ s. s.faults };

    fn read_file(&mut self, name: &str, out: &mut Vec<u8>) -> Result<(), StoreFault> {
        let read = read_up_to_limit(&self.rt, name, out);
        if read.is_ok() && out.len() <= FILE_LIMIT {
            return Ok(());
        }
        out.clear();
        match read {
            Ok(()) => Err(StoreFault::TooLarge),
            Err(e) if e.kind() == ErrorKind::OutOfMemory => Err(StoreFault::Memory),
            Err(_) => {
                self.faults = self.faults.saturating_add(1);
                Err(StoreFault::Failed)
            }
        }
    }
}

/// Reads a file whole, or one byte more than a file may have.
fn read_up_to_limit<R: Files>(rt: &R, name: &str, out: &mut Vec<u8>) -> io::Result<()> {
    out.clear();
    let file = fs::open(rt, name)?;
    file.take(FILE_LIMIT as u64 + 1).read_to_end(out)?;
    Ok(())
}
