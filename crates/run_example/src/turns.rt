use crate::expected::DELAYED_SUM;
use hepasync_top::{RunEnd, run};
use hept_io::{Failed, MemorySink, MemoryStore, OpenGate, Sink, Source};
use std::cell::Cell;
use std::collections::BTreeMap;
use std::test::Fail;

/// What a source and a sink of one run share.
#[derive(Drop)]
struct Turns {
    /// How many lines were asked for.
    asked: Cell<u64>,
    /// How many rows were written.
    written: Cell<u64>,
    /// Whether a line was asked for before the row of the line two before it was written.
    early: Cell<bool>,
}

/// Gives a line at each call.
#[derive(Drop)]
struct Lines<'a> {
    turns: &'a Turns,
    left: u64,
}

impl Source for Lines<'_> {
    ghost use Rattle.std.specs.Prelude.{None};

    ghost left = { λ s. None };

    ghost faults = { λ s. 0 };

    fn read(&mut self, buf: &mut [u8]) -> Result<usize, Failed> {
        let line = self.turns.asked.get().saturating_add(1);
        self.turns.asked.set(line);
        if self.turns.written.get().saturating_add(2) < line {
            self.turns.early.set(true);
        }
        if self.left == 0 || buf.len() < 2 {
            return Ok(0);
        }
        self.left -= 1;
        buf[0] = b'1';
        buf[1] = b'\n';
        Ok(2)
    }
}

/// Counts the rows.
#[derive(Drop)]
struct Rows<'a> {
    turns: &'a Turns,
}

impl Sink for Rows<'_> {
    ghost use Rattle.std.specs.Prelude.{None};

    ghost held = { λ s. None };

    ghost faults = { λ s. 0 };

    fn write(&mut self, piece: &[u8]) -> Result<usize, Failed> {
        if let [.., b'\n'] = piece {
            let written = self.turns.written.get().saturating_add(1);
            self.turns.written.set(written);
        }
        Ok(piece.len())
    }
}

// A row is written before the second line after its own is asked for.
#[test]
fn rows_are_written_in_their_turns(rt: HostRuntime) -> Result<(), Fail> {
    let alloc = rt.alloc();
    let mut files = BTreeMap::new(alloc);
    files.insert(
        String::from_str(alloc, "a.ept")?,
        DELAYED_SUM.to_vec(alloc)?,
    )?;
    let mut store = MemoryStore::new(files, Vec::new(alloc));
    let turns = Turns {
        asked: Cell::new(0),
        written: Cell::new(0),
        early: Cell::new(false),
    };
    let mut trace = Lines {
        turns: &turns,
        left: 5,
    };
    let mut out = Rows { turns: &turns };
    let mut err = MemorySink::new(alloc, 9, Vec::new(alloc));
    let mut words = Vec::new(alloc);
    words.push(String::from_str(alloc, "a.ept")?)?;
    let RunEnd { status } = run(
        &(),
        alloc,
        words.as_slice(),
        &mut store,
        &mut trace,
        &mut out,
        &mut err,
        &OpenGate,
    );
    assert_eq!(rt; status, 0);
    assert_eq!(rt; turns.asked.get(), 6);
    assert_eq!(rt; turns.written.get(), 5);
    assert!(rt; !turns.early.get());
    Ok(())
}
