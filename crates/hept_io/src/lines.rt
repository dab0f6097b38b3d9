//! The lines of a source.
use crate::ahead::Ahead;
use crate::outside::{Memory, Source};
use std::alloc::Global;
use std::marker::Model;

/// Why there is no next line.
#[derive(Clone, Copy, Debug, PartialEq, Eq)]
pub enum LineFault {
    /// The source failed.
    Failed,
    /// 65,536 bytes came with no newline among them.
    TooLong,
}

/// Cuts what a source gives into lines. A line is the bytes up to a newline, which is no part of it;
/// bytes after the last newline, if there are any, are a line. It has at most 65,535 bytes.
#[derive(Drop)]
pub struct LineReader {
    ahead: Ahead,
    spent: bool,
}

impl Model for LineReader {
    ghost use Rattle.hept_io.specs.Lines.{Reading};
    ghost use Rattle.hept_io.specs.Unread.{unread};

    ghost Value = { Reading };

    ghost view = { λ r. record { pending = unread r.ahead; is_spent = r.spent } };
}

impl LineReader {
    ghost use Rattle.std.specs.Prelude.{◌≡◌, ◌≤◌, [], false, IfOk, IfErr, IfSome};
    ghost use Rattle.std.specs.Borrow.{sem};
    ghost use Rattle.std.specs.Io.BufRead.{Rests};
    ghost use Rattle.hept_io.specs.contracts.lines.LineReader.{the_row};
    ghost use Rattle.hept_io.specs.Lines.{IsLine, Moves};
    ghost use Rattle.hept_io.specs.Outside.{Rose};

    pub fn new(alloc: Global) -> Result<LineReader, Memory>
        ensures pending { IfOk result (λ reader. reader.pending ≡ []) }
        ensures goes_on { IfOk result (λ reader. reader.is_spent ≡ false) }
    {
        match Ahead::new(alloc) {
            Ok(ahead) => Ok(LineReader {
                ahead,
                spent: false,
            }),
            Err(_) => Err(Memory),
        }
    }

    /// Whether it came to the end or gave up. It gives no more lines then.
    pub fn spent(&self) -> bool
        ensures { result ≡ self.now.is_spent }
    {
        self.spent
    }

    /// The next line; none at the end.
    pub fn next<S: Source>(&mut self, source: &mut S) -> Result<Option<&[u8]>, LineFault>
        requires { self.old.is_spent ≡ false }
        ensures line { IfOk result (λ o. IfSome o (λ line. IsLine line.now)) }
        ensures failed { IfErr result (λ e. e ≡ LineFault.Failed
            → Rose (S.faults source.old) (S.faults source.new)) }
        ensures count { S.faults source.old ≤ S.faults source.new }
        ensures* moves { sem 𝓛 (Rests the_row self.entry
            (λ new. Moves self.old (S.left source.old) result new (S.left source.new))) }
    {
        self.spent = true;
        match self.ahead.next_line(source)? {
            Some(line) => {
                self.spent = false;
                Ok(Some(self.ahead.part(line)))
            }
            None => Ok(None),
        }
    }
}
