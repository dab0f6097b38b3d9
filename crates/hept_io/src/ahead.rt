//! Bytes that were read ahead.
ghost use Rattle.std.specs.Prelude.{◌≡◌, ◌+◌, ◌<◌, ◌≤◌, length, take, drop, slice_index, MatchOption, IfOk, OnErr, vec_len};
ghost use Rattle.std.specs.Io.KnownBytes.{Consumes, IsAtEnd, Keeps};
ghost use Rattle.hept_io.specs.Lines.{HasNoNewline};
ghost use Rattle.hept_io.specs.Outside.{Rose};

use crate::lines::LineFault;
use crate::outside::{Failed, Source};
use std::alloc::{AllocError, Global};

/// How many bytes may be read ahead.
const CAPACITY: usize = 65_536;

/// Bytes that were read and not yet given: `buf[start..end]`.
#[derive(Drop)]
pub(crate) struct Ahead {
    buf: Vec<u8>,
    start: usize,
    end: usize,
    ghost ordered: { start ≤ end },
    ghost in_bounds: { end ≤ vec_len buf },
    ghost whole: { vec_len buf ≡ 65536 },
}

/// Where a line lies in the buffer.
pub(crate) struct Line {
    from: usize,
    to: usize,
}

impl Ahead {
    ghost use Rattle.std.specs.Prelude.{◌≡◌, ◌+◌, ◌-◌, ◌<◌, ◌≤◌, ◌↔◌, [], ◌∷◌, ◌++◌, length, take, slice_index, slice_range, true, false, None, IfSome, Ok, Err, IfOk, OnErr, OnOk, IsTrue};
    ghost use Rattle.std.specs.Io.KnownBytes.{IsAtEnd, Keeps};
    ghost use Rattle.hept_io.specs.Lines.{HasNoNewline, IsLine};
    ghost use Rattle.hept_io.specs.Outside.{Rose};
    ghost use Rattle.hept_io.specs.Unread.{Came, TakesLine, unread};

    pub(crate) fn new(alloc: Global) -> Result<Ahead, AllocError>
        ensures { IfOk result (λ a. unread a ≡ []) }
    {
        let buf = vec![in alloc; 0; CAPACITY]?;
        Ok(Ahead {
            buf,
            start: 0,
            end: 0,
        })
    }

    pub(crate) fn bytes(&self) -> &[u8]
        ensures value { result.now ≡ unread self.now }
        ensures len { length result.now ≡ self.now.end - self.now.start }
    {
        let (start, end) = (self.start, self.end);
        let all = self.buf.as_slice();
        &all[start..end]
    }

    /// Puts the bytes to the front of the buffer.
    fn move_to_front(&mut self)
        ensures unread { unread self.new ≡ unread self.old }
        ensures start { self.new.start ≡ 0 }
        ensures end { self.new.end ≡ self.old.end - self.old.start }
    {
        self.buf.copy_within(self.start..self.end, 0);
        self.end -= self.start;
        self.start = 0;
    }

    /// Makes room behind the bytes, where there are fewer than the buffer has room for.
    fn make_room(&mut self)
        ensures unread { unread self.new ≡ unread self.old }
        ensures len { self.new.end - self.new.start ≡ self.old.end - self.old.start }
        ensures room { self.old.end - self.old.start < 65536 → self.new.end < 65536 }
    {
        if self.end == CAPACITY {
            self.move_to_front();
        }
    }

    /// Reads once behind the bytes, and answers how many came.
    fn read_more<S: Source>(&mut self, source: &mut S) -> Result<usize, Failed>
        requires { self.old.end < 65536 }
        ensures came { IfOk result (λ n.
            Came (unread self.old) (unread self.new) (S.left source.old) (S.left source.new)) }
        ensures more { IfOk result (λ n. self.new.end - self.new.start ≡ self.old.end - self.old.start + n) }
        ensures end { IfOk result (λ n. n ≡ 0 → IsAtEnd (S.left source.new)) }
        ensures none_came { OnErr result (unread self.new ≡ unread self.old) }
        ensures none_taken { OnErr result (Keeps (S.left source.old) (S.left source.new)) }
        ensures cause { OnErr result (Rose (S.faults source.old) (S.faults source.new)) }
        ensures count { S.faults source.old ≤ S.faults source.new }
    {
        let n = read_at(source, &mut self.buf, self.end)?;
        self.end += n;
        Ok(n)
    }

    /// Reads once, where there is room, and answers whether bytes came.
    fn fill<S: Source>(&mut self, source: &mut S) -> Result<bool, LineFault>
        ensures came { Came (unread self.old) (unread self.new) (S.left source.old) (S.left source.new) }
        ensures room { OnOk result (length (unread self.old) < 65536) }
        ensures grown { result ≡ Ok true → length (unread self.old) < length (unread self.new) }
        ensures end { result ≡ Ok false → (unread self.new ≡ unread self.old) × IsAtEnd (S.left source.new) }
        ensures none_came { OnErr result (unread self.new ≡ unread self.old) }
        ensures failed { result ≡ Err LineFault.Failed
            → (length (unread self.old) < 65536) × Rose (S.faults source.old) (S.faults source.new) }
        ensures too_long { result ≡ Err LineFault.TooLong → length (unread self.old) ≡ 65536 }
        ensures count { S.faults source.old ≤ S.faults source.new }
    {
        if self.end - self.start == CAPACITY {
            return Err(LineFault::TooLong);
        }
        self.make_room();
        match self.read_more(source) {
            Ok(n) => Ok(n > 0),
            Err(Failed) => Err(LineFault::Failed),
        }
    }

    /// Reads until a newline came, and answers its place; none where the source ended before one.
    fn find_newline<S: Source>(&mut self, source: &mut S) -> Result<Option<usize>, LineFault>
        ensures came { Came (unread self.old) (unread self.new) (S.left source.old) (S.left source.new) }
        ensures found { IfOk result (λ o. IfSome o (λ at. (self.new.start + at < self.new.end)
            × HasNoNewline (take at (unread self.new)) × (slice_index (unread self.new) at ≡ 10))) }
        ensures end { result ≡ Ok None
            → HasNoNewline (unread self.new) × (length (unread self.new) < 65536) × IsAtEnd (S.left source.new) }
        ensures refused { OnErr result (HasNoNewline (unread self.new)) }
        ensures failed { result ≡ Err LineFault.Failed
            → (length (unread self.new) < 65536) × Rose (S.faults source.old) (S.faults source.new) }
        ensures too_long { result ≡ Err LineFault.TooLong → length (unread self.new) ≡ 65536 }
        ensures count { S.faults source.old ≤ S.faults source.new }
    {
        let mut searched = 0;
        'reading: loop {
            let bytes = self.bytes();
            if let Some(at) = newline_from(bytes, searched) {
                return Ok(Some(at));
            }
            searched = bytes.len();
            if !self.fill(source)? {
                return Ok(None);
            }
        }
    }

    /// Takes the bytes before a newline, and the newline.
    fn take_line(&mut self, at: usize) -> Line
        requires within { self.old.start + at < self.old.end }
        requires newline { slice_index (unread self.old) at ≡ 10 }
        ensures line { slice_range self.new.buf.items result.from result.to ≡ take at (unread self.old) }
        ensures cut { unread self.old ≡ take at (unread self.old) ++ 10 ∷ unread self.new }
        ensures within { (result.from ≤ result.to) × (result.to ≤ 65536) × (result.to ≡ result.from + at) }
    {
        let from = self.start;
        let to = from + at;
        self.start = to + 1;
        Line { from, to }
    }

    /// Takes all bytes.
    fn take_rest(&mut self) -> Line
        ensures line { slice_range self.new.buf.items result.from result.to ≡ unread self.old }
        ensures none_left { unread self.new ≡ [] }
        ensures within { (result.from ≤ result.to) × (result.to ≤ 65536) }
    {
        let from = self.start;
        let to = self.end;
        self.start = to;
        Line { from, to }
    }

    fn is_empty(&self) -> bool
        ensures { IsTrue result ↔ (unread self.now ≡ []) }
    {
        self.bytes().is_empty()
    }

    pub(crate) fn part(&self, line: Line) -> &[u8]
        requires { (line.from ≤ line.to) × (line.to ≤ 65536) }
        ensures { result.now ≡ slice_range self.now.buf.items line.from line.to }
    {
        let Line { from, to } = line;
        let all = self.buf.as_slice();
        &all[from..to]
    }

    /// Takes the next line.
    pub(crate) fn next_line<S: Source>(&mut self, source: &mut S) -> Result<Option<Line>, LineFault>
        ensures within { IfOk result (λ o. IfSome o (λ line. (line.from ≤ line.to) × (line.to ≤ 65536))) }
        ensures line { IfOk result (λ o. IfSome o (λ line.
            IsLine (slice_range self.new.buf.items line.from line.to)
            × TakesLine (unread self.old) (S.left source.old)
            (slice_range self.new.buf.items line.from line.to) (unread self.new) (S.left source.new))) }
        ensures end { result ≡ Ok None → Came (unread self.old) [] (S.left source.old) (S.left source.new)
            × IsAtEnd (S.left source.new) }
        ensures refused { OnErr result (
            Came (unread self.old) (unread self.new) (S.left source.old) (S.left source.new)
            × HasNoNewline (unread self.new)) }
        ensures failed { result ≡ Err LineFault.Failed
            → (length (unread self.new) < 65536) × Rose (S.faults source.old) (S.faults source.new) }
        ensures too_long { result ≡ Err LineFault.TooLong → length (unread self.new) ≡ 65536 }
        ensures count { S.faults source.old ≤ S.faults source.new }
    {
        match self.find_newline(source)? {
            Some(at) => Ok(Some(self.take_line(at))),
            None if self.is_empty() => Ok(None),
            None => Ok(Some(self.take_rest())),
        }
    }
}

/// Reads into the part of the buffer from a place on.
fn read_at<S: Source>(source: &mut S, buf: &mut Vec<u8>, at: usize) -> Result<usize, Failed>
    requires { at < vec_len buf.old }
    ensures len { vec_len buf.new ≡ vec_len buf.old }
    ensures front { take at buf.new.items ≡ take at buf.old.items }
    ensures fits { IfOk result (λ n. at + n ≤ vec_len buf.new) }
    ensures taken { IfOk result (λ n.
        Consumes (S.left source.old) (S.left source.new) (take n (drop at buf.new.items))) }
    ensures end { IfOk result (λ n. n ≡ 0 → IsAtEnd (S.left source.new)) }
    ensures none_taken { OnErr result (Keeps (S.left source.old) (S.left source.new)) }
    ensures cause { OnErr result (Rose (S.faults source.old) (S.faults source.new)) }
    ensures count { S.faults source.old ≤ S.faults source.new }
{
    read_behind(source, buf.as_mut_slice(), at)
}

fn read_behind<S: Source>(source: &mut S, buf: &mut [u8], at: usize) -> Result<usize, Failed>
    requires { at < length buf.old }
    ensures front { take at buf.new ≡ take at buf.old }
    ensures fits { IfOk result (λ n. at + n ≤ length buf.new) }
    ensures taken { IfOk result (λ n.
        Consumes (S.left source.old) (S.left source.new) (take n (drop at buf.new))) }
    ensures end { IfOk result (λ n. n ≡ 0 → IsAtEnd (S.left source.new)) }
    ensures none_taken { OnErr result (Keeps (S.left source.old) (S.left source.new)) }
    ensures cause { OnErr result (Rose (S.faults source.old) (S.faults source.new)) }
    ensures count { S.faults source.old ≤ S.faults source.new }
{
    source.read(&mut buf[at..])
}

/// The place of the first newline.
fn newline(bytes: &[u8]) -> Option<usize>
    ensures { MatchOption result (HasNoNewline bytes.now)
        (λ at. (at < length bytes.now) × HasNoNewline (take at bytes.now) × (slice_index bytes.now at ≡ 10)) }
{
    bytes.iter().position(|b| *b == b'\n')
}

/// The place of the first newline, where there is none in the first `searched` bytes.
fn newline_from(bytes: &[u8], searched: usize) -> Option<usize>
    requires within { searched ≤ length bytes.now }
    requires searched { HasNoNewline (take searched bytes.now) }
    ensures { MatchOption result (HasNoNewline bytes.now)
        (λ at. (at < length bytes.now) × HasNoNewline (take at bytes.now) × (slice_index bytes.now at ≡ 10)) }
{
    let at = newline(&bytes[searched..])?;
    Some(searched + at)
}
