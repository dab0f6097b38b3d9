//! Rows of values, read from the lines of a trace.
ghost use Rattle.std.specs.Prelude.{◌≡◌, ◌<◌, ◌≤◌, ◌^◌, false, length, drop, slice_index, slice_range, MatchResult, OnOk, ◌∷◌, Err};
ghost use Rattle.std.specs.List.{prefix_len, position_or_len};
ghost use Rattle.step_objects.specs.Shapes.{FitsShape};
ghost use Rattle.trace_io.specs.RowText.{IsRow, is_blank, row_text, word_at, words_from};

use crate::value_text::word_value;
use step_objects::{Cell, Shape};

/// What is wrong with a line. Places count from 0 in the line.
#[derive(Clone, Copy, Debug, PartialEq, Eq)]
pub enum RowFault {
    /// The line has no more words than these.
    TooFew { kept: u32 },
    /// The first word that no input is left for.
    TooMany { at: u32 },
    /// A word that is no value of its type.
    BadValue { at: u32 },
}

#[tactic(auto, unfolding(crate::specs::RowText::is_blank))]
fn is_blank(byte: u8) -> bool
    ensures { result ≡ is_blank byte }
{
    byte == b' ' || byte == b'\t' || byte == b'\r'
}

// How many blanks stand in front.
fn count_blanks(bytes: &[u8]) -> usize
    ensures { result ≡ prefix_len is_blank bytes.now }
{
    for (i, byte) in bytes.iter().enumerate() {
        if !is_blank(*byte) {
            return i;
        }
    }
    bytes.len()
}

// How many bytes stand in front of the first blank.
fn count_word(bytes: &[u8]) -> usize
    ensures { result ≡ position_or_len is_blank bytes.now }
{
    for (i, byte) in bytes.iter().enumerate() {
        if is_blank(*byte) {
            return i;
        }
    }
    bytes.len()
}

// Where the first word at or after a place begins, or the line's end.
fn word_start(line: &[u8], from: usize) -> usize
    requires within { from ≤ length line.now }
    requires length { length line.now < 2 ^ 32 }
    ensures within { result ≤ length line.now }
    ensures words { words_from result (drop result line.now) ≡ words_from from (drop from line.now) }
    ensures start { result < length line.now → is_blank (slice_index line.now result) ≡ false }
{
    from + count_blanks(&line[from..])
}

// Where the word ends that begins at a place.
fn word_end(line: &[u8], start: usize) -> usize
    requires within { start < length line.now }
    requires start { is_blank (slice_index line.now start) ≡ false }
    requires length { length line.now < 2 ^ 32 }
    ensures within { result ≤ length line.now }
    ensures forward { start < result }
    ensures words { words_from start (drop start line.now) ≡ word_at start (slice_range line.now start result) ∷ words_from result (drop result line.now) }
{
    start + count_word(&line[start..])
}

/// Reads the row that a line spells, a word for each cell. Words are separated by spaces, tabs and
/// carriage returns. The first fault from the left is answered, and `out` may hold a part of the row
/// then.
pub fn read_row(shape: &Shape, line: &[u8], out: &mut [Cell]) -> Result<(), RowFault>
    requires line { length line.now < 2 ^ 32 }
    requires shape { length shape.now < 2 ^ 32 }
    requires out { length out.old ≡ length shape.now }
    ensures row { MatchResult result
        (λ _. IsRow shape.now line.now out.new)
        (λ fault. row_text shape.now line.now ≡ Err fault) }
    ensures fits { OnOk result (FitsShape shape.now out.new) }
{
    let mut at = word_start(line, 0);
    for (kept, values) in shape.cells().iter().enumerate() {
        if at == line.len() {
            return Err(RowFault::TooFew { kept: kept as u32 });
        }
        let end = word_end(line, at);
        match word_value(values, &line[at..end]) {
            None => return Err(RowFault::BadValue { at: at as u32 }),
            Some(value) => out[kept] = Cell::Value(value),
        }
        at = word_start(line, end);
    }
    if at < line.len() {
        return Err(RowFault::TooMany { at: at as u32 });
    }
    Ok(())
}
