//! Rows of output values, written to a sink.
ghost use Rattle.std.specs.Prelude.{◌≡◌, ◌+◌, ◌<◌, ◌≤◌, length, IfOk, IfSome, OnOk, OnErr, vec_capacity, vec_len, ◌++◌, if◌then◌else◌, [], ◌∷◌};
ghost use Rattle.std.specs.Io.KnownBytes.{Appends};
ghost use Rattle.hept_io.specs.Outside.{Rose};
ghost use Rattle.step_objects.specs.Shapes.{FitsShape, value_count};
ghost use Rattle.step_cells.specs.Cells.{row_of};
ghost use Rattle.trace_io.specs.OutputText.{AppendsPart, longest, row_line, value_text, widest, widest_row};

use hept_ast::{Memory, Name};
use hept_io::{Failed, Sink};
use itoa::Buffer;
use std::alloc::Global;
use std::marker::Model;
use step_objects::{Cell, Shape, Values};

/// Writes rows.
#[derive(Drop)]
pub struct RowWriter {
    text: Vec<u8>,
}

/// Contracts see the most bytes that a row may have.
impl Model for RowWriter {
    ghost use Rattle.std.specs.Prelude.{ℕ, vec_capacity};

    ghost Value = { ℕ };

    ghost view = { λ w. vec_capacity w.text };
}

impl RowWriter {
    pub fn new(alloc: Global, shape: &Shape) -> Result<RowWriter, Memory>
        ensures { IfOk result (λ writer. widest_row shape.now ≤ writer) }
    {
        let Some(room) = widest_row(shape.cells()) else {
            return Err(Memory);
        };
        match Vec::with_capacity(alloc, room) {
            Ok(text) => Ok(RowWriter { text }),
            Err(_) => Err(Memory),
        }
    }

    /// Writes the text of a row, or a part of it where the sink fails. The shape is the one that the
    /// writer was made for.
    pub fn row<K: Sink>(
        &mut self,
        shape: &Shape,
        cells: &[Cell],
        sink: &mut K,
    ) -> Result<(), Failed>
        requires room { widest_row shape.now ≤ self.old }
        requires fits { FitsShape shape.now cells.now }
        ensures room { self.old ≤ self.new }
        ensures written { OnOk result (Appends (K.held sink.old) (K.held sink.new) (row_line shape.now (row_of cells.now))) }
        ensures part { OnErr result (AppendsPart (K.held sink.old) (K.held sink.new) (row_line shape.now (row_of cells.now))) }
        ensures cause { OnErr result (Rose (K.faults sink.old) (K.faults sink.new)) }
        ensures count { K.faults sink.old ≤ K.faults sink.new }
    {
        put_row(&mut self.text, shape.cells(), cells);
        write_whole(self.text.as_slice(), sink)
    }
}

/// How long the longest of the names is.
fn longest(names: &[Name]) -> usize
    ensures { result ≡ longest names.now }
{
    let mut most = 0;
    for name in names {
        most = most.max(name.bytes().len());
    }
    most
}

fn widest(values: &Values) -> usize
    ensures { result ≡ widest values.now }
{
    match values {
        Values::Numbers => 11,
        Values::Truths => 5,
        Values::Constructors(names) => longest(names.as_slice()),
    }
}

/// The most bytes of a row; none where a `usize` is too small for their number.
fn widest_row(shape: &[Values]) -> Option<usize>
    ensures { IfSome result (λ room. room ≡ widest_row shape.now) }
{
    let mut room: usize = 1;
    for values in shape {
        room = room.checked_add(widest(values))?.checked_add(1)?;
    }
    Some(room)
}

/// Puts the text of a row in place of what the buffer holds.
fn put_row(text: &mut Vec<u8>, shape: &[Values], cells: &[Cell])
    requires room { widest_row shape.now ≤ vec_capacity text.old }
    requires fits { FitsShape shape.now cells.now }
    ensures text { text.new.items ≡ row_line shape.now (row_of cells.now) }
    ensures capacity { vec_capacity text.old ≤ vec_capacity text.new }
{
    text.clear();
    for (k, values) in shape.iter().enumerate() {
        put_value(text, k == 0, values, cells[k].value());
    }
    text.push(b'\n').unwrap();
}

/// Puts the text of a value behind what the buffer holds, and a space before it unless it is the first.
fn put_value(text: &mut Vec<u8>, first: bool, values: &Values, value: u32)
    requires room { vec_len text.old + widest values.now + 1 ≤ vec_capacity text.old }
    requires value { value < value_count values.now }
    ensures text { text.new.items ≡ text.old.items ++ (if first then [] else 32 ∷ []) ++ value_text values.now value }
    ensures len { vec_len text.new + (if first then 1 else 0) ≤ vec_len text.old + widest values.now + 1 }
    ensures capacity { vec_capacity text.old ≤ vec_capacity text.new }
{
    match values {
        Values::Numbers => put_text(
            text,
            first,
            Buffer::new().format(value.cast_signed()).as_bytes(),
        ),
        Values::Truths => put_truth(text, first, value),
        Values::Constructors(names) => {
            put_text(text, first, names.as_slice()[value as usize].bytes());
        }
    }
}

fn put_truth(text: &mut Vec<u8>, first: bool, value: u32)
    requires room { vec_len text.old + 6 ≤ vec_capacity text.old }
    ensures text { text.new.items ≡ text.old.items ++ (if first then [] else 32 ∷ []) ++ value_text Values.Truths value }
    ensures len { vec_len text.new + (if first then 1 else 0) ≤ vec_len text.old + 6 }
    ensures capacity { vec_capacity text.old ≤ vec_capacity text.new }
{
    if value == 0 {
        put_text(text, first, b"false");
    } else {
        put_text(text, first, b"true");
    }
}

/// Puts a text behind what the buffer holds, and a space before it unless it is the first.
fn put_text(text: &mut Vec<u8>, first: bool, piece: &[u8])
    requires room { vec_len text.old + length piece.now + 1 ≤ vec_capacity text.old }
    ensures text { text.new.items ≡ text.old.items ++ (if first then [] else 32 ∷ []) ++ piece.now }
    ensures len { vec_len text.new + (if first then 1 else 0) ≤ vec_len text.old + length piece.now + 1 }
    ensures capacity { vec_capacity text.old ≤ vec_capacity text.new }
{
    if !first {
        text.push(b' ').unwrap();
    }
    text.extend_from_slice(piece).unwrap();
}

/// Hands the bytes to the sink, and what is left of them until all is taken.
pub fn write_whole<K: Sink>(piece: &[u8], sink: &mut K) -> Result<(), Failed>
    ensures written { OnOk result (Appends (K.held sink.old) (K.held sink.new) piece.now) }
    ensures part { OnErr result (AppendsPart (K.held sink.old) (K.held sink.new) piece.now) }
    ensures cause { OnErr result (Rose (K.faults sink.old) (K.faults sink.new)) }
    ensures count { K.faults sink.old ≤ K.faults sink.new }
{
    let mut done = 0;
    while done < piece.len() {
        done += sink.write(&piece[done..])?;
    }
    Ok(())
}
