//! What is made before the trace is first read, and the turns over it.
ghost use Rattle.std.specs.Prelude.{◌≡◌, ℕ, ◌≤◌, ◌<◌, ◌^◌, false, List, ◌∷◌, ◌++◌, [], Err, OnOk, length};
ghost use Rattle.hept_io.specs.Lines.{to_come};
ghost use Rattle.hept_io.specs.Outside.{Rose};
ghost use Rattle.step_objects.specs.Shapes.{FitsShape};
ghost use Rattle.step_cells.specs.Cells.{row_of};
ghost use Rattle.hepasync_top.specs.Machine.{ReadsRow, EndsHere};

use hept_ast::{Accepted, Memory, meaning_laws};
use hept_io::{LineFault, LineReader, Sink, Source};
use program_stepper::Stepper;
use run_messages::{BadRow, End};
use std::alloc::Global;
use step_objects::{Cell, Shape};
use trace_io::{RowWriter, read_row};

/// All that a run holds while it reads the trace.
#[derive(Drop)]
pub(crate) struct Machine {
    stepper: Stepper,
    reader: LineReader,
    writer: RowWriter,
    inputs: Shape,
    row: Vec<Cell>,
    outputs: Shape,
    values: Vec<Cell>,
}

impl Machine {
    ghost use Rattle.std.specs.Prelude.{◌≡◌, ℕ, ◌≤◌, List, ◌∷◌, ◌++◌, [], Err, OnOk, IfOk};
    ghost use Rattle.hept_ast.specs.Stages.{ClockedProgram};
    ghost use Rattle.accepted_meaning.specs.Ranges.{IsInRange};
    ghost use Rattle.run_checks.specs.Stops.{IsRunnable};
    ghost use Rattle.hept_io.specs.Lines.{to_come};
    ghost use Rattle.hept_io.specs.Outside.{Rose};
    ghost use Rattle.hepasync_top.specs.Machine.{CanTurn, HasDone, Turns};
    ghost use Rattle.hepasync_top.specs.Turns.{RunEnds};

    /// Makes all that takes memory, for a program.
    pub(crate) fn new(alloc: Global, accepted: &Accepted) -> Result<Machine, Memory>
        requires runs { IsRunnable accepted.now.program }
        requires range { IsInRange accepted.now.program }
        ensures can { IfOk result (λ m. CanTurn m) }
        ensures done { IfOk result (λ m. HasDone accepted.now m [] []) }
        ensures pending { IfOk result (λ m. m.reader.pending ≡ []) }
    {
        let stepper = Stepper::new(alloc, accepted)?;
        let program = accepted.program();
        let last = program.nodes.len() - 1;
        let node = &program.nodes.as_slice()[last];
        let inputs = Shape::of(alloc, program, node.inputs.as_slice())?;
        let outputs = Shape::of(alloc, program, node.outputs.as_slice())?;
        let writer = RowWriter::new(alloc, &outputs)?;
        match (
            LineReader::new(alloc),
            vec![in alloc; Cell::Value(0); stepper.inputs()],
            vec![in alloc; Cell::Value(0); stepper.outputs()],
        ) {
            (Ok(reader), Ok(row), Ok(values)) => Ok(Machine {
                stepper,
                reader,
                writer,
                inputs,
                row,
                outputs,
                values,
            }),
            _ => Err(Memory),
        }
    }

    /// Does the instant of the row.
    fn step(&mut self)
        requires can { CanTurn self.old }
        requires row { FitsShape self.old.inputs self.old.row.items }
        ensures can { CanTurn self.new }
        ensures reader { self.new.reader ≡ self.old.reader }
        ensures done { (c : ClockedProgram) (rows outs : List (List ℕ)) → HasDone c self.old rows outs →
            HasDone c self.new (rows ++ row_of self.old.row.items ∷ []) (outs ++ row_of self.new.values.items ∷ []) }
        ensures fits { FitsShape self.new.outputs self.new.values.items }
    {
        self.stepper
            .instant(self.row.as_slice(), self.values.as_mut_slice());
    }

    /// One turn: reads the line of this number, does its row's instant and writes the row of outputs.
    fn turn<S: Source, K: Sink>(&mut self, line: u32, trace: &mut S, out: &mut K) -> Result<(), End>
        requires { CanTurn self.old }
        ensures can { OnOk result (CanTurn self.new) }
        ensures turns { (c : ClockedProgram) (rows outs : List (List ℕ)) → HasDone c self.old rows outs →
            Turns c line rows outs (to_come self.old.reader (S.left trace.old)) (K.held out.old) result self.new (S.left trace.new) (K.held out.new) }
        ensures read_fault { result ≡ Err End.ReadFault → Rose (S.faults trace.old) (S.faults trace.new) }
        ensures write_fault { result ≡ Err End.WriteFault → Rose (K.faults out.old) (K.faults out.new) }
        ensures reads { S.faults trace.old ≤ S.faults trace.new }
        ensures writes { K.faults out.old ≤ K.faults out.new }
    {
        let row = self.row.as_mut_slice();
        read_line(&mut self.reader, &self.inputs, row, line, trace)?;
        self.step();
        match self.writer.row(&self.outputs, self.values.as_slice(), out) {
            Ok(()) => Ok(()),
            Err(_) => Err(End::WriteFault),
        }
    }

    /// A turn for each line, up to the limit, and then the end of the trace or a further line.
    pub(crate) fn turns<S: Source, K: Sink>(
        &mut self,
        limit: u32,
        trace: &mut S,
        out: &mut K,
    ) -> End
        requires { CanTurn self.old }
        ensures ends { (c : ClockedProgram) → HasDone c self.old [] [] →
            RunEnds c.program limit (to_come self.old.reader (S.left trace.old)) (K.held out.old) (S.left trace.new) (K.held out.new) result }
        ensures read_fault { result ≡ End.ReadFault → Rose (S.faults trace.old) (S.faults trace.new) }
        ensures write_fault { result ≡ End.WriteFault → Rose (K.faults out.old) (K.faults out.new) }
        ensures reads { S.faults trace.old ≤ S.faults trace.new }
        ensures writes { K.faults out.old ≤ K.faults out.new }
    {
        meaning_laws();
        for counted in 0..limit {
            if let Err(end) = self.turn(counted + 1, trace, out) {
                return end;
            }
        }
        end_of_trace(&mut self.reader, limit, trace)
    }
}

/// Whether the trace ends here, where as many rows counted as may.
fn end_of_trace<S: Source>(reader: &mut LineReader, limit: u32, trace: &mut S) -> End
    requires { reader.old.is_spent ≡ false }
    ensures ends { EndsHere limit (to_come reader.old (S.left trace.old)) result (S.left trace.new) }
    ensures cause { result ≡ End.ReadFault → Rose (S.faults trace.old) (S.faults trace.new) }
    ensures count { S.faults trace.old ≤ S.faults trace.new }
{
    match reader.next(trace) {
        Ok(None) => End::Ended,
        Ok(Some(_line)) => End::Limit(limit),
        Err(LineFault::TooLong) => End::Limit(limit),
        Err(LineFault::Failed) => End::ReadFault,
    }
}

/// Reads the next line, which has this number, into a row.
fn read_line<S: Source>(
    reader: &mut LineReader,
    shape: &Shape,
    row: &mut [Cell],
    number: u32,
    trace: &mut S,
) -> Result<(), End>
    requires goes_on { reader.old.is_spent ≡ false }
    requires few { length shape.now < 2 ^ 32 }
    requires row { length row.old ≡ length shape.now }
    ensures row { ReadsRow shape.now number reader.old (S.left trace.old) result reader.new (S.left trace.new) row.new }
    ensures fits { OnOk result (FitsShape shape.now row.new) }
    ensures cause { result ≡ Err End.ReadFault → Rose (S.faults trace.old) (S.faults trace.new) }
    ensures count { S.faults trace.old ≤ S.faults trace.new }
{
    match reader.next(trace) {
        Ok(Some(line)) => match read_row(shape, line, row) {
            Ok(()) => Ok(()),
            Err(fault) => Err(End::BadRow {
                line: number,
                fault: BadRow::Fault(fault),
            }),
        },
        Ok(None) => Err(End::Ended),
        Err(LineFault::Failed) => Err(End::ReadFault),
        Err(LineFault::TooLong) => Err(End::BadRow {
            line: number,
            fault: BadRow::TooLong,
        }),
    }
}
