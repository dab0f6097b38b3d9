//! The line that a run writes where it stops before the end of its trace.
ghost use Rattle.std.specs.Prelude.{◌≡◌, ◌≤◌, ◌++◌, ◌∷◌, [], OnErr, codes, decimal};
ghost use Rattle.std.specs.List.{flat_map};
ghost use Rattle.hept_io.specs.Outside.{Rose};
ghost use Rattle.run_messages.specs.Lines.{Writes, bad_row_text, behind_space, end_text, file_text, line_of, passed_text, refusal_text, row_fault_text, spaced};

use crate::end::{BadRow, End, FileFault, Refusal};
use hept_ast::Name;
use hept_io::{Failed, Sink};
use itoa::Buffer;
use trace_io::{RowFault, write_whole};

/// Writes the line of an end, or a part of it where the sink fails; nothing where the trace ended.
pub fn write_line<E: Sink>(end: &End, sink: &mut E) -> Result<(), Failed>
    ensures line { Writes result (E.held sink.old) (E.held sink.new) (line_of end.now) }
    ensures cause { OnErr result (Rose (E.faults sink.old) (E.faults sink.new)) }
    ensures count { E.faults sink.old ≤ E.faults sink.new }
    ensures quiet { end.now ≡ End.Ended → sink.new ≡ sink.old }
{
    match end {
        End::Ended => Ok(()),
        _ => write_text(end, sink),
    }
}

fn write_text<E: Sink>(end: &End, sink: &mut E) -> Result<(), Failed>
    ensures text { Writes result (E.held sink.old) (E.held sink.new) (codes "hepasync: " ++ (end_text end.now ++ 10 ∷ [])) }
    ensures cause { OnErr result (Rose (E.faults sink.old) (E.faults sink.new)) }
    ensures count { E.faults sink.old ≤ E.faults sink.new }
{
    put(b"hepasync: ", sink)?;
    write_end(end, sink)?;
    put(b"\n", sink)
}

fn write_end<E: Sink>(end: &End, sink: &mut E) -> Result<(), Failed>
    ensures text { Writes result (E.held sink.old) (E.held sink.new) (end_text end.now) }
    ensures cause { OnErr result (Rose (E.faults sink.old) (E.faults sink.new)) }
    ensures count { E.faults sink.old ≤ E.faults sink.new }
{
    match end {
        End::Ended => Ok(()),
        End::Refused(refusal) => write_refused(refusal, sink),
        End::Usage => put(b"usage", sink),
        End::File(fault) => write_file_fault(fault, sink),
        End::BadRow { line, fault } => write_bad_row(*line, fault, sink),
        End::Limit(rows) => write_limit(*rows, sink),
        End::ReadFault => put(b"trace not read", sink),
        End::WriteFault => put(b"output not written", sink),
        End::Memory => put(b"out of memory", sink),
    }
}

fn put<E: Sink>(piece: &[u8], sink: &mut E) -> Result<(), Failed>
    ensures text { Writes result (E.held sink.old) (E.held sink.new) piece.now }
    ensures cause { OnErr result (Rose (E.faults sink.old) (E.faults sink.new)) }
    ensures count { E.faults sink.old ≤ E.faults sink.new }
{
    write_whole(piece, sink)
}

/// Writes words and a number behind them.
fn write_number<E: Sink>(words: &[u8], number: u32, sink: &mut E) -> Result<(), Failed>
    ensures text { Writes result (E.held sink.old) (E.held sink.new) (words.now ++ decimal number) }
    ensures cause { OnErr result (Rose (E.faults sink.old) (E.faults sink.new)) }
    ensures count { E.faults sink.old ≤ E.faults sink.new }
{
    put(words, sink)?;
    put(Buffer::new().format(number).as_bytes(), sink)
}

fn write_refused<E: Sink>(refusal: &Refusal, sink: &mut E) -> Result<(), Failed>
    ensures text { Writes result (E.held sink.old) (E.held sink.new) (codes "refused: " ++ refusal_text refusal.now) }
    ensures cause { OnErr result (Rose (E.faults sink.old) (E.faults sink.new)) }
    ensures count { E.faults sink.old ≤ E.faults sink.new }
{
    put(b"refused: ", sink)?;
    write_refusal(refusal, sink)
}

fn write_refusal<E: Sink>(refusal: &Refusal, sink: &mut E) -> Result<(), Failed>
    ensures text { Writes result (E.held sink.old) (E.held sink.new) (refusal_text refusal.now) }
    ensures cause { OnErr result (Rose (E.faults sink.old) (E.faults sink.new)) }
    ensures count { E.faults sink.old ≤ E.faults sink.new }
{
    match refusal {
        Refusal::BadByte { at } => write_number(b"bad byte at ", at.0, sink),
        Refusal::OpenComment { at } => write_number(b"open comment at ", at.0, sink),
        Refusal::NumberTooLarge { at } => write_number(b"number too large at ", at.0, sink),
        Refusal::Unexpected { at } => write_number(b"unexpected at ", at.0, sink),
        Refusal::TooDeep { at } => write_number(b"too deep at ", at.0, sink),
        Refusal::UnknownName { at } => write_number(b"unknown name at ", at.0, sink),
        Refusal::Duplicate { at } => write_number(b"duplicate at ", at.0, sink),
        Refusal::Mismatch { at } => write_number(b"mismatch at ", at.0, sink),
        Refusal::ZeroDivisor { at } => write_number(b"zero divisor at ", at.0, sink),
        Refusal::Recursive { at } => write_number(b"recursive at ", at.0, sink),
        Refusal::NotDefined { at } => write_number(b"not defined at ", at.0, sink),
        Refusal::FutureKept { at } => write_number(b"future kept at ", at.0, sink),
        Refusal::NestedAsync { at } => write_number(b"nested async at ", at.0, sink),
        Refusal::Limit { at, kept, limit } => write_passed(at.0, *kept, *limit, sink),
        Refusal::NoNode => put(b"no node", sink),
        Refusal::FutureInterface { at } => write_number(b"future interface at ", at.0, sink),
        Refusal::NoClock { at } => write_number(b"no clock at ", at.0, sink),
        Refusal::MayBeNil { at } => write_number(b"may be nil at ", at.0, sink),
        Refusal::Cycle { vars } => write_cycle(vars.as_slice(), sink),
        Refusal::NotServed => put(b"not served", sink),
        Refusal::TooLarge { kept } => write_too_large(*kept, sink),
    }
}

/// Writes that an expanded size is above its limit.
fn write_too_large<E: Sink>(kept: u32, sink: &mut E) -> Result<(), Failed>
    ensures text { Writes result (E.held sink.old) (E.held sink.new) (codes "too large: " ++ decimal kept ++ codes " over 1000000") }
    ensures cause { OnErr result (Rose (E.faults sink.old) (E.faults sink.new)) }
    ensures count { E.faults sink.old ≤ E.faults sink.new }
{
    write_number(b"too large: ", kept, sink)?;
    put(b" over 1000000", sink)
}

fn write_cycle<E: Sink>(vars: &[Name], sink: &mut E) -> Result<(), Failed>
    ensures text { Writes result (E.held sink.old) (E.held sink.new) (codes "cycle: " ++ spaced vars.now) }
    ensures cause { OnErr result (Rose (E.faults sink.old) (E.faults sink.new)) }
    ensures count { E.faults sink.old ≤ E.faults sink.new }
{
    put(b"cycle: ", sink)?;
    write_names(vars, sink)
}

/// Writes names with a space between them.
fn write_names<E: Sink>(names: &[Name], sink: &mut E) -> Result<(), Failed>
    ensures text { Writes result (E.held sink.old) (E.held sink.new) (spaced names.now) }
    ensures cause { OnErr result (Rose (E.faults sink.old) (E.faults sink.new)) }
    ensures count { E.faults sink.old ≤ E.faults sink.new }
{
    match names {
        [] => Ok(()),
        [first, others @ ..] => {
            put(first.bytes(), sink)?;
            write_others(others, sink)
        }
    }
}

/// Writes names, each behind a space.
fn write_others<E: Sink>(names: &[Name], sink: &mut E) -> Result<(), Failed>
    ensures text { Writes result (E.held sink.old) (E.held sink.new) (flat_map behind_space names.now) }
    ensures cause { OnErr result (Rose (E.faults sink.old) (E.faults sink.new)) }
    ensures count { E.faults sink.old ≤ E.faults sink.new }
{
    for name in names {
        write_behind_space(name, sink)?;
    }
    Ok(())
}

fn write_behind_space<E: Sink>(name: &Name, sink: &mut E) -> Result<(), Failed>
    ensures text { Writes result (E.held sink.old) (E.held sink.new) (behind_space name.now) }
    ensures cause { OnErr result (Rose (E.faults sink.old) (E.faults sink.new)) }
    ensures count { E.faults sink.old ≤ E.faults sink.new }
{
    put(b" ", sink)?;
    put(name.bytes(), sink)
}

/// Writes that a limit is passed.
fn write_passed<E: Sink>(at: u32, kept: u32, limit: u32, sink: &mut E) -> Result<(), Failed>
    ensures text { Writes result (E.held sink.old) (E.held sink.new) (passed_text at kept limit) }
    ensures cause { OnErr result (Rose (E.faults sink.old) (E.faults sink.new)) }
    ensures count { E.faults sink.old ≤ E.faults sink.new }
{
    write_number(b"limit at ", at, sink)?;
    write_number(b": ", kept, sink)?;
    write_number(b" of ", limit, sink)
}

fn write_file_fault<E: Sink>(fault: &FileFault, sink: &mut E) -> Result<(), Failed>
    ensures text { Writes result (E.held sink.old) (E.held sink.new) (file_text fault.now) }
    ensures cause { OnErr result (Rose (E.faults sink.old) (E.faults sink.new)) }
    ensures count { E.faults sink.old ≤ E.faults sink.new }
{
    match fault {
        FileFault::Failed => put(b"file not read", sink),
        FileFault::TooLarge => put(b"file too large", sink),
        FileFault::Missing => put(b"no such file", sink),
    }
}

fn write_bad_row<E: Sink>(line: u32, fault: &BadRow, sink: &mut E) -> Result<(), Failed>
    ensures text { Writes result (E.held sink.old) (E.held sink.new) ((codes "line " ++ decimal line) ++ (codes ": " ++ bad_row_text fault.now)) }
    ensures cause { OnErr result (Rose (E.faults sink.old) (E.faults sink.new)) }
    ensures count { E.faults sink.old ≤ E.faults sink.new }
{
    write_number(b"line ", line, sink)?;
    put(b": ", sink)?;
    write_fault(fault, sink)
}

fn write_fault<E: Sink>(fault: &BadRow, sink: &mut E) -> Result<(), Failed>
    ensures text { Writes result (E.held sink.old) (E.held sink.new) (bad_row_text fault.now) }
    ensures cause { OnErr result (Rose (E.faults sink.old) (E.faults sink.new)) }
    ensures count { E.faults sink.old ≤ E.faults sink.new }
{
    match fault {
        BadRow::TooLong => put(b"too long", sink),
        BadRow::Fault(fault) => write_row_fault(fault, sink),
    }
}

fn write_row_fault<E: Sink>(fault: &RowFault, sink: &mut E) -> Result<(), Failed>
    ensures text { Writes result (E.held sink.old) (E.held sink.new) (row_fault_text fault.now) }
    ensures cause { OnErr result (Rose (E.faults sink.old) (E.faults sink.new)) }
    ensures count { E.faults sink.old ≤ E.faults sink.new }
{
    match fault {
        RowFault::TooFew { kept } => write_number(b"too few values: ", *kept, sink),
        RowFault::TooMany { at } => write_number(b"too many values at ", *at, sink),
        RowFault::BadValue { at } => write_number(b"bad value at ", *at, sink),
    }
}

/// Writes that the limit of rows is reached.
fn write_limit<E: Sink>(rows: u32, sink: &mut E) -> Result<(), Failed>
    ensures text { Writes result (E.held sink.old) (E.held sink.new) (codes "limit of " ++ decimal rows ++ codes " instants reached") }
    ensures cause { OnErr result (Rose (E.faults sink.old) (E.faults sink.new)) }
    ensures count { E.faults sink.old ≤ E.faults sink.new }
{
    write_number(b"limit of ", rows, sink)?;
    put(b" instants reached", sink)
}
