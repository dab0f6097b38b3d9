//! The top call.
ghost use Rattle.std.specs.Prelude.{◌≡◌, ◌<◌, ◌^◌, ◌≤◌, ◌⊎◌, [], None, ◌↔◌, length, map, string_bytes, IfOk, IfErr, MatchResult, Err};
ghost use Rattle.hept_ast.specs.declared.tree.Program.{Program as AnyProgram};
ghost use Rattle.ept_reader.specs.Spelling.{IsProgramText};
ghost use Rattle.hept_io.specs.Outside.{Rose};
ghost use Rattle.run_messages.specs.Ends.{status_of};
ghost use Rattle.run_messages.specs.declared.end.Refusal.{Refusal as AnyRefusal};
ghost use Rattle.hepasync_top.specs.Machine.{HasBegun, IsFresh};
ghost use Rattle.run_checks.specs.Stops.{IsRefused, IsRefusedText, IsRunnable, IsUnreadText};
ghost use Rattle.hepasync_top.specs.Run.{ComesTo, Ends, EndsFor, EndsWhole, IsBefore, IsFileText, RefusesAll, RefusesExactly, RunsServed, StopsFor, WritesOnlyAfterReading, WrittenWhereTold};
ghost use Rattle.run_checks.specs.Words.{file_of};

use crate::machine::Machine;
use hept_ast::Memory;
use hept_io::{Gate, Sink, Source, Store, line_laws};
use read_laws::read_program_laws;
use run_checks::{file_of, read_checked, read_text};
use run_messages::{End, write_line};
use std::alloc::Global;

/// The most rows that may count.
const LIMIT: u32 = 4_294_967_294;

/// How a run ended. The status is 0 at the end of the trace, 1 where the program is refused, 2 where
/// the words are not those of a run, 3 where the file isn't read, 4 at a line that is no row or too
/// long, 5 where the limit of rows is reached, 6 and 7 where reading the trace or writing fails, and 8
/// at want of memory, which comes only before the trace is first read.
#[derive(Clone, Copy, Debug, PartialEq, Eq)]
pub struct RunEnd {
    pub status: u8,
}

/// The bytes of the file that the words name.
fn text_of<F: Store>(alloc: Global, words: &[String], files: &mut F) -> Result<Vec<u8>, End>
    ensures text { IfOk result (λ text. IsFileText (F.files files.old) (map string_bytes words.now) text.items) }
    ensures stops { IfErr result (λ e. StopsFor e (map string_bytes words.now)
        (record { files = F.files files.old; faults_before = F.faults files.old; faults_after = F.faults files.new })) }
    ensures usage { file_of (map string_bytes words.now) ≡ None → result ≡ Err End.Usage }
    ensures count { F.faults files.old ≤ F.faults files.new }
{
    match file_of(words) {
        Some(name) => read_text(alloc, name, files),
        None => Err(End::Usage),
    }
}

/// Makes all that a run of a text takes memory for: nothing does once the trace is read.
fn prepare(alloc: Global, text: &[u8]) -> Result<Machine, End>
    requires { length text.now < 2 ^ 32 }
    ensures ready { IfOk result (λ m. IsFresh text.now m) }
    ensures ends { IfErr result (λ e. (e ≡ End.Memory) ⊎ ((r : AnyRefusal) × (e ≡ End.Refused r) × IsRefusedText text.now r)) }
    ensures exactly { (r : AnyRefusal) → IsUnreadText text.now r → MatchResult result (λ _. ⊥) (λ e. (e ≡ End.Refused r) ⊎ (e ≡ End.Memory)) }
    ensures refused { (r : AnyRefusal) → IsRefusedText text.now r → MatchResult result (λ _. ⊥) (λ e. IsRefused e ⊎ (e ≡ End.Memory)) }
    ensures complete { (p : AnyProgram) → IsProgramText text.now p → IsRunnable p → MatchResult result (HasBegun p) (λ e. e ≡ End.Memory) }
{
    let accepted = match read_checked(alloc, text) {
        Ok(accepted) => accepted,
        Err(end) => return Err(end),
    };
    read_program_laws();
    match Machine::new(alloc, &accepted) {
        Ok(machine) => Ok(machine),
        Err(Memory) => Err(End::Memory),
    }
}

/// Runs a text to the end of the trace, or to what stops the run.
fn run_text<S: Source, K: Sink>(alloc: Global, text: &[u8], trace: &mut S, out: &mut K) -> End
    requires { length text.now < 2 ^ 32 }
    ensures ends { EndsFor 4294967294 text.now
        (record { before = S.left trace.old; after = S.left trace.new; faults_before = S.faults trace.old; faults_after = S.faults trace.new })
        (record { before = K.held out.old; after = K.held out.new; faults_before = K.faults out.old; faults_after = K.faults out.new }) result }
    ensures refuses_text { RefusesExactly text.now result }
    ensures refuses { RefusesAll text.now result }
    ensures serves { RunsServed 4294967294 text.now
        (record { before = S.left trace.old; after = S.left trace.new; faults_before = S.faults trace.old; faults_after = S.faults trace.new })
        (record { before = K.held out.old; after = K.held out.new; faults_before = K.faults out.old; faults_after = K.faults out.new }) result }
    ensures stopped { IsBefore (status_of result) → (trace.new ≡ trace.old) × (out.new ≡ out.old) }
    ensures usage { result ≡ End.Usage → ⊥ }
    ensures read_fault { result ≡ End.ReadFault → Rose (S.faults trace.old) (S.faults trace.new) }
    ensures write_fault { result ≡ End.WriteFault → Rose (K.faults out.old) (K.faults out.new) }
    ensures reads { S.faults trace.old ≤ S.faults trace.new }
    ensures writes { K.faults out.old ≤ K.faults out.new }
{
    match prepare(alloc, text) {
        Ok(machine) => {
            line_laws();
            let mut machine = machine;
            machine.turns(LIMIT, trace, out)
        }
        Err(end) => end,
    }
}

/// Runs to the end of the trace, or to what stops the run.
fn run_to_end<F: Store, S: Source, K: Sink>(
    alloc: Global,
    words: &[String],
    files: &mut F,
    trace: &mut S,
    out: &mut K,
) -> End
    ensures ends { Ends 4294967294 (map string_bytes words.now)
        (record { files = F.files files.old; faults_before = F.faults files.old; faults_after = F.faults files.new })
        (record { before = S.left trace.old; after = S.left trace.new; faults_before = S.faults trace.old; faults_after = S.faults trace.new })
        (record { before = K.held out.old; after = K.held out.new; faults_before = K.faults out.old; faults_after = K.faults out.new }) result }
    ensures stopped { IsBefore (status_of result) → (trace.new ≡ trace.old) × (out.new ≡ out.old) }
    ensures usage { (result ≡ End.Usage) ↔ (file_of (map string_bytes words.now) ≡ None) }
    ensures read_fault { result ≡ End.ReadFault → Rose (S.faults trace.old) (S.faults trace.new) }
    ensures write_fault { result ≡ End.WriteFault → Rose (K.faults out.old) (K.faults out.new) }
    ensures files { F.faults files.old ≤ F.faults files.new }
    ensures reads { S.faults trace.old ≤ S.faults trace.new }
    ensures writes { K.faults out.old ≤ K.faults out.new }
{
    match text_of(alloc, words, files) {
        Ok(text) => run_text(alloc, text.as_slice(), trace, out),
        Err(end) => end,
    }
}

/// Runs the program of the file that the words name over the trace: for each line, which spells a row
/// of input values, the row of output values is written. Where the run stops before the end of the
/// trace, a line that says why goes to `err`; whether that is written changes nothing else. `rt` and
/// `gate` are not used so far.
pub fn run<R, F: Store, S: Source, K: Sink, E: Sink, G: Gate>(
    rt: &R,
    alloc: Global,
    words: &[String],
    files: &mut F,
    trace: &mut S,
    out: &mut K,
    err: &mut E,
    gate: &G,
) -> RunEnd
    // At the end of the trace every line counted, and the text of the program's outputs on them is written.
    ensures written { result.status ≡ 0 → WrittenWhereTold (F.files files.old) (map string_bytes words.now)
        (S.left trace.old) (S.left trace.new) (K.held out.old) (K.held out.new) }

    // How and why it ends at each status, what is written by then, and the line that says so.
    ensures ends { ComesTo 4294967294 (map string_bytes words.now)
        (record { files = F.files files.old; faults_before = F.faults files.old; faults_after = F.faults files.new })
        (record { before = S.left trace.old; after = S.left trace.new; faults_before = S.faults trace.old; faults_after = S.faults trace.new })
        (record { before = K.held out.old; after = K.held out.new; faults_before = K.faults out.old; faults_after = K.faults out.new })
        (record { before = E.held err.old; after = E.held err.new; faults_before = E.faults err.old; faults_after = E.faults err.new }) result.status }
    ensures status { result.status ≤ 8 }
    ensures usage { (result.status ≡ 2) ↔ (file_of (map string_bytes words.now) ≡ None) }
    ensures read_fault { result.status ≡ 6 → Rose (S.faults trace.old) (S.faults trace.new) }
    ensures write_fault { result.status ≡ 7 → Rose (K.faults out.old) (K.faults out.new) }

    // A program that is served runs to the end of a trace whose lines all spell rows.
    ensures complete { EndsWhole 4294967294 (map string_bytes words.now)
        (record { files = F.files files.old; faults_before = F.faults files.old; faults_after = F.faults files.new })
        (record { before = S.left trace.old; after = S.left trace.new; faults_before = S.faults trace.old; faults_after = S.faults trace.new })
        (record { before = K.held out.old; after = K.held out.new; faults_before = K.faults out.old; faults_after = K.faults out.new }) result.status }

    // What is left as it was.
    ensures untouched { WritesOnlyAfterReading (S.left trace.old) (S.left trace.new) (K.held out.old) (K.held out.new) }
    ensures stopped { IsBefore result.status → (trace.new ≡ trace.old) × (out.new ≡ out.old) }
    ensures quiet { result.status ≡ 0 → err.new ≡ err.old }

    // No count of faults falls.
    ensures counts { (F.faults files.old ≤ F.faults files.new) × (S.faults trace.old ≤ S.faults trace.new)
        × (K.faults out.old ≤ K.faults out.new) × (E.faults err.old ≤ E.faults err.new) }
{
    line_laws();
    let end = run_to_end(alloc, words, files, trace, out);
    let _ = write_line(&end, err);
    RunEnd {
        status: end.status(),
    }
}
