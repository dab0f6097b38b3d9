//! The checks of a file's text before it is run.
ghost use Rattle.std.specs.Prelude.{◌≡◌, ℕ, ◌<◌, ◌^◌, length, ◌⊎◌, [], None, IfOk, IfErr, OnOk, MatchResult};
ghost use Rattle.hept_ast.specs.declared.tree.Program.{Program as AnyProgram};
ghost use Rattle.hept_ast.specs.Limits.{all_faults};
ghost use Rattle.hept_ast.specs.Stages.{HasLeastClocks};
ghost use Rattle.causality.specs.Acceptance.{IsAcceptable};
ghost use Rattle.run_messages.specs.declared.end.Refusal.{Refusal as AnyRefusal};
ghost use Rattle.ept_reader.specs.Spelling.{IsProgramText};
ghost use Rattle.served_programs.specs.Served.{IsServed};
ghost use Rattle.expanded_size.specs.Sizes.{kept};
ghost use Rattle.type_futures.specs.Chosen.{IsChosen};
ghost use Rattle.run_checks.specs.Stops.{HasMainSize, IsRefused, IsRefusedByReads, IsRefusedProgram, IsRefusedText, IsRunnable, IsSmall, IsUnreadText, end_of_acceptance, end_of_choice, end_of_clocks, end_of_text, end_of_types};

use causality::{AcceptFault, CausalFault, InitFault, accept};
use clock_calculus::{ClockFault, check_clocks, clock_laws};
use ept_reader::{ReadFault, read_program};
use expanded_size::expanded_size;
use hept_ast::{Accepted, Memory, NodeId, Program, Typed};
use run_messages::{End, Refusal};
use served_programs::is_served;
use std::alloc::Global;
use type_futures::{TopFault, TypeFault, check_types, choose};

/// How a run ends whose text is not read.
fn end_of_text(fault: ReadFault) -> End
    ensures { result ≡ end_of_text fault }
{
    match fault {
        ReadFault::BadByte { at } => End::Refused(Refusal::BadByte { at }),
        ReadFault::OpenComment { at } => End::Refused(Refusal::OpenComment { at }),
        ReadFault::NumberTooLarge { at } => End::Refused(Refusal::NumberTooLarge { at }),
        ReadFault::Unexpected { at } => End::Refused(Refusal::Unexpected { at }),
        ReadFault::TooDeep { at } => End::Refused(Refusal::TooDeep { at }),
        ReadFault::Memory => End::Memory,
    }
}

/// How a run ends of a program with this fault.
fn end_of_types(fault: TypeFault) -> End
    ensures { result ≡ end_of_types fault }
{
    match fault {
        TypeFault::UnknownName { at } => End::Refused(Refusal::UnknownName { at }),
        TypeFault::Duplicate { at } => End::Refused(Refusal::Duplicate { at }),
        TypeFault::Mismatch { at } => End::Refused(Refusal::Mismatch { at }),
        TypeFault::ZeroDivisor { at } => End::Refused(Refusal::ZeroDivisor { at }),
        TypeFault::Recursive { at } => End::Refused(Refusal::Recursive { at }),
        TypeFault::NotDefined { at } => End::Refused(Refusal::NotDefined { at }),
        TypeFault::FutureKept { at } => End::Refused(Refusal::FutureKept { at }),
        TypeFault::NestedAsync { at } => End::Refused(Refusal::NestedAsync { at }),
        TypeFault::Limit { at, kept, limit } => End::Refused(Refusal::Limit { at, kept, limit }),
        TypeFault::Memory => End::Memory,
    }
}

/// How a run ends of a program that has no node to run.
fn end_of_choice(fault: TopFault) -> End
    ensures { result ≡ end_of_choice fault }
{
    match fault {
        TopFault::NoNode => End::Refused(Refusal::NoNode),
        TopFault::FutureInterface { at } => End::Refused(Refusal::FutureInterface { at }),
    }
}

/// How a run ends of a program without clocks.
fn end_of_clocks(fault: ClockFault) -> End
    ensures { result ≡ end_of_clocks fault }
{
    match fault {
        ClockFault::NoClock { at } => End::Refused(Refusal::NoClock { at }),
        ClockFault::Memory => End::Memory,
    }
}

/// How a run ends of a program that may read an undefined value, or has a cycle of reads.
fn end_of_acceptance(fault: AcceptFault) -> End
    ensures { result ≡ end_of_acceptance fault }
{
    match fault {
        AcceptFault::Initial(InitFault::MayBeNil { at }) => End::Refused(Refusal::MayBeNil { at }),
        AcceptFault::Initial(InitFault::Memory) => End::Memory,
        AcceptFault::Causal(CausalFault::Cycle { vars, .. }) => {
            End::Refused(Refusal::Cycle { vars })
        }
        AcceptFault::Causal(CausalFault::Memory) => End::Memory,
    }
}

/// The node of a program that is run.
fn check_main(typed: &Typed) -> Result<NodeId, End>
    requires { all_faults typed.now ≡ [] }
    ensures few { length typed.now.nodes < 2 ^ 32 }
    ensures main { IfOk result (λ main. IsChosen typed.now.nodes None main.0) }
    ensures ends { IfErr result (λ e. (r : AnyRefusal) × (e ≡ End.Refused r) × IsRefusedProgram typed.now r) }
{
    match choose(typed, None) {
        Ok(main) => Ok(main),
        Err(fault) => Err(end_of_choice(fault)),
    }
}

/// Whether a program is one that is run so far.
fn check_served(alloc: Global, accepted: &Accepted) -> Result<(), End>
    ensures served { OnOk result (IsServed accepted.now.program) }
    ensures ends { IfErr result (λ e. (e ≡ End.Memory) ⊎ ((e ≡ End.Refused Refusal.NotServed) × (IsServed accepted.now.program → ⊥))) }
{
    match is_served(alloc, accepted.program()) {
        Ok(true) => Ok(()),
        Ok(false) => Err(End::Refused(Refusal::NotServed)),
        Err(Memory) => Err(End::Memory),
    }
}

/// Whether the expanded size of the node that is run is at most 1,000,000.
fn check_size(alloc: Global, accepted: &Accepted, main: NodeId) -> Result<(), End>
    requires { IsChosen accepted.now.program.nodes None main.0 }
    ensures small { OnOk result (IsSmall accepted.now.program) }
    ensures ends { IfErr result (λ e. (e ≡ End.Memory) ⊎ ((n : ℕ) × HasMainSize accepted.now.program n × (1000000 < n) × (e ≡ End.Refused (Refusal.TooLarge (kept n))))) }
{
    match expanded_size(alloc, accepted.program(), main) {
        Ok(kept) => {
            if kept > 1_000_000 {
                return Err(End::Refused(Refusal::TooLarge { kept }));
            }
            Ok(())
        }
        Err(Memory) => Err(End::Memory),
    }
}

/// The program with its clocks, where it has clocks, reads no undefined value and has no cycle of reads.
fn check_reads(alloc: Global, typed: Typed) -> Result<Accepted, End>
    requires { length typed.nodes < 2 ^ 32 }
    ensures same { IfOk result (λ accepted. accepted.program ≡ typed) }
    ensures accepted { IfOk result (λ accepted. HasLeastClocks typed accepted.clocks × IsAcceptable accepted) }
    ensures ends { IfErr result (λ e. (e ≡ End.Memory) ⊎ ((r : AnyRefusal) × (e ≡ End.Refused r) × IsRefusedByReads typed r)) }
{
    let clocked = match check_clocks(alloc, typed) {
        Ok(clocked) => clocked,
        Err(fault) => return Err(end_of_clocks(fault)),
    };
    match accept(alloc, clocked) {
        Ok(accepted) => Ok(accepted),
        Err(fault) => Err(end_of_acceptance(fault)),
    }
}

/// The program with its clocks, where nothing is wrong with it, it is one that is run so far, and it
/// isn't too large.
fn check_program(alloc: Global, program: Program) -> Result<Accepted, End>
    ensures same { IfOk result (λ accepted. accepted.program ≡ program) }
    ensures runs { OnOk result (IsRunnable program) }
    ensures ends { IfErr result (λ e. (e ≡ End.Memory) ⊎ ((r : AnyRefusal) × (e ≡ End.Refused r) × IsRefusedProgram program r)) }
{
    let typed = match check_types(alloc, program) {
        Ok(typed) => typed,
        Err(fault) => return Err(end_of_types(fault)),
    };
    let main = check_main(&typed)?;
    let accepted = check_reads(alloc, typed)?;
    check_served(alloc, &accepted)?;
    check_size(alloc, &accepted, main)?;
    Ok(accepted)
}

/// The program that a text spells, if it is one that is run so far and isn't too large.
pub fn read_checked(alloc: Global, text: &[u8]) -> Result<Accepted, End>
    requires { length text.now < 2 ^ 32 }
    ensures text { IfOk result (λ a. IsProgramText text.now a.program) }
    ensures runs { IfOk result (λ a. IsRunnable a.program) }
    ensures ends { IfErr result (λ e. (e ≡ End.Memory) ⊎ ((r : AnyRefusal) × (e ≡ End.Refused r) × IsRefusedText text.now r)) }
    // What is no text is refused so, what is to be refused is, and what can be run is read, unless memory runs out.
    ensures exactly { (r : AnyRefusal) → IsUnreadText text.now r → MatchResult result (λ _. ⊥) (λ e. (e ≡ End.Refused r) ⊎ (e ≡ End.Memory)) }
    ensures refused { (r : AnyRefusal) → IsRefusedText text.now r → MatchResult result (λ _. ⊥) (λ e. IsRefused e ⊎ (e ≡ End.Memory)) }
    ensures complete { (p : AnyProgram) → IsProgramText text.now p → IsRunnable p → MatchResult result (λ a. a.program ≡ p) (λ e. e ≡ End.Memory) }
{
    let program = match read_program(alloc, text) {
        Ok(program) => program,
        Err(fault) => return Err(end_of_text(fault)),
    };
    clock_laws();
    check_program(alloc, program)
}
