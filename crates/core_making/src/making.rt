ghost use Rattle.std.specs.Prelude.{◌≡◌, IfOk};
ghost use Rattle.hept_ast.specs.Stages.{IsAcceptedProgram};
ghost use Rattle.accepted_meaning.specs.Ranges.{IsInRange};
ghost use Rattle.core_making.specs.Made.{LowersWell, MeansProgram, names_of_nodes};
ghost use Rattle.flat_cores.specs.Flat.{IsFlatCore};
ghost use Rattle.lowering_rules.specs.PlainPrograms.{IsPlainProgram};
ghost use Rattle.served_programs.specs.Served.{IsServed};
ghost use Rattle.sound_expressions.specs.Demands.{NamesDiffer};

use hept_ast::{Accepted, Core, Memory};
use normal_form::normalise;
use reset_lowering::lower_blocks;
use schedule::{Ordered, order};
use std::alloc::Global;

fn check_accepted(accepted: &Accepted)
    ensures accepted { IsAcceptedProgram accepted.now }
{
    accepted.program();
}

/// A lowered core, with what the laws say of it.
fn lowered(alloc: Global, accepted: &Accepted) -> Result<Core, Memory>
    requires plain { IsPlainProgram accepted.now.program }
    requires range { IsInRange accepted.now.program }
    ensures { IfOk result (λ core. LowersWell accepted.now core) }
{
    check_accepted(accepted);
    lower_blocks(alloc, accepted)
}

/// The core of an accepted program of equations alone, in normal form and in order. Where the program
/// is served, the core is flat.
pub fn make_core(alloc: Global, accepted: &Accepted) -> Result<Ordered, Memory>
    requires plain { IsPlainProgram accepted.now.program }
    requires range { IsInRange accepted.now.program }
    ensures means { IfOk result (λ made. MeansProgram accepted.now made) }
    ensures flat { IsServed accepted.now.program → IfOk result IsFlatCore }
    ensures types { IfOk result (λ made. made.types ≡ accepted.now.program.types) }
    ensures names { IfOk result (λ made. NamesDiffer (names_of_nodes made.nodes)) }
{
    let core = lowered(alloc, accepted)?;
    let normal = normalise(alloc, core)?;
    order(alloc, normal)
}
