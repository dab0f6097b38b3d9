//! Which programs are accepted.
ghost use Rattle.std.specs.Prelude.{◌≡◌, ◌<◌, ◌^◌, IfErr, MatchResult, length};
ghost use Rattle.causality.specs.Acceptance.{IsAcceptFault, IsAcceptable, IsWantOfMemory};

use crate::causal::{CausalFault, check_causal};
use crate::initial::{InitFault, check_initial};
use hept_ast::{Accepted, Clocked};
use std::alloc::Global;
use thiserror::Error;

/// Why a well-clocked program is not accepted.
#[derive(Debug, Drop, Error)]
pub enum AcceptFault {
    #[error("{0}")]
    Initial(InitFault),
    #[error("{0}")]
    Causal(CausalFault),
}

/// Accepts a program that reads no undefined value and has no cycle of reads, and gives it back with its
/// clocks. Cycles are looked for only where every demand for a defined value is met.
pub fn accept(alloc: Global, clocked: Clocked) -> Result<Accepted, AcceptFault>
    requires { length clocked.program.nodes < 2 ^ 32 }
    ensures answer { MatchResult result (λ accepted. accepted ≡ clocked) (IsAcceptFault clocked) }
    ensures acceptable { MatchResult result (λ accepted. IsAcceptable accepted) (λ fault. IsAcceptable clocked → IsWantOfMemory fault) }
{
    if let Err(fault) = check_initial(alloc, &clocked) {
        return Err(AcceptFault::Initial(fault));
    }
    if let Err(fault) = check_causal(alloc, &clocked) {
        return Err(AcceptFault::Causal(fault));
    }
    Ok(Accepted::of(clocked))
}
