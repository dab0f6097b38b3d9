use crate::texts::well_clocked;
use clock_calculus::{binding_laws, clock_laws};
use hept_ast::{Clocked, Memory, Name, NodeId};
use std::alloc::{AllocError, Global};
use std::process::Abort;
use std::test::Fail;

/// The steps of the clock of a variable of the first node; None where it declares no such variable.
fn steps(alloc: Global, clocked: &Clocked, text: &[u8]) -> Result<Option<usize>, AllocError> {
    let name = match Name::of(alloc, text) {
        Ok(name) => name,
        Err(Memory) => return Err(AllocError),
    };
    match clocked.clock_of(NodeId(0), &name) {
        Some(path) => Ok(Some(path.steps.as_slice().len())),
        None => Ok(None),
    }
}

/// Asserts that the clock of z has so many steps.
fn has_steps<R: Abort>(rt: &R, alloc: Global, text: &str, wanted: usize) -> Result<(), Fail> {
    let clocked = well_clocked(rt, alloc, text.as_bytes());
    let of_z = steps(alloc, &clocked, b"z")?;
    let of_x = steps(alloc, &clocked, b"x")?;
    let of_none = steps(alloc, &clocked, b"w")?;
    assert!(rt; of_z == Some(wanted), "{text}");
    assert!(rt; of_x == Some(0), "{text}");
    assert!(rt; of_none.is_none(), "{text}");
    Ok(())
}

// A sampled variable is on its clock.
#[test]
fn clock_of_a_sample(rt: HostRuntime) -> Result<(), Fail> {
    has_steps(
        &rt,
        rt.alloc(),
        "node main(c:bool; x:int) returns (y:int) var z:int let z = x when c; y = merge c (true -> z) (false -> 0) tel",
        1,
    )
}

// A constant takes the clock that is asked.
#[test]
fn clock_of_a_constant(rt: HostRuntime) -> Result<(), Fail> {
    has_steps(
        &rt,
        rt.alloc(),
        "node main(c:bool; x:int) returns (y:int) var z:int let z = 0; y = merge c (true -> z) (false -> 0) tel",
        1,
    )
}

// No clock is longer than it must be.
#[test]
fn least_clock(rt: HostRuntime) -> Result<(), Fail> {
    has_steps(
        &rt,
        rt.alloc(),
        "node main(c:bool; x:int) returns (y:int) var z:int let z = 0; y = x tel",
        0,
    )
}

#[test]
fn laws_are_called() {
    binding_laws();
    clock_laws();
}
