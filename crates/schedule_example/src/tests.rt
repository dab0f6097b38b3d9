//! What is taken first, and what order a core comes into.
use crate::cores::{chain, delayed, double, equation, pair, read, reset, sampled, turned_core};
use crate::order_laws;
use hept_ast::{Core, CoreEquation};
use schedule::{first_ready, order};
use sqlite_items::Items;
use std::alloc::AllocError;
use std::test::Fail;

// The position of the equation that is taken first, or 9.
fn taken(equations: &Items<CoreEquation>) -> usize {
    first_ready(equations.as_slice()).unwrap_or(9)
}

#[test]
fn the_end_of_a_chain_is_taken_first(rt: HostRuntime) -> Result<(), Fail> {
    let mut equations = chain(rt.alloc())?;
    let at = taken(&equations);
    assert!(rt; at == 2);
    let _ = equations.pop();
    let at = taken(&equations);
    assert!(rt; at == 1);
    Ok(())
}

#[test]
fn a_delayed_loop_stays(rt: HostRuntime) -> Result<(), Fail> {
    let alloc = rt.alloc();
    let y = equation(alloc, b"y", delayed(alloc, b"z")?)?;
    let z = equation(alloc, b"z", double(alloc, b"y")?)?;
    let equations = pair(alloc, y, z)?;
    let at = taken(&equations);
    assert!(rt; at == 0);
    Ok(())
}

#[test]
fn of_a_cycle_none_is_taken(rt: HostRuntime) -> Result<(), Fail> {
    let alloc = rt.alloc();
    let y = equation(alloc, b"y", double(alloc, b"z")?)?;
    let z = equation(alloc, b"z", double(alloc, b"y")?)?;
    let equations = pair(alloc, y, z)?;
    let at = taken(&equations);
    assert!(rt; at == 9);
    Ok(())
}

#[test]
fn a_clock_is_read(rt: HostRuntime) -> Result<(), Fail> {
    let alloc = rt.alloc();
    let c = equation(alloc, b"c", read(alloc, b"x")?)?;
    let equations = pair(alloc, sampled(alloc)?, c)?;
    let at = taken(&equations);
    assert!(rt; at == 1);
    Ok(())
}

#[test]
fn resets_are_read(rt: HostRuntime) -> Result<(), Fail> {
    let alloc = rt.alloc();
    let r = equation(alloc, b"r", read(alloc, b"x")?)?;
    let equations = pair(alloc, reset(alloc)?, r)?;
    let at = taken(&equations);
    assert!(rt; at == 1);
    Ok(())
}

fn defines(e: &CoreEquation, text: &[u8]) -> bool {
    match e.left.as_slice().first() {
        Some(x) => x.bytes() == text,
        None => false,
    }
}

// Whether the first equation of the first node defines a name.
fn begins_with(core: &Core, text: &[u8]) -> bool {
    let Some(node) = core.nodes.as_slice().first() else {
        return false;
    };
    match node.equations.as_slice().first() {
        Some(e) => defines(e, text),
        None => false,
    }
}

#[test]
fn a_reader_comes_after_what_it_reads(rt: HostRuntime) -> Result<(), Fail> {
    let alloc = rt.alloc();
    order_laws();
    let core = turned_core(alloc)?;
    let before = begins_with(&core, b"y");
    assert!(rt; before);
    let Ok(ordered) = order(alloc, core) else {
        return Err(AllocError.into());
    };
    let after = begins_with(ordered.core(), b"a");
    assert!(rt; after);
    Ok(())
}
