//! Texts at the bounds, and one step past them.
use ept_reader::{ReadFault, read_program};
use hept_ast::Place;
use std::alloc::{AllocError, Global};
use std::test::Fail;

fn add(text: &mut Vec<u8>, piece: &[u8], times: usize) -> Result<(), AllocError> {
    for _ in 0..times {
        text.extend_from_slice(piece)?;
    }
    Ok(())
}

/// What is wrong with a text, if it is no program.
fn fault_of(alloc: Global, text: &[u8]) -> Result<Option<ReadFault>, AllocError> {
    if text.len() > 1_000_000 {
        return Err(AllocError);
    }
    match read_program(alloc, text) {
        Ok(_) => Ok(None),
        Err(fault) => Ok(Some(fault)),
    }
}

/// The answer for a text in three parts, of which the middle one stands so many times.
fn answer(
    alloc: Global,
    front: &[u8],
    middle: &[u8],
    times: usize,
    back: &[u8],
) -> Result<Option<ReadFault>, AllocError> {
    let mut text = Vec::new(alloc);
    add(&mut text, front, 1)?;
    add(&mut text, middle, times)?;
    add(&mut text, back, 1)?;
    fault_of(alloc, text.as_slice())
}

/// The answer for an equation whose right side is a name in so many brackets.
fn nested(
    alloc: Global,
    open: &[u8],
    close: &[u8],
    times: usize,
) -> Result<Option<ReadFault>, AllocError> {
    let mut text = Vec::new(alloc);
    add(&mut text, EQUATION, 1)?;
    add(&mut text, open, times)?;
    add(&mut text, b"x", 1)?;
    add(&mut text, close, times)?;
    add(&mut text, b" tel", 1)?;
    fault_of(alloc, text.as_slice())
}

const NODE: &[u8] = b"node n() returns (y:int) let ";

const EQUATION: &[u8] = b"node n() returns (y:int) let y = ";

#[test]
fn operators(rt: HostRuntime) -> Result<(), Fail> {
    let alloc = rt.alloc();
    // 512 operators, and one more
    assert!(rt; answer(alloc, EQUATION, b"not ", 512, b"x tel")?.is_none());
    let deep = answer(alloc, EQUATION, b"not ", 513, b"x tel")?;
    assert!(rt; deep == Some(ReadFault::TooDeep { at: Place(2081) }));
    Ok(())
}

#[test]
fn minuses(rt: HostRuntime) -> Result<(), Fail> {
    let alloc = rt.alloc();
    assert!(rt; answer(alloc, EQUATION, b"-", 511, b"x tel")?.is_none());
    let deep = answer(alloc, EQUATION, b"-", 513, b"x tel")?;
    assert!(rt; deep == Some(ReadFault::TooDeep { at: Place(545) }));
    Ok(())
}

#[test]
fn parentheses(rt: HostRuntime) -> Result<(), Fail> {
    let alloc = rt.alloc();
    // a parenthesis counts as one operator
    assert!(rt; nested(alloc, b"(", b")", 512)?.is_none());
    let deep = nested(alloc, b"(", b")", 513)?;
    assert!(rt; deep == Some(ReadFault::TooDeep { at: Place(545) }));
    let open = answer(alloc, EQUATION, b"(", 512, b"x")?;
    assert!(rt; open == Some(ReadFault::Unexpected { at: Place(546) }));
    Ok(())
}

#[test]
fn conditions(rt: HostRuntime) -> Result<(), Fail> {
    let alloc = rt.alloc();
    assert!(rt; nested(alloc, b"if ", b" then a else b", 512)?.is_none());
    assert!(rt; answer(alloc, EQUATION, b"if a then b else ", 512, b"x tel")?.is_none());
    Ok(())
}

#[test]
fn merges(rt: HostRuntime) -> Result<(), Fail> {
    let alloc = rt.alloc();
    // the word and the parenthesis of the branch count as one operator each
    assert!(rt; nested(alloc, b"merge c (true -> ", b")", 256)?.is_none());
    let deep = nested(alloc, b"merge c (true -> ", b")", 257)?;
    assert!(rt; deep == Some(ReadFault::TooDeep { at: Place(4385) }));
    Ok(())
}

#[test]
fn counts_anew(rt: HostRuntime) -> Result<(), Fail> {
    // the count begins anew in the next expression
    let repeated = answer(rt.alloc(), EQUATION, b"(((((x))))); y = ", 200, b"x tel")?;
    assert!(rt; repeated.is_none());
    Ok(())
}

#[test]
fn blocks(rt: HostRuntime) -> Result<(), Fail> {
    let alloc = rt.alloc();
    // 64 open blocks, and one more
    let open = answer(alloc, NODE, b"reset ", 64, b"")?;
    assert!(rt; open == Some(ReadFault::Unexpected { at: Place(413) }));
    let deep = answer(alloc, NODE, b"reset ", 65, b"")?;
    assert!(rt; deep == Some(ReadFault::TooDeep { at: Place(413) }));
    Ok(())
}

/// Adds a name in so many parentheses, between two pieces.
fn add_deep(text: &mut Vec<u8>, front: &[u8], times: usize, back: &[u8]) -> Result<(), AllocError> {
    add(text, front, 1)?;
    add(text, b"(", times)?;
    add(text, b"x", 1)?;
    add(text, b")", times)?;
    add(text, back, 1)
}

#[test]
fn deep_conditions_of_resets(rt: HostRuntime) -> Result<(), Fail> {
    let alloc = rt.alloc();
    let mut text = Vec::new(alloc);
    add(&mut text, NODE, 1)?;
    add(&mut text, b"reset ", 64)?;
    for _ in 0..64 {
        add_deep(&mut text, b" every ", 512, b"")?;
    }
    add(&mut text, b" tel", 1)?;
    assert!(rt; fault_of(alloc, text.as_slice())?.is_none());
    Ok(())
}

#[test]
fn deep_scrutinees(rt: HostRuntime) -> Result<(), Fail> {
    let alloc = rt.alloc();
    let mut text = Vec::new(alloc);
    add(&mut text, NODE, 1)?;
    for _ in 0..64 {
        add_deep(&mut text, b" switch ", 448, b" | true do")?;
    }
    add(&mut text, b" end", 64)?;
    add(&mut text, b" tel", 1)?;
    assert!(rt; fault_of(alloc, text.as_slice())?.is_none());
    Ok(())
}

#[test]
fn deep_conditions_of_automata(rt: HostRuntime) -> Result<(), Fail> {
    let alloc = rt.alloc();
    let mut text = Vec::new(alloc);
    add(&mut text, NODE, 1)?;
    add(&mut text, b"automaton state A do ", 64)?;
    for _ in 0..64 {
        add_deep(&mut text, b" until ", 512, b" then A end")?;
    }
    add(&mut text, b" tel", 1)?;
    assert!(rt; fault_of(alloc, text.as_slice())?.is_none());
    Ok(())
}

#[test]
fn closed_blocks(rt: HostRuntime) -> Result<(), Fail> {
    // a block that is closed counts no more
    assert!(rt; answer(rt.alloc(), NODE, b"reset every x; ", 100, b"tel")?.is_none());
    Ok(())
}
