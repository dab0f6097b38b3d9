//! Runs of programs with deep expressions, and of one with a long chain of equations.
use crate::expected::expect_outcome;
use crate::{NONE, outcome_of};
use std::alloc::{AllocError, Global};
use std::process::Abort;
use std::test::Fail;

const INT: &[u8] = b"node main(x:int) returns (y:int) let y = ";

const BOOL: &[u8] = b"node main(x:bool) returns (y:bool) let y = ";

fn add(text: &mut Vec<u8>, piece: &[u8], times: usize) -> Result<(), AllocError> {
    for _ in 0..times {
        text.extend_from_slice(piece)?;
    }
    Ok(())
}

/// A program whose output is the input within so many brackets.
fn nested(
    alloc: Global,
    front: &[u8],
    open: &[u8],
    close: &[u8],
    times: usize,
) -> Result<Vec<u8>, AllocError> {
    let mut text = Vec::new(alloc);
    add(&mut text, front, 1)?;
    add(&mut text, open, times)?;
    add(&mut text, b"x", 1)?;
    add(&mut text, close, times)?;
    add(&mut text, b" tel", 1)?;
    Ok(text)
}

/// A run of the text, which writes this.
fn writes<R: Abort>(
    rt: &R,
    alloc: Global,
    text: &[u8],
    trace: &[u8],
    output: &[u8],
) -> Result<(), Fail> {
    let outcome = outcome_of(alloc, &["a.ept"], Some(text), trace, 99, NONE)?;
    expect_outcome(rt, outcome, 0, output, b"");
    Ok(())
}

#[test]
fn parentheses(rt: HostRuntime) -> Result<(), Fail> {
    let alloc = rt.alloc();
    let text = nested(alloc, INT, b"(", b")", 512)?;
    writes(&rt, alloc, text.as_slice(), b"7\n-8\n", b"7\n-8\n")
}

#[test]
fn minuses(rt: HostRuntime) -> Result<(), Fail> {
    let alloc = rt.alloc();
    let text = nested(alloc, INT, b"-", b"", 511)?;
    writes(&rt, alloc, text.as_slice(), b"7\n-8\n", b"-7\n8\n")
}

#[test]
fn sums_of_sums(rt: HostRuntime) -> Result<(), Fail> {
    let alloc = rt.alloc();
    let text = nested(alloc, INT, b"", b" + 1", 512)?;
    writes(&rt, alloc, text.as_slice(), b"7\n-8\n", b"519\n504\n")
}

#[test]
fn sums_in_parentheses(rt: HostRuntime) -> Result<(), Fail> {
    let alloc = rt.alloc();
    let text = nested(alloc, INT, b"1 + (", b")", 256)?;
    writes(&rt, alloc, text.as_slice(), b"7\n-8\n", b"263\n248\n")
}

#[test]
fn conditions(rt: HostRuntime) -> Result<(), Fail> {
    let alloc = rt.alloc();
    let text = nested(alloc, BOOL, b"if ", b" then false else true", 511)?;
    writes(
        &rt,
        alloc,
        text.as_slice(),
        b"true\nfalse\n",
        b"false\ntrue\n",
    )
}

#[test]
fn choices_of_choices(rt: HostRuntime) -> Result<(), Fail> {
    let alloc = rt.alloc();
    let text = nested(alloc, BOOL, b"if true then ", b" else false", 512)?;
    writes(
        &rt,
        alloc,
        text.as_slice(),
        b"true\nfalse\n",
        b"true\nfalse\n",
    )
}

#[test]
fn other_choices(rt: HostRuntime) -> Result<(), Fail> {
    let alloc = rt.alloc();
    let text = nested(alloc, BOOL, b"if false then true else ", b"", 512)?;
    writes(
        &rt,
        alloc,
        text.as_slice(),
        b"true\nfalse\n",
        b"true\nfalse\n",
    )
}

#[test]
fn delays(rt: HostRuntime) -> Result<(), Fail> {
    let alloc = rt.alloc();
    let text = nested(alloc, INT, b"0 fby ", b"", 512)?;
    writes(&rt, alloc, text.as_slice(), b"7\n-8\n", b"0\n0\n")
}

/// Adds the variables x1 to x1000 by their names.
fn add_names(alloc: Global, text: &mut Vec<u8>) -> Result<(), AllocError> {
    for i in 1..1000usize {
        let name = format!(in alloc; "x{i},")?;
        text.extend_from_slice(name.as_bytes())?;
    }
    text.extend_from_slice(b"x1000")
}

/// Adds an equation for each of them, which reads the one before it.
fn add_equations(alloc: Global, text: &mut Vec<u8>) -> Result<(), AllocError> {
    for i in 0..1000usize {
        let next = i + 1;
        let equation = format!(in alloc; "x{next} = x{i} + 1; ")?;
        text.extend_from_slice(equation.as_bytes())?;
    }
    Ok(())
}

#[test]
fn thousand_equations(rt: HostRuntime) -> Result<(), Fail> {
    let alloc = rt.alloc();
    let mut text = Vec::new(alloc);
    add(&mut text, b"node main(x0:int) returns (y:int) var ", 1)?;
    add_names(alloc, &mut text)?;
    add(&mut text, b":int; let ", 1)?;
    add_equations(alloc, &mut text)?;
    add(&mut text, b"y = x1000 tel", 1)?;
    writes(&rt, alloc, text.as_slice(), b"7\n-8\n", b"1007\n992\n")
}
