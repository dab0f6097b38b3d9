use crate::texts::{clocked, unmarked, well_clocked};
use causality::{
    AcceptFault, CausalFault, InitFault, accept, check_causal, check_initial, cycle_laws,
};
use clock_calculus::ClockFault;
use std::alloc::Global;
use std::process::Abort;
use std::test::Fail;

// Each condition on clocks.
const NO_CLOCKS: &str = "node main(b:bool; x:int) returns (y:int) let y = x @when b tel
node main(b:bool; x:int) returns (y:int) var last z:int = 0 let z = x @when b; y = last z tel
node main(b:bool; x:int) returns (y:int) var z:int let switch b | true do z = 0 | false do z = 1 end; y = @merge b (true -> z) (false -> z) tel
node main(b:bool; x:int) returns (y:int) var z:int let z = x when b; @y = z tel
node main(b:bool; x:int) returns (y:int) let y = (x when b) @+ x tel
node main(b:bool; x:int) returns (y:int) let y = f(x, x @when b) tel node f(x, z:int) returns (y:int) let y = x tel
node main(b:bool; x:int) returns (y:int) var c:bool; z:int let c = b when b; z = x @when c; y = x tel
node main(b:bool; x:int) returns (y:int) let y = @merge b (true -> x) (false -> x whenot b) tel
node main(b:bool; x:int) returns (y:int) let y = merge b (true -> x @whenot b) (false -> x when b) tel
node main(b, c:bool) returns (y:int) let switch c @when b | true do y = 0 | false do y = 1 end tel
node main(b, c:bool) returns (y:int) let reset y = 0 every c @when b tel
node main(b, c:bool) returns (y:int) let automaton state A do y = 0 until c @when b then A end tel
node main(b:bool; x:int) returns (y:int) var z:int let z = x when b; switch b | true do y = @z | false do y = 0 end tel
node main(b, c:bool; x:int) returns (y:int) let switch b | true do y = x @when c | false do y = 0 end tel";

// Each demand for a defined value.
const UNDEFINED_VALUES: &str = "node main(x:int) returns (@y:int) let y = pre x tel
node main(x:int) returns (y:int) var last @z:int = 0 let z = pre x; y = last z tel
node main(b:bool; x:int) returns (y:int) var @z:int let switch b | true do z = pre x | false do z = 0 end; y = 0 -> z tel
node main(x:int) returns (y:int) var @z:int let automaton state A do z = pre x end; y = 0 -> z tel
node main(r:bool; x:int) returns (z:int) var @y:int; let reset y = pre x every r; z = 0 -> y tel
node main(x:int) returns (y:int) let y = f(@pre x) tel node f(x:int) returns (y:int) let y = x tel
node main(x:int) returns (y:int) let y = !(async f(@pre x)) tel node f(x:int) returns (y:int) let y = x tel
node main(b:bool) returns (y:int) let switch @pre b | true do y = 0 | false do y = 1 end tel
node main(b:bool) returns (y:int) let reset y = 0 every @pre b tel
node main(b:bool) returns (y:int) let automaton state A do y = 0 until @pre b then A end tel
node main(b:bool; x:int) returns (y:int) let y = 0 -> merge b (true -> @pre (x when b)) (false -> 0) tel
node main(x:int) returns (y:int) let y = 0 -> pre @pre x tel
node main(x:int) returns (y:int) let y = 0 fby @pre x tel
node main(b:bool; x:int) returns (y:int) var c:bool; z:int let c = pre b; z = x @when c; y = x tel
node main(b:bool; x:int) returns (y:int) var c:bool let c = pre b; y = @merge c (true -> x when c) (false -> x whenot c) tel";

// Programs that are accepted.
const ACCEPTED: &str =
    "node main() returns (last y : int = 0) let automaton state Up do y = last y + 1 until y = 3 then Down state Down do y = last y - 1 until y = 0 then Up end tel
node main(x:int) returns (y:int) let y = 0 fby (y + x) tel
node main(x:int) returns (y:int) let y = 0 -> pre (y + x) tel
node main(x:int) returns (y:int) var a : future int; let a = async f(x); y = 0 -> !(pre a) tel node f(x:int) returns (y:int) let y = x tel
node sum(x:int) returns (s:int) let s = x + (0 fby s) tel node main(c:bool; x:int) returns (y:int) let y = merge c (true -> sum(x when c)) (false -> 0) tel
node main(b:bool; x:int) returns (y:int) let y = merge b (true -> (x when b) + 1) (false -> 0) tel";

/// Asserts that a program has no clocks, for the condition at the place that is marked by `@`.
fn has_no_clock<R: Abort>(rt: &R, alloc: Global, marked: &str) -> Result<(), Fail> {
    let (place, text) = unmarked(alloc, marked)?;
    match clocked(rt, alloc, text.as_slice()) {
        Err(ClockFault::NoClock { at }) => {
            assert_eq!(rt; at.0 as usize, place, "{marked}");
            Ok(())
        }
        _ => panic!(rt; "accepted: {marked}"),
    }
}

/// Asserts that a demand at the place that is marked by `@` is not met.
fn may_be_nil<R: Abort>(rt: &R, alloc: Global, marked: &str) -> Result<(), Fail> {
    let (place, text) = unmarked(alloc, marked)?;
    let clocked = well_clocked(rt, alloc, text.as_slice());
    match check_initial(alloc, &clocked) {
        Err(InitFault::MayBeNil { at }) => assert_eq!(rt; at.0 as usize, place, "{marked}"),
        _ => panic!(rt; "accepted: {marked}"),
    }
    assert!(rt; clocked.program().nodes.len() < 100);
    match accept(alloc, clocked) {
        Err(AcceptFault::Initial(InitFault::MayBeNil { at })) => {
            assert_eq!(rt; at.0 as usize, place, "{marked}");
            Ok(())
        }
        _ => panic!(rt; "accepted: {marked}"),
    }
}

/// Asserts that a program has this cycle, as the names of its variables with a space between them.
fn has_cycle<R: Abort>(rt: &R, alloc: Global, names: &str, text: &str) -> Result<(), Fail> {
    let clocked = well_clocked(rt, alloc, text.as_bytes());
    assert!(rt; clocked.program().nodes.len() < 100);
    match check_causal(alloc, &clocked) {
        Err(CausalFault::Cycle { vars, .. }) => {
            let mut said = Vec::new(alloc);
            for (index, name) in vars.as_slice().iter().enumerate() {
                if index > 0 {
                    said.push(b' ')?;
                }
                for byte in name.bytes() {
                    said.push(*byte)?;
                }
            }
            assert!(rt; said.as_slice() == names.as_bytes(), "{text}");
            Ok(())
        }
        _ => panic!(rt; "accepted: {text}"),
    }
}

fn accepts<R: Abort>(rt: &R, alloc: Global, text: &str) {
    let clocked = well_clocked(rt, alloc, text.as_bytes());
    assert!(rt; clocked.program().nodes.len() < 100);
    match accept(alloc, clocked) {
        Ok(accepted) => assert!(rt; !accepted.program().nodes.is_empty()),
        Err(fault) => panic!(rt; "{fault}: {text}"),
    }
}

#[test]
fn no_clocks(rt: HostRuntime) -> Result<(), Fail> {
    for marked in NO_CLOCKS.lines() {
        has_no_clock(&rt, rt.alloc(), marked)?;
    }
    Ok(())
}

#[test]
fn undefined_values(rt: HostRuntime) -> Result<(), Fail> {
    for marked in UNDEFINED_VALUES.lines() {
        may_be_nil(&rt, rt.alloc(), marked)?;
    }
    Ok(())
}

// What a variable reads at its own instant.
#[test]
fn cycle_of_two_branches(rt: HostRuntime) -> Result<(), Fail> {
    has_cycle(
        &rt,
        rt.alloc(),
        "x y",
        "node main(c:bool) returns (x,y:int) let switch c | true do x = y; y = 0 | false do y = x; x = 0 end tel",
    )
}

#[test]
fn cycle_of_one(rt: HostRuntime) -> Result<(), Fail> {
    has_cycle(
        &rt,
        rt.alloc(),
        "y",
        "node main(x:int) returns (y:int) let y = y + x tel",
    )
}

#[test]
fn cycle_of_two(rt: HostRuntime) -> Result<(), Fail> {
    has_cycle(
        &rt,
        rt.alloc(),
        "y z",
        "node main(x:int) returns (y:int) var z:int let z = y; y = z tel",
    )
}

#[test]
fn cycle_through_a_scrutinee(rt: HostRuntime) -> Result<(), Fail> {
    has_cycle(
        &rt,
        rt.alloc(),
        "y",
        "node main(x:int) returns (y:int) let switch y > 0 | true do y = 0 | false do y = 1 end tel",
    )
}

#[test]
fn cycle_through_a_strong_condition(rt: HostRuntime) -> Result<(), Fail> {
    has_cycle(
        &rt,
        rt.alloc(),
        "y",
        "node main(x:int) returns (y:int) let automaton state A do y = 0 unless y > 0 then A end tel",
    )
}

#[test]
fn cycle_through_a_reset(rt: HostRuntime) -> Result<(), Fail> {
    has_cycle(
        &rt,
        rt.alloc(),
        "y",
        "node main(x:int) returns (y:int) let reset y = x every y > 3 tel",
    )
}

#[test]
fn cycle_through_a_call(rt: HostRuntime) -> Result<(), Fail> {
    has_cycle(
        &rt,
        rt.alloc(),
        "a",
        "node main(x:int) returns (y:int) var a, b:int let (a, b) = f(a); y = b tel node f(x:int) returns (a, b:int) let a = x; b = x tel",
    )
}

#[test]
fn cycle_through_a_merge(rt: HostRuntime) -> Result<(), Fail> {
    has_cycle(
        &rt,
        rt.alloc(),
        "c",
        "node main(x:int) returns (y:int) var c:bool let c = (merge c (true -> true) (false -> false)); y = x tel",
    )
}

#[test]
fn accepted(rt: HostRuntime) {
    for text in ACCEPTED.lines() {
        accepts(&rt, rt.alloc(), text);
    }
}

#[test]
fn laws_are_called() {
    cycle_laws();
}
