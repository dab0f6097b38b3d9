use causality::accept;
use clock_calculus::check_clocks;
use ept_reader::read_program;
use erased_meaning::value_rows;
use hept_ast::{Accepted, NodeId, Rows};
use run_example::{NONE, outcome_of};
use std::alloc::Global;
use std::process::Abort;
use std::test::Fail;
use type_futures::check_types;

/// The names of values, for each type that has names.
const NAMES: [[&str; 2]; 2] = [["false", "true"], ["Coarse", "Fine"]];

// The value that a word stands for.
fn value_of<R: Abort>(rt: &R, word: &str) -> u32 {
    for names in NAMES {
        for (value, name) in names.iter().enumerate() {
            if *name == word {
                return value as u32;
            }
        }
    }
    match word.parse::<i32>() {
        Ok(number) => number.cast_unsigned(),
        Err(_) => panic!(rt; "no value: {word}"),
    }
}

// The rows of values that the lines of a text stand for.
fn values_of<R: Abort>(rt: &R, alloc: Global, text: &str) -> Result<Rows, Fail> {
    let mut rows = Rows::new(alloc);
    for line in text.lines() {
        let mut row = Vec::new(alloc);
        for word in line.split_whitespace() {
            row.push(value_of(rt, word))?;
        }
        if rows.push(alloc, row.as_slice()).is_err() {
            panic!(rt; "no memory");
        }
    }
    Ok(rows)
}

/// What a text spells, accepted.
fn accepted<R: Abort>(rt: &R, alloc: Global, text: &[u8]) -> Accepted {
    assert!(rt; text.len() < 1_000);
    let Ok(program) = read_program(alloc, text) else {
        panic!(rt; "not read");
    };
    let typed = match check_types(alloc, program) {
        Ok(typed) => typed,
        Err(fault) => panic!(rt; "{fault}"),
    };
    let clocked = match check_clocks(alloc, typed) {
        Ok(clocked) => clocked,
        Err(fault) => panic!(rt; "{fault}"),
    };
    assert!(rt; clocked.program().nodes.len() < 100);
    match accept(alloc, clocked) {
        Ok(accepted) => accepted,
        Err(fault) => panic!(rt; "{fault}"),
    }
}

// What a run writes is what the slow evaluator gives.
fn expect_values<R: Abort>(
    rt: &R,
    alloc: Global,
    text: &[u8],
    trace: &str,
    count: usize,
) -> Result<(), Fail> {
    let bytes = trace.as_bytes();
    let run = outcome_of(alloc, &["a.ept"], Some(text), bytes, 65_536, NONE)?;
    assert_eq!(rt; run.status, 0);
    let Ok(written) = str::from_utf8(run.output.as_slice()) else {
        panic!(rt; "no text");
    };
    let written = values_of(rt, alloc, written)?;
    let accepted = accepted(rt, alloc, text);
    let nodes = accepted.program().nodes.len();
    assert!(rt; nodes > 0 && nodes < 100);
    let main = NodeId((nodes - 1) as u32);
    let inputs = values_of(rt, alloc, trace)?;
    let Ok(outputs) = value_rows(alloc, &accepted, main, &inputs) else {
        panic!(rt; "no values");
    };
    assert_eq!(rt; outputs.len(), count);
    assert_eq!(rt; written.len(), count);
    for t in 0..count {
        assert!(rt; outputs.get(t) == written.get(t), "row {t}");
    }
    Ok(())
}

#[test]
fn delayed_sum(rt: HostRuntime) -> Result<(), Fail> {
    let text = b"node main(x:int) returns (y:int) let y = 0 fby (y + x) tel";
    expect_values(&rt, rt.alloc(), text, "1\n2\n3\n", 3)
}

#[test]
fn division(rt: HostRuntime) -> Result<(), Fail> {
    let text = b"node main(x:int) returns (q,r,n:int) let q = x / 2; r = x mod 2; n = x / -1 tel";
    expect_values(&rt, rt.alloc(), text, "-7\n-2147483648\n", 2)
}

#[test]
fn constructors(rt: HostRuntime) -> Result<(), Fail> {
    let text =
        b"type mode = Coarse | Fine\nnode main(m:mode) returns (k:mode; b:bool) let k = if m = Coarse then Fine else Coarse; b = m = Fine tel";
    expect_values(&rt, rt.alloc(), text, "Coarse\nFine\n", 2)
}

#[test]
fn memories(rt: HostRuntime) -> Result<(), Fail> {
    let text =
        b"node main(x:int) returns (y,z:int) let y = 0 -> z - pre z; z = x * 2 + (1 fby (z - y)) tel";
    expect_values(&rt, rt.alloc(), text, "5\n7\n4\n", 3)
}

#[test]
fn sums_on_two_clocks(rt: HostRuntime) -> Result<(), Fail> {
    let text =
        b"node main(c:bool; x:int) returns (y:int) var s,r:int; let s = (0 fby s) + (x when c); r = (x whenot c) -> pre (x whenot c); y = merge c (true -> s) (false -> r) tel";
    expect_values(
        &rt,
        rt.alloc(),
        text,
        "true 1\nfalse 2\ntrue 3\nfalse 4\nfalse 5\n",
        5,
    )
}

#[test]
fn calls(rt: HostRuntime) -> Result<(), Fail> {
    let text =
        b"node sum(x:int) returns (s,n:int) let s = (0 fby s) + x; n = 1 -> pre n + 1 tel node half(x:int) returns (y:int) let y = (x + (0 fby x)) / 2 tel node mean(c:bool; x:int) returns (y:int) var s,n:int; let (s, n) = sum(x); y = merge c (true -> half(s when c)) (false -> n whenot c) tel node main(c:bool; x:int) returns (y,z:int) let y = mean(c, x); z = mean(not c, y) tel";
    expect_values(&rt, rt.alloc(), text, "true 1\nfalse 2\ntrue 3\n", 3)
}
