//! Nodes that call others.
use crate::expected::{expect_outcome, writes};
use crate::{NONE, outcome_of};
use std::alloc::{AllocError, Global};
use std::test::Fail;

/// The sum of the inputs so far.
const SUM: &str = "node sum(x:int) returns (s:int) let s = (0 fby s) + x tel ";

fn with_sum(alloc: Global, main: &str) -> Result<Vec<u8>, AllocError> {
    let mut text = String::new(alloc);
    text.push_str(SUM)?;
    text.push_str(main)?;
    Ok(text.into_bytes())
}

// The instants of a called node are those of its calls.
#[test]
fn call_on_a_clock(rt: HostRuntime) -> Result<(), Fail> {
    let main =
        "node main(c:bool; x:int) returns (y:int) let y = merge c (true -> sum(x when c)) (false -> 0) tel";
    let text = with_sum(rt.alloc(), main)?;
    let trace = b"true 5\nfalse 7\ntrue 2\n";
    writes(&rt, rt.alloc(), text.as_slice(), trace, b"5\n0\n7\n")
}

// Each call has memories of its own.
#[test]
fn called_twice(rt: HostRuntime) -> Result<(), Fail> {
    let main =
        "node main(x:int) returns (a,b,c:int) let a = sum(x); b = sum(a); c = sum(x * 2) - sum(sum(x)) tel";
    let text = with_sum(rt.alloc(), main)?;
    let output = b"1 1 1\n3 4 2\n6 10 2\n";
    writes(&rt, rt.alloc(), text.as_slice(), b"1\n2\n3\n", output)
}

// A node with two outputs, called by one that is called.
#[test]
fn several_outputs(rt: HostRuntime) -> Result<(), Fail> {
    let text =
        b"node minmax(a,b:int) returns (low,high:int) let low = if a < b then a else b; high = if a < b then b else a tel
node middle(a,b,c:int) returns (m:int) var l,h,n:int; let (l, h) = minmax(a, b); n = if c < h then c else h; m = if l < n then n else l tel
node main(a,b,c:int) returns (m:int; k:int) let m = middle(a, b, c); k = middle(c, 0 fby m, a) tel";
    let output = b"3 2\n4 3\n7 4\n";
    writes(&rt, rt.alloc(), text, b"2 5 3\n1 9 4\n8 7 -1\n", output)
}

// A call on a call's clock: the inner one is absent with the outer one.
#[test]
fn call_in_a_call_on_a_clock(rt: HostRuntime) -> Result<(), Fail> {
    let main =
        "node twice(c:bool; x:int) returns (y:int) let y = merge c (true -> sum(x when c)) (false -> sum(0 -> 1) whenot c) tel
node main(d,c:bool; x:int) returns (y:int) let y = merge d (true -> twice(c when d, x when d)) (false -> -1) tel";
    let text = with_sum(rt.alloc(), main)?;
    let trace = b"true true 5\nfalse true 7\ntrue false 2\ntrue true 1\ntrue false 4\n";
    let output = b"5\n-1\n1\n6\n3\n";
    writes(&rt, rt.alloc(), text.as_slice(), trace, output)
}

// A chain of as many nodes as a program may have.
#[test]
fn chain_of_nodes(rt: HostRuntime) -> Result<(), Fail> {
    let alloc = rt.alloc();
    let mut text = String::new(alloc);
    text.push_str("node n0(x:int) returns (y:int) let y = 0 fby x tel ")?;
    for k in 1..1_024u32 {
        let before = k - 1;
        let node = format!(in alloc;
            "node n{k}(x:int) returns (y:int) let y = n{before}(x) + 1 tel "
        )?;
        text.push_str(node.as_str())?;
    }
    let trace = b"7\n8\n";
    let outcome = outcome_of(alloc, &["a.ept"], Some(text.as_bytes()), trace, 9, NONE)?;
    expect_outcome(&rt, outcome, 0, b"1023\n1030\n", b"");
    Ok(())
}
