use crate::expected::{DELAYED_SUM, expect_outcome, writes};
use crate::silent_outcome;
use std::test::Fail;

#[test]
fn delayed_sum(rt: HostRuntime) -> Result<(), Fail> {
    writes(&rt, rt.alloc(), DELAYED_SUM, b"1\n2\n3\n", b"0\n1\n3\n")
}

// A store that tells no files gives the same rows.
#[test]
fn silent_store(rt: HostRuntime) -> Result<(), Fail> {
    let outcome = silent_outcome(rt.alloc(), DELAYED_SUM, b"1\n2\n3\n")?;
    expect_outcome(&rt, outcome, 0, b"0\n1\n3\n", b"");
    Ok(())
}

#[test]
fn empty_trace(rt: HostRuntime) -> Result<(), Fail> {
    writes(&rt, rt.alloc(), DELAYED_SUM, b"", b"")
}

#[test]
fn sum_wraps(rt: HostRuntime) -> Result<(), Fail> {
    let text = b"node main(x:int) returns (y:int) let y = x + 1 tel";
    writes(&rt, rt.alloc(), text, b"2147483647\n", b"-2147483648\n")
}

#[test]
fn division(rt: HostRuntime) -> Result<(), Fail> {
    let text = b"node main(x:int) returns (q,r,n:int) let q = x / 2; r = x mod 2; n = x / -1 tel";
    let output = b"-3 -1 7\n-1073741824 0 -2147483648\n";
    writes(&rt, rt.alloc(), text, b"-7\n-2147483648\n", output)
}

#[test]
fn constructors(rt: HostRuntime) -> Result<(), Fail> {
    let text =
        b"type mode = Coarse | Fine\nnode main(m:mode) returns (k:mode; b:bool) let k = if m = Coarse then Fine else Coarse; b = m = Fine tel";
    let output = b"Fine false\nCoarse true\n";
    writes(&rt, rt.alloc(), text, b"Coarse\nFine\n", output)
}

// Truth values, constructors and a local variable are kept from one instant to the next.
#[test]
fn kept_values(rt: HostRuntime) -> Result<(), Fail> {
    let text =
        b"type t = A | B | C node main(x:int) returns (y:t; e:bool) var n:int; let n = 0 fby (n * 3 - x); y = C fby (if n < 0 then B else y); e = (true fby (y <> C)) or n > 4 & not (x = 1) tel";
    let output = b"C true\nC false\nB false\nB true\n";
    writes(&rt, rt.alloc(), text, b"2\n-9\n1\n0\n", output)
}

// A `fby` in the right operand of a `fby` is a memory of its own.
#[test]
fn nested_fby(rt: HostRuntime) -> Result<(), Fail> {
    let text = b"node main(x:int) returns (y:int) let y = 1 fby (2 fby (x - y)) tel";
    let trace = b"10\n20\n30\n40\n50\n";
    writes(&rt, rt.alloc(), text, trace, b"1\n2\n9\n18\n21\n")
}

#[test]
fn carriage_return(rt: HostRuntime) -> Result<(), Fail> {
    writes(&rt, rt.alloc(), DELAYED_SUM, b"1\n2\r\n3", b"0\n1\n3\n")
}

#[test]
fn no_inputs(rt: HostRuntime) -> Result<(), Fail> {
    let text = b"node main() returns (y:int) let y = 0 fby (y + 1) tel";
    writes(&rt, rt.alloc(), text, b"\n\n\n", b"0\n1\n2\n")
}

// Equations stand in any order.
#[test]
fn any_order(rt: HostRuntime) -> Result<(), Fail> {
    let text = b"node main(x:int) returns (y:int) var a:int; let y = a + 1; a = x tel";
    writes(&rt, rt.alloc(), text, b"4\n", b"5\n")
}

// The first operand of a `fby` is read at the first instant, after its equation.
#[test]
fn first_value_of_a_later_equation(rt: HostRuntime) -> Result<(), Fail> {
    let text = b"node main(x:int) returns (y:int; z:int) let y = z fby x; z = x + 5 tel";
    writes(&rt, rt.alloc(), text, b"1\n2\n3\n", b"6 6\n1 7\n2 8\n")
}

#[test]
fn arrow_and_pre(rt: HostRuntime) -> Result<(), Fail> {
    let text =
        b"node main(x:int) returns (y,z:int) let y = 0 -> x - pre x; z = 7 -> pre (z + x) tel";
    writes(&rt, rt.alloc(), text, b"5\n7\n4\n", b"0 7\n2 12\n-3 19\n")
}

#[test]
fn nested_memories(rt: HostRuntime) -> Result<(), Fail> {
    let text = b"node main(x:int) returns (y:int) let y = 1 + (2 -> pre (3 fby x)) tel";
    let trace = b"10\n20\n30\n40\n";
    writes(&rt, rt.alloc(), text, trace, b"3\n4\n11\n21\n")
}

// The last node is the one that is run.
#[test]
fn last_node(rt: HostRuntime) -> Result<(), Fail> {
    let text =
        b"node main(x:int) returns (y:int) let y = x tel node second(x,z:int) returns (y:int) let y = z - x tel";
    writes(&rt, rt.alloc(), text, b"3 1\n", b"-2\n")
}

// A sum moves only where its clock is present, and keeps its value where it is absent.
#[test]
fn sum_on_a_clock(rt: HostRuntime) -> Result<(), Fail> {
    let text =
        b"node main(c:bool; x:int) returns (y:int) var s:int; let s = (0 fby s) + (x when c); y = merge c (true -> s) (false -> 0) tel";
    let trace = b"true 1\nfalse 2\ntrue 3\ntrue 4\n";
    writes(&rt, rt.alloc(), text, trace, b"1\n0\n4\n8\n")
}

// The first instant of a clock is that at which it is first present.
#[test]
fn first_instant_of_a_clock(rt: HostRuntime) -> Result<(), Fail> {
    let text =
        b"node main(c:bool; x:int) returns (y:int) var s:int; let s = (x when c) -> pre (x when c); y = merge c (true -> s) (false -> -1) tel";
    let trace = b"false 1\ntrue 2\nfalse 3\ntrue 4\ntrue 5\n";
    writes(&rt, rt.alloc(), text, trace, b"-1\n2\n-1\n2\n4\n")
}

// A merge by a declared type, on a clock of its own, in another merge.
#[test]
fn merge_in_a_merge(rt: HostRuntime) -> Result<(), Fail> {
    let text =
        b"type t = A | B | C node main(c:bool; k:t; x:int) returns (y:int) var n:int; kc:t; let n = merge c (true -> merge kc (A -> 1) (B -> x when c when B(kc)) (C -> 3)) (false -> 0); y = n; kc = k when c tel";
    let trace = b"true A 7\ntrue B 8\nfalse B 9\ntrue C 5\n";
    writes(&rt, rt.alloc(), text, trace, b"1\n8\n0\n3\n")
}
