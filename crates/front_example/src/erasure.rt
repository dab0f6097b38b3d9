use crate::texts::program;
use causality::accept;
use clock_calculus::check_clocks;
use erased_rules::erasure_laws;
use hept_ast::{Accepted, Program, erase};
use std::alloc::Global;
use std::process::Abort;
use type_futures::check_types;

// Accepted programs with calls by async and futures.
const WITH_FUTURES: &str =
    "node main(x:int) returns (y:int) let y = !(async f(x)) tel node f(x:int) returns (y:int) let y = x tel
node main(x:int) returns (y:int) var a : future int; let a = async f(x); y = 0 -> !(pre a) tel node f(x:int) returns (y:int) let y = x tel
node main(x:int) returns (y:int) let y = !(async 0 fby async<<3>> f(x)) tel node f(x:int) returns (y:int) let y = x tel
node main(x:int) returns (y:int) let y = !(async g(async f(x))) tel node f(x:int) returns (y:int) let y = x tel node g(a:future int) returns (y:int) let y = !a tel";

/// A program that is accepted.
fn accepted<R: Abort>(rt: &R, alloc: Global, program: Program) -> Accepted {
    let typed = match check_types(alloc, program) {
        Ok(typed) => typed,
        Err(fault) => panic!(rt; "{fault}"),
    };
    let clocked = match check_clocks(alloc, typed) {
        Ok(clocked) => clocked,
        Err(fault) => panic!(rt; "{fault}"),
    };
    assert!(rt; clocked.program().nodes.len() < 100);
    match accept(alloc, clocked) {
        Ok(accepted) => accepted,
        Err(fault) => panic!(rt; "{fault}"),
    }
}

#[test]
fn erased_programs_are_accepted(rt: HostRuntime) {
    let alloc = rt.alloc();
    for text in WITH_FUTURES.lines() {
        let before = accepted(&rt, alloc, program(&rt, alloc, text.as_bytes()));
        let erased = match erase(alloc, before.program()) {
            Ok(erased) => erased,
            Err(_) => panic!(&rt; "not erased: {text}"),
        };
        let after = accepted(&rt, alloc, erased);
        assert_eq!(&rt; after.program().nodes.len(), before.program().nodes.len());
    }
}

#[test]
fn laws_are_called() {
    erasure_laws();
}
