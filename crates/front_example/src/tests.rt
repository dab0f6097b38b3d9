use crate::texts::{program, unmarked};
use std::alloc::Global;
use std::process::Abort;
use std::test::Fail;
use type_futures::check_types;

// Types, constructors, variables, nodes and states that nobody declared, or that are not seen.
const UNKNOWN_NAMES: &str = "node main(@x:t) returns (y:int) let y = 0 tel
node main(x:int) returns (y:int) let y = x + @Foo tel
node main(x:int) returns (y:int) var last @z:int = Foo let z = x; y = 0 tel
node main(x:int) returns (y:int) let y = @z tel
node main(x:int) returns (y:int) let @z = 0; y = x tel
node main(x:int) returns (y:int) let y = x @when true(z) tel
node main(b:bool; x:int) returns (y:int) let y = x @when Foo(b) tel
node main(x:int) returns (y:int) let y = @merge z (true -> 0) (false -> 1) tel
node main(b:bool; x:int) returns (y:int) let y = merge b (true -> 0) (false -> 1) @(Foo -> 2) tel
node main(b:bool; x:int) returns (y:int) let switch b | true do y = 0 | false do y = 1 @| Foo do y = 2 end tel
node main(x:int) returns (y:int) let y = @g(x) tel
node main(x:int) returns (y:int) let y = !(@async g(x)) tel
node main(x:int) returns (y:int) let automaton state A do y = 0 until @x > 0 then B end tel
node main(x:int) returns (y:int) var z:int let z = 0; y = @last z tel
node main(b:bool; x:int) returns (y:int) let switch b | true do var z:int in z = 1; y = z | false do y = @z end tel
node main(x:int) returns (y:int) let automaton state A do var z:bool in z = true; y = 0 unless @z then A end tel";

// Second declarations, definitions, tags and states, and definitions of inputs.
const SECOND_NAMES: &str = "type t = A @type t = B node main(x:int) returns (y:int) let y = x tel
type t = A @type u = A node main(x:int) returns (y:int) let y = x tel
node f(x:int) returns (y:int) let y = x tel @node f(x:int) returns (y:int) let y = x tel
node main(x, @x:int) returns (y:int) let y = x tel
node main(b:bool; x:int) returns (y:int) let switch b | true do var z:int in z = 0; y = z | false do var @z:int in z = 1; y = z end tel
node main(x:int) returns (y:int) let y = 0; @y = 1 tel
node main(x:int) returns (y:int) let @(y, y) = f(x) tel node f(x:int) returns (a, b:int) let a = x; b = x tel
node main(x:int) returns (y:int) let @x = 0; y = 0 tel
node main(b:bool; x:int) returns (y:int) let switch b | true do y = 0 | false do y = 1 @| true do y = 2 end tel
node main(b:bool; x:int) returns (y:int) let y = merge b (true -> 0) (false -> 1) @(true -> 2) tel
node main(x:int) returns (y:int) let automaton state A do y = 0 @state A do y = 1 end tel";

// Operands that do not fit.
const MISMATCHES_OF_OPERATORS: &str = "node main(x:int) returns (y:int) let y = x @+ true tel
node main(b:bool; x:int) returns (y:int) let y = @-b tel
node main(x:int) returns (y:bool) let y = @not x tel
node main(x:int) returns (y:bool) let y = true @or x tel
node main(x:int) returns (y:bool) let y = x @= true tel
node main(x:int) returns (y:bool) let y = async 0 @= async 0 tel
node main(x:int) returns (y:bool) let y = true @< false tel
node main(x:int) returns (y:int) let y = @if x then 0 else 1 tel
node main(x:int) returns (y:int) let y = @if true then 0 else false tel
node main(x:int) returns (y:int) let y = 0 @fby true tel
node main(x:int) returns (y:int) let y = 0 @-> true tel
node main(x:int) returns (y:int) let y = @!x tel
node main(x:int) returns (y:int) let y = g(x) @+ 1 tel node g(x:int) returns (a, b:int) let a = x; b = x tel
node main(x:int) returns (y:int) let y = @pre g(x) tel node g(x:int) returns (a, b:int) let a = x; b = x tel";

// Tags and variables of `merge` and `when` that do not fit.
const MISMATCHES_OF_TAGS: &str =
    "node main(b:bool; x:int) returns (y:int) let y = @merge b (true -> 0) (false -> true) tel
node main(x:int) returns (y:int) let y = @merge x (true -> 0) (false -> 1) tel
type t = A node main(b:bool; x:int) returns (y:int) let y = merge b (true -> 0) (false -> 1) @(A -> 2) tel
type t = A node main(b:bool; x:int) returns (y:int) let y = x @when A(b) tel
node main(x:int) returns (y:int) let y = 1 @when true(x) tel
type t = A node main(b:bool; x:int) returns (y:int) let switch b | true do y = 0 | false do y = 1 @| A do y = 2 end tel";

// Arguments that do not fit.
const MISMATCHES_OF_CALLS: &str =
    "node main(x:int) returns (y:int) let y = @f(true) tel node f(x:int) returns (z:int) let z = x tel
node main(x:int) returns (y:int) let y = @f(x, x) tel node f(x:int) returns (z:int) let z = x tel
node main(x:int) returns (y:int) let y = @f() tel node f(x:int) returns (z:int) let z = x tel
node main(x:int) returns (y:int) let y = !(@async f(true)) tel node f(x:int) returns (z:int) let z = x tel
node main(x:int) returns (y:int) let y = @f(g(x)) tel node f(x:int) returns (z:int) let z = x tel node g(x:int) returns (a, b:int) let a = x; b = x tel";

// Sides, scrutinees, conditions and initial constants that do not fit.
const MISMATCHES_OF_EQUATIONS: &str = "node main(x:int) returns (y:int) let @y = true tel
node main(x:int) returns (y:int) let @y = g(x) tel node g(x:int) returns (a, b:int) let a = x; b = x tel
node main(x:int) returns (y, z:int) let @(y, z) = f(x) tel node f(x:int) returns (z:int) let z = x tel
node main(x:int) returns (y:int) let @switch x | true do y = 0 | false do y = 1 end tel
node main(x:int) returns (y:int) let @reset y = 0 every x tel
node main(x:int) returns (y:int) let automaton state A do y = 0 until @x then A end tel
node main(x:int) returns (y:int) var last @z:int = true let z = x; y = 0 tel
node main(x:int) returns (y:int) var last @z:int = async 0 let z = x; y = 0 tel
node main(x:int) returns (y:int) var last @z:future int = 0 let z = async 1; y = 0 tel";

// What a strong condition may not hold.
const STRONG_CONDITIONS: &str =
    "node main(b:bool; x:int) returns (y:int) let automaton state A do y = 0 unless b & (true @fby b) then A end tel
node main(b:bool; x:int) returns (y:int) let automaton state A do y = 0 unless b & @pre b then A end tel
node main(b:bool; x:int) returns (y:int) let automaton state A do y = 0 unless b & (true @-> b) then A end tel
node main(b:bool; x:int) returns (y:int) let automaton state A do y = 0 unless b & @h(x) then A end tel node h(x:int) returns (z:bool) let z = true tel
node main(b:bool; x:int) returns (y:int) let automaton state A do y = 0 unless b & !(@async h(x)) then A end tel node h(x:int) returns (z:bool) let z = true tel
node main(b:bool; x:int) returns (y:int) let automaton state A do y = 0 unless b & !(@async true) then A end tel
node main(b:bool; x:int) returns (y:int) var k:future bool let k = async true; automaton state A do y = 0 unless b & @!k then A end tel";

// Divisors that are no constants other than 0.
const ZERO_DIVISORS: &str = "node main(x:int) returns (y:int) let y = x @/ 0 tel
node main(x:int) returns (y:int) let y = x @% x tel
node main(x:int) returns (y:int) let y = x @/ (1 + 1) tel
node main(x:int) returns (y:int) let y = 1 + (x @mod 0) tel";

// Calls from which calls lead back.
const RECURSIVE_CALLS: &str = "node main(x:int) returns (y:int) let y = @main(x) tel
node main(x:int) returns (y:int) let y = @f(x) tel node f(x:int) returns (y:int) let y = main(x) tel
node main(x:int) returns (y:int) let y = @f(x) tel node f(x:int) returns (y:int) let y = g(x) tel node g(x:int) returns (y:int) let y = !(async main(x)) tel
node f(x:int) returns (y:int) let y = g(x) tel node g(x:int) returns (y:int) let y = @g(x) tel";

// Variables, branches, states and tags without definition.
const LACKING_DEFINITIONS: &str = "node main(x:int) returns (y, @z:int) let y = x tel
node main(x:int) returns (y:int) var @z:int let y = x tel
node main(b:bool; x:int) returns (y:int) let switch b | true do var @z:int in y = 0 | false do y = 1 end tel
node main(b:bool; x:int) returns (y:int) let switch b | true do y = 0 @| false do end tel
node main(x:int) returns (y:int) let automaton state A do y = 0 @state B do end tel
node main(b:bool; x:int) returns (y:int) let @switch b | true do y = 0 end tel
node main(b:bool; x:int) returns (y:int) let y = @merge b (true -> 0) tel";

// Futures that a node called by `async` gives or keeps.
const KEPT_FUTURES: &str =
    "node f(x:int) returns (@k:future int) let k = async 0 tel node main(x:int) returns (y:int) var k:future int let k = async f(x); y = 0 tel
node f(x:future int; b:bool) returns (y:int) var z:future int let z = @x when true(b); y = 0 tel node main(x:int) returns (y:int) var k:future int let k = async 0; y = !(async f(k, true)) tel";

// Calls by `async` in a node that such calls lead to.
const NESTED_CALLS: &str =
    "node f(x:int) returns (y:int) let y = !(@async g(x)) tel node g(x:int) returns (y:int) let y = x tel node main(x:int) returns (y:int) let y = !(async f(x)) tel
node h(x:int) returns (y:int) let y = !(@async g(x)) tel node g(x:int) returns (y:int) let y = x tel node f(x:int) returns (y:int) let y = h(x) tel node main(x:int) returns (y:int) let y = !(async f(x)) tel";

// An unknown name before a mismatch, and one at the place of a mismatch.
const FIRST_UNKNOWN_NAMES: &str = "node main(x:int) returns (y, z:int) let z = @w; y = x + true tel
node main(x:int) returns (y:int) let automaton state A do y = 0 until @x then B end tel";

// In turn: nodes and types before their text, with a call of two outputs; a branch that leaves a variable with `last` as
// it was; a weak condition that sees what its state declares; a future that is handed on and read by `!`; one that a
// node which no async call names keeps; futures in a merge; a reset with `->` and `pre`.
const ACCEPTED: &str =
    "node main(x:int) returns (y:int; m:mode) let (y, m) = g(x) tel node g(x:int) returns (y:int; m:mode) let y = x / 2 + x % (-3); m = if x > 0 then Up else Down tel type mode = Up | Down
node main(b:bool) returns (last y:int = 0) let switch b | true do y = last y + 1 | false do end tel
node main(x:int) returns (y:int) let automaton state A do var z:bool in z = x > 0; y = 0 until z then B state B do y = x unless x < 0 continue A end tel
node f(x:int) returns (z:int) let z = x * x tel node g(h:future int) returns (z:int) let z = !h + 1 tel node main(x:int) returns (y:int) let y = !(async g(async f(x))) tel
node f(x:int) returns (z:int) let z = x tel node g(h:future int) returns (k:future int) let k = async 0 fby h tel node main(x:int) returns (y:int) let y = !g(async f(x)) tel
node f(x:int) returns (z:int) let z = x tel node main(x:int; b:bool) returns (y:int) let y = merge b (true -> !(async f(x when b))) (false -> (0 fby y) whenot b) tel
node main(b:bool) returns (y:int) let reset y = 0 -> pre y + 1 every b tel";

/// Asserts that a program is refused for this, at the place that is marked by `@`.
fn refuses<R: Abort>(rt: &R, alloc: Global, kind: &str, marked: &str) -> Result<(), Fail> {
    let (place, text) = unmarked(alloc, marked)?;
    match check_types(alloc, program(rt, alloc, text.as_slice())) {
        Ok(_) => panic!(rt; "accepted: {marked}"),
        Err(fault) => {
            let said = format!(in alloc; "{fault}")?;
            let wanted = format!(in alloc; "{kind} at {place}")?;
            assert_eq!(rt; said.as_str(), wanted.as_str(), "{marked}");
            Ok(())
        }
    }
}

/// Asserts that a program is refused with this text.
fn says<R: Abort>(rt: &R, alloc: Global, wanted: &str, text: &str) -> Result<(), Fail> {
    match check_types(alloc, program(rt, alloc, text.as_bytes())) {
        Ok(_) => panic!(rt; "accepted: {text}"),
        Err(fault) => {
            let said = format!(in alloc; "{fault}")?;
            assert_eq!(rt; said.as_str(), wanted, "{text}");
            Ok(())
        }
    }
}

fn accepts<R: Abort>(rt: &R, alloc: Global, text: &str) {
    match check_types(alloc, program(rt, alloc, text.as_bytes())) {
        Ok(_) => {}
        Err(fault) => panic!(rt; "{fault}: {text}"),
    }
}

/// The same of each line.
fn refuses_each<R: Abort>(rt: &R, alloc: Global, kind: &str, lines: &str) -> Result<(), Fail> {
    for marked in lines.lines() {
        refuses(rt, alloc, kind, marked)?;
    }
    Ok(())
}

#[test]
fn unknown_names(rt: HostRuntime) -> Result<(), Fail> {
    refuses_each(&rt, rt.alloc(), "unknown name", UNKNOWN_NAMES)
}

#[test]
fn second_names(rt: HostRuntime) -> Result<(), Fail> {
    refuses_each(&rt, rt.alloc(), "duplicate", SECOND_NAMES)
}

#[test]
fn mismatches_of_operators(rt: HostRuntime) -> Result<(), Fail> {
    refuses_each(&rt, rt.alloc(), "mismatch", MISMATCHES_OF_OPERATORS)
}

#[test]
fn mismatches_of_tags(rt: HostRuntime) -> Result<(), Fail> {
    refuses_each(&rt, rt.alloc(), "mismatch", MISMATCHES_OF_TAGS)
}

#[test]
fn mismatches_of_calls(rt: HostRuntime) -> Result<(), Fail> {
    refuses_each(&rt, rt.alloc(), "mismatch", MISMATCHES_OF_CALLS)
}

#[test]
fn mismatches_of_equations(rt: HostRuntime) -> Result<(), Fail> {
    refuses_each(&rt, rt.alloc(), "mismatch", MISMATCHES_OF_EQUATIONS)
}

#[test]
fn strong_conditions(rt: HostRuntime) -> Result<(), Fail> {
    refuses_each(&rt, rt.alloc(), "mismatch", STRONG_CONDITIONS)
}

#[test]
fn zero_divisors(rt: HostRuntime) -> Result<(), Fail> {
    refuses_each(&rt, rt.alloc(), "zero divisor", ZERO_DIVISORS)
}

#[test]
fn recursive_calls(rt: HostRuntime) -> Result<(), Fail> {
    refuses_each(&rt, rt.alloc(), "recursive", RECURSIVE_CALLS)
}

#[test]
fn lacking_definitions(rt: HostRuntime) -> Result<(), Fail> {
    refuses_each(&rt, rt.alloc(), "not defined", LACKING_DEFINITIONS)
}

#[test]
fn kept_futures(rt: HostRuntime) -> Result<(), Fail> {
    refuses_each(&rt, rt.alloc(), "future kept", KEPT_FUTURES)
}

#[test]
fn nested_calls(rt: HostRuntime) -> Result<(), Fail> {
    refuses_each(&rt, rt.alloc(), "nested async", NESTED_CALLS)
}

#[test]
fn queue_of_no_place(rt: HostRuntime) -> Result<(), Fail> {
    says(
        &rt,
        rt.alloc(),
        "limit at 43: 0 of 1024",
        "node main(x:int) returns (y:int) let y = !(async<<0>> f(x)) tel
node f(x:int) returns (z:int) let z = x + 1 tel",
    )
}

#[test]
fn queue_limit(rt: HostRuntime) -> Result<(), Fail> {
    says(
        &rt,
        rt.alloc(),
        "limit at 43: 1025 of 1024",
        "node main(x:int) returns (y:int) let y = !(async<<1025>> f(x)) tel
node f(x:int) returns (z:int) let z = x + 1 tel",
    )
}

// A future that a node called by `async` keeps from one instant to the next.
#[test]
fn future_kept(rt: HostRuntime) -> Result<(), Fail> {
    says(
        &rt,
        rt.alloc(),
        "future kept at 62",
        "node g(h: future int) returns (z:int)
let z = !((async 0) fby h) tel
node main(x:int) returns (y:int) let y = !(async g(async f(x))) tel
node f(x:int) returns (z:int) let z = x + 1 tel
node top(x:int) returns (y:int) let y = main(x) tel",
    )
}

// The fault of a `when` whose variable nobody declared stands at the word.
#[test]
fn when_faults(rt: HostRuntime) -> Result<(), Fail> {
    says(
        &rt,
        rt.alloc(),
        "unknown name at 43",
        "node main(x:int) returns (y:int) let y = x when true(b) tel",
    )
}

// Of several faults the one of least place is answered.
#[test]
fn first_mismatch(rt: HostRuntime) -> Result<(), Fail> {
    refuses(
        &rt,
        rt.alloc(),
        "mismatch",
        "node main(x:int) returns (y, z:int) let z = x @+ true; y = w tel",
    )
}

// The same the other way round, and at one place the fault of least number.
#[test]
fn first_unknown_names(rt: HostRuntime) -> Result<(), Fail> {
    refuses_each(&rt, rt.alloc(), "unknown name", FIRST_UNKNOWN_NAMES)
}

// A fault below a sum leaves it without type, so that no mismatch stands at it.
#[test]
fn no_mismatch_above_a_fault(rt: HostRuntime) -> Result<(), Fail> {
    refuses(
        &rt,
        rt.alloc(),
        "zero divisor",
        "node main(x:int) returns (y:bool) let y = not (x @/ 0) tel",
    )
}

// Programs with nothing wrong in them.
#[test]
fn accepted(rt: HostRuntime) {
    let alloc = rt.alloc();
    for text in ACCEPTED.lines() {
        accepts(&rt, alloc, text);
    }
}
