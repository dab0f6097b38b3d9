//! Texts, each with the tree that it spells.
use crate::show::{Page, show};
use ept_reader::read_program;
use std::alloc::Global;
use std::process::Abort;
use std::test::Fail;

/// Asserts that a text spells the tree that is written after it.
fn spells<R: Abort>(rt: &R, alloc: Global, row: &str) -> Result<(), Fail> {
    let Some((text, tree)) = row.split_once(" => ") else {
        panic!(rt; "no tree: {row}");
    };
    assert!(rt; text.len() < 1_000);
    let Ok(program) = read_program(alloc, text.as_bytes()) else {
        panic!(rt; "not read: {text}");
    };
    let mut page = Page::new(alloc);
    show(&mut page, &program)?;
    let Ok(written) = str::from_utf8(page.bytes.as_slice()) else {
        panic!(rt; "no text");
    };
    assert!(rt; written.trim_end() == tree, "{row}");
    Ok(())
}

/// Asserts it of each line.
fn all_spell<R: Abort>(rt: &R, alloc: Global, rows: &str) -> Result<(), Fail> {
    for row in rows.lines() {
        spells(rt, alloc, row)?;
    }
    Ok(())
}

const LEVELS: &str =
    "node n() returns (y:int) let y = -3 tel => node @0 n ; y @18 int ; ; define @29 y (-3 @33 )
node n() returns (y:int) let y = - x tel => node @0 n ; y @18 int ; ; define @29 y (- (x @35 ) @33 )
node n() returns (y:int) let y = - -2 tel => node @0 n ; y @18 int ; ; define @29 y (- (-2 @35 ) @33 )
node n() returns (y:int) let y = 1 - 2 - 3 tel => node @0 n ; y @18 int ; ; define @29 y (- (- (1 @33 ) (2 @37 ) @35 ) (3 @41 ) @39 )
node n() returns (y:int) let y = 5 % 2 mod 3 tel => node @0 n ; y @18 int ; ; define @29 y (% (% (5 @33 ) (2 @37 ) @35 ) (3 @43 ) @39 )
node n() returns (y:int) let y = not a & b or c tel => node @0 n ; y @18 int ; ; define @29 y (or (& (not (a @37 ) @33 ) (b @41 ) @39 ) (c @46 ) @43 )
node n() returns (y:int) let y = a or b & c = d + e * f tel => node @0 n ; y @18 int ; ; define @29 y (or (a @33 ) (& (b @38 ) (= (c @42 ) (+ (d @46 ) (* (e @50 ) (f @54 ) @52 ) @48 ) @44 ) @40 ) @35 )
node n() returns (y:int) let y = a <= b tel => node @0 n ; y @18 int ; ; define @29 y (<= (a @33 ) (b @38 ) @35 )
node n() returns (y:int) let y = (x) tel => node @0 n ; y @18 int ; ; define @29 y (x @34 )";

#[test]
fn levels(rt: HostRuntime) -> Result<(), Fail> {
    all_spell(&rt, rt.alloc(), LEVELS)
}

const DELAYS: &str =
    "node n() returns (y:int) let y = a fby b fby c tel => node @0 n ; y @18 int ; ; define @29 y (fby (a @33 ) (fby (b @39 ) (c @45 ) @41 ) @35 )
node n() returns (y:int) let y = a -> b -> c tel => node @0 n ; y @18 int ; ; define @29 y (-> (a @33 ) (-> (b @38 ) (c @43 ) @40 ) @35 )
node n() returns (y:int) let y = a when b whenot c tel => node @0 n ; y @18 int ; ; define @29 y (when false c (when true b (a @33 ) @35 ) @42 )
node n() returns (y:int) let y = a when Up(b) tel => node @0 n ; y @18 int ; ; define @29 y (when Up b (a @33 ) @35 )
node n() returns (y:int) let y = pre x tel => node @0 n ; y @18 int ; ; define @29 y (pre (x @37 ) @33 )
node n() returns (y:int) let y = !x tel => node @0 n ; y @18 int ; ; define @29 y (! (x @34 ) @33 )
node n() returns (y:int) let y = last x tel => node @0 n ; y @18 int ; ; define @29 y (last x @33 )";

#[test]
fn delays_and_samples(rt: HostRuntime) -> Result<(), Fail> {
    all_spell(&rt, rt.alloc(), DELAYS)
}

const CALLS: &str =
    "node n() returns (y:int) let y = if a then b else c tel => node @0 n ; y @18 int ; ; define @29 y (if (a @36 ) (b @43 ) (c @50 ) @33 )
node n() returns (y:int) let y = true tel => node @0 n ; y @18 int ; ; define @29 y (true @33 )
node n() returns (y:int) let y = Up tel => node @0 n ; y @18 int ; ; define @29 y (Up @33 )
node n() returns (y:int) let y = f() tel => node @0 n ; y @18 int ; ; define @29 y (call f @33 )
node n() returns (y:int) let y = f(x, 2) tel => node @0 n ; y @18 int ; ; define @29 y (call f (x @35 ) (2 @38 ) @33 )
node n() returns (y:int) let y = merge c (true -> x) (Up -> y) tel => node @0 n ; y @18 int ; ; define @29 y (merge c @41 true (x @50 ) @53 Up (y @60 ) @33 )
node n() returns (y:int) let y = async f(x) tel => node @0 n ; y @18 int ; ; define @29 y (async @2 f (x @41 ) @33 )
node n() returns (y:int) let y = async<<3>> f(x) tel => node @0 n ; y @18 int ; ; define @29 y (async @3 f (x @46 ) @33 )
node n() returns (y:int) let y = async -4 tel => node @0 n ; y @18 int ; ; define @29 y (async -4 @33 )";

#[test]
fn choices_and_calls(rt: HostRuntime) -> Result<(), Fail> {
    all_spell(&rt, rt.alloc(), CALLS)
}

const DECLARATIONS: &str = "type t = A | B => type @0 t A B
node n(a,b:int;c:future bool;) returns (last y:t = async -1) var z:int; let tel => node @0 n a @7 int b @9 int c @15 future bool ; y @45 t = async -1 ; z @65 int ;
node n() returns (y:int) let (a, b) = x; tel => node @0 n ; y @18 int ; ; define @29 a b (x @38 )";

#[test]
fn declarations(rt: HostRuntime) -> Result<(), Fail> {
    all_spell(&rt, rt.alloc(), DECLARATIONS)
}

const BLOCKS: &str =
    "node n() returns (y:int) let switch c | true do y = 1 | Up do var z:int in end tel => node @0 n ; y @18 int ; ; switch @29 (c @36 ) @38 true ; define @48 y (1 @52 ) @54 Up z @66 int ; end
node n() returns (y:int) let reset y = 3 every d tel => node @0 n ; y @18 int ; ; reset @29 ; define @35 y (3 @39 ) every (d @47 )
node n() returns (y:int) let automaton state A do until p then B unless | (q) continue A | r then B state B do end tel => node @0 n ; y @18 int ; ; automaton @29 state @39 A ; until @56 (p @56 ) then B unless @74 (q @75 ) continue A @91 (r @91 ) then B state @100 B ; until unless end";

#[test]
fn blocks(rt: HostRuntime) -> Result<(), Fail> {
    all_spell(&rt, rt.alloc(), BLOCKS)
}
