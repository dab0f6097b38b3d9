use crate::expected::refuses;
use std::alloc::Global;
use std::process::Abort;
use std::test::Fail;

#[test]
fn undeclared(rt: HostRuntime) -> Result<(), Fail> {
    let text = b"node main(x:int) returns (y:int) let y = z tel";
    refuses(
        &rt,
        rt.alloc(),
        text,
        b"hepasync: refused: unknown name at 41\n",
    )
}

#[test]
fn empty_file(rt: HostRuntime) -> Result<(), Fail> {
    refuses(&rt, rt.alloc(), b"", b"hepasync: refused: no node\n")
}

// ---- programs that aren't run so far

fn not_served<R: Abort>(rt: &R, alloc: Global, text: &[u8]) -> Result<(), Fail> {
    refuses(rt, alloc, text, b"hepasync: refused: not served\n")
}

#[test]
fn last_value(rt: HostRuntime) -> Result<(), Fail> {
    let text = b"node main(x:int) returns (last y:int = 0) let y = x tel";
    not_served(&rt, rt.alloc(), text)
}

#[test]
fn block(rt: HostRuntime) -> Result<(), Fail> {
    let text = b"node main(x:int) returns (y:int) let reset y = x every x = 0 tel";
    not_served(&rt, rt.alloc(), text)
}

// Each node counts, also one that isn't run.
#[test]
fn other_node(rt: HostRuntime) -> Result<(), Fail> {
    let text =
        b"node f(x:int) returns (last y:int = 0) let y = x tel node main(x:int) returns (y:int) let y = x tel";
    not_served(&rt, rt.alloc(), text)
}

// ---- names, types, futures and limits

#[test]
fn duplicate(rt: HostRuntime) -> Result<(), Fail> {
    let text = b"node main(x:int) returns (y:int) let y = x; x = 1 tel";
    refuses(
        &rt,
        rt.alloc(),
        text,
        b"hepasync: refused: duplicate at 44\n",
    )
}

#[test]
fn mismatch(rt: HostRuntime) -> Result<(), Fail> {
    let text = b"node main(x:int) returns (y:int) let y = x + true tel";
    refuses(
        &rt,
        rt.alloc(),
        text,
        b"hepasync: refused: mismatch at 43\n",
    )
}

#[test]
fn zero_divisor(rt: HostRuntime) -> Result<(), Fail> {
    let text = b"node main(x:int) returns (y:int) let y = x / 0 tel";
    refuses(
        &rt,
        rt.alloc(),
        text,
        b"hepasync: refused: zero divisor at 43\n",
    )
}

#[test]
fn recursive(rt: HostRuntime) -> Result<(), Fail> {
    let text = b"node main(x:int) returns (y:int) let y = main(x) tel";
    refuses(
        &rt,
        rt.alloc(),
        text,
        b"hepasync: refused: recursive at 41\n",
    )
}

#[test]
fn not_defined(rt: HostRuntime) -> Result<(), Fail> {
    let text = b"node main(x:int) returns (y:int) let tel";
    refuses(
        &rt,
        rt.alloc(),
        text,
        b"hepasync: refused: not defined at 26\n",
    )
}

#[test]
fn future_interface(rt: HostRuntime) -> Result<(), Fail> {
    let text = b"node main(x:future int) returns (y:int) let y = !x tel";
    refuses(
        &rt,
        rt.alloc(),
        text,
        b"hepasync: refused: future interface at 10\n",
    )
}

#[test]
fn queue_limit(rt: HostRuntime) -> Result<(), Fail> {
    let text =
        b"node f(x:int) returns (z:int) let z = x tel node main(x:int) returns (y:int) let y = !(async<<0>> f(x)) tel";
    refuses(
        &rt,
        rt.alloc(),
        text,
        b"hepasync: refused: limit at 87: 0 of 1024\n",
    )
}

// ---- clocks, initialisation and causality

#[test]
fn when_faults(rt: HostRuntime) -> Result<(), Fail> {
    let alloc = rt.alloc();
    let text = b"node main(x:int) returns (y:int) let y = x when true(b) tel";
    refuses(&rt, alloc, text, b"hepasync: refused: unknown name at 43\n")?;
    let text = b"node main(b:bool; x:int) returns (y:int) let y = x when b tel";
    refuses(&rt, alloc, text, b"hepasync: refused: no clock at 51\n")
}

#[test]
fn nil_output(rt: HostRuntime) -> Result<(), Fail> {
    let text = b"node main(x:int) returns (y:int) let y = pre x tel";
    refuses(
        &rt,
        rt.alloc(),
        text,
        b"hepasync: refused: may be nil at 26\n",
    )
}

// A restart leaves `y` undefined at an instant at which `z` reads it.
#[test]
fn reset_makes_nil(rt: HostRuntime) -> Result<(), Fail> {
    let text =
        b"node main(r:bool; x:int) returns (z:int) var y:int; let reset y = pre x every r; z = 0 -> y tel";
    refuses(
        &rt,
        rt.alloc(),
        text,
        b"hepasync: refused: may be nil at 45\n",
    )
}

#[test]
fn self_cycle(rt: HostRuntime) -> Result<(), Fail> {
    let text = b"node main(x:int) returns (y:int) let y = y + x tel";
    refuses(&rt, rt.alloc(), text, b"hepasync: refused: cycle: y\n")
}

#[test]
fn cycle_over_branches(rt: HostRuntime) -> Result<(), Fail> {
    let text =
        b"node main(c:bool) returns (x,y:int) let switch c | true do x = y; y = 0 | false do y = x; x = 0 end tel";
    refuses(&rt, rt.alloc(), text, b"hepasync: refused: cycle: x y\n")
}

// A program that isn't accepted is refused so, also where it isn't served.
#[test]
fn refused_before_not_served(rt: HostRuntime) -> Result<(), Fail> {
    let alloc = rt.alloc();
    let text = b"type t = A node main(b:bool; x:int) returns (y:int) let y = x when b tel";
    refuses(&rt, alloc, text, b"hepasync: refused: no clock at 62\n")?;
    let text = b"node main(x:int) returns (y:int) let y = y * pre x tel";
    refuses(&rt, alloc, text, b"hepasync: refused: may be nil at 26\n")
}

// ---- texts that aren't read

#[test]
fn unexpected(rt: HostRuntime) -> Result<(), Fail> {
    let line = b"hepasync: refused: unexpected at 12\n";
    refuses(&rt, rt.alloc(), b"node main(x:", line)?;
    refuses(&rt, rt.alloc(), b"node main(x:in", line)
}

#[test]
fn open_comment(rt: HostRuntime) -> Result<(), Fail> {
    let line = b"hepasync: refused: open comment at 0\n";
    refuses(&rt, rt.alloc(), b"(* a", line)?;
    refuses(&rt, rt.alloc(), b"(* (* *)", line)
}

#[test]
fn number_too_large(rt: HostRuntime) -> Result<(), Fail> {
    let text = b"node main(x:int) returns (y:int) let y = -2147483648 tel";
    refuses(
        &rt,
        rt.alloc(),
        text,
        b"hepasync: refused: number too large at 42\n",
    )
}

#[test]
fn bad_byte(rt: HostRuntime) -> Result<(), Fail> {
    refuses(
        &rt,
        rt.alloc(),
        b"node ?",
        b"hepasync: refused: bad byte at 5\n",
    )
}

#[test]
fn too_deep(rt: HostRuntime) -> Result<(), Fail> {
    let alloc = rt.alloc();
    let mut text = Vec::new(alloc);
    text.extend_from_slice(b"node main(x:int) returns (y:int) let y = ")?;
    for _ in 0..513 {
        text.push(b'-')?;
    }
    text.extend_from_slice(b"x tel")?;
    refuses(
        &rt,
        alloc,
        text.as_slice(),
        b"hepasync: refused: too deep at 553\n",
    )
}

// ---- size

// Nodes n0 to n18, each of which calls the one before it twice.
#[test]
fn too_large(rt: HostRuntime) -> Result<(), Fail> {
    let alloc = rt.alloc();
    let mut text = String::new(alloc);
    text.push_str("node n0(x:int) returns (y:int) let y = x tel ")?;
    for k in 1..19u32 {
        let before = k - 1;
        let node = format!(in alloc;
            "node n{k}(x:int) returns (y:int) let y = n{before}(x) + n{before}(x) tel "
        )?;
        text.push_str(node.as_str())?;
    }
    let line = b"hepasync: refused: too large: 1572859 over 1000000\n";
    refuses(&rt, alloc, text.as_bytes(), line)
}
