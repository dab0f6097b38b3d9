use crate::texts::typed;
use expanded_size::expanded_size;
use hept_ast::NodeId;
use std::alloc::Global;
use std::process::Abort;
use std::test::Fail;

/// Asserts that the node at this position has this expanded size.
fn has_size<R: Abort>(rt: &R, alloc: Global, text: &[u8], node: usize, wanted: u32) {
    let typed = typed(rt, alloc, text);
    let program = typed.program();
    assert!(rt; node < program.nodes.len() && node < 100);
    match expanded_size(alloc, program, NodeId(node as u32)) {
        Ok(size) => assert_eq!(rt; size, wanted),
        Err(_) => panic!(rt; "out of memory"),
    }
}

#[test]
fn sizes_without_calls(rt: HostRuntime) {
    let alloc = rt.alloc();
    has_size(
        &rt,
        alloc,
        b"node main(x:int) returns (y:int) let y = x tel",
        0,
        1,
    );
    has_size(
        &rt,
        alloc,
        b"node main(b:bool; x:int) returns (y:int) let y = merge b (true -> x when b) (false -> 0 fby 1) tel",
        0,
        6,
    );
    has_size(
        &rt,
        alloc,
        b"node main(b:bool; x:int) returns (y:int) let switch b | true do y = x | false do y = x + 1 end tel",
        0,
        5,
    );
}

// An async call counts as any other, and each call of a node counts its size again.
#[test]
fn sizes_with_calls(rt: HostRuntime) {
    let alloc = rt.alloc();
    let text = b"node main(x:int) returns (y:int) let y = !(async f(x)) + g(x) tel
node g(x:int) returns (y:int) let y = f(f(x)) tel
node f(x:int) returns (y:int) let y = -x tel";
    has_size(&rt, alloc, text, 2, 2);
    has_size(&rt, alloc, text, 1, 7);
    has_size(&rt, alloc, text, 0, 15);
}

/// A node of size 1, and so many that call the one before twice, each with 5 expressions of its own.
fn doubled(alloc: Global, times: usize) -> Result<Vec<u8>, Fail> {
    let mut text = Vec::new(alloc);
    let mut name = Vec::new(alloc);
    name.push(b'f')?;
    text.extend_from_slice(b"node f(x:int) returns (y:int) let y = x tel\n")?;
    for _ in 0..times {
        text.extend_from_slice(b"node f")?;
        text.extend_from_slice(name.as_slice())?;
        text.extend_from_slice(b"(x:int) returns (y:int) let y = ")?;
        text.extend_from_slice(name.as_slice())?;
        text.extend_from_slice(b"(x) + ")?;
        text.extend_from_slice(name.as_slice())?;
        text.extend_from_slice(b"(x) tel\n")?;
        name.push(b'f')?;
    }
    Ok(text)
}

#[test]
fn sizes_that_double(rt: HostRuntime) -> Result<(), Fail> {
    let alloc = rt.alloc();
    has_size(&rt, alloc, doubled(alloc, 18)?.as_slice(), 18, 1_572_859);
    Ok(())
}

// 6 times 2 to the 29th less 5 is the greatest that is kept as it is.
#[test]
fn sizes_beyond_those_kept(rt: HostRuntime) -> Result<(), Fail> {
    let alloc = rt.alloc();
    let text = doubled(alloc, 40)?;
    has_size(&rt, alloc, text.as_slice(), 29, 3_221_225_467);
    has_size(&rt, alloc, text.as_slice(), 30, 4_294_967_295);
    has_size(&rt, alloc, text.as_slice(), 40, 4_294_967_295);
    Ok(())
}
