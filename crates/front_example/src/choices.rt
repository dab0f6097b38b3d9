use crate::texts::typed;
use hept_ast::{NodeId, Typed};
use std::alloc::Global;
use std::process::Abort;
use std::test::Fail;
use type_futures::choose;

// Three nodes; the second one has an output of future type.
const NODES: &[u8] = b"node f(x:int) returns (z:int) let z = x tel
node g(x:int) returns (z:future int) let z = async f(x) tel
node h(x:int) returns (z:int) let z = !g(x) tel";

/// Asserts that this node is chosen.
fn chooses<R: Abort>(rt: &R, typed: &Typed, name: Option<&str>, node: u32) {
    assert!(rt; typed.program().nodes.len() < 100);
    match choose(typed, name) {
        Ok(chosen) => assert!(rt; chosen == NodeId(node)),
        Err(fault) => panic!(rt; "{fault}"),
    }
}

/// Asserts that no node is chosen, with this text.
fn refuses<R: Abort>(
    rt: &R,
    alloc: Global,
    typed: &Typed,
    name: Option<&str>,
    wanted: &str,
) -> Result<(), Fail> {
    assert!(rt; typed.program().nodes.len() < 100);
    match choose(typed, name) {
        Ok(_) => panic!(rt; "chosen"),
        Err(fault) => {
            let said = format!(in alloc; "{fault}")?;
            assert_eq!(rt; said.as_str(), wanted);
            Ok(())
        }
    }
}

#[test]
fn the_last_node_is_chosen(rt: HostRuntime) {
    chooses(&rt, &typed(&rt, rt.alloc(), NODES), None, 2);
}

#[test]
fn a_node_is_chosen_by_its_name(rt: HostRuntime) {
    chooses(&rt, &typed(&rt, rt.alloc(), NODES), Some("f"), 0);
}

#[test]
fn no_node_has_the_name(rt: HostRuntime) -> Result<(), Fail> {
    let alloc = rt.alloc();
    refuses(
        &rt,
        alloc,
        &typed(&rt, alloc, NODES),
        Some("main"),
        "no node",
    )
}

#[test]
fn an_output_is_a_future(rt: HostRuntime) -> Result<(), Fail> {
    let alloc = rt.alloc();
    let nodes = typed(&rt, alloc, NODES);
    refuses(&rt, alloc, &nodes, Some("g"), "future interface at 67")
}

#[test]
fn no_node_is_there(rt: HostRuntime) -> Result<(), Fail> {
    let alloc = rt.alloc();
    refuses(&rt, alloc, &typed(&rt, alloc, b""), None, "no node")
}
