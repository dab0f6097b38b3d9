use hept_ast::{
    Accepted, BinaryOp, Block, ClockPath, ClockStep, Clocked, Clocks, Const, Decl, Expr, Form,
    Init, Memory, Name, Node, NodeId, Place, Plain, Program, Rows, Tag, Ty, Typed, UnaryOp, binary,
    erase, erase_expr, meaning_laws, static_laws, transfer_laws, unary,
};
use sqlite_items::{Boxed, Items};
use std::alloc::{AllocError, Global};
use std::test::Fail;

fn name(alloc: Global, text: &[u8]) -> Result<Name, AllocError> {
    match Name::of(alloc, text) {
        Ok(name) => Ok(name),
        Err(Memory) => Err(AllocError),
    }
}

fn at(place: u32, form: Form) -> Expr {
    let place = Place(place);
    Expr { place, form }
}

// node main() returns (last y : future int = async 0) let tel
fn program(alloc: Global) -> Result<Program, AllocError> {
    let init = Init {
        ready: true,
        value: Const::Number(0),
    };
    let mut outputs = Items::new(alloc);
    outputs.push(Decl {
        place: Place(1),
        name: name(alloc, b"y")?,
        ty: Ty::Future(Plain::Int),
        init: Some(init),
    })?;
    let block = Block {
        locals: Items::new(alloc),
        body: Items::new(alloc),
    };
    let mut nodes = Items::new(alloc);
    nodes.push(Node {
        place: Place(0),
        name: name(alloc, b"main")?,
        inputs: Items::new(alloc),
        outputs,
        block,
    })?;
    let types = Items::new(alloc);
    Ok(Program { types, nodes })
}

// Whether the first output of a node is no future.
fn is_plain(node: &Node) -> bool {
    match node.outputs.as_slice().first() {
        Some(output) => matches!(output.ty, Ty::Plain(_)),
        None => false,
    }
}

fn all_plain(program: &Program) -> bool {
    match program.nodes.as_slice().first() {
        Some(node) => is_plain(node),
        None => false,
    }
}

#[test]
fn types_are_erased(rt: HostRuntime) -> Result<(), Fail> {
    let alloc = rt.alloc();
    let before = program(alloc)?;
    let plain_before = all_plain(&before);
    assert!(rt; !plain_before);
    let Ok(erased) = erase(alloc, &before) else {
        return Err(AllocError.into());
    };
    let plain = all_plain(&erased);
    assert!(rt; plain);
    Ok(())
}

#[test]
fn a_get_of_a_ready_future_is_erased(rt: HostRuntime) -> Result<(), Fail> {
    let alloc = rt.alloc();
    let future = at(7, Form::AsyncConst(Const::Number(5)));
    let get = at(6, Form::Get(Boxed::new(alloc, future)?));
    let Ok(erased) = erase_expr(alloc, &get) else {
        return Err(AllocError.into());
    };
    let place = erased.place;
    let constant = matches!(erased.form, Form::Const(Const::Number(5)));
    assert!(rt; place == Place(7));
    assert!(rt; constant);
    Ok(())
}

#[test]
fn laws_are_there() {
    meaning_laws();
    static_laws();
    transfer_laws();
}

#[test]
fn operators_wrap_and_divisions_truncate(rt: HostRuntime) {
    let low = 0x8000_0000;
    let minus_one = 0xffff_ffff;
    let minus_seven = 0xffff_fff9;
    let negated = unary(UnaryOp::Minus, low);
    let wrapped = binary(BinaryOp::Add, 0x7fff_ffff, 1);
    let quotient = binary(BinaryOp::Div, minus_seven, 2);
    let rest = binary(BinaryOp::Rem, minus_seven, 2);
    let lowest = binary(BinaryOp::Div, low, minus_one);
    let nothing = binary(BinaryOp::Rem, low, minus_one);
    assert_eq!(rt; negated, low);
    assert_eq!(rt; wrapped, low);
    assert_eq!(rt; quotient, 0xffff_fffd);
    assert_eq!(rt; rest, minus_one);
    assert_eq!(rt; lowest, low);
    assert_eq!(rt; nothing, 0);
}

#[test]
fn truth_values_are_compared_and_joined(rt: HostRuntime) {
    let denied = unary(UnaryOp::Not, 1);
    let either = binary(BinaryOp::Or, 0, 1);
    let both = binary(BinaryOp::And, 0, 1);
    let below = binary(BinaryOp::Lt, 0xffff_ffff, 1);
    let above = binary(BinaryOp::Ge, 0xffff_ffff, 1);
    assert_eq!(rt; denied, 0);
    assert_eq!(rt; either, 1);
    assert_eq!(rt; both, 0);
    assert_eq!(rt; below, 1);
    assert_eq!(rt; above, 0);
}

#[test]
fn a_program_without_text_is_typed(rt: HostRuntime) -> Result<(), Fail> {
    let alloc = rt.alloc();
    let types = Items::new(alloc);
    let nodes = Items::new(alloc);
    let typed = Typed::of(Program { types, nodes });
    let nodes = typed.program().nodes.as_slice().len();
    assert_eq!(rt; nodes, 0);
    Ok(())
}

fn on_true(alloc: Global, text: &[u8]) -> Result<ClockPath, AllocError> {
    let mut steps = Items::new(alloc);
    steps.push(ClockStep {
        tag: Tag::Truth(true),
        name: name(alloc, text)?,
    })?;
    Ok(ClockPath { steps })
}

fn steps_of(clocks: &Clocks, node: NodeId, name: &Name) -> Option<usize> {
    match clocks.get(node, name) {
        Some(path) => Some(path.steps.as_slice().len()),
        None => None,
    }
}

#[test]
fn a_clock_is_found_by_its_node_and_name(rt: HostRuntime) -> Result<(), Fail> {
    let alloc = rt.alloc();
    let mut clocks = Clocks::new(alloc);
    let node = NodeId(2);
    let long = on_true(alloc, b"c")?;
    let Ok(()) = clocks.set(alloc, node, name(alloc, b"x")?, long) else {
        return Err(AllocError.into());
    };
    let none = ClockPath {
        steps: Items::new(alloc),
    };
    let Ok(()) = clocks.set(alloc, node, name(alloc, b"y")?, none) else {
        return Err(AllocError.into());
    };
    let x = name(alloc, b"x")?;
    let y = name(alloc, b"y")?;
    let of_x = steps_of(&clocks, node, &x);
    let of_y = steps_of(&clocks, node, &y);
    let elsewhere = steps_of(&clocks, NodeId(1), &x);
    assert_eq!(rt; of_x, Some(1));
    assert_eq!(rt; of_y, Some(0));
    assert_eq!(rt; elsewhere, None);
    Ok(())
}

#[test]
fn a_second_clock_of_a_name_replaces_the_first(rt: HostRuntime) -> Result<(), Fail> {
    let alloc = rt.alloc();
    let mut clocks = Clocks::new(alloc);
    let node = NodeId(0);
    let long = on_true(alloc, b"c")?;
    let Ok(()) = clocks.set(alloc, node, name(alloc, b"x")?, long) else {
        return Err(AllocError.into());
    };
    let none = ClockPath {
        steps: Items::new(alloc),
    };
    let Ok(()) = clocks.set(alloc, node, name(alloc, b"x")?, none) else {
        return Err(AllocError.into());
    };
    let x = name(alloc, b"x")?;
    let of_x = steps_of(&clocks, node, &x);
    assert_eq!(rt; of_x, Some(0));
    Ok(())
}

#[test]
fn a_program_without_text_is_accepted(rt: HostRuntime) -> Result<(), Fail> {
    let alloc = rt.alloc();
    let types = Items::new(alloc);
    let nodes = Items::new(alloc);
    let typed = Typed::of(Program { types, nodes });
    let clocked = Clocked::of(typed, Clocks::new(alloc));
    let x = name(alloc, b"x")?;
    let unknown = clocked.clock_of(NodeId(0), &x).is_none();
    let typed_nodes = clocked.program().nodes.as_slice().len();
    assert!(rt; unknown);
    assert_eq!(rt; typed_nodes, 0);
    let accepted = Accepted::of(clocked);
    let still = accepted.clock_of(NodeId(0), &x).is_none();
    let nodes = accepted.program().nodes.as_slice().len();
    assert!(rt; still);
    assert_eq!(rt; nodes, 0);
    Ok(())
}

#[test]
fn rows_are_kept_in_their_order(rt: HostRuntime) -> Result<(), Fail> {
    let alloc = rt.alloc();
    let mut rows = Rows::new(alloc);
    assert!(rt; rows.is_empty());
    for row in [[1u32, 2], [3, 4]] {
        let Ok(()) = rows.push(alloc, &row) else {
            return Err(AllocError.into());
        };
    }
    assert_eq!(rt; rows.len(), 2);
    let second: &[u32] = &[3, 4];
    assert!(rt; rows.get(1) == Some(second));
    assert!(rt; rows.get(2).is_none());
    Ok(())
}
