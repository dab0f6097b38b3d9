//! Bytes that are cut, bytes that are no text, and each front of a text.
ghost use Rattle.std.specs.Prelude.{◌<◌, ◌^◌, length};

use ept_reader::{CutFault, Kind, ReadFault, cut, read_program};
use hept_ast::Place;
use std::alloc::Global;
use std::process::Abort;
use std::test::Fail;

/// Asserts that the text is cut into tokens of these kinds.
fn assert_kinds(rt: &impl Abort, alloc: Global, text: &[u8], kinds: &[Kind])
    requires { length text.now < 2 ^ 32 }
{
    match cut(alloc, text) {
        Ok(tokens) => {
            assert_eq!(rt; tokens.len(), kinds.len());
            for (token, kind) in tokens.as_slice().iter().zip(kinds) {
                assert!(rt; token.kind == *kind);
            }
        }
        Err(_) => assert!(rt; false),
    }
}

fn assert_fault(rt: &impl Abort, alloc: Global, text: &[u8], fault: CutFault)
    requires { length text.now < 2 ^ 32 }
{
    match cut(alloc, text) {
        Ok(_) => assert!(rt; false),
        Err(found) => assert!(rt; found == fault),
    }
}

#[test]
fn tokens(rt: HostRuntime) {
    let alloc = rt.alloc();
    assert_kinds(&rt, alloc, b"", &[]);
    assert_kinds(&rt, alloc, b" \t\r\n", &[]);
    assert_kinds(
        &rt,
        alloc,
        b"<= < <> << -> - >> >=",
        &[
            Kind::AtMost,
            Kind::Less,
            Kind::Differ,
            Kind::OpenAngle,
            Kind::Arrow,
            Kind::Minus,
            Kind::CloseAngle,
            Kind::AtLeast,
        ],
    );
    assert_kinds(
        &rt,
        alloc,
        b"fby fby_x(* (* *) *)Up 12ab",
        &[
            Kind::Fby,
            Kind::Lower,
            Kind::Upper,
            Kind::Number,
            Kind::Lower,
        ],
    );
    assert_kinds(&rt, alloc, b"2147483647", &[Kind::Number]);
}

#[test]
fn faults_of_tokens(rt: HostRuntime) {
    let alloc = rt.alloc();
    assert_fault(
        &rt,
        alloc,
        b"(* (* *)",
        CutFault::OpenComment { at: Place(0) },
    );
    assert_fault(&rt, alloc, b"x (*)", CutFault::OpenComment { at: Place(2) });
    assert_fault(&rt, alloc, b"node ?", CutFault::BadByte { at: Place(5) });
    assert_fault(
        &rt,
        alloc,
        b"y = -2147483648 ?",
        CutFault::NumberTooLarge { at: Place(5) },
    );
}

#[test]
fn delayed_sum(rt: HostRuntime) -> Result<(), Fail> {
    let text = b"node main(x:int) returns (y:int) let y = 0 fby (y + x) tel";
    match read_program(rt.alloc(), text) {
        Ok(program) => {
            assert_eq!(rt; program.nodes.len(), 1);
            for node in program.nodes.as_slice() {
                assert_eq!(rt; node.name.bytes(), b"main".as_slice());
                assert_eq!(rt; node.block.body.len(), 1);
            }
        }
        Err(_) => assert!(rt; false),
    }
    Ok(())
}

fn assert_read_fault(rt: &impl Abort, alloc: Global, text: &[u8], fault: ReadFault)
    requires { length text.now < 2 ^ 32 }
{
    match read_program(alloc, text) {
        Ok(_) => assert!(rt; false),
        Err(found) => assert!(rt; found == fault),
    }
}

#[test]
fn reader_faults(rt: HostRuntime) {
    let alloc = rt.alloc();
    let unexpected = ReadFault::Unexpected { at: Place(12) };
    assert_read_fault(&rt, alloc, b"node main(x:", unexpected);
    // `in` is reserved
    assert_read_fault(&rt, alloc, b"node main(x:in", unexpected);
    let open = ReadFault::OpenComment { at: Place(0) };
    assert_read_fault(&rt, alloc, b"(* (* *)", open);
    let large = ReadFault::NumberTooLarge { at: Place(42) };
    let text = b"node main(x:int) returns (y:int) let y = -2147483648 tel";
    assert_read_fault(&rt, alloc, text, large);
    let bad = ReadFault::BadByte { at: Place(5) };
    assert_read_fault(&rt, alloc, b"node ?", bad);
}

const POINTING: &[u8] = b"type mode = Coarse | Fine
node estimate(star:int) returns (att:int)
let att = star + ((0 fby att) / 2) tel
node main(gyro,star:int) returns (cmd:int; m:mode)
var t,est:int; tick:bool; f1 : future int;
let
  t = 0 fby (if t = 9 then 0 else t + 1);
  tick = (t = 0);
  f1 = async estimate(star when tick);
  est = merge tick (true -> !((async 0) fby f1)) (false -> (0 fby est) whenot tick);
  automaton
    state Far do m = Coarse; cmd = 0 - (est / 4) - gyro
      until est < 100 & est > -100 then Near
    state Near do m = Fine; cmd = 0 - (est / 16) - gyro / 2
      unless est >= 100 or est <= -100 then Far
  end
tel
";

fn place_of(fault: ReadFault) -> Option<u32> {
    match fault {
        ReadFault::BadByte { at } => Some(at.0),
        ReadFault::OpenComment { at } => Some(at.0),
        ReadFault::NumberTooLarge { at } => Some(at.0),
        ReadFault::Unexpected { at } => Some(at.0),
        ReadFault::TooDeep { at } => Some(at.0),
        ReadFault::Memory => None,
    }
}

#[test]
fn prefixes_of_pointing(rt: HostRuntime) {
    let alloc = rt.alloc();
    assert!(rt; POINTING.len() < 1_000);
    let mut whole = 0u32;
    for length in 0..=POINTING.len() {
        match read_program(alloc, &POINTING[..length]) {
            Ok(_) => whole = whole.saturating_add(1),
            Err(fault) => match place_of(fault) {
                Some(place) => assert!(rt; place as usize <= length),
                None => assert!(rt; false),
            },
        }
    }
    // nothing at all is a program, and so are types and nodes from the first on
    assert!(rt; whole > 3);
}
