ghost use Rattle.std.specs.Prelude.{◌≡◌, ◌<◌, ◌^◌, IfOk, length, codes};
ghost use Rattle.hept_ast.specs.declared.tree.Ty.TheVariants as ty;

use hept_ast::{Decl, Memory, Name, Place, Plain, Program, Ty, TypeDec};
use hept_io::MemorySink;
use sqlite_items::Items;
use std::alloc::{AllocError, Global};
use std::process::Abort;
use std::test::Fail;
use step_objects::{Cell, Shape};
use trace_io::{RowFault, RowWriter, read_row};

fn name(alloc: Global, text: &[u8]) -> Result<Name, AllocError>
    ensures { IfOk result (λ n. n ≡ text.now) }
{
    match Name::of(alloc, text) {
        Ok(name) => Ok(name),
        Err(Memory) => Err(AllocError),
    }
}

fn declared(alloc: Global, text: &[u8], plain: Plain) -> Result<Decl, AllocError>
    ensures { IfOk result (λ d. d.ty ≡ ty.Plain plain) }
{
    Ok(Decl {
        place: Place(0),
        name: name(alloc, text)?,
        ty: Ty::Plain(plain),
        init: None,
    })
}

// type color = Red | Green
fn color(alloc: Global) -> Result<TypeDec, AllocError>
    ensures { IfOk result (λ d. (d.name ≡ codes "color") × (length d.constructors ≡ 2)) }
{
    let mut constructors = Items::new(alloc);
    constructors.push(name(alloc, b"Red")?)?;
    constructors.push(name(alloc, b"Green")?)?;
    Ok(TypeDec {
        place: Place(0),
        name: name(alloc, b"color")?,
        constructors,
    })
}

// The shape of rows of an int, a bool and a color.
fn shape(alloc: Global) -> Result<Shape, AllocError> {
    let mut types = Items::new(alloc);
    types.push(color(alloc)?)?;
    let program = Program {
        types,
        nodes: Items::new(alloc),
    };
    let mut row = Items::new(alloc);
    row.push(declared(alloc, b"n", Plain::Int)?)?;
    row.push(declared(alloc, b"b", Plain::Bool)?)?;
    row.push(declared(alloc, b"c", Plain::Named(name(alloc, b"color")?))?)?;
    match Shape::of(alloc, &program, row.as_slice()) {
        Ok(shape) => Ok(shape),
        Err(Memory) => Err(AllocError),
    }
}

// The text of the row that a line spells.
fn rewritten(alloc: Global, line: &[u8]) -> Result<Result<Vec<u8>, RowFault>, AllocError>
    requires { length line.now < 2 ^ 32 }
{
    let shape = shape(alloc)?;
    let mut cells = [Cell::Ready(7); 3];
    if shape.cells().len() != 3 {
        return Err(AllocError);
    }
    if let Err(fault) = read_row(&shape, line, &mut cells) {
        return Ok(Err(fault));
    }
    let mut sink = MemorySink::new(alloc, 3, Vec::new(alloc));
    if sink.reserve(100).is_err() {
        return Err(AllocError);
    }
    let Ok(mut writer) = RowWriter::new(alloc, &shape) else {
        return Err(AllocError);
    };
    if writer.row(&shape, &cells, &mut sink).is_err() {
        return Err(AllocError);
    }
    Ok(Ok(sink.bytes().to_vec(alloc)?))
}

fn expect<R: Abort>(rt: &R, alloc: Global, line: &[u8], text: &[u8]) -> Result<(), Fail>
    requires { length line.now < 2 ^ 32 }
{
    match rewritten(alloc, line)? {
        Ok(written) => assert_eq!(rt; written.as_slice(), text),
        Err(_) => assert!(rt; false),
    }
    Ok(())
}

fn refuse<R: Abort>(rt: &R, alloc: Global, line: &[u8], expected: RowFault) -> Result<(), Fail>
    requires { length line.now < 2 ^ 32 }
{
    match rewritten(alloc, line)? {
        Ok(_) => assert!(rt; false),
        Err(fault) => assert_eq!(rt; fault, expected),
    }
    Ok(())
}

#[test]
fn rows_are_read_and_written(rt: HostRuntime) -> Result<(), Fail> {
    let alloc = rt.alloc();
    expect(&rt, alloc, b"-5 true Green", b"-5 true Green\n")?;
    expect(&rt, alloc, b" \t007  false\tRed\r", b"7 false Red\n")?;
    expect(
        &rt,
        alloc,
        b"-2147483648 true Red",
        b"-2147483648 true Red\n",
    )?;
    expect(&rt, alloc, b"2147483647 true Red", b"2147483647 true Red\n")
}

#[test]
fn rows_with_other_counts(rt: HostRuntime) -> Result<(), Fail> {
    let alloc = rt.alloc();
    refuse(&rt, alloc, b"1 true", RowFault::TooFew { kept: 2 })?;
    refuse(&rt, alloc, b"1 true Red Red", RowFault::TooMany { at: 11 })
}

#[test]
fn bad_values(rt: HostRuntime) -> Result<(), Fail> {
    let alloc = rt.alloc();
    for (line, at) in [
        (b"1 1 Red".as_slice(), 2u32),
        (b"1 true Gree".as_slice(), 7),
        (b"2147483648 true Red".as_slice(), 0),
        (b"-2147483649 true Red".as_slice(), 0),
        (b"x true".as_slice(), 0),
    ] {
        refuse(&rt, alloc, line, RowFault::BadValue { at })?;
    }
    Ok(())
}
