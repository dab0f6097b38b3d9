use crate::texts::program;
use std::alloc::Global;
use std::process::Abort;
use std::test::Fail;
use type_futures::check_types;

/// What the check of types says of a text; nothing where it accepts it.
fn said<R: Abort>(rt: &R, alloc: Global, text: &[u8]) -> Result<String, Fail> {
    match check_types(alloc, program(rt, alloc, text)) {
        Ok(_) => Ok(String::new(alloc)),
        Err(fault) => Ok(format!(in alloc; "{fault}")?),
    }
}

/// A node with so many inputs, of the names `a`, `aa`, `aaa` and so on.
fn with_inputs(alloc: Global, count: usize) -> Result<Vec<u8>, Fail> {
    let mut text = Vec::new(alloc);
    let mut name = Vec::new(alloc);
    text.extend_from_slice(b"node main(")?;
    for _ in 0..count {
        if !name.is_empty() {
            text.push(b',')?;
        }
        name.push(b'a')?;
        text.extend_from_slice(name.as_slice())?;
    }
    text.extend_from_slice(b":int) returns (y:int) let y = a tel")?;
    Ok(text)
}

#[test]
fn most_inputs(rt: HostRuntime) -> Result<(), Fail> {
    let alloc = rt.alloc();
    let text = with_inputs(alloc, 64)?;
    assert_eq!(&rt; said(&rt, alloc, text.as_slice())?.as_str(), "");
    Ok(())
}

// The first input too many is the 65th, before which 64 names and 64 commas stand.
#[test]
fn input_limit(rt: HostRuntime) -> Result<(), Fail> {
    let alloc = rt.alloc();
    let text = with_inputs(alloc, 65)?;
    assert_eq!(&rt;
        said(&rt, alloc, text.as_slice())?.as_str(),
        "limit at 2154: 65 of 64"
    );
    Ok(())
}

/// A type with one constructor, whose name has so many bytes.
fn with_constructor(alloc: Global, length: usize) -> Result<Vec<u8>, Fail> {
    let mut text = Vec::new(alloc);
    text.extend_from_slice(b" type t = ")?;
    for _ in 0..length {
        text.push(b'A')?;
    }
    Ok(text)
}

#[test]
fn longest_name(rt: HostRuntime) -> Result<(), Fail> {
    let alloc = rt.alloc();
    let text = with_constructor(alloc, 255)?;
    assert_eq!(&rt; said(&rt, alloc, text.as_slice())?.as_str(), "");
    Ok(())
}

// A constructor has the place of its type's declaration.
#[test]
fn name_limit(rt: HostRuntime) -> Result<(), Fail> {
    let alloc = rt.alloc();
    let text = with_constructor(alloc, 256)?;
    assert_eq!(&rt;
        said(&rt, alloc, text.as_slice())?.as_str(),
        "limit at 1: 256 of 255"
    );
    Ok(())
}
