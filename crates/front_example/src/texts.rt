//! Texts of programs, read and checked, and a place that is marked in a text.
use clock_calculus::{ClockFault, check_clocks};
use ept_reader::read_program;
use hept_ast::{Clocked, Program, Typed};
use std::alloc::Global;
use std::process::Abort;
use std::test::Fail;
use type_futures::check_types;

/// What a text spells.
pub(crate) fn program<R: Abort>(rt: &R, alloc: Global, text: &[u8]) -> Program {
    assert!(rt; text.len() < 100_000);
    match read_program(alloc, text) {
        Ok(program) => program,
        Err(_) => panic!(rt; "not read"),
    }
}

/// The program of a text in whose types nothing is wrong.
pub(crate) fn typed<R: Abort>(rt: &R, alloc: Global, text: &[u8]) -> Typed {
    match check_types(alloc, program(rt, alloc, text)) {
        Ok(typed) => typed,
        Err(fault) => panic!(rt; "{fault}"),
    }
}

/// The clocks of a text in whose types nothing is wrong.
pub(crate) fn clocked<R: Abort>(rt: &R, alloc: Global, text: &[u8]) -> Result<Clocked, ClockFault> {
    check_clocks(alloc, typed(rt, alloc, text))
}

/// The clocks of a text that has some.
pub(crate) fn well_clocked<R: Abort>(rt: &R, alloc: Global, text: &[u8]) -> Clocked {
    match clocked(rt, alloc, text) {
        Ok(clocked) => clocked,
        Err(fault) => panic!(rt; "{fault}"),
    }
}

/// The place that is marked by `@`, and the text without the mark.
pub(crate) fn unmarked(alloc: Global, marked: &str) -> Result<(usize, Vec<u8>), Fail> {
    let mut text = Vec::new(alloc);
    let mut place = 0;
    for (index, byte) in marked.as_bytes().iter().enumerate() {
        if *byte == b'@' {
            place = index;
        } else {
            text.push(*byte)?;
        }
    }
    Ok((place, text))
}
