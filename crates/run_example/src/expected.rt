use crate::{NONE, Outcome, outcome_of};
use std::alloc::Global;
use std::process::Abort;
use std::test::Fail;

pub(crate) const DELAYED_SUM: &[u8] =
    b"node main(x:int) returns (y:int) let y = 0 fby (y + x) tel\n";

pub(crate) fn expect_outcome<R: Abort>(
    rt: &R,
    outcome: Outcome,
    status: u8,
    output: &[u8],
    line: &[u8],
) {
    assert_eq!(rt; outcome.status, status);
    assert_eq!(rt; outcome.output.as_slice(), output);
    assert_eq!(rt; outcome.line.as_slice(), line);
}

// The same status, output and line, however the bytes come and go.
pub(crate) fn expect<R: Abort>(
    rt: &R,
    alloc: Global,
    text: &[u8],
    trace: &[u8],
    status: u8,
    output: &[u8],
    line: &[u8],
) -> Result<(), Fail> {
    for chunk in 1..6usize {
        let outcome = outcome_of(alloc, &["a.ept"], Some(text), trace, chunk, NONE)?;
        expect_outcome(rt, outcome, status, output, line);
    }
    Ok(())
}

// A run to the end of the trace, which writes this.
pub(crate) fn writes<R: Abort>(
    rt: &R,
    alloc: Global,
    text: &[u8],
    trace: &[u8],
    output: &[u8],
) -> Result<(), Fail> {
    expect(rt, alloc, text, trace, 0, output, b"")
}

// A program that is refused, with this line.
pub(crate) fn refuses<R: Abort>(
    rt: &R,
    alloc: Global,
    text: &[u8],
    line: &[u8],
) -> Result<(), Fail> {
    let outcome = outcome_of(alloc, &["a.ept"], Some(text), b"1\n", 9, NONE)?;
    expect_outcome(rt, outcome, 1, b"", line);
    Ok(())
}
