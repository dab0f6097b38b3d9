use crate::expected::{DELAYED_SUM, expect_outcome};
use crate::{Failing, NONE, Outcome, outcome_of};
use std::alloc::{AllocError, Global};
use std::process::Abort;
use std::test::Fail;

fn expect_usage<R: Abort>(rt: &R, alloc: Global, words: &[&str]) -> Result<(), Fail> {
    let outcome = outcome_of(alloc, words, Some(DELAYED_SUM), b"1\n", 9, NONE)?;
    expect_outcome(rt, outcome, 2, b"", b"hepasync: usage\n");
    Ok(())
}

#[test]
fn usage(rt: HostRuntime) -> Result<(), Fail> {
    let alloc = rt.alloc();
    expect_usage(&rt, alloc, &[])?;
    expect_usage(&rt, alloc, &[""])?;
    expect_usage(&rt, alloc, &["-a"])?;
    expect_usage(&rt, alloc, &["a.ept", "--workers", "65"])
}

#[test]
fn large_file(rt: HostRuntime) -> Result<(), Fail> {
    let alloc = rt.alloc();
    let large = vec![in alloc; b' '; 1_048_577]?;
    let outcome = outcome_of(alloc, &["a.ept"], Some(large.as_slice()), b"1\n", 9, NONE)?;
    expect_outcome(&rt, outcome, 3, b"", b"hepasync: file too large\n");
    Ok(())
}

#[test]
fn missing_file(rt: HostRuntime) -> Result<(), Fail> {
    let outcome = outcome_of(rt.alloc(), &["a.ept"], None, b"1\n", 9, NONE)?;
    expect_outcome(&rt, outcome, 3, b"", b"hepasync: no such file\n");
    Ok(())
}

// A run over three rows in which these calls fail.
fn fails(alloc: Global, failing: Failing) -> Result<Outcome, AllocError> {
    let text = Some(DELAYED_SUM);
    outcome_of(alloc, &["a.ept"], text, b"1\n2\n3\n", 65_536, failing)
}

#[test]
fn failing_store(rt: HostRuntime) -> Result<(), Fail> {
    let failing = Failing {
        files: &[1],
        ..NONE
    };
    let outcome = fails(rt.alloc(), failing)?;
    expect_outcome(&rt, outcome, 3, b"", b"hepasync: file not read\n");
    Ok(())
}

#[test]
fn failing_sink(rt: HostRuntime) -> Result<(), Fail> {
    let outcome = fails(rt.alloc(), Failing { out: &[2], ..NONE })?;
    expect_outcome(&rt, outcome, 7, b"0\n", b"hepasync: output not written\n");
    Ok(())
}

#[test]
fn failing_source(rt: HostRuntime) -> Result<(), Fail> {
    let failing = Failing {
        trace: &[1],
        ..NONE
    };
    let outcome = fails(rt.alloc(), failing)?;
    expect_outcome(&rt, outcome, 6, b"", b"hepasync: trace not read\n");
    Ok(())
}

// The sink for the line fails, which changes neither the status nor the output.
#[test]
fn failing_line(rt: HostRuntime) -> Result<(), Fail> {
    let failing = Failing { err: &[2], ..NONE };
    let text = Some(DELAYED_SUM);
    let outcome = outcome_of(rt.alloc(), &["a.ept"], text, b"1\n2 3\n", 65_536, failing)?;
    expect_outcome(&rt, outcome, 4, b"0\n", b"hepasync: ");
    Ok(())
}
