use crate::expected::{DELAYED_SUM, expect, expect_outcome};
use crate::{NONE, outcome_of};
use std::test::Fail;

#[test]
fn bad_value(rt: HostRuntime) -> Result<(), Fail> {
    let text = b"node main(b:bool) returns (y:bool) let y = not b tel";
    let trace = b"true\nfalse\ntru\n";
    let line = b"hepasync: line 3: bad value at 0\n";
    expect(&rt, rt.alloc(), text, trace, 4, b"false\ntrue\n", line)
}

#[test]
fn too_many_values(rt: HostRuntime) -> Result<(), Fail> {
    let line = b"hepasync: line 2: too many values at 2\n";
    expect(&rt, rt.alloc(), DELAYED_SUM, b"1\n2 3\n", 4, b"0\n", line)
}

#[test]
fn too_few_values(rt: HostRuntime) -> Result<(), Fail> {
    let line = b"hepasync: line 2: too few values: 0\n";
    expect(&rt, rt.alloc(), DELAYED_SUM, b"1\n\n", 4, b"0\n", line)
}

#[test]
fn bad_value_behind_a_blank(rt: HostRuntime) -> Result<(), Fail> {
    let line = b"hepasync: line 3: bad value at 1\n";
    expect(
        &rt,
        rt.alloc(),
        DELAYED_SUM,
        b"1\n2\n x\n",
        4,
        b"0\n1\n",
        line,
    )
}

#[test]
fn long_line(rt: HostRuntime) -> Result<(), Fail> {
    let alloc = rt.alloc();
    let mut trace = Vec::new(alloc);
    trace.extend_from_slice(b"1\n")?;
    trace.extend_from_slice(vec![in alloc; b' '; 65_536]?.as_slice())?;
    let text = Some(DELAYED_SUM);
    let outcome = outcome_of(alloc, &["a.ept"], text, trace.as_slice(), 9, NONE)?;
    expect_outcome(&rt, outcome, 4, b"0\n", b"hepasync: line 2: too long\n");
    Ok(())
}
