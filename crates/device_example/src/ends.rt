ghost use Rattle.std.specs.Prelude.{◌≤◌};

use hept_ast::{Name, Place};
use hept_io::MemorySink;
use run_messages::{BadRow, End, FileFault, Refusal, write_line};
use sqlite_items::Items;
use std::alloc::{AllocError, Global};
use std::process::Abort;
use std::test::Fail;
use trace_io::RowFault;

// What a sink holds after the line was written, and whether it was written whole.
fn written(
    alloc: Global,
    end: &End,
    chunk: usize,
    fails: &[u64],
) -> Result<(bool, Vec<u8>), AllocError>
    requires { 1 ≤ chunk }
{
    let mut sink = MemorySink::new(alloc, chunk, fails.to_vec(alloc)?);
    if sink.reserve(100).is_err() {
        return Err(AllocError);
    }
    let whole = write_line(end, &mut sink).is_ok();
    Ok((whole, sink.bytes().to_vec(alloc)?))
}

// This line, however much of it the sink takes at once.
fn expect<R: Abort>(rt: &R, alloc: Global, end: &End, line: &str) -> Result<(), Fail> {
    for chunk in 1..4usize {
        let (whole, bytes) = written(alloc, end, chunk, &[])?;
        assert!(rt; whole, "{line}");
        assert_eq!(rt; bytes.as_slice(), line.as_bytes());
    }
    Ok(())
}

fn expect_refusal<R: Abort>(
    rt: &R,
    alloc: Global,
    refusal: Refusal,
    line: &str,
) -> Result<(), Fail> {
    expect(rt, alloc, &End::Refused(refusal), line)
}

// Places to refuse at.
const AT: Place = Place(45);

const START: Place = Place(0);

#[test]
fn refused_texts(rt: HostRuntime) -> Result<(), Fail> {
    let alloc = rt.alloc();
    let refusal = Refusal::BadByte { at: AT };
    expect_refusal(&rt, alloc, refusal, "hepasync: refused: bad byte at 45\n")?;
    let refusal = Refusal::OpenComment { at: START };
    expect_refusal(
        &rt,
        alloc,
        refusal,
        "hepasync: refused: open comment at 0\n",
    )?;
    let refusal = Refusal::NumberTooLarge { at: AT };
    expect_refusal(
        &rt,
        alloc,
        refusal,
        "hepasync: refused: number too large at 45\n",
    )?;
    let refusal = Refusal::Unexpected { at: AT };
    expect_refusal(&rt, alloc, refusal, "hepasync: refused: unexpected at 45\n")?;
    let refusal = Refusal::TooDeep { at: AT };
    expect_refusal(&rt, alloc, refusal, "hepasync: refused: too deep at 45\n")
}

#[test]
fn refused_names_and_types(rt: HostRuntime) -> Result<(), Fail> {
    let alloc = rt.alloc();
    let refusal = Refusal::UnknownName { at: AT };
    expect_refusal(
        &rt,
        alloc,
        refusal,
        "hepasync: refused: unknown name at 45\n",
    )?;
    let refusal = Refusal::Duplicate { at: AT };
    expect_refusal(&rt, alloc, refusal, "hepasync: refused: duplicate at 45\n")?;
    let refusal = Refusal::Mismatch { at: AT };
    expect_refusal(&rt, alloc, refusal, "hepasync: refused: mismatch at 45\n")?;
    let refusal = Refusal::ZeroDivisor { at: AT };
    expect_refusal(
        &rt,
        alloc,
        refusal,
        "hepasync: refused: zero divisor at 45\n",
    )?;
    let refusal = Refusal::Recursive { at: AT };
    expect_refusal(&rt, alloc, refusal, "hepasync: refused: recursive at 45\n")?;
    let refusal = Refusal::NotDefined { at: AT };
    expect_refusal(
        &rt,
        alloc,
        refusal,
        "hepasync: refused: not defined at 45\n",
    )
}

#[test]
fn refused_futures_and_limits(rt: HostRuntime) -> Result<(), Fail> {
    let alloc = rt.alloc();
    let refusal = Refusal::FutureKept { at: AT };
    expect_refusal(
        &rt,
        alloc,
        refusal,
        "hepasync: refused: future kept at 45\n",
    )?;
    let refusal = Refusal::NestedAsync { at: AT };
    expect_refusal(
        &rt,
        alloc,
        refusal,
        "hepasync: refused: nested async at 45\n",
    )?;
    let refusal = Refusal::Limit {
        at: AT,
        kept: 0,
        limit: 1024,
    };
    expect_refusal(
        &rt,
        alloc,
        refusal,
        "hepasync: refused: limit at 45: 0 of 1024\n",
    )?;
    let refusal = Refusal::FutureInterface { at: AT };
    expect_refusal(
        &rt,
        alloc,
        refusal,
        "hepasync: refused: future interface at 45\n",
    )
}

#[test]
fn refused_programs(rt: HostRuntime) -> Result<(), Fail> {
    let alloc = rt.alloc();
    expect_refusal(&rt, alloc, Refusal::NoNode, "hepasync: refused: no node\n")?;
    let refusal = Refusal::NoClock { at: AT };
    expect_refusal(&rt, alloc, refusal, "hepasync: refused: no clock at 45\n")?;
    let refusal = Refusal::MayBeNil { at: AT };
    expect_refusal(&rt, alloc, refusal, "hepasync: refused: may be nil at 45\n")?;
    expect_refusal(
        &rt,
        alloc,
        Refusal::NotServed,
        "hepasync: refused: not served\n",
    )?;
    expect_refusal(
        &rt,
        alloc,
        Refusal::TooLarge { kept: 1_572_859 },
        "hepasync: refused: too large: 1572859 over 1000000\n",
    )
}

fn cycle(alloc: Global, names: &[&[u8]]) -> Result<Refusal, AllocError> {
    let mut vars = Items::new(alloc);
    for name in names {
        let Ok(name) = Name::of(alloc, name) else {
            return Err(AllocError);
        };
        vars.push(name)?;
    }
    Ok(Refusal::Cycle { vars })
}

#[test]
fn refused_cycles(rt: HostRuntime) -> Result<(), Fail> {
    let alloc = rt.alloc();
    expect_refusal(
        &rt,
        alloc,
        cycle(alloc, &[b"y"])?,
        "hepasync: refused: cycle: y\n",
    )?;
    let refusal = cycle(alloc, &[b"x", b"left_1", b"y"])?;
    expect_refusal(
        &rt,
        alloc,
        refusal,
        "hepasync: refused: cycle: x left_1 y\n",
    )
}

fn expect_bad_row<R: Abort>(rt: &R, alloc: Global, fault: BadRow, line: &str) -> Result<(), Fail> {
    expect(rt, alloc, &End::BadRow { line: 3, fault }, line)
}

#[test]
fn bad_rows(rt: HostRuntime) -> Result<(), Fail> {
    let alloc = rt.alloc();
    let fault = BadRow::Fault(RowFault::BadValue { at: 0 });
    expect_bad_row(&rt, alloc, fault, "hepasync: line 3: bad value at 0\n")?;
    let fault = BadRow::Fault(RowFault::TooMany { at: 2 });
    expect_bad_row(
        &rt,
        alloc,
        fault,
        "hepasync: line 3: too many values at 2\n",
    )?;
    let fault = BadRow::Fault(RowFault::TooFew { kept: 0 });
    expect_bad_row(&rt, alloc, fault, "hepasync: line 3: too few values: 0\n")?;
    expect_bad_row(&rt, alloc, BadRow::TooLong, "hepasync: line 3: too long\n")
}

#[test]
fn words_and_files(rt: HostRuntime) -> Result<(), Fail> {
    let alloc = rt.alloc();
    expect(&rt, alloc, &End::Usage, "hepasync: usage\n")?;
    let end = End::File(FileFault::Failed);
    expect(&rt, alloc, &end, "hepasync: file not read\n")?;
    let end = End::File(FileFault::TooLarge);
    expect(&rt, alloc, &end, "hepasync: file too large\n")?;
    let end = End::File(FileFault::Missing);
    expect(&rt, alloc, &end, "hepasync: no such file\n")
}

#[test]
fn other_ends(rt: HostRuntime) -> Result<(), Fail> {
    let alloc = rt.alloc();
    expect(&rt, alloc, &End::Ended, "")?;
    expect(
        &rt,
        alloc,
        &End::Limit(2),
        "hepasync: limit of 2 instants reached\n",
    )?;
    expect(&rt, alloc, &End::ReadFault, "hepasync: trace not read\n")?;
    expect(
        &rt,
        alloc,
        &End::WriteFault,
        "hepasync: output not written\n",
    )?;
    expect(&rt, alloc, &End::Memory, "hepasync: out of memory\n")
}

#[test]
fn failing_sink(rt: HostRuntime) -> Result<(), Fail> {
    let (whole, bytes) = written(rt.alloc(), &End::Limit(2), 5, &[5])?;
    assert!(rt; !whole);
    assert_eq!(rt; bytes.as_slice(), b"hepasync: limit of ".as_slice());
    Ok(())
}
