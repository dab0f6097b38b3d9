ghost use Rattle.std.specs.Prelude.{◌≡◌, ◌≤◌, IfOk, IfSome, false, length};
ghost use Rattle.hept_io.specs.Lines.{lines_of, to_come};

use hept_io::{LineFault, LineReader, MemorySource, Source, StdSource, line_laws};
use std::alloc::{AllocError, Global};
use std::process::Abort;
use std::test::Fail;

// A caller's loop: the number of lines, where there are at most so many.
fn count_lines<S: Source>(
    reader: &mut LineReader,
    source: &mut S,
    limit: u64,
) -> Result<Option<u64>, LineFault>
    requires { reader.old.is_spent ≡ false }
    ensures { IfOk result (λ o. IfSome o (λ n.
        IfSome (to_come reader.old (S.left source.old)) (λ bytes. length (lines_of bytes) ≡ n))) }
{
    line_laws();
    let mut n = 0;
    for _ in 0..limit {
        match reader.next(source)? {
            Some(_) => n += 1,
            None => return Ok(Some(n)),
        }
    }
    Ok(None)
}

// The lines, each in brackets, and how it ended.
fn lines<S: Source>(alloc: Global, mut source: S) -> Result<Vec<u8>, AllocError>
where
    S: Drop,
{
    let mut text = Vec::new(alloc);
    let Ok(mut reader) = LineReader::new(alloc) else {
        return Err(AllocError);
    };
    for _ in 0..100 {
        if reader.spent() {
            break;
        }
        match reader.next(&mut source) {
            Ok(Some(line)) => {
                text.push(b'[')?;
                text.extend_from_slice(line)?;
                text.push(b']')?;
            }
            Ok(None) => text.extend_from_slice(b" end")?,
            Err(LineFault::Failed) => text.extend_from_slice(b" failed")?,
            Err(LineFault::TooLong) => text.extend_from_slice(b" too long")?,
        }
    }
    Ok(text)
}

// These lines, however the bytes come.
fn expect<R: Abort>(rt: &R, alloc: Global, bytes: &[u8], wanted: &[u8]) -> Result<(), Fail> {
    for chunk in 1..9usize {
        let source = MemorySource::new(bytes.to_vec(alloc)?, chunk, Vec::new(alloc));
        assert_eq!(rt; lines(alloc, source)?.as_slice(), wanted);
    }
    Ok(())
}

#[test]
fn lines_however_cut(rt: HostRuntime) -> Result<(), Fail> {
    expect(&rt, rt.alloc(), b"1\n\n2\r\n3", b"[1][][2\r][3] end")?;
    expect(&rt, rt.alloc(), b"a\nb\n", b"[a][b] end")?;
    expect(&rt, rt.alloc(), b"", b" end")
}

#[test]
fn failing_source(rt: HostRuntime) -> Result<(), Fail> {
    let alloc = rt.alloc();
    let source = MemorySource::new(b"1\n2\n34".to_vec(alloc)?, 3, [2].to_vec(alloc)?);
    assert_eq!(rt; lines(alloc, source)?.as_slice(), b"[1] failed".as_slice());
    Ok(())
}

#[test]
fn lines_of_a_stream(rt: HostRuntime) -> Result<(), Fail> {
    let source = StdSource::new(b"x\ny".as_slice());
    assert_eq!(rt;
        lines(rt.alloc(), source)?.as_slice(),
        b"[x][y] end".as_slice()
    );
    Ok(())
}

#[test]
fn long_lines(rt: HostRuntime) -> Result<(), Fail> {
    let alloc = rt.alloc();
    for (len, want) in [
        (65_535usize, Ok(Some(2u64))),
        (65_536, Err(LineFault::TooLong)),
    ] {
        let mut bytes = vec![in alloc; b'x'; len]?;
        bytes.extend_from_slice(b"\ny")?;
        let mut source = MemorySource::new(bytes, 1000, Vec::new(alloc));
        let mut reader = LineReader::new(alloc).expect(&rt, "memory");
        assert_eq!(rt; count_lines(&mut reader, &mut source, 10), want);
        assert!(rt; reader.spent());
        assert_eq!(rt; source.faults(), 0);
    }
    Ok(())
}
