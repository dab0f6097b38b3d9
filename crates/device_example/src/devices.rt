use hept_io::{
    DiskStore, Failed, Gate, MemorySink, MemoryStore, OpenGate, Sink, StdSink, Store, StoreFault,
};
use std::collections::BTreeMap;
use std::test::Fail;
use std::{env, fs, process};

#[test]
fn memory_sink(rt: HostRuntime) -> Result<(), Fail> {
    let alloc = rt.alloc();
    let mut sink = MemorySink::new(alloc, 2, [2].to_vec(alloc)?);
    assert_eq!(rt; sink.reserve(3), Ok(()));
    assert_eq!(rt; sink.write(b"abc"), Ok(2));
    assert_eq!(rt; sink.write(b"c"), Err(Failed));
    assert_eq!(rt; sink.write(b"c"), Ok(1));
    assert_eq!(rt; sink.bytes(), b"abc".as_slice());
    assert_eq!(rt; sink.faults(), 1);
    for _ in 0..100 {
        if sink.write(b"de") == Err(Failed) {
            assert_eq!(rt; sink.faults(), 2);
            return Ok(());
        }
    }
    panic!(rt; "no room was reserved");
}

#[test]
fn memory_store(rt: HostRuntime) -> Result<(), Fail> {
    let alloc = rt.alloc();
    let mut files = BTreeMap::new(alloc);
    files.insert(String::from_str(alloc, "a")?, b"one".to_vec(alloc)?)?;
    files.insert(String::from_str(alloc, "b")?, vec![in alloc; 0; 1_048_577]?)?;
    files.insert(String::from_str(alloc, "c")?, vec![in alloc; 0; 1_048_576]?)?;
    let mut store = MemoryStore::new(files, [2].to_vec(alloc)?);
    let mut out = b"old".to_vec(alloc)?;
    assert_eq!(rt; store.read_file("a", &mut out), Ok(()));
    assert_eq!(rt; out.as_slice(), b"one".as_slice());
    assert_eq!(rt; store.read_file("a", &mut out), Err(StoreFault::Failed));
    assert_eq!(rt; store.read_file("b", &mut out), Err(StoreFault::TooLarge));
    assert_eq!(rt; store.read_file("c", &mut out), Ok(()));
    assert_eq!(rt; store.read_file("d", &mut out), Err(StoreFault::Missing));
    assert_eq!(rt; out.len(), 0);
    assert_eq!(rt; store.faults(), 1);
    OpenGate.admit(0, 1);
    Ok(())
}

#[test]
fn streams(rt: HostRuntime) -> Result<(), Fail> {
    let mut sink = StdSink::new(Vec::<u8>::new(rt.alloc()));
    assert_eq!(rt; sink.write(b"abc"), Ok(3));
    let mut room = [0u8; 2];
    let mut full = StdSink::new(room.as_mut_slice());
    assert_eq!(rt; full.write(b"abc"), Ok(2));
    assert_eq!(rt; full.write(b"c"), Err(Failed));
    Ok(())
}

#[test]
fn files(rt: HostRuntime) -> Result<(), Fail> {
    let alloc = rt.alloc();
    let mut folder = env::temp_dir(&rt)?;
    let name = format!(in alloc; "device_example_{}", process::id(rt.process()))?;
    folder.push(name.as_str())?;
    let path = folder.as_path();
    let mut store = DiskStore::new(&rt);
    let mut out = b"old".to_vec(alloc)?;
    assert_eq!(rt;
        store.read_file(path.as_str(), &mut out),
        Err(StoreFault::Failed)
    );
    assert_eq!(rt; out.len(), 0);
    fs::write(&rt, path, "one")?;
    assert_eq!(rt; store.read_file(path.as_str(), &mut out), Ok(()));
    assert_eq!(rt; out.as_slice(), b"one".as_slice());
    for (len, want) in [
        (1_048_576usize, Ok(())),
        (1_048_577, Err(StoreFault::TooLarge)),
    ] {
        fs::write(&rt, path, vec![in alloc; b'x'; len]?.as_slice())?;
        assert_eq!(rt; store.read_file(path.as_str(), &mut out), want);
    }
    assert_eq!(rt; out.len(), 0);
    fs::remove_file(&rt, path)?;
    Ok(())
}
