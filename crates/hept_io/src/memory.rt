//! Sources, sinks and stores in memory, for tests.
ghost use Rattle.std.specs.Prelude.{◌≡◌, ◌+◌, ◌-◌, ◌<◌, ◌≤◌, ◌↔◌, [], Some, IfOk, IsErr, IsTrue, OnOk, OnErr, Contains, drop, length, min, take, vec_len, vec_capacity, true, false, ◌⊎◌};
ghost use Rattle.std.specs.Io.KnownBytes.{Appends, Consumes, IsAtEnd, Keeps};
ghost use Rattle.hept_io.specs.Outside.{Rose, files_of, one_more};

use crate::outside::{FILE_LIMIT, Failed, Gate, Memory, Sink, Source, Store, StoreFault};
use std::alloc::Global;
use std::collections::BTreeMap;

/// The calls of an object, some of which fail.
#[derive(Drop)]
struct Calls {
    // counted from 1
    fails: Vec<u64>,
    made: u64,
    faults: u64,
}

impl Calls {
    fn new(fails: Vec<u64>) -> Calls
        ensures { result ≡ record { fails = fails; made = 0; faults = 0 } }
    {
        Calls {
            fails,
            made: 0,
            faults: 0,
        }
    }

    /// Counts a call, and answers whether it is one that fails.
    fn next_fails(&mut self) -> bool
        ensures listed { IsTrue result ↔ Contains self.old.fails.items (one_more self.old.made) }
        ensures made { self.new.made ≡ one_more self.old.made }
        ensures same { self.new.fails ≡ self.old.fails }
        ensures kept { result ≡ false → self.new.faults ≡ self.old.faults }
        ensures cause { result ≡ true → Rose self.old.faults self.new.faults }
        ensures count { self.old.faults ≤ self.new.faults }
    {
        self.made = self.made.saturating_add(1);
        let fails = self.fails.contains(&self.made);
        if fails {
            self.fail();
        }
        fails
    }

    /// Counts a fault.
    fn fail(&mut self)
        ensures same { self.new ≡ record self.old { faults = one_more self.old.faults } }
        ensures cause { Rose self.old.faults self.new.faults }
        ensures count { self.old.faults ≤ self.new.faults }
    {
        self.faults = self.faults.saturating_add(1);
    }
}

/// Gives bytes in pieces of at most `chunk` bytes.
#[derive(Drop)]
pub struct MemorySource {
    bytes: Vec<u8>,
    at: usize,
    chunk: usize,
    calls: Calls,
    ghost within: { at ≤ vec_len bytes },
    ghost some: { 1 ≤ chunk },
}

impl MemorySource {
    /// `fails` are the calls that fail, counted from 1.
    pub fn new(bytes: Vec<u8>, chunk: usize, fails: Vec<u64>) -> MemorySource
        requires { 1 ≤ chunk }
        ensures left { ⟦<MemorySource as Source>⟧.left result ≡ Some bytes.items }
        ensures faults { ⟦<MemorySource as Source>⟧.faults result ≡ 0 }
    {
        MemorySource {
            bytes,
            at: 0,
            chunk,
            calls: Calls::new(fails),
        }
    }

    pub fn faults(&self) -> u64
        ensures { result ≡ ⟦<MemorySource as Source>⟧.faults self.now }
    {
        self.calls.faults
    }
}

impl Source for MemorySource {
    ghost use Rattle.std.specs.Prelude.{Some, drop};

    ghost left = { λ s. Some (drop s.at s.bytes.items) };

    ghost faults = { λ s. s.calls.faults };

    fn read(&mut self, buf: &mut [u8]) -> Result<usize, Failed>
        ensures bound { IfOk result (λ n. n ≤ length buf.new) }
        ensures taken { IfOk result (λ n. Consumes (Some (drop self.old.at self.old.bytes.items))
            (Some (drop self.new.at self.new.bytes.items)) (take n buf.new)) }
        ensures end { IfOk result (λ n. n ≡ 0 → 0 < length buf.new
            → IsAtEnd (Some (drop self.new.at self.new.bytes.items))) }
        ensures none_taken { OnErr result (Keeps (Some (drop self.old.at self.old.bytes.items))
            (Some (drop self.new.at self.new.bytes.items))) }
        ensures cause { OnErr result (Rose self.old.calls.faults self.new.calls.faults) }
        ensures count { self.old.calls.faults ≤ self.new.calls.faults }
        ensures amount { IfOk result (λ n.
            n ≡ min self.old.chunk (min (vec_len self.old.bytes - self.old.at) (length buf.old))) }
        ensures listed { IsErr result ↔ Contains self.old.calls.fails.items (one_more self.old.calls.made) }
    {
        if self.calls.next_fails() {
            return Err(Failed);
        }
        let left = &self.bytes[self.at..];
        let n = self.chunk.min(left.len()).min(buf.len());
        buf[..n].copy_from_slice(&left[..n]);
        self.at += n;
        Ok(n)
    }
}

/// Takes pieces of at most `chunk` bytes, for which room was reserved.
#[derive(Drop)]
pub struct MemorySink {
    bytes: Vec<u8>,
    chunk: usize,
    calls: Calls,
    ghost some: { 1 ≤ chunk },
}

impl MemorySink {
    /// `fails` are the calls that fail, counted from 1.
    pub fn new(alloc: Global, chunk: usize, fails: Vec<u64>) -> MemorySink
        requires { 1 ≤ chunk }
        ensures held { ⟦<MemorySink as Sink>⟧.held result ≡ Some [] }
        ensures faults { ⟦<MemorySink as Sink>⟧.faults result ≡ 0 }
    {
        MemorySink {
            bytes: Vec::new(alloc),
            chunk,
            calls: Calls::new(fails),
        }
    }

    /// Makes room for `n` more bytes. A call of `write` that finds too little room fails.
    pub fn reserve(&mut self, n: usize) -> Result<(), Memory>
        ensures room { OnOk result (vec_len self.new.bytes + n ≤ vec_capacity self.new.bytes) }
        ensures held { ⟦<MemorySink as Sink>⟧.held self.new ≡ ⟦<MemorySink as Sink>⟧.held self.old }
        ensures faults { ⟦<MemorySink as Sink>⟧.faults self.new ≡ ⟦<MemorySink as Sink>⟧.faults self.old }
    {
        match self.bytes.reserve(n) {
            Ok(()) => Ok(()),
            Err(_) => Err(Memory),
        }
    }

    pub fn bytes(&self) -> &[u8]
        ensures { ⟦<MemorySink as Sink>⟧.held self.now ≡ Some result.now }
    {
        self.bytes.as_slice()
    }

    pub fn faults(&self) -> u64
        ensures { result ≡ ⟦<MemorySink as Sink>⟧.faults self.now }
    {
        self.calls.faults
    }
}

impl Sink for MemorySink {
    ghost use Rattle.std.specs.Prelude.{Some};

    ghost held = { λ s. Some s.bytes.items };

    ghost faults = { λ s. s.calls.faults };

    fn write(&mut self, piece: &[u8]) -> Result<usize, Failed>
        ensures bound { IfOk result (λ n. n ≤ length piece.now) }
        ensures some { IfOk result (λ n. 0 < length piece.now → 0 < n) }
        ensures appended { IfOk result (λ n.
            Appends (Some self.old.bytes.items) (Some self.new.bytes.items) (take n piece.now)) }
        ensures none_appended { OnErr result (Keeps (Some self.old.bytes.items) (Some self.new.bytes.items)) }
        ensures cause { OnErr result (Rose self.old.calls.faults self.new.calls.faults) }
        ensures count { self.old.calls.faults ≤ self.new.calls.faults }
        ensures amount { IfOk result (λ n. n ≡ min self.old.chunk (length piece.now)) }
        ensures listed_or_full { OnErr result (Contains self.old.calls.fails.items (one_more self.old.calls.made)
            ⊎ (vec_capacity self.old.bytes
            < vec_len self.old.bytes + min self.old.chunk (length piece.now))) }
    {
        if self.calls.next_fails() {
            return Err(Failed);
        }
        let n = self.chunk.min(piece.len());
        if self.bytes.capacity() - self.bytes.len() < n {
            self.calls.fail();
            return Err(Failed);
        }
        match self.bytes.extend_from_slice(&piece[..n]) {
            Ok(()) => Ok(n),
            Err(_) => {
                self.calls.fail();
                Err(Failed)
            }
        }
    }
}

/// Holds files.
#[derive(Drop)]
pub struct MemoryStore {
    files: BTreeMap<String, Vec<u8>>,
    calls: Calls,
}

impl MemoryStore {
    /// `fails` are the calls that fail, counted from 1.
    pub fn new(files: BTreeMap<String, Vec<u8>>, fails: Vec<u64>) -> MemoryStore
        ensures files { ⟦<MemoryStore as Store>⟧.files result ≡ Some (files_of files) }
        ensures faults { ⟦<MemoryStore as Store>⟧.faults result ≡ 0 }
    {
        MemoryStore {
            files,
            calls: Calls::new(fails),
        }
    }

    pub fn faults(&self) -> u64
        ensures { result ≡ ⟦<MemoryStore as Store>⟧.faults self.now }
    {
        self.calls.faults
    }
}

impl Store for MemoryStore {
    ghost use Rattle.std.specs.Prelude.{Some};
    ghost use Rattle.hept_io.specs.Outside.{files_of};

    ghost files = { λ s. Some (files_of s.files) };

    ghost faults = { λ s. s.calls.faults };

    fn read_file(&mut self, name: &str, out: &mut Vec<u8>) -> Result<(), StoreFault> {
        out.clear();
        if self.calls.next_fails() {
            return Err(StoreFault::Failed);
        }
        let Some(bytes) = self.files.get(name) else {
            return Err(StoreFault::Missing);
        };
        if bytes.len() > FILE_LIMIT {
            return Err(StoreFault::TooLarge);
        }
        match out.extend_from_slice(bytes) {
            Ok(()) => Ok(()),
            Err(_) => Err(StoreFault::Memory),
        }
    }
}

/// Lets every call go on at once.
#[derive(Clone, Copy, Debug)]
pub struct OpenGate;

impl Gate for OpenGate {
    fn admit(&self, _instance: u32, _call: u64) {}
}
