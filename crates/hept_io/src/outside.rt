//! What the outside is to a run: a source, a sink, a store of files, and a gate.
ghost use Rattle.std.specs.Prelude.{◌≡◌, ℕ, ◌≤◌, ◌<◌, length, drop, take, ◌++◌, List, [], Option, Some, None, IfOk, IfErr, OnOk, OnErr, MatchResult, IfSome, IsSome};
ghost use Rattle.std.specs.Io.KnownBytes.{Appends, Consumes, Keeps, IsAtEnd};
ghost use Rattle.hept_io.specs.Outside.{Rose, HasFile, IsLarge, HasNone, Files};

/// Want of memory.
#[derive(Clone, Copy, Debug, PartialEq, Eq)]
pub struct Memory;

/// A read or a write that failed.
#[derive(Clone, Copy, Debug, PartialEq, Eq)]
pub struct Failed;

/// Why a file was not read.
#[derive(Clone, Copy, Debug, PartialEq, Eq)]
pub enum StoreFault {
    Failed,
    /// The file has more than 1,048,576 bytes.
    TooLarge,
    Missing,
    Memory,
}

/// The greatest number of bytes of a file.
pub const FILE_LIMIT: usize = 1_048_576;

/// Bytes that come from outside.
pub trait Source {
    // the bytes that are left, where the source tells them
    ghost left: { Self → Option (List ℕ) };
    // how many faults there were; it stands still at the last value of a u64
    ghost faults: { Self → ℕ };

    /// Moves the next bytes into the front of `buf`, and answers how many. None, where there is room
    /// for some, is the end.
    fn read(&mut self, buf: &mut [u8]) -> Result<usize, Failed>
        ensures bound { IfOk result (λ n. n ≤ length buf.new) }
        ensures taken { IfOk result (λ n. Consumes (left self.old) (left self.new) (take n buf.new)) }
        ensures end { IfOk result (λ n. n ≡ 0 → 0 < length buf.new → IsAtEnd (left self.new)) }
        ensures none_taken { OnErr result (Keeps (left self.old) (left self.new)) }
        ensures cause { OnErr result (Rose (faults self.old) (faults self.new)) }
        ensures count { faults self.old ≤ faults self.new };
}

/// Where bytes go.
pub trait Sink {
    // the bytes that it holds, where the sink tells them
    ghost held: { Self → Option (List ℕ) };

    ghost faults: { Self → ℕ };

    /// Takes bytes from the front of `piece`, and answers how many: at least one, where there are some.
    fn write(&mut self, piece: &[u8]) -> Result<usize, Failed>
        ensures bound { IfOk result (λ n. n ≤ length piece.now) }
        ensures some { IfOk result (λ n. 0 < length piece.now → 0 < n) }
        ensures appended { IfOk result (λ n. Appends (held self.old) (held self.new) (take n piece.now)) }
        ensures none_appended { OnErr result (Keeps (held self.old) (held self.new)) }
        ensures cause { OnErr result (Rose (faults self.old) (faults self.new)) }
        ensures count { faults self.old ≤ faults self.new };
}

/// Files by their names.
pub trait Store {
    // the files, where the store tells them
    ghost files: { Self → Option Files };

    ghost faults: { Self → ℕ };

    /// Puts the file's bytes into `out` in place of what it holds. `out` is empty after a refusal.
    fn read_file(&mut self, name: &str, out: &mut Vec<u8>) -> Result<(), StoreFault>
        ensures read { OnOk result (IfSome (files self.old) (λ map. HasFile map name.now out.new.items)) }
        ensures bound { length out.new.items ≤ 1048576 }
        ensures emptied { OnErr result (out.new.items ≡ []) }
        ensures failed { result ≡ Err StoreFault.Failed → Rose (faults self.old) (faults self.new) }
        ensures too_large { result ≡ Err StoreFault.TooLarge → IfSome (files self.old) (λ map. IsLarge map name.now) }
        ensures missing { result ≡ Err StoreFault.Missing → HasNone (files self.old) name.now }
        ensures missing_is_no_fault { result ≡ Err StoreFault.Missing
            → faults self.new ≡ faults self.old }
        ensures kept { files self.new ≡ files self.old }
        ensures count { faults self.old ≤ faults self.new };
}

/// Is told of each call just before it is stepped. The calls of an instance are numbered from 1.
pub trait Gate: Sync {
    fn admit(&self, instance: u32, call: u64);
}
