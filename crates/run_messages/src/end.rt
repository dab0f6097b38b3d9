//! How a run ends.
use hept_ast::{Name, Place};
use sqlite_items::Items;
use trace_io::RowFault;

/// What a run comes to.
#[derive(Debug, Drop)]
pub enum End {
    /// The trace ended, and every line counted as a row.
    Ended,
    /// The file's text is refused.
    Refused(Refusal),
    /// The words are not those of a run.
    Usage,
    /// The file was not read.
    File(FileFault),
    /// A line is no row. Lines count from 1.
    BadRow { line: u32, fault: BadRow },
    /// As many rows counted as may, and a further line came.
    Limit(u32),
    ReadFault,
    WriteFault,
    /// Want of memory, before the trace is first read.
    Memory,
}

/// Why a file's text is refused.
#[derive(Debug, Drop)]
pub enum Refusal {
    BadByte { at: Place },
    OpenComment { at: Place },
    NumberTooLarge { at: Place },
    Unexpected { at: Place },
    TooDeep { at: Place },
    UnknownName { at: Place },
    Duplicate { at: Place },
    Mismatch { at: Place },
    ZeroDivisor { at: Place },
    Recursive { at: Place },
    NotDefined { at: Place },
    FutureKept { at: Place },
    NestedAsync { at: Place },
    Limit { at: Place, kept: u32, limit: u32 },
    NoNode,
    FutureInterface { at: Place },
    NoClock { at: Place },
    MayBeNil { at: Place },
    /// Variables of a node, each reading the next at its own instant, and the last the first.
    Cycle { vars: Items<Name> },
    /// The program is not one that is run so far.
    NotServed,
    /// The expanded size of the node that is run is above 1,000,000.
    TooLarge { kept: u32 },
}

/// Why a file was not read.
#[derive(Clone, Copy, Debug, PartialEq, Eq)]
pub enum FileFault {
    Failed,
    /// The file has more than 1,048,576 bytes.
    TooLarge,
    Missing,
}

/// What is wrong with a line of the trace.
#[derive(Clone, Copy, Debug, PartialEq, Eq)]
pub enum BadRow {
    /// It has more than 65,535 bytes.
    TooLong,
    Fault(RowFault),
}

impl End {
    ghost use Rattle.std.specs.Prelude.{◌≡◌};
    ghost use Rattle.run_messages.specs.Ends.{status_of};

    /// The program's exit status.
    pub fn status(&self) -> u8
        ensures { result ≡ status_of self.now }
    {
        match self {
            End::Ended => 0,
            End::Refused(_) => 1,
            End::Usage => 2,
            End::File(_) => 3,
            End::BadRow { .. } => 4,
            End::Limit(_) => 5,
            End::ReadFault => 6,
            End::WriteFault => 7,
            End::Memory => 8,
        }
    }
}
