//! Why a task fails.

ghost use Rattle.std.specs.Prelude.{◌≡◌};
ghost use Rattle.ts_files.specs.declared.fault.TaskFault.TheVariants as fault;

use std::alloc::{AllocError, AllocFailed};
use std::fmt;
use ts_cli::MakeFault;
use ts_exchange::{ExchangeFault, StepFault};
use ts_given::GivenFault;
use ts_serve::ServeFault;
use ts_show::fault_name;
use ts_sig::TableFault;
use ts_synod::NodeFault;
use ts_wire::FrameFault;

/// Why a task fails. The program prints its name, unless it is `Closed`, and ends with 1.
#[derive(Clone, Copy, Debug, PartialEq, Eq)]
pub enum TaskFault {
    /// Memory was refused.
    Memory,
    /// A file can't be opened, read or made; or a record is to be made where octets are.
    File,
    /// Another process holds the record.
    Busy,
    /// The clock gives no time.
    Clock,
    /// A command was submitted, and is not known to be chosen.
    Unknown,
    /// A node has another command at a position of the record, or none.
    OtherLog,
    /// A file is not one whole command or question, or holds no certificate or CRL.
    Field,
    /// A CRL is not to be loaded: its issuer's key did not sign it, or it is not current.
    BadCrl,
    /// A file is longer than a command's certificate or list may be.
    TooLong,
    /// A question has parts outside of its limits.
    OutOfLimits,
    /// The line of this number, counted from 1, is the first wrong one of a table.
    TableLine(usize),
    /// The line of this number, counted from 1, is the first wrong one of a file of keys.
    KeyLine(u32),
    /// Other machines reach the address of a node that wants no keys.
    Unprotected,
    /// The system gives no random octets.
    Random,
    /// A record can't be opened or made.
    Record(ts_record::RecordFault),
    /// A connection was not accepted or an address can't be listened on, or a read failed.
    Read,
    /// A connection was not made, or a write failed.
    Write,
    /// Whoever reads standard output has closed it.
    Closed,
    /// A stream had not ended after 16,777,216 reads; or more was answered than was asked for.
    ReadLimit,
    /// A stream ended within a frame, or before the answer.
    Cut,
    /// A node answered this fault.
    Node(NodeFault),
    /// This is in a frame's place, or a server answered it.
    Frame(FrameFault),
}

/// The name of the reason, with the offset or the line where it has one: `Damaged(35)`,
/// `TableLine(3)`, `Kind`.
impl fmt::Display for TaskFault {
    fn fmt<W: fmt::Write>(&self, f: &mut fmt::Formatter<W>) -> fmt::Result {
        let name = name_of(*self);
        match self {
            TaskFault::TableLine(number) => write!(f, "{name}({number})"),
            TaskFault::KeyLine(number) => write!(f, "{name}({number})"),
            TaskFault::Record(ts_record::RecordFault::Damaged(offset)) => {
                write!(f, "{name}({offset})")
            }
            _ => write!(f, "{name}"),
        }
    }
}

/// The name of the reason, without a number.
fn name_of(fault: TaskFault) -> &'static str {
    match fault {
        TaskFault::Memory => "Memory",
        TaskFault::File => "File",
        TaskFault::Busy => "Busy",
        TaskFault::Clock => "Clock",
        TaskFault::Unknown => "Unknown",
        TaskFault::OtherLog => "OtherLog",
        TaskFault::Field => "Field",
        TaskFault::BadCrl => "BadCrl",
        TaskFault::TooLong => "TooLong",
        TaskFault::OutOfLimits => "OutOfLimits",
        TaskFault::TableLine(_) => "TableLine",
        TaskFault::KeyLine(_) => "KeyLine",
        TaskFault::Unprotected => "Unprotected",
        TaskFault::Random => "Random",
        TaskFault::Record(fault) => record_name(fault),
        TaskFault::Read => "Read",
        TaskFault::Write | TaskFault::Closed => "Write",
        TaskFault::ReadLimit => "ReadLimit",
        TaskFault::Cut => "Cut",
        TaskFault::Node(fault) => fault_name(fault),
        TaskFault::Frame(fault) => frame_name(fault),
    }
}

/// The name of a record's fault.
fn record_name(fault: ts_record::RecordFault) -> &'static str {
    match fault {
        ts_record::RecordFault::Memory => "Memory",
        ts_record::RecordFault::DiskFailed => "DiskFailed",
        ts_record::RecordFault::Broken => "Broken",
        ts_record::RecordFault::GenerationsExhausted => "GenerationsExhausted",
        ts_record::RecordFault::NotFormatted => "NotFormatted",
        ts_record::RecordFault::OldVersion => "OldVersion",
        ts_record::RecordFault::Damaged(_) => "Damaged",
    }
}

/// The name of what is wrong in a frame's place.
fn frame_name(fault: FrameFault) -> &'static str {
    match fault {
        FrameFault::Length => "Length",
        FrameFault::Version => "Version",
        FrameFault::Kind => "Kind",
        FrameFault::Field => "Field",
        FrameFault::Trailing => "Trailing",
    }
}

impl From<AllocError> for TaskFault {
    ghost from_gives = { λ _ e. e ≡ fault.Memory };

    fn from(_e: AllocError) -> TaskFault {
        TaskFault::Memory
    }
}

impl<T: Drop> From<AllocFailed<T>> for TaskFault {
    ghost from_gives = { λ _ e. e ≡ fault.Memory };

    fn from(_e: AllocFailed<T>) -> TaskFault {
        TaskFault::Memory
    }
}

impl From<ts_record::RecordFault> for TaskFault {
    fn from(fault: ts_record::RecordFault) -> TaskFault {
        match fault {
            ts_record::RecordFault::Memory => TaskFault::Memory,
            other => TaskFault::Record(other),
        }
    }
}

impl From<TableFault> for TaskFault {
    fn from(fault: TableFault) -> TaskFault {
        match fault {
            TableFault::TableLine(number) => TaskFault::TableLine(number),
            TableFault::Memory => TaskFault::Memory,
        }
    }
}

impl From<MakeFault> for TaskFault {
    fn from(fault: MakeFault) -> TaskFault {
        match fault {
            MakeFault::Memory => TaskFault::Memory,
            MakeFault::TooLong => TaskFault::TooLong,
            MakeFault::OutOfLimits => TaskFault::OutOfLimits,
        }
    }
}

impl From<ExchangeFault> for TaskFault {
    fn from(fault: ExchangeFault) -> TaskFault {
        match fault {
            ExchangeFault::Memory => TaskFault::Memory,
            ExchangeFault::Cut => TaskFault::Cut,
            ExchangeFault::Node(fault) => TaskFault::Node(fault),
            ExchangeFault::Frame(fault) => TaskFault::Frame(fault),
        }
    }
}

impl From<StepFault> for TaskFault {
    fn from(fault: StepFault) -> TaskFault {
        match fault {
            StepFault::Memory => TaskFault::Memory,
            StepFault::TooLong => TaskFault::TooLong,
        }
    }
}

impl From<GivenFault<'_>> for TaskFault {
    fn from(fault: GivenFault<'_>) -> TaskFault {
        match fault {
            GivenFault::Memory => TaskFault::Memory,
            GivenFault::Count => TaskFault::OutOfLimits,
            GivenFault::NoAnchor => TaskFault::Field,
            GivenFault::Certificate { .. } | GivenFault::Crl { .. } => TaskFault::Field,
        }
    }
}

impl From<ServeFault> for TaskFault {
    fn from(fault: ServeFault) -> TaskFault {
        match fault {
            ServeFault::Read => TaskFault::Read,
            ServeFault::Write => TaskFault::Write,
            ServeFault::ReadLimit => TaskFault::ReadLimit,
            ServeFault::Cut => TaskFault::Cut,
            ServeFault::Frame(fault) => TaskFault::Frame(fault),
            ServeFault::Memory => TaskFault::Memory,
        }
    }
}
