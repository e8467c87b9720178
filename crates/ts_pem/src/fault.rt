//! What is wrong with a text.

ghost use Rattle.std.specs.Prelude.{◌≡◌, Some};
ghost use Rattle.ts_pem.specs.Printed.{fault_text};
ghost use Rattle.ts_pem.specs.declared.fault.PemFault.TheVariants.{OutOfMemory as NoMemory};

use std::alloc::AllocError;
use std::{error, fmt};

/// Why the blocks of a text can't be read. Lines are counted from 1.
#[derive(Clone, Copy, Debug, PartialEq, Eq, Drop)]
pub enum PemFault {
    /// The block that begins at this line has no end.
    NoEnd(usize),
    /// This line ends with the end of a block, and none is open: its begin is not there, or is no
    /// line of its own.
    NoBegin(usize),
    /// This line is the end of another label than that of the block in which it stands.
    OtherEnd(usize),
    /// This line of a block has an octet that base64 does not use; or it ends a block whose lines
    /// together are the base64 of no octets.
    NotBase64(usize),
    /// Memory was refused.
    OutOfMemory,
}

/// What is wrong, in plain words, behind the number of the line.
impl fmt::Display for PemFault {
    ghost output = { λ fault. Some (fault_text fault) };

    fn fmt<W: fmt::Write>(&self, f: &mut fmt::Formatter<W>) -> fmt::Result {
        match *self {
            PemFault::NoEnd(line) => write!(f, "line {line}: the block has no end"),
            PemFault::NoBegin(line) => {
                write!(f, "line {line}: the end of a block that has no begin")
            }
            PemFault::OtherEnd(line) => write!(f, "line {line}: the end of another label"),
            PemFault::NotBase64(line) => write!(f, "line {line}: no base64"),
            PemFault::OutOfMemory => write!(f, "out of memory"),
        }
    }
}

impl error::Error for PemFault {}

impl From<AllocError> for PemFault {
    ghost from_gives = { λ _ y. y ≡ NoMemory };

    fn from(_: AllocError) -> PemFault {
        PemFault::OutOfMemory
    }
}
