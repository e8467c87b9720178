//! The lines of a script that are refused.

ghost use Rattle.std.specs.Prelude.{◌≡◌, Some};
ghost use Rattle.ts_script.specs.Wrong.{fault_word, hex_fault, oid_fault, wrong_line_text};
ghost use Rattle.ts_script.specs.declared.script.LineFault.TheVariants.{Memory};

use hex::FromHexError;
use std::alloc::{AllocError, AllocFailed};
use std::fmt;
use ts_der::OidTextError;

/// Ends a line.
pub const LINE_FEED: u8 = b'\n';

/// Begins a line that is a comment.
pub const COMMENT: u8 = b'#';

/// Why a line is refused. Its `Display` is the word that is printed.
#[derive(Clone, Copy, Debug, PartialEq, Eq)]
pub enum LineFault {
    /// The line's first word is not one of the script language.
    Unknown,
    /// The words are not those of such a line, or what they describe is no certificate and no list.
    Form,
    /// A name is not defined, or is defined a second time.
    Name,
    /// The line asks for more than the lab does.
    Limit,
    /// No message of this number was sent.
    Message,
    /// Memory could not be had.
    Memory,
}

impl fmt::Display for LineFault {
    ghost output = { λ fault. Some (fault_word fault) };

    fn fmt<W: fmt::Write>(&self, f: &mut fmt::Formatter<W>) -> fmt::Result {
        match self {
            LineFault::Unknown => write!(f, "unknown"),
            LineFault::Form => write!(f, "form"),
            LineFault::Name => write!(f, "name"),
            LineFault::Limit => write!(f, "limit"),
            LineFault::Message => write!(f, "message"),
            LineFault::Memory => write!(f, "memory"),
        }
    }
}

impl From<AllocError> for LineFault {
    ghost from_gives = { λ _ e. e ≡ Memory };

    fn from(_error: AllocError) -> LineFault {
        LineFault::Memory
    }
}

impl<T: Drop> From<AllocFailed<T>> for LineFault {
    ghost from_gives = { λ _ e. e ≡ Memory };

    fn from(_error: AllocFailed<T>) -> LineFault {
        LineFault::Memory
    }
}

/// A word with other octets than hexadecimal digits in pairs has the wrong form.
impl From<FromHexError> for LineFault {
    ghost from_gives = { λ error fault. fault ≡ hex_fault error };

    fn from(error: FromHexError) -> LineFault {
        match error {
            FromHexError::OutOfMemory => LineFault::Memory,
            _ => LineFault::Form,
        }
    }
}

/// A text that is no object identifier has the wrong form.
impl From<OidTextError> for LineFault {
    ghost from_gives = { λ error fault. fault ≡ oid_fault error };

    fn from(error: OidTextError) -> LineFault {
        match error {
            OidTextError::Memory => LineFault::Memory,
            OidTextError::Form => LineFault::Form,
        }
    }
}

/// A line that is refused. Its `Display` is the line of output that says so, without its line feed.
#[derive(Clone, Copy, Debug, PartialEq, Eq)]
pub struct WrongLine {
    /// The line's number in the script, from 1; skipped lines count.
    pub number: u64,
    pub fault: LineFault,
}

impl fmt::Display for WrongLine {
    ghost output = { λ wrong. Some (wrong_line_text wrong) };

    fn fmt<W: fmt::Write>(&self, f: &mut fmt::Formatter<W>) -> fmt::Result {
        let WrongLine { number, fault } = self;
        write!(f, "line {number}: {fault}")
    }
}
