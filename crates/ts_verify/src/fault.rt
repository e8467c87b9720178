//! Why a text is no host.

ghost use Rattle.std.specs.Prelude.{Some};
ghost use Rattle.ts_verify.specs.Printed.{fault_text};

use std::{error, fmt};

/// The first rule of host names that a text breaks, which is no address either (RFC 1123 2.1, RFC
/// 1035 2.3.4).
#[derive(Clone, Copy, Debug, PartialEq, Eq, Drop)]
pub enum HostFault {
    /// It has more than 253 octets.
    LongName,
    /// A label is empty.
    EmptyLabel,
    /// A label has more than 63 octets.
    LongLabel,
    /// An octet is no letter, digit, hyphen or underscore. A name in other letters has to be given
    /// in its ASCII form (RFC 5890 2.3.2.1).
    BadOctet,
    /// It has digits and dots alone, and so is a mistyped address.
    Numeric,
}

/// What is wrong, in plain words.
impl fmt::Display for HostFault {
    ghost output = { λ fault. Some (fault_text fault) };

    fn fmt<W: fmt::Write>(&self, f: &mut fmt::Formatter<W>) -> fmt::Result {
        let text = match self {
            HostFault::LongName => "more than 253 octets",
            HostFault::EmptyLabel => "an empty label",
            HostFault::LongLabel => "a label of more than 63 octets",
            HostFault::BadOctet => "an octet that no host name has",
            HostFault::Numeric => "digits alone, and no address",
        };
        write!(f, "{text}")
    }
}

impl error::Error for HostFault {}
