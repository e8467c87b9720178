//! The octets of a reason.

ghost use Rattle.std.specs.Prelude.{◌≡◌, ◌++◌, OnOk};
ghost use Rattle.ts_codec.specs.Reading.{Gives, of_kind};
ghost use Rattle.ts_reason.specs.Octets.{Fits, encoding, reason_at, reasons};

use crate::reason::Reason;
use std::alloc::{AllocError, Global};
use ts_codec::ReadFault;
use ts_codec::reading::{octet, oid};
use ts_codec::writing::push_oid;
use ts_der::Oid;

/// The reason of this number.
#[tactic(auto, unfolding(ts_codec::specs::Reading::of_kind))]
fn detail(alloc: Global, number: u8, octets: &[u8]) -> Result<(Reason<Oid>, &[u8]), ReadFault>
    ensures { Gives (λ x. (x.0, x.1.now)) result (of_kind reasons number octets.now) }
{
    match number {
        1 => Ok((Reason::AnchorPurpose, octets)),
        2 => Ok((Reason::Signature, octets)),
        3 => Ok((Reason::TooEarly, octets)),
        4 => Ok((Reason::Expired, octets)),
        5 => {
            let (code, rest) = octet(octets)?;
            Ok((Reason::Revoked(code), rest))
        }
        6 => Ok((Reason::Undetermined, octets)),
        7 => Ok((Reason::IssuerName, octets)),
        8 => Ok((Reason::UnsupportedConstraint, octets)),
        9 => Ok((Reason::NotPermitted, octets)),
        10 => Ok((Reason::Excluded, octets)),
        11 => Ok((Reason::PolicyRequired, octets)),
        12 => Ok((Reason::MapsAny, octets)),
        13 => Ok((Reason::NotCa, octets)),
        14 => Ok((Reason::PathLength, octets)),
        15 => Ok((Reason::KeyUsage, octets)),
        16 => {
            let (oid, rest) = oid(alloc, octets)?;
            Ok((Reason::CriticalExtension(oid), rest))
        }
        17 => Ok((Reason::FinalPolicy, octets)),
        18 => Ok((Reason::Purpose, octets)),
        _ => Err(ReadFault::Form),
    }
}

/// The reason at the front of octets, and what follows it.
///
/// # Errors
///
/// Out of memory; `Form` exactly where octets begin with no reason.
#[tactic(auto, unfolding(crate::specs::Octets::reason_at))]
pub fn read_reason(alloc: Global, octets: &[u8]) -> Result<(Reason<Oid>, &[u8]), ReadFault>
    ensures { Gives (λ x. (x.0, x.1.now)) result (reason_at octets.now) }
{
    let (number, rest) = octet(octets)?;
    let (reason, rest) = detail(alloc, number, rest)?;
    Ok((reason, rest))
}

impl Reason<Oid> {
    /// Writes the octets of the reason, which are its one encoding, after others.
    ///
    /// # Errors
    ///
    /// Out of memory.
    pub fn write(&self, out: &mut Vec<u8>) -> Result<(), AllocError>
        ensures { OnOk result (out.new.items ≡ out.old.items ++ encoding self.now) }
    {
        out.push(self.number())?;
        match self {
            Reason::Revoked(code) => out.push(*code)?,
            Reason::CriticalExtension(oid) => push_oid(out, oid)?,
            _ => {}
        }
        Ok(())
    }

    /// The reason has an encoding.
    pub fn has_encoding(&self)
        ensures { Fits self.now }
    {
        if let Reason::CriticalExtension(oid) = self {
            let _ = oid.as_ref();
        }
    }
}
