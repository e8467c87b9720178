//! The subject's public key.

ghost use Rattle.ts_make.specs.Made.{key_octets};
ghost use Rattle.ts_make.specs.inside.Writing.{Appends};

use crate::elements::{append, append_bits, append_element};
use crate::fault::MakeFault;
use std::alloc::Global;
use ts_der::tag::SEQUENCE;
use ts_sig::STAND_IN_ALGORITHM;

/// Appends a public key of the stand-in's algorithm (RFC 5280 4.1.2.7).
#[tactic(auto, unfolding(crate::specs::Made::key_octets))]
pub(crate) fn append_key(alloc: Global, octets: &mut Vec<u8>, key: &[u8]) -> Result<(), MakeFault>
    ensures { Appends result (key_octets key.now) octets.old.items octets.new.items }
{
    let mut fields = Vec::new(alloc);
    append(&mut fields, STAND_IN_ALGORITHM.as_slice())?;
    append_bits(alloc, &mut fields, key)?;
    append_element(alloc, octets, SEQUENCE, &fields)
}
