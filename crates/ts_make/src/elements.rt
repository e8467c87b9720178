//! Octets that grow by one element after another, up to what a CRL may have.

ghost use Rattle.std.specs.Prelude.{◌≢◌, ◌%◌, ◌∷◌, ◌++◌};
ghost use Rattle.ts_der.specs.Element.{encode};
ghost use Rattle.ts_make.specs.inside.Writing.{Appends, Writes};

use crate::fault::MakeFault;
use std::alloc::Global;
use ts_der::Writer;
use ts_der::tag::BIT_STRING;
use ts_octets::MAX_CRL;

/// [3] EXPLICIT, the extensions of a certificate.
pub(crate) const EXTENSIONS: u8 = 0xa3;

/// Appends octets.
pub(crate) fn append(octets: &mut Vec<u8>, part: &[u8]) -> Result<(), MakeFault>
    ensures { Appends result part.now octets.old.items octets.new.items }
{
    if part.len() > MAX_CRL || octets.len() > MAX_CRL {
        return Err(MakeFault::TooLong);
    }
    octets.extend_from_slice(part)?;
    Ok(())
}

/// An element.
pub(crate) fn element(alloc: Global, tag: u8, content: &[u8]) -> Result<Vec<u8>, MakeFault>
    requires { tag % 32 ≢ 31 }
    ensures { Writes result (encode tag content.now) }
{
    if content.len() > MAX_CRL {
        return Err(MakeFault::TooLong);
    }
    let mut writer = Writer::new(alloc);
    writer.tlv(tag, content)?;
    Ok(writer.finish())
}

/// Appends an element.
pub(crate) fn append_element(
    alloc: Global,
    octets: &mut Vec<u8>,
    tag: u8,
    content: &[u8],
) -> Result<(), MakeFault>
    requires { tag % 32 ≢ 31 }
    ensures { Appends result (encode tag content.now) octets.old.items octets.new.items }
{
    let part = element(alloc, tag, content)?;
    append(octets, &part)
}

/// Appends a BIT STRING of whole octets (X.690 8.6).
pub(crate) fn append_bits(alloc: Global, octets: &mut Vec<u8>, bits: &[u8]) -> Result<(), MakeFault>
    ensures { Appends result (encode 0x03 (0 ∷ bits.now)) octets.old.items octets.new.items }
{
    let mut content = Vec::new(alloc);
    content.push(0)?;
    append(&mut content, bits)?;
    append_element(alloc, octets, BIT_STRING, &content)
}
