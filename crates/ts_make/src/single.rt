//! Extensions of which each part of a description is one.

ghost use Rattle.std.specs.Prelude.{[], ◌∷◌, ◌++◌};
ghost use Rattle.std.specs.List.{flat_map};
ghost use Rattle.ts_make.specs.Extensions.{extension, extension_octets, critical_octets};
ghost use Rattle.ts_make.specs.Extensions.{part_extensions};
ghost use Rattle.ts_make.specs.Extensions.{basic_constraints_value, path_length};
ghost use Rattle.ts_make.specs.inside.Writing.{Appends, Writes};

use crate::description::ExtensionText;
use crate::elements::{append, append_element, element};
use crate::fault::MakeFault;
use crate::kind::Kind;
use crate::serial::append_number;
use std::alloc::Global;
use ts_der::tag::{BOOLEAN, INTEGER, OBJECT_IDENTIFIER, OCTET_STRING, SEQUENCE};

/// The content of BOOLEAN TRUE (X.690 8.2, 11.1).
const TRUE: u8 = 0xff;

/// NULL (X.690 8.8).
pub(crate) const NULL: [u8; 2] = [0x05, 0x00];

/// Appends critical BOOLEAN DEFAULT FALSE.
fn append_critical(alloc: Global, octets: &mut Vec<u8>, critical: bool) -> Result<(), MakeFault>
    ensures { Appends result (critical_octets critical) octets.old.items octets.new.items }
{
    if critical {
        append_element(alloc, octets, BOOLEAN, &[TRUE])
    } else {
        Ok(())
    }
}

/// Appends an extension (RFC 5280 4.1).
#[tactic(auto, unfolding(crate::specs::Extensions::extension_content))]
pub(crate) fn append_extension(
    alloc: Global,
    octets: &mut Vec<u8>,
    id: &[u8],
    critical: bool,
    value: &[u8],
) -> Result<(), MakeFault>
    ensures { Appends result (extension_octets (extension id.now critical value.now))
        octets.old.items octets.new.items }
{
    let mut fields = Vec::new(alloc);
    append_element(alloc, &mut fields, OBJECT_IDENTIFIER, id)?;
    append_critical(alloc, &mut fields, critical)?;
    append_element(alloc, &mut fields, OCTET_STRING, value)?;
    append_element(alloc, octets, SEQUENCE, &fields)
}

/// Appends pathLenConstraint INTEGER OPTIONAL.
fn append_length(alloc: Global, octets: &mut Vec<u8>, length: Option<u32>) -> Result<(), MakeFault>
    ensures { Appends result (path_length length) octets.old.items octets.new.items }
{
    match length {
        Some(n) => append_number(alloc, octets, INTEGER, n),
        None => Ok(()),
    }
}

/// The value of basicConstraints of a CA (RFC 5280 4.2.1.9).
#[tactic(auto, unfolding(crate::specs::Extensions::basic_constraints_value))]
fn basic_constraints(alloc: Global, length: Option<u32>) -> Result<Vec<u8>, MakeFault>
    ensures { Writes result (basic_constraints_value length) }
{
    let mut fields = Vec::new(alloc);
    append_element(alloc, &mut fields, BOOLEAN, &[TRUE])?;
    append_length(alloc, &mut fields, length)?;
    element(alloc, SEQUENCE, &fields)
}

/// Appends the extension that a part of this kind is.
pub(crate) fn append_alone(
    alloc: Global,
    octets: &mut Vec<u8>,
    kind: Kind,
    part: &ExtensionText<'_>,
) -> Result<(), MakeFault>
    ensures { Appends result (flat_map extension_octets (part_extensions kind part.now))
        octets.old.items
        octets.new.items }
{
    match (kind, part) {
        (Kind::BasicConstraints, ExtensionText::BasicConstraints(length)) => {
            let value = basic_constraints(alloc, *length)?;
            append_extension(alloc, octets, &[0x55, 0x1d, 19], true, &value)
        }
        (Kind::InhibitAnyPolicy, ExtensionText::InhibitAnyPolicy(n)) => {
            let mut value = Vec::new(alloc);
            append_number(alloc, &mut value, INTEGER, *n)?;
            append_extension(alloc, octets, &[0x55, 0x1d, 54], true, &value)
        }
        (Kind::Critical, ExtensionText::Critical(oid)) => {
            append_extension(alloc, octets, oid.content, true, NULL.as_slice())
        }
        _ => Ok(()),
    }
}
