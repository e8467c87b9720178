//! Extensions.

ghost use Rattle.std.specs.Prelude.{◌++◌, ◌≢◌, ◌%◌};
ghost use Rattle.std.specs.List.{flat_map};
ghost use Rattle.ts_make.specs.Items.{items_of};
ghost use Rattle.ts_make.specs.Extensions.{extension_octets, tagged_if_any, sequence_extension};
ghost use Rattle.ts_make.specs.Extensions.{constraints_content, policy_constraints_content};
ghost use Rattle.ts_make.specs.Extensions.{of_kind, part_extensions, described_extensions};
ghost use Rattle.ts_make.specs.Extensions.{field_octets};
ghost use Rattle.ts_make.specs.inside.Writing.{Appends, Writes};

use crate::description::ExtensionText;
use crate::elements::{EXTENSIONS, append_element, element};
use crate::fault::MakeFault;
use crate::items::{Items, append_items};
use crate::key_usage::append_key_usage;
use crate::kind::{KINDS, Kind};
use crate::single::{append_alone, append_extension};
use std::alloc::Global;
use ts_der::tag::SEQUENCE;

/// Appends the extension of an arc of id-ce whose value is a SEQUENCE, unless that would be empty.
pub(crate) fn append_sequence(
    alloc: Global,
    octets: &mut Vec<u8>,
    arc: u8,
    critical: bool,
    content: &[u8],
) -> Result<(), MakeFault>
    ensures { Appends result (flat_map extension_octets
        (sequence_extension arc critical content.now))
        octets.old.items octets.new.items }
{
    if content.is_empty() {
        return Ok(());
    }
    let value = element(alloc, SEQUENCE, content)?;
    append_extension(alloc, octets, &[0x55, 0x1d, arc], critical, &value)
}

/// Appends the extension of an arc of id-ce whose value is a SEQUENCE OF what the parts put into a
/// list, unless that would be empty.
fn append_list(
    alloc: Global,
    octets: &mut Vec<u8>,
    arc: u8,
    critical: bool,
    list: Items,
    parts: &[ExtensionText<'_>],
) -> Result<(), MakeFault>
    ensures { Appends result (flat_map extension_octets
        (sequence_extension arc critical (items_of list parts.now))) octets.old.items
        octets.new.items }
{
    let mut items = Vec::new(alloc);
    append_items(alloc, &mut items, list, parts)?;
    append_sequence(alloc, octets, arc, critical, &items)
}

/// Appends the element of a list, unless it would be empty.
fn append_tagged(
    alloc: Global,
    octets: &mut Vec<u8>,
    tag: u8,
    list: Items,
    parts: &[ExtensionText<'_>],
) -> Result<(), MakeFault>
    requires { tag % 32 ≢ 31 }
    ensures { Appends result (tagged_if_any tag (items_of list parts.now)) octets.old.items
        octets.new.items }
{
    let mut items = Vec::new(alloc);
    append_items(alloc, &mut items, list, parts)?;
    if items.is_empty() {
        return Ok(());
    }
    append_element(alloc, octets, tag, &items)
}

/// permittedSubtrees [0] of NameConstraints (RFC 5280 4.2.1.10).
const PERMITTED: u8 = 0xa0;

/// excludedSubtrees [1] of NameConstraints.
const EXCLUDED: u8 = 0xa1;

/// The content of NameConstraints (RFC 5280 4.2.1.10).
#[tactic(auto, unfolding(crate::specs::Extensions::constraints_content))]
fn name_constraints(alloc: Global, parts: &[ExtensionText<'_>]) -> Result<Vec<u8>, MakeFault>
    ensures { Writes result (constraints_content parts.now) }
{
    let mut fields = Vec::new(alloc);
    append_tagged(
        alloc,
        &mut fields,
        PERMITTED,
        Items::PermittedSubtrees,
        parts,
    )?;
    append_tagged(alloc, &mut fields, EXCLUDED, Items::ExcludedSubtrees, parts)?;
    Ok(fields)
}

/// The content of PolicyConstraints (RFC 5280 4.2.1.11).
#[tactic(auto, unfolding(crate::specs::Extensions::policy_constraints_content))]
fn policy_constraints(alloc: Global, parts: &[ExtensionText<'_>]) -> Result<Vec<u8>, MakeFault>
    ensures { Writes result (policy_constraints_content parts.now) }
{
    let mut fields = Vec::new(alloc);
    append_items(alloc, &mut fields, Items::ExplicitPolicy, parts)?;
    append_items(alloc, &mut fields, Items::InhibitedMapping, parts)?;
    Ok(fields)
}

/// Appends the extensions that the parts of a kind are, one by one.
fn append_each(
    alloc: Global,
    octets: &mut Vec<u8>,
    kind: Kind,
    parts: &[ExtensionText<'_>],
) -> Result<(), MakeFault>
    ensures { Appends result (flat_map
        (λ part. flat_map extension_octets (part_extensions kind part)) parts.now) octets.old.items
        octets.new.items }
{
    for part in parts {
        append_alone(alloc, octets, kind, part)?;
    }
    Ok(())
}

/// Appends what the parts say of the extensions of one kind.
fn append_kind(
    alloc: Global,
    octets: &mut Vec<u8>,
    kind: Kind,
    parts: &[ExtensionText<'_>],
) -> Result<(), MakeFault>
    ensures { Appends result (flat_map extension_octets (of_kind kind parts.now)) octets.old.items
        octets.new.items }
{
    match kind {
        Kind::KeyUsage => append_key_usage(alloc, octets, parts),
        Kind::SubjectAltName => {
            append_list(alloc, octets, 17, false, Items::AlternativeNames, parts)
        }
        Kind::BasicConstraints => append_each(alloc, octets, kind, parts),
        Kind::NameConstraints => {
            let content = name_constraints(alloc, parts)?;
            append_sequence(alloc, octets, 30, true, &content)
        }
        Kind::CrlDistributionPoints => {
            append_list(alloc, octets, 31, false, Items::DistributionPoints, parts)
        }
        Kind::CertificatePolicies => append_list(alloc, octets, 32, false, Items::Policies, parts),
        Kind::PolicyMappings => append_list(alloc, octets, 33, true, Items::PolicyMappings, parts),
        Kind::PolicyConstraints => {
            let content = policy_constraints(alloc, parts)?;
            append_sequence(alloc, octets, 36, true, &content)
        }
        Kind::ExtendedKeyUsage => append_list(alloc, octets, 37, false, Items::KeyPurposes, parts),
        Kind::InhibitAnyPolicy => append_each(alloc, octets, kind, parts),
        Kind::Critical => append_each(alloc, octets, kind, parts),
    }
}

/// Appends the extensions of all kinds, in their order.
#[tactic(auto, unfolding(crate::specs::Extensions::described_extensions))]
fn append_all(
    alloc: Global,
    octets: &mut Vec<u8>,
    parts: &[ExtensionText<'_>],
) -> Result<(), MakeFault>
    ensures { Appends result (flat_map extension_octets (described_extensions parts.now))
        octets.old.items octets.new.items }
{
    for kind in KINDS {
        append_kind(alloc, octets, kind, parts)?;
    }
    Ok(())
}

/// Appends the field of the extensions, unless there are none (RFC 5280 4.1.2.9).
#[tactic(auto, unfolding(crate::specs::Extensions::field_octets))]
pub(crate) fn append_extensions(
    alloc: Global,
    octets: &mut Vec<u8>,
    parts: &[ExtensionText<'_>],
) -> Result<(), MakeFault>
    ensures { Appends result (field_octets (described_extensions parts.now)) octets.old.items
        octets.new.items }
{
    let mut extensions = Vec::new(alloc);
    append_all(alloc, &mut extensions, parts)?;
    if extensions.is_empty() {
        return Ok(());
    }
    let list = element(alloc, SEQUENCE, &extensions)?;
    append_element(alloc, octets, EXTENSIONS, &list)
}
