//! The lists that parts of a description gather in.

ghost use Rattle.std.specs.Prelude.{◌++◌};
ghost use Rattle.std.specs.List.{flat_map};
ghost use Rattle.ts_der.specs.Element.{encode};
ghost use Rattle.ts_make.specs.Items.{general_name, general_subtree, distribution_point};
ghost use Rattle.ts_make.specs.Items.{policy_information, policy_mapping, item, items_of};
ghost use Rattle.ts_make.specs.inside.Writing.{Appends};

use crate::description::{ExtensionText, NameText};
use crate::elements::{append_element, element};
use crate::fault::MakeFault;
use crate::serial::append_number;
use std::alloc::Global;
use ts_der::tag::{OBJECT_IDENTIFIER, SEQUENCE};

/// A list within the value of an extension (RFC 5280 4.2.1).
#[derive(Clone, Copy)]
pub(crate) enum Items {
    /// The names of subjectAltName.
    AlternativeNames,
    /// permittedSubtrees of nameConstraints.
    PermittedSubtrees,
    /// excludedSubtrees of nameConstraints.
    ExcludedSubtrees,
    /// The points of cRLDistributionPoints.
    DistributionPoints,
    /// The policies of certificatePolicies.
    Policies,
    /// The mappings of policyMappings.
    PolicyMappings,
    /// requireExplicitPolicy of policyConstraints.
    ExplicitPolicy,
    /// inhibitPolicyMapping of policyConstraints.
    InhibitedMapping,
    /// The purposes of extKeyUsage.
    KeyPurposes,
}

/// [1] IA5String of a GeneralName.
const MAIL: u8 = 0x81;

/// [2] IA5String of a GeneralName.
const DNS: u8 = 0x82;

/// [6] IA5String of a GeneralName.
pub(crate) const URI: u8 = 0x86;

/// [7] OCTET STRING of a GeneralName.
const IP: u8 = 0x87;

/// Appends a name (RFC 5280 4.2.1.6).
fn append_general_name(
    alloc: Global,
    octets: &mut Vec<u8>,
    name: &NameText<'_>,
) -> Result<(), MakeFault>
    ensures { Appends result (general_name name.now) octets.old.items octets.new.items }
{
    match name {
        NameText::Dns(text) => append_element(alloc, octets, DNS, text.as_bytes()),
        NameText::Ip(address) => append_element(alloc, octets, IP, address),
        NameText::Mail(text) => append_element(alloc, octets, MAIL, text.as_bytes()),
    }
}

/// Appends a subtree (RFC 5280 4.2.1.10).
fn append_subtree(alloc: Global, octets: &mut Vec<u8>, name: &NameText<'_>) -> Result<(), MakeFault>
    ensures { Appends result (general_subtree name.now) octets.old.items octets.new.items }
{
    let mut base = Vec::new(alloc);
    append_general_name(alloc, &mut base, name)?;
    append_element(alloc, octets, SEQUENCE, &base)
}

/// [0] of a DistributionPoint and of an IssuingDistributionPoint, and [0] of a
/// DistributionPointName.
pub(crate) const FIRST: u8 = 0xa0;

/// Appends a distribution point (RFC 5280 4.2.1.13).
fn append_point(alloc: Global, octets: &mut Vec<u8>, uri: &str) -> Result<(), MakeFault>
    ensures { Appends result (distribution_point uri.now) octets.old.items octets.new.items }
{
    let names = element(alloc, URI, uri.as_bytes())?;
    let full_name = element(alloc, FIRST, &names)?;
    let point_name = element(alloc, FIRST, &full_name)?;
    append_element(alloc, octets, SEQUENCE, &point_name)
}

/// Appends a policy without qualifiers (RFC 5280 4.2.1.4).
fn append_policy(alloc: Global, octets: &mut Vec<u8>, oid: &[u8]) -> Result<(), MakeFault>
    ensures { Appends result (policy_information oid.now) octets.old.items octets.new.items }
{
    let identifier = element(alloc, OBJECT_IDENTIFIER, oid)?;
    append_element(alloc, octets, SEQUENCE, &identifier)
}

/// Appends a mapping (RFC 5280 4.2.1.5).
fn append_mapping(
    alloc: Global,
    octets: &mut Vec<u8>,
    issuer: &[u8],
    subject: &[u8],
) -> Result<(), MakeFault>
    ensures { Appends result (policy_mapping issuer.now subject.now) octets.old.items
        octets.new.items }
{
    let mut policies = Vec::new(alloc);
    append_element(alloc, &mut policies, OBJECT_IDENTIFIER, issuer)?;
    append_element(alloc, &mut policies, OBJECT_IDENTIFIER, subject)?;
    append_element(alloc, octets, SEQUENCE, &policies)
}

/// [0] of PolicyConstraints (RFC 5280 4.2.1.11).
const REQUIRE_EXPLICIT_POLICY: u8 = 0x80;

/// [1] of PolicyConstraints.
const INHIBIT_POLICY_MAPPING: u8 = 0x81;

/// Appends what a part puts into a list.
fn append_item(
    alloc: Global,
    octets: &mut Vec<u8>,
    list: Items,
    part: &ExtensionText<'_>,
) -> Result<(), MakeFault>
    ensures { Appends result (item list part.now) octets.old.items octets.new.items }
{
    match (list, part) {
        (Items::AlternativeNames, ExtensionText::SubjectAltName(name)) => {
            append_general_name(alloc, octets, name)
        }
        (Items::PermittedSubtrees, ExtensionText::PermittedSubtree(name)) => {
            append_subtree(alloc, octets, name)
        }
        (Items::ExcludedSubtrees, ExtensionText::ExcludedSubtree(name)) => {
            append_subtree(alloc, octets, name)
        }
        (Items::DistributionPoints, ExtensionText::DistributionPoint(uri)) => {
            append_point(alloc, octets, uri)
        }
        (Items::Policies, ExtensionText::Policy(oid)) => append_policy(alloc, octets, oid.content),
        (Items::PolicyMappings, ExtensionText::PolicyMapping { issuer, subject }) => {
            append_mapping(alloc, octets, issuer.content, subject.content)
        }
        (Items::ExplicitPolicy, ExtensionText::RequireExplicitPolicy(n)) => {
            append_number(alloc, octets, REQUIRE_EXPLICIT_POLICY, *n)
        }
        (Items::InhibitedMapping, ExtensionText::InhibitPolicyMapping(n)) => {
            append_number(alloc, octets, INHIBIT_POLICY_MAPPING, *n)
        }
        (Items::KeyPurposes, ExtensionText::KeyPurpose(oid)) => {
            append_element(alloc, octets, OBJECT_IDENTIFIER, oid.content)
        }
        _ => Ok(()),
    }
}

/// Appends what the parts put into a list, in their order.
pub(crate) fn append_items(
    alloc: Global,
    octets: &mut Vec<u8>,
    list: Items,
    parts: &[ExtensionText<'_>],
) -> Result<(), MakeFault>
    ensures { Appends result (items_of list parts.now) octets.old.items octets.new.items }
{
    for part in parts {
        append_item(alloc, octets, list, part)?;
    }
    Ok(())
}
