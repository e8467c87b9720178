//! The extensions of a CRL and of its entries.

ghost use Rattle.std.specs.Prelude.{◌≡◌, ◌++◌, true, map, OnOk};
ghost use Rattle.std.specs.List.{flat_map};
ghost use Rattle.ts_make.specs.Extensions.{extension_octets, sequence_extension};
ghost use Rattle.ts_make.specs.CrlExtensions.{reason_extension, number_extensions, base_extensions};
ghost use Rattle.ts_make.specs.CrlExtensions.{uri_octets, full_name, some_reasons, scope_content};
ghost use Rattle.ts_make.specs.CrlExtensions.{null_extension, crl_extensions, crl_field};
ghost use Rattle.ts_make.specs.Told.{IsSmallIfAny};
ghost use Rattle.ts_make.specs.inside.Writing.{Appends, Writes};

use crate::crl_description::CrlText;
use crate::elements::{append_element, element};
use crate::extensions::append_sequence;
use crate::fault::MakeFault;
use crate::items::{FIRST, URI};
use crate::key_usage::bits_content;
use crate::serial::append_number;
use crate::single::{NULL, append_extension};
use std::alloc::Global;
use ts_der::OidRef;
use ts_der::tag::{ENUMERATED, INTEGER, SEQUENCE};
use ts_ext::ReasonCode;

/// Appends reasonCode (RFC 5280 5.3.1).
pub(crate) fn append_reason(
    alloc: Global,
    octets: &mut Vec<u8>,
    reason: ReasonCode,
) -> Result<(), MakeFault>
    ensures { Appends result (extension_octets (reason_extension reason)) octets.old.items
        octets.new.items }
{
    let value = element(alloc, ENUMERATED, &[reason.number()])?;
    append_extension(alloc, octets, &[0x55, 0x1d, 21], false, &value)
}

/// Appends cRLNumber, where there is a number (RFC 5280 5.2.3).
fn append_crl_number(
    alloc: Global,
    octets: &mut Vec<u8>,
    number: Option<u32>,
) -> Result<(), MakeFault>
    ensures exact { Appends result
        (flat_map extension_octets (number_extensions number)) octets.old.items octets.new.items }
    ensures small { OnOk result (IsSmallIfAny number) }
{
    let Some(n) = number else {
        return Ok(());
    };
    let mut value = Vec::new(alloc);
    append_number(alloc, &mut value, INTEGER, n)?;
    append_extension(alloc, octets, &[0x55, 0x1d, 20], false, &value)
}

/// Appends deltaCRLIndicator, where there is a base number (RFC 5280 5.2.4).
fn append_base_number(
    alloc: Global,
    octets: &mut Vec<u8>,
    base: Option<u32>,
) -> Result<(), MakeFault>
    ensures exact { Appends result
        (flat_map extension_octets (base_extensions base)) octets.old.items octets.new.items }
    ensures small { OnOk result (IsSmallIfAny base) }
{
    let Some(n) = base else {
        return Ok(());
    };
    let mut value = Vec::new(alloc);
    append_number(alloc, &mut value, INTEGER, n)?;
    append_extension(alloc, octets, &[0x55, 0x1d, 27], true, &value)
}

/// Appends URIs as names (RFC 5280 4.2.1.6).
fn append_uris(alloc: Global, octets: &mut Vec<u8>, uris: &[&str]) -> Result<(), MakeFault>
    ensures { Appends result (flat_map uri_octets uris.now) octets.old.items octets.new.items }
{
    for uri in uris {
        append_element(alloc, octets, URI, uri.as_bytes())?;
    }
    Ok(())
}

/// Appends distributionPoint, where there are URIs (RFC 5280 5.2.5).
fn append_full_name(alloc: Global, octets: &mut Vec<u8>, uris: &[&str]) -> Result<(), MakeFault>
    ensures { Appends result (full_name uris.now) octets.old.items octets.new.items }
{
    if uris.is_empty() {
        return Ok(());
    }
    let mut names = Vec::new(alloc);
    append_uris(alloc, &mut names, uris)?;
    let name = element(alloc, FIRST, &names)?;
    append_element(alloc, octets, FIRST, &name)
}

/// [3] ReasonFlags of an IssuingDistributionPoint.
const ONLY_SOME_REASONS: u8 = 0x83;

/// Appends onlySomeReasons, where there are reasons (RFC 5280 5.2.5).
fn append_reasons(alloc: Global, octets: &mut Vec<u8>, reasons: &[u32]) -> Result<(), MakeFault>
    ensures { Appends result (some_reasons reasons.now) octets.old.items octets.new.items }
{
    if reasons.is_empty() {
        return Ok(());
    }
    let content = bits_content(alloc, reasons)?;
    append_element(alloc, octets, ONLY_SOME_REASONS, &content)
}

/// The content of issuingDistributionPoint (RFC 5280 5.2.5).
#[tactic(auto, unfolding(crate::specs::CrlExtensions::scope_content))]
fn write_scope(alloc: Global, uris: &[&str], reasons: &[u32]) -> Result<Vec<u8>, MakeFault>
    ensures { Writes result (scope_content uris.now reasons.now) }
{
    let mut fields = Vec::new(alloc);
    append_full_name(alloc, &mut fields, uris)?;
    append_reasons(alloc, &mut fields, reasons)?;
    Ok(fields)
}

/// Appends issuingDistributionPoint, where it says anything (RFC 5280 5.2.5).
fn append_scope(
    alloc: Global,
    octets: &mut Vec<u8>,
    uris: &[&str],
    reasons: &[u32],
) -> Result<(), MakeFault>
    ensures { Appends result (flat_map extension_octets
        (sequence_extension 28 true (scope_content uris.now reasons.now))) octets.old.items
        octets.new.items }
{
    let content = write_scope(alloc, uris, reasons)?;
    append_sequence(alloc, octets, 28, true, &content)
}

/// Appends critical extensions whose values are NULL.
fn append_nulls(
    alloc: Global,
    octets: &mut Vec<u8>,
    critical: &[OidRef<'_>],
) -> Result<(), MakeFault>
    ensures { Appends result (flat_map extension_octets (map null_extension critical.now))
        octets.old.items octets.new.items }
{
    for oid in critical {
        append_extension(alloc, octets, oid.content, true, NULL.as_slice())?;
    }
    Ok(())
}

/// All extensions of a CRL, in their order.
#[tactic(auto, unfolding(crate::specs::CrlExtensions::crl_extensions))]
fn write_extensions(alloc: Global, text: &CrlText<'_>) -> Result<Vec<u8>, MakeFault>
    ensures exact { Writes result (flat_map extension_octets (crl_extensions text.now)) }
    ensures small { OnOk result (IsSmallIfAny text.now.number) }
    ensures small_base { OnOk result (IsSmallIfAny text.now.base) }
{
    let mut extensions = Vec::new(alloc);
    append_crl_number(alloc, &mut extensions, text.number)?;
    append_base_number(alloc, &mut extensions, text.base)?;
    append_scope(alloc, &mut extensions, text.uris, text.reasons)?;
    append_nulls(alloc, &mut extensions, text.critical)?;
    Ok(extensions)
}

/// [0] EXPLICIT, the extensions of a CRL.
const LIST_EXTENSIONS: u8 = 0xa0;

/// Appends the field of the extensions, unless there are none (RFC 5280 5.1.2.7).
#[tactic(auto, unfolding(crate::specs::CrlExtensions::crl_field))]
pub(crate) fn append_crl_extensions(
    alloc: Global,
    octets: &mut Vec<u8>,
    text: &CrlText<'_>,
) -> Result<(), MakeFault>
    ensures exact { Appends result
        (crl_field (crl_extensions text.now)) octets.old.items octets.new.items }
    ensures small { OnOk result (IsSmallIfAny text.now.number) }
    ensures small_base { OnOk result (IsSmallIfAny text.now.base) }
{
    let extensions = write_extensions(alloc, text)?;
    if extensions.is_empty() {
        return Ok(());
    }
    let list = element(alloc, SEQUENCE, &extensions)?;
    append_element(alloc, octets, LIST_EXTENSIONS, &list)
}
