//! Distinguished names, general names and object identifiers.

ghost use Rattle.std.specs.Prelude.{◌≡◌, ◌++◌, IfOk, OnOk, option_map, string_bytes};
ghost use Rattle.ts_line.specs.Lines.{printable};
ghost use Rattle.ts_line.specs.Names.{address_text, attribute_text, dotted_octets, form_text};
ghost use Rattle.ts_line.specs.Names.{general_text, name_text, oid_text, rdn_text, short_name};
ghost use Rattle.ts_line.specs.Names.{type_text};
ghost use Rattle.ts_name.specs.GeneralView.{general_in};
ghost use Rattle.ts_name.specs.NameView.{attributes_in, rdns_in};
ghost use Rattle.ts_name.specs.View.{attr_of};

use crate::line::Line;
use std::alloc::{AllocError, Global};
use ts_der::OidRef;
use ts_name::{Attribute, General, Name, Rdn};

/// The contents octets of uid, 0.9.2342.19200300.100.1.1 (RFC 4519 2.39).
const USER_ID: &[u8] = &[0x09, 0x92, 0x26, 0x89, 0x93, 0xf2, 0x2c, 0x64, 0x01, 0x01];

/// The contents octets of dc, 0.9.2342.19200300.100.1.25 (RFC 4519 2.4).
const DOMAIN_COMPONENT: &[u8] = &[0x09, 0x92, 0x26, 0x89, 0x93, 0xf2, 0x2c, 0x64, 0x01, 0x19];

/// The contents octets of emailAddress, 1.2.840.113549.1.9.1 (RFC 5280 4.1.2.6).
const EMAIL_ADDRESS: &[u8] = &[0x2a, 0x86, 0x48, 0x86, 0xf7, 0x0d, 0x01, 0x09, 0x01];

/// Writes the dotted form of the object identifier that has these contents octets; of octets that
/// are no object identifier their hexadecimal digits.
pub fn write_oid(alloc: Global, line: &mut Line, content: &[u8]) -> Result<(), AllocError>
    ensures { OnOk result (line.new ≡ line.old ++ oid_text content.now) }
{
    match OidRef::from_content(content) {
        Some(oid) => {
            let dotted = format!(in alloc; "{oid}")?;
            line.text(dotted.as_bytes())
        }
        None => line.hex(content),
    }
}

/// The short name of a type of attribute, by the content octets of its object identifier, if it has
/// one (RFC 4514 3, RFC 5280 4.1.2.6).
fn short_name(kind: &[u8]) -> Option<&'static str>
    ensures { option_map (λ name. name.now) result ≡ short_name kind.now }
{
    match kind {
        b"\x55\x04\x03" => Some("CN"),
        b"\x55\x04\x0a" => Some("O"),
        b"\x55\x04\x0b" => Some("OU"),
        b"\x55\x04\x06" => Some("C"),
        b"\x55\x04\x07" => Some("L"),
        b"\x55\x04\x08" => Some("ST"),
        b"\x55\x04\x09" => Some("STREET"),
        _ if kind == USER_ID => Some("UID"),
        _ if kind == DOMAIN_COMPONENT => Some("DC"),
        _ if kind == EMAIL_ADDRESS => Some("emailAddress"),
        _ => None,
    }
}

/// Writes a type of attribute: its short name, or its dotted form.
fn write_type(alloc: Global, line: &mut Line, kind: &[u8]) -> Result<(), AllocError>
    ensures { OnOk result (line.new ≡ line.old ++ type_text kind.now) }
{
    match short_name(kind) {
        Some(name) => line.text(name.as_bytes()),
        None => write_oid(alloc, line, kind),
    }
}

/// Writes an attribute: its type and its value.
fn write_attribute(
    alloc: Global,
    line: &mut Line,
    attribute: Attribute<'_>,
) -> Result<(), AllocError>
    ensures { OnOk result (line.new ≡ line.old ++ attribute_text (attr_of attribute.entry)) }
{
    write_type(alloc, line, attribute.kind)?;
    line.text(b"=")?;
    line.value(attribute.value)
}

/// Writes the attributes of a relative distinguished name, a plus sign between each two.
fn write_rdn(alloc: Global, line: &mut Line, rdn: Rdn<'_>) -> Result<(), AllocError>
    ensures { OnOk result (line.new ≡ line.old ++ rdn_text (attributes_in rdn.entry)) }
{
    let mut attributes = rdn.attributes();
    let Some(first) = attributes.next() else {
        return Ok(());
    };
    write_attribute(alloc, line, first)?;
    for attribute in attributes {
        line.text(b"+")?;
        write_attribute(alloc, line, attribute)?;
    }
    Ok(())
}

/// Writes a distinguished name: its relative ones in their order and a comma between each two; of
/// an empty one a hyphen.
pub fn write_name(alloc: Global, line: &mut Line, name: Name<'_>) -> Result<(), AllocError>
    ensures { OnOk result (line.new ≡ line.old ++ name_text (rdns_in name.entry)) }
{
    let mut rdns = name.rdns();
    let Some(first) = rdns.next() else {
        return line.text(b"-");
    };
    write_rdn(alloc, line, first)?;
    for rdn in rdns {
        line.text(b",")?;
        write_rdn(alloc, line, rdn)?;
    }
    Ok(())
}

/// A distinguished name as a text of printable characters, as [`write_name`] writes it.
///
/// # Errors
///
/// Out of memory.
pub fn name_text(alloc: Global, name: Name<'_>) -> Result<String, AllocError>
    ensures { IfOk result (λ text. string_bytes text ≡ name_text (rdns_in name.entry)) }
{
    let mut line = Line::new(alloc);
    write_name(alloc, &mut line, name)?;
    line.to_text()
}

/// Writes octets as numbers, a full stop between each two.
fn write_numbers(line: &mut Line, octets: &[u8]) -> Result<(), AllocError>
    ensures { OnOk result (line.new ≡ line.old ++ dotted_octets octets.now) }
{
    let Some((first, others)) = octets.split_first() else {
        return Ok(());
    };
    line.number(u64::from(*first))?;
    for octet in others {
        line.text(b".")?;
        line.number(u64::from(*octet))?;
    }
    Ok(())
}

/// Writes an IP address: one of four octets, or of four and a mask, as numbers, any other as
/// hexadecimal digits.
fn write_address(line: &mut Line, octets: &[u8]) -> Result<(), AllocError>
    ensures { OnOk result (line.new ≡ line.old ++ address_text octets.now) }
{
    match octets.len() {
        4 => write_numbers(line, octets),
        8 => {
            write_numbers(line, &octets[..4])?;
            line.text(b"/")?;
            write_numbers(line, &octets[4..])
        }
        _ => line.hex(octets),
    }
}

/// Writes the form of a general name and a colon.
fn write_form(line: &mut Line, general: General<'_>) -> Result<(), AllocError>
    ensures { OnOk result
        (line.new ≡ line.old ++ printable (form_text (general_in general.entry))) }
{
    line.text(match general {
        General::OtherName(_) => b"other:",
        General::Rfc822Name(_) => b"mail:",
        General::DnsName(_) => b"dns:",
        General::X400Address(_) => b"x400:",
        General::DirectoryName(_) => b"directory:",
        General::EdiPartyName(_) => b"edi:",
        General::UniformResourceIdentifier(_) => b"uri:",
        General::IpAddress(_) => b"ip:",
        General::RegisteredId(_) => b"id:",
    })
}

/// Writes a general name (RFC 5280 4.2.1.6); of a form that is not looked into, its octets.
pub fn write_general(alloc: Global, line: &mut Line, general: General<'_>) -> Result<(), AllocError>
    ensures { OnOk result (line.new ≡ line.old ++ general_text (general_in general.entry)) }
{
    write_form(line, general)?;
    match general {
        General::Rfc822Name(text)
        | General::DnsName(text)
        | General::UniformResourceIdentifier(text) => line.text(text),
        General::DirectoryName(name) => write_name(alloc, line, name),
        General::IpAddress(octets) => write_address(line, octets),
        General::RegisteredId(oid) => write_oid(alloc, line, oid.content),
        General::OtherName(octets) | General::X400Address(octets) | General::EdiPartyName(octets) =>
            line.hex(octets),
    }
}
