//! Texts of ASCII.

ghost use Rattle.std.specs.Prelude.{◌≡◌, IfOk, option_map, string_bytes};
ghost use Rattle.hex.specs.Hex.{encode_lower};
ghost use Rattle.ts_render.specs.Texts.{IsNameShown, IsScopeShown, IsTold, TellsMoment};
ghost use Rattle.ts_render.specs.Texts.{hex_or_none};

use std::alloc::{AllocError, Global};
use ts_der::Element;
use ts_der::tag::SEQUENCE;
use ts_line::{Line, scope_line, write_name};
use ts_name::Name;
use ts_time::{Moment, print_general};

/// As many octets of a name, or of a scope, has a row at most.
const MOST: usize = 4_096;

/// The text of octets of ASCII.
pub(crate) fn text_of(alloc: Global, octets: &[u8]) -> Result<String, AllocError>
    ensures { IfOk result (λ text. string_bytes text ≡ octets.now) }
{
    match str::from_utf8(octets) {
        Ok(text) => String::from_str(alloc, text),
        // Texts of ASCII are UTF-8.
        Err(_) => Err(AllocError),
    }
}

/// A moment as 20260131120000Z, if a year of four digits has it.
///
/// # Errors
///
/// Out of memory.
pub fn moment_text(alloc: Global, moment: i64) -> Result<Option<String>, AllocError>
    ensures { IfOk result (λ text. TellsMoment moment (option_map string_bytes text)) }
{
    match print_general(Moment(moment)) {
        Some(text) => Ok(Some(text_of(alloc, &text)?)),
        None => Ok(None),
    }
}

/// Octets in hexadecimal digits, if there are any.
pub(crate) fn hex_or_none(alloc: Global, octets: &[u8]) -> Result<Option<String>, AllocError>
    ensures { IfOk result (λ text. option_map string_bytes text ≡ hex_or_none octets.now) }
{
    if octets.is_empty() {
        return Ok(None);
    }
    Ok(Some(hex::encode(alloc, octets)?))
}

/// The line of a name of which these are the contents octets, or of what they are else.
fn name_line(alloc: Global, content: &[u8]) -> Result<Line, AllocError>
    ensures { IfOk result (IsNameShown content.now) }
{
    if content.len() >= MOST {
        return Line::of(alloc, b"(a name of 4096 octets or more)");
    }
    let mut line = Line::new(alloc);
    match Name::read(Element::of_content(SEQUENCE, content)) {
        Ok(name) => write_name(alloc, &mut line, name)?,
        Err(_) => line.hex(content)?,
    }
    Ok(line)
}

/// A name of which these are the contents octets, in printable characters; of a long one, that it
/// is long.
pub(crate) fn content_text(alloc: Global, content: &[u8]) -> Result<String, AllocError>
    ensures { IfOk result (λ text. IsNameShown content.now (string_bytes text)) }
{
    let line = name_line(alloc, content)?;
    line.to_text()
}

/// The line of what a CRL covers, of which these are the octets; of long ones, that they are long.
fn known_scope(alloc: Global, scope: &[u8]) -> Result<Line, AllocError>
    ensures { IfOk result (IsScopeShown scope.now) }
{
    if scope.len() >= MOST {
        return Line::of(alloc, b"(a scope of 4096 octets or more)");
    }
    scope_line(alloc, scope)
}

/// What a CRL covers, in printable characters, if it says so; of a long scope, that it is long.
pub(crate) fn scope_text(alloc: Global, scope: &[u8]) -> Result<Option<String>, AllocError>
    ensures { IfOk result (λ text. IsTold scope.now (option_map string_bytes text)) }
{
    if scope.is_empty() {
        return Ok(None);
    }
    let line = known_scope(alloc, scope)?;
    Ok(Some(line.to_text()?))
}
