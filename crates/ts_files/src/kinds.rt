//! What a file holds that is of another kind than is wanted.

ghost use Rattle.std.specs.Prelude.{IfOk};
ghost use Rattle.ts_files.specs.Others.{IsOther};

use std::alloc::{AllocError, Global};
use ts_line::Line;
use ts_show::{Kind, kind_of};

/// What octets hold, where that is known and not what is wanted.
pub fn other_kind(alloc: Global, wanted: Kind, octets: &[u8]) -> Result<Option<Kind>, AllocError>
    ensures { IfOk result (IsOther wanted octets.now) }
{
    let kind = kind_of(alloc, octets)?;
    if kind == wanted || kind == Kind::Broken || kind == Kind::Unknown {
        return Ok(None);
    }
    Ok(Some(kind))
}

/// A kind, with its article.
fn name_of(kind: Kind) -> &'static str {
    match kind {
        Kind::Record => "a node's record",
        Kind::Certificate => "a certificate",
        Kind::List => "a CRL",
        Kind::Command => "a command",
        Kind::Question => "a question",
        Kind::Broken | Kind::Unknown => "nothing known",
    }
}

/// The most octets of a label that is said.
const MAX_LABEL: usize = 64;

/// The label of the first block of a text of PEM, whatever it is, as `PRIVATE KEY`: what stands
/// before the next five dashes (RFC 7468 3), and nothing behind, which may be a key.
fn first_label(octets: &[u8]) -> Option<&str> {
    let Ok(text) = str::from_utf8(octets) else {
        return None;
    };
    for line in text.lines() {
        if let Some(rest) = line.strip_prefix("-----BEGIN ") {
            let (label, _) = rest.split_once("-----")?;
            return Some(label).filter(|label| label.len() <= MAX_LABEL);
        }
    }
    None
}

/// Says on standard error what a file of PEM has that has no block of the wanted kind.
fn say_label(
    rt: &impl Eprint,
    alloc: Global,
    path: &str,
    wanted: Kind,
    label: &str,
) -> Result<(), AllocError> {
    let line = Line::of(alloc, label.as_bytes())?;
    let label = str::from_utf8(line.as_slice()).unwrap_or("another label");
    let wanted = name_of(wanted);
    let _ = eprintln!(rt; "trustd: {path}: holds {label}, where {wanted} is wanted");
    Ok(())
}

/// Says on standard error what a file holds that has none of the wanted kind. Whether it is known.
///
/// # Errors
///
/// Memory that is refused.
pub fn say_other(
    rt: &impl Eprint,
    alloc: Global,
    path: &str,
    wanted: Kind,
    octets: &[u8],
) -> Result<bool, AllocError> {
    if let Some(label) = first_label(octets) {
        say_label(rt, alloc, path, wanted, label)?;
        return Ok(true);
    }
    let Some(other) = other_kind(alloc, wanted, octets)? else {
        return Ok(false);
    };
    let (other, wanted) = (name_of(other), name_of(wanted));
    let _ = eprintln!(rt; "trustd: {path}: is {other}, where {wanted} is wanted");
    Ok(true)
}
