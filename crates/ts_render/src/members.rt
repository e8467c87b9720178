//! The fields of rows as members of JSON objects.

ghost use Rattle.std.specs.Prelude.{◌≡◌, ◌++◌, ◌∷◌, [], IfOk, OnOk, map, option_map, string_bytes};
ghost use Rattle.serde_json.specs.Data.{string};
ghost use Rattle.ts_json.specs.Members.{data_of, named_value};
ghost use Rattle.ts_json.specs.Object.{text_or_null};
ghost use Rattle.ts_render.specs.RowMembers.{anchor_members, command_members, crl_members};
ghost use Rattle.ts_render.specs.RowMembers.{data_of_purposes, members_of_row};

use crate::rows::{AnchorFields, CommandFields, CrlFields, PurposeFields, RowFields};
use std::alloc::{AllocError, Global};
use ts_json::{Member, Plain};

/// A word, as a value.
fn word(alloc: Global, word: &str) -> Result<Plain, AllocError>
    ensures { IfOk result (λ value. data_of value ≡ string word.now) }
{
    Ok(Plain::Text(Some(String::from_str(alloc, word)?)))
}

/// A text, as a value.
fn text(text: String) -> Plain
    ensures { data_of result ≡ string (string_bytes text) }
{
    Plain::Text(Some(text))
}

/// Purposes as an array; null for any.
fn purposes_value(alloc: Global, purposes: PurposeFields) -> Result<Plain, AllocError>
    ensures { IfOk result (λ value. data_of value ≡ data_of_purposes purposes) }
{
    match purposes {
        PurposeFields::Any => Ok(Plain::Text(None)),
        PurposeFields::These(texts) => Ok(Plain::Texts(texts)),
        PurposeFields::Unknown => word(alloc, "unknown"),
    }
}

/// Puts a member behind others.
fn push(members: &mut Vec<Member>, name: &'static str, value: Plain) -> Result<(), AllocError>
    ensures { OnOk result (map named_value members.new.items
        ≡ map named_value members.old.items ++ (name.now, data_of value) ∷ []) }
{
    members.push(Member { name, value })?;
    Ok(())
}

/// The members of an anchor.
fn anchor_members(alloc: Global, row: AnchorFields) -> Result<Vec<Member>, AllocError>
    ensures { IfOk result (λ all. map named_value all.items ≡ anchor_members row) }
{
    let mut all = Vec::new(alloc);
    push(&mut all, "kind", word(alloc, "anchor")?)?;
    push(&mut all, "id", text(row.id))?;
    push(&mut all, "subject", text(row.subject))?;
    push(&mut all, "purposes", purposes_value(alloc, row.purposes)?)?;
    Ok(all)
}

/// The members of a CRL.
fn crl_members(alloc: Global, row: CrlFields) -> Result<Vec<Member>, AllocError>
    ensures { IfOk result (λ all. map named_value all.items ≡ crl_members row) }
{
    let kind = if row.base.is_some() { "delta" } else { "crl" };
    let mut all = Vec::new(alloc);
    push(&mut all, "kind", word(alloc, kind)?)?;
    push(&mut all, "id", text(row.id))?;
    push(&mut all, "issuer", text(row.issuer))?;
    push(&mut all, "number", Plain::Text(row.number))?;
    push(&mut all, "base", Plain::Text(row.base))?;
    push(&mut all, "scope", Plain::Text(row.scope))?;
    push(&mut all, "this_update", Plain::Text(row.this_update))?;
    push(&mut all, "next_update", Plain::Text(row.next_update))?;
    push(&mut all, "entries", Plain::Number(Some(row.entries)))?;
    push(&mut all, "octets", Plain::Number(Some(row.octets)))?;
    Ok(all)
}

/// The word of a kind, if it has one, as a value.
fn kind_value(alloc: Global, kind: Option<&'static str>) -> Result<Plain, AllocError>
    ensures { IfOk result (λ value. data_of value
        ≡ text_or_null (option_map (λ word. word.now) kind.entry)) }
{
    match kind {
        Some(kind) => word(alloc, kind),
        None => Ok(Plain::Text(None)),
    }
}

/// The members of a command at a position.
fn command_members(alloc: Global, place: u64, row: CommandFields) -> Result<Vec<Member>, AllocError>
    ensures { IfOk result (λ all. map named_value all.items ≡ command_members place row) }
{
    let mut all = Vec::new(alloc);
    push(&mut all, "position", Plain::Number(Some(place)))?;
    push(&mut all, "id", text(row.id))?;
    push(&mut all, "kind", kind_value(alloc, row.kind)?)?;
    push(&mut all, "outcome", Plain::Text(row.outcome))?;
    push(&mut all, "about", Plain::Text(row.about))?;
    push(&mut all, "octets", Plain::Number(Some(row.octets)))?;
    if let Some(purposes) = row.purposes {
        push(&mut all, "purposes", purposes_value(alloc, purposes)?)?;
    }
    Ok(all)
}

/// The members of a row; of a command with its position.
///
/// # Errors
///
/// Out of memory.
pub fn row_members(alloc: Global, place: u64, row: RowFields) -> Result<Vec<Member>, AllocError>
    ensures { IfOk result (λ all. map named_value all.items ≡ members_of_row place row) }
{
    match row {
        RowFields::Anchor(row) => anchor_members(alloc, row),
        RowFields::Crl(row) => crl_members(alloc, row),
        RowFields::Command(row) => command_members(alloc, place, row),
    }
}
