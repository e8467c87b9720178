//! The object of a verdict.

ghost use Rattle.std.specs.Prelude.{◌≡◌, IfOk, string_bytes};
ghost use Rattle.serde_json.specs.View.{members_view};
ghost use Rattle.serde_json.specs.Written.{compact_text};
ghost use Rattle.ts_json.specs.Object.{failing_in, members_in, object_in};

use crate::value::{array_of, number_or_null, text_or_null};
use crate::verdict::VerdictFields;
use serde_json::{Map, Value, put};
use std::alloc::{AllocError, Global};

/// The members on the certificate that is not good.
#[tactic(auto, unfolding(crate::specs::Object::failing_in))]
fn failing_members(alloc: Global, fields: &VerdictFields) -> Result<Map<String, Value>, AllocError>
    ensures { IfOk result (λ m. members_view m.entries ≡ failing_in fields.now) }
{
    let mut members = Map::new(alloc);
    put(
        &mut members,
        alloc,
        "position",
        number_or_null(fields.position),
    )?;
    let reason = text_or_null(alloc, &fields.reason)?;
    put(&mut members, alloc, "reason", reason)?;
    let section = text_or_null(alloc, &fields.section)?;
    put(&mut members, alloc, "section", section)?;
    let subject = text_or_null(alloc, &fields.subject)?;
    put(&mut members, alloc, "subject", subject)?;
    Ok(members)
}

/// All members.
#[tactic(auto, unfolding(crate::specs::Object::members_in))]
fn members_of(alloc: Global, fields: &VerdictFields) -> Result<Map<String, Value>, AllocError>
    ensures { IfOk result (λ m. members_view m.entries ≡ members_in fields.now) }
{
    let mut members = failing_members(alloc, fields)?;
    put(&mut members, alloc, "valid", Value::from(fields.valid))?;
    put(&mut members, alloc, "of", Value::from(fields.of))?;
    let explanation = Value::try_from_str(alloc, fields.explanation.as_str())?;
    put(&mut members, alloc, "explanation", explanation)?;
    put(
        &mut members,
        alloc,
        "policies",
        array_of(alloc, &fields.policies)?,
    )?;
    let anchor = Value::try_from_str(alloc, fields.anchor.as_str())?;
    put(&mut members, alloc, "anchor", anchor)?;
    let checked = Value::from(fields.revocation_checked);
    put(&mut members, alloc, "revocation_checked", checked)?;
    Ok(members)
}

/// The text of the object whose members are these fields, without spaces.
///
/// # Errors
///
/// Out of memory.
pub fn object_text(alloc: Global, fields: &VerdictFields) -> Result<String, AllocError>
    ensures { IfOk result (λ text. string_bytes text ≡ compact_text (object_in fields.now)) }
{
    let members = members_of(alloc, fields)?;
    Value::Object(members).to_string(alloc)
}
