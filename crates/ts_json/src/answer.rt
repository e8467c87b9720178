//! The object of a node's answer.

ghost use Rattle.std.specs.Prelude.{◌≡◌, IfOk, string_bytes};
ghost use Rattle.serde_json.specs.View.{members_view};
ghost use Rattle.serde_json.specs.Written.{compact_text};
ghost use Rattle.ts_json.specs.Answer.{answer_in, asked_in, told_in, verdict_in};

use crate::value::{array_of, flag_or_null, number_or_null, numbers_of, text_or_null};
use serde_json::{Map, Value, put};
use std::alloc::{AllocError, Global};

/// The fields of a node's answer to a question.
#[derive(Debug, Drop)]
pub struct AnswerFields {
    /// The number of commands after which the store was looked at.
    pub k: u64,
    /// The moment of the question, as 20260131120000Z, if a year of four digits has it.
    pub at: Option<String>,
    /// The SHA-256 of the question's octets, in hexadecimal digits.
    pub id: String,
    /// The question's octets, in base64.
    pub question: String,
    /// The name of the reply, as `Invalid`.
    pub reply: &'static str,
    /// Whether the chain is valid, if the reply says so.
    pub valid: Option<bool>,
    /// The place of the certificate that is not good, counted from 1, the anchor's side.
    pub position: Option<u64>,
    /// The reason, as `Expired`.
    pub reason: Option<String>,
    /// The standard and its section, as `5280 6.1.3 (a)(2)`.
    pub section: Option<String>,
    /// The id of the trust anchor, in hexadecimal digits.
    pub anchor: Option<String>,
    /// The accepted policies, in dotted form.
    pub policies: Vec<String>,
    /// The places in the question of the chain that was found, from the anchor's side.
    pub places: Vec<u64>,
    /// How many commands the node knows, if they are fewer than it was asked about.
    pub prefix: Option<u64>,
    /// The answer in plain words.
    pub explanation: String,
}

/// The members on what was asked.
#[tactic(auto, unfolding(crate::specs::Answer::asked_in))]
fn asked_members(alloc: Global, fields: &AnswerFields) -> Result<Map<String, Value>, AllocError>
    ensures { IfOk result (λ m. members_view m.entries ≡ asked_in fields.now) }
{
    let mut members = Map::new(alloc);
    put(&mut members, alloc, "k", Value::from(fields.k))?;
    let at = text_or_null(alloc, &fields.at)?;
    put(&mut members, alloc, "at", at)?;
    let id = Value::try_from_str(alloc, fields.id.as_str())?;
    put(&mut members, alloc, "id", id)?;
    let question = Value::try_from_str(alloc, fields.question.as_str())?;
    put(&mut members, alloc, "question", question)?;
    let prefix = number_or_null(fields.prefix);
    put(&mut members, alloc, "prefix", prefix)?;
    Ok(members)
}

/// The members on the verdict too.
#[tactic(auto, unfolding(crate::specs::Answer::verdict_in))]
fn verdict_members(alloc: Global, fields: &AnswerFields) -> Result<Map<String, Value>, AllocError>
    ensures { IfOk result (λ m. members_view m.entries ≡ verdict_in fields.now) }
{
    let mut members = asked_members(alloc, fields)?;
    let reply = Value::try_from_str(alloc, fields.reply)?;
    put(&mut members, alloc, "reply", reply)?;
    put(&mut members, alloc, "valid", flag_or_null(fields.valid))?;
    let position = number_or_null(fields.position);
    put(&mut members, alloc, "position", position)?;
    let reason = text_or_null(alloc, &fields.reason)?;
    put(&mut members, alloc, "reason", reason)?;
    let section = text_or_null(alloc, &fields.section)?;
    put(&mut members, alloc, "section", section)?;
    Ok(members)
}

/// All members.
#[tactic(auto, unfolding(crate::specs::Answer::told_in))]
fn told_members(alloc: Global, fields: &AnswerFields) -> Result<Map<String, Value>, AllocError>
    ensures { IfOk result (λ m. members_view m.entries ≡ told_in fields.now) }
{
    let mut members = verdict_members(alloc, fields)?;
    let anchor = text_or_null(alloc, &fields.anchor)?;
    put(&mut members, alloc, "anchor", anchor)?;
    let policies = array_of(alloc, &fields.policies)?;
    put(&mut members, alloc, "policies", policies)?;
    let places = numbers_of(alloc, &fields.places)?;
    put(&mut members, alloc, "places", places)?;
    let explanation = Value::try_from_str(alloc, fields.explanation.as_str())?;
    put(&mut members, alloc, "explanation", explanation)?;
    Ok(members)
}

/// The text of the object whose members are these fields, without spaces.
///
/// # Errors
///
/// Out of memory.
pub fn answer_text(alloc: Global, fields: &AnswerFields) -> Result<String, AllocError>
    ensures { IfOk result (λ text. string_bytes text ≡ compact_text (answer_in fields.now)) }
{
    let members = told_members(alloc, fields)?;
    Value::Object(members).to_string(alloc)
}
