//! The fields of an answer.

ghost use Rattle.std.specs.Prelude.{◌≡◌, IfOk, map, option_map, string_bytes};
ghost use Rattle.hex.specs.Hex.{encode_lower};
ghost use Rattle.base64.specs.Engines.{standard};
ghost use Rattle.base64.specs.GeneralPurpose.{encode_of};
ghost use Rattle.ts_question.specs.Question.{question_encoding};
ghost use Rattle.ts_reason.specs.Printed.{reason_text};
ghost use Rattle.ts_explain.specs.Sections.{section as section_of};
ghost use Rattle.ts_render.specs.Explanations.{IsExplanation};
ghost use Rattle.ts_render.specs.Fields.{AreFields, AreWords, anchor_in, places_in};
ghost use Rattle.ts_render.specs.Fields.{policies_in};
ghost use Rattle.ts_line.specs.Names.{dotted_form};

use crate::explaining::line_of;
use crate::replies::{name_of, position_in, prefix_in, valid_in};
use crate::rows::all_dotted;
use crate::text::moment_text;
use base64::engine::general_purpose::STANDARD;
use std::alloc::{AllocError, Global};
use ts_der::Oid;
use ts_explain::section;
use ts_json::AnswerFields;
use ts_question::{Answer, Question, Reply};
use ts_reason::Reason;

/// The name of a reason.
fn reason_name(alloc: Global, reason: &Reason<Oid>) -> Result<String, AllocError>
    ensures { IfOk result (λ text. string_bytes text ≡ reason_text reason.now) }
{
    let reason = reason.as_ref();
    format!(in alloc; "{reason}")
}

/// The section of a reason.
fn section_name(alloc: Global, reason: &Reason<Oid>) -> Result<String, AllocError>
    ensures { IfOk result (λ text. string_bytes text ≡ section_of reason.now) }
{
    String::from_str(alloc, section(reason))
}

/// The reason of a reply and its section.
fn words_of(alloc: Global, reply: &Reply) -> Result<(Option<String>, Option<String>), AllocError>
    ensures { IfOk result (λ words. AreWords reply.now
        (option_map string_bytes words.0) (option_map string_bytes words.1)) }
{
    match reply {
        Reply::Invalid { reason, .. } => Ok((
            Some(reason_name(alloc, reason)?),
            Some(section_name(alloc, reason)?),
        )),
        _ => Ok((None, None)),
    }
}

/// The anchor of a reply, in hexadecimal digits.
fn anchor_of(alloc: Global, reply: &Reply) -> Result<Option<String>, AllocError>
    ensures { IfOk result (λ text. option_map string_bytes text
        ≡ option_map encode_lower (anchor_in reply.now)) }
{
    match reply {
        Reply::Valid { anchor, .. } => Ok(Some(hex::encode(alloc, anchor)?)),
        Reply::Found { anchor, .. } => Ok(Some(hex::encode(alloc, anchor)?)),
        _ => Ok(None),
    }
}

/// The accepted policies of a reply, in dotted form.
fn policies_of(alloc: Global, reply: &Reply) -> Result<Vec<String>, AllocError>
    ensures { IfOk result (λ texts. map string_bytes texts.items
        ≡ map dotted_form (policies_in reply.now)) }
{
    match reply {
        Reply::Valid { policies, .. } => all_dotted(alloc, policies.as_slice()),
        Reply::Found { policies, .. } => all_dotted(alloc, policies.as_slice()),
        _ => Ok(Vec::new(alloc)),
    }
}

/// Octets as numbers.
fn numbers(alloc: Global, octets: &[u8]) -> Result<Vec<u64>, AllocError>
    ensures { IfOk result (λ numbers. numbers.items ≡ octets.now) }
{
    let mut numbers = Vec::new(alloc);
    for octet in octets {
        numbers.push(u64::from(*octet))?;
    }
    Ok(numbers)
}

/// The places of a chain that was found.
fn places_of(alloc: Global, reply: &Reply) -> Result<Vec<u64>, AllocError>
    ensures { IfOk result (λ places. places.items ≡ places_in reply.now) }
{
    match reply {
        Reply::Found { places, .. } => numbers(alloc, places.as_slice()),
        _ => Ok(Vec::new(alloc)),
    }
}

/// What a reply to a question means, in plain words.
fn explanation_of(alloc: Global, question: &Question, reply: &Reply) -> Result<String, AllocError>
    ensures { IfOk result (λ text. IsExplanation question.now reply.now (string_bytes text)) }
{
    line_of(alloc, question, reply)?.to_text()
}

/// The octets of a question, in base64.
fn base64_of(alloc: Global, question: &Question) -> Result<String, AllocError>
    ensures { IfOk result (λ text. string_bytes text
        ≡ encode_of standard (question_encoding question.now)) }
{
    let octets = question.octets(alloc)?;
    STANDARD.encode(alloc, &octets)
}

/// The fields of an answer to a question. `id` is the SHA-256 of the question's octets.
///
/// # Errors
///
/// Out of memory.
pub fn answer_fields(
    alloc: Global,
    question: &Question,
    answer: &Answer,
    id: &[u8; 32],
) -> Result<AnswerFields, AllocError>
    ensures { IfOk result (AreFields question.now answer.now id.now) }
{
    let reply = answer.reply();
    let (reason, section) = words_of(alloc, reply)?;
    Ok(AnswerFields {
        k: u64::from(answer.k()),
        at: moment_text(alloc, question.terms().moment)?,
        id: hex::encode(alloc, id)?,
        question: base64_of(alloc, question)?,
        reply: name_of(reply),
        valid: valid_in(reply),
        position: position_in(reply),
        reason,
        section,
        anchor: anchor_of(alloc, reply)?,
        policies: policies_of(alloc, reply)?,
        places: places_of(alloc, reply)?,
        prefix: prefix_in(reply),
        explanation: explanation_of(alloc, question, reply)?,
    })
}
