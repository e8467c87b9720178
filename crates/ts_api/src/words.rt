//! Why a request says no question, in plain words.

ghost use Rattle.std.specs.Prelude.{◌≡◌, IfOk, string_bytes};
ghost use Rattle.ts_api.specs.Words.{fault_words, wanted_of};

use std::alloc::{AllocError, Global};
use ts_form::{Field, FormFault};

/// What a value of a field is.
fn wanted_of(field: Field) -> &'static str
    ensures { result.now ≡ wanted_of field }
{
    match field {
        Field::Chain => "certificates in PEM, or one as base64 of its DER",
        Field::At => "a moment, as 20260131120000Z",
        Field::K => "a number from 0 to 1000000",
        Field::Policies | Field::Purpose => "an object identifier, as 2.5.29.32.0",
        Field::From => "a number below 4294967296",
        Field::Anchor => "the 64 lower-case hexadecimal digits of an anchor's id",
        _ => "1 or 0",
    }
}

/// Why pairs say no question.
///
/// # Errors
///
/// Out of memory.
pub fn fault_text(alloc: Global, fault: FormFault) -> Result<String, AllocError>
    ensures { IfOk result (λ text. string_bytes text ≡ fault_words fault) }
{
    match fault {
        FormFault::Memory => String::from_str(alloc, "memory was refused"),
        FormFault::Json => String::from_str(
            alloc,
            "the body is no JSON object of texts, numbers, flags and lists of texts",
        ),
        FormFault::Many => String::from_str(alloc, "more than 256 fields are given"),
        FormFault::Name => String::from_str(
            alloc,
            "there are these fields: chain, at, k, hard, deltas, explicit, nomap, noany, \
             policies, purpose, anchor; of pages of rows: k, from",
        ),
        FormFault::Value(field) => {
            let (name, wanted) = (field.name(), wanted_of(field));
            format!(in alloc; "{name} is not {wanted}")
        }
        FormFault::Twice(field) => {
            let name = field.name();
            format!(in alloc; "{name} is given twice")
        }
    }
}

/// Why a question is outside its limits.
pub const LIMITS: &str = "a question has 1 to 16 certificates under an anchor, or 1 to 33 \
    without one, each of at most 65536 octets, and at most 32 policies";
