//! The question that a request asks.

ghost use Rattle.std.specs.Prelude.{◌≡◌, IfOk, IfErr, OnOk, map};
ghost use Rattle.sha2.specs.Sha256.{sha256};
ghost use Rattle.ts_form.specs.Pairs.{AreFew, pair_in};
ghost use Rattle.ts_question.specs.Question.{question_encoding};
ghost use Rattle.ts_api.specs.Asking.{BodyRefused, IsAsked, IsAskedBy, IsAskedFrom};
ghost use Rattle.ts_api.specs.Asking.{PairsRefused, RequestRefused, Says, SaysBody};
ghost use Rattle.ts_api.specs.Asking.{SaysJson};
ghost use Rattle.ts_api.specs.Asking.{SaysNoJson, SaysPairs, asked_as, is_json};

use crate::request::query_of;
use sha2::{Digest, Sha256};
use std::alloc::{AllocError, Global};
use ts_form::{FormFault, Pair, WantedFields, form_pairs, json_pairs, question_of};
use ts_http::Request;
use ts_question::Question;

/// Why a request asks no question.
#[derive(Clone, Copy, Debug, PartialEq, Eq)]
pub enum NoQuestion {
    /// What it says is refused.
    Form(FormFault),
    /// The question is outside its limits.
    Limits,
}

/// A question, and what is known of it.
#[derive(Drop)]
pub struct AskedQuestion {
    pub question: Question,
    /// The SHA-256 of its octets.
    pub id: [u8; 32],
    /// Whether its answer is the same for ever: it names both the moment and the position.
    pub is_pinned: bool,
}

/// Whether a body is a JSON object: its first octet but blanks is a brace.
fn is_json(body: &[u8]) -> bool
    ensures { result ≡ is_json body.now }
{
    for octet in body {
        if *octet == b'{' {
            return true;
        }
        if !octet.is_ascii_whitespace() {
            return false;
        }
    }
    false
}

/// The pairs that the JSON object of a body says.
fn object_pairs(alloc: Global, body: &[u8]) -> Result<Vec<Pair>, FormFault>
    ensures said { IfOk result (λ pairs. SaysJson body.now (map pair_in pairs.items)) }
    ensures few { IfOk result (λ pairs. AreFew (map pair_in pairs.items)) }
    ensures unsaid { IfErr result (SaysNoJson body.now) }
{
    let Ok(text) = str::from_utf8(body) else {
        return Err(FormFault::Json);
    };
    json_pairs(alloc, text)
}

/// Adds what a body says: an object of JSON, or certificates.
fn add_body(alloc: Global, wanted: &mut WantedFields, body: &[u8]) -> Result<(), FormFault>
    ensures says { OnOk result (SaysBody body.now wanted.old wanted.new) }
    ensures refused { IfErr result (BodyRefused body.now wanted.old) }
{
    if is_json(body) {
        let pairs = object_pairs(alloc, body)?;
        return wanted.add_all(alloc, &pairs);
    }
    if body.is_empty() {
        return Ok(());
    }
    wanted.add_certificates(alloc, body)
}

/// What pairs ask for.
pub fn wanted_in(alloc: Global, pairs: &[Pair]) -> Result<WantedFields, FormFault>
    ensures says { IfOk result (SaysPairs (map pair_in pairs.now)) }
    ensures refused { IfErr result (PairsRefused (map pair_in pairs.now)) }
{
    let mut wanted = WantedFields::new(alloc);
    match wanted.add_all(alloc, pairs) {
        Ok(()) => Ok(wanted),
        Err(fault) => Err(fault),
    }
}

/// What a body asks for, behind what was asked before.
fn with_body(
    alloc: Global,
    mut wanted: WantedFields,
    body: &[u8],
) -> Result<WantedFields, FormFault>
    ensures says { IfOk result (SaysBody body.now wanted) }
    ensures refused { IfErr result (BodyRefused body.now wanted) }
{
    match add_body(alloc, &mut wanted, body) {
        Ok(()) => Ok(wanted),
        Err(fault) => Err(fault),
    }
}

/// What the query and the body of a request ask for.
fn wanted_of(alloc: Global, request: &Request) -> Result<WantedFields, FormFault>
    ensures says { IfOk result (Says request.now.target.items request.now.body.items) }
    ensures refused { IfErr result
        (RequestRefused request.now.target.items request.now.body.items) }
{
    let pairs = form_pairs(alloc, query_of(&request.target))?;
    match wanted_in(alloc, &pairs) {
        Ok(wanted) => with_body(alloc, wanted, &request.body),
        Err(fault) => Err(fault),
    }
}

/// The SHA-256 of a question's octets.
fn id_of(alloc: Global, question: &Question) -> Result<[u8; 32], AllocError>
    ensures { IfOk result (λ id. id ≡ sha256 (question_encoding question.now)) }
{
    let octets = question.octets(alloc)?;
    let mut hasher = Sha256::new();
    hasher.update(&octets);
    Ok(hasher.finalize())
}

impl AskedQuestion {
    /// A question, with what is known of it.
    ///
    /// # Errors
    ///
    /// Out of memory.
    pub fn of(
        alloc: Global,
        question: Question,
        is_pinned: bool,
    ) -> Result<AskedQuestion, AllocError>
        ensures { IfOk result (λ asked. asked ≡ asked_as question is_pinned) }
    {
        let id = id_of(alloc, &question)?;
        Ok(AskedQuestion {
            question,
            id,
            is_pinned,
        })
    }
}

/// The question that fields ask, at this moment if they name none.
pub fn asked_of(
    alloc: Global,
    wanted: WantedFields,
    now: i64,
) -> Result<Result<AskedQuestion, NoQuestion>, AllocError>
    ensures { IfOk result (λ asked. IsAsked wanted now asked) }
{
    let is_pinned = wanted.at.is_some() && wanted.k.is_some();
    let Ok(question) = question_of(alloc, wanted, now) else {
        return Ok(Err(NoQuestion::Limits));
    };
    let asked = AskedQuestion::of(alloc, question, is_pinned)?;
    Ok(Ok(asked))
}

/// The question of a request to `/v1/verify`, at this moment if it names none.
pub fn question_in(
    alloc: Global,
    request: &Request,
    now: i64,
) -> Result<Result<AskedQuestion, NoQuestion>, AllocError>
    ensures { IfOk result
        (IsAskedBy request.now.target.items request.now.body.items now) }
{
    match wanted_of(alloc, request) {
        Ok(wanted) => asked_of(alloc, wanted, now),
        Err(FormFault::Memory) => Err(AllocError),
        Err(fault) => Ok(Err(NoQuestion::Form(fault))),
    }
}

/// The question that pairs ask, at this moment if they name none.
pub fn question_from(
    alloc: Global,
    pairs: &[Pair],
    now: i64,
) -> Result<Result<AskedQuestion, NoQuestion>, AllocError>
    ensures { IfOk result (IsAskedFrom (map pair_in pairs.now) now) }
{
    match wanted_in(alloc, pairs) {
        Ok(wanted) => asked_of(alloc, wanted, now),
        Err(FormFault::Memory) => Err(AllocError),
        Err(fault) => Ok(Err(NoQuestion::Form(fault))),
    }
}
