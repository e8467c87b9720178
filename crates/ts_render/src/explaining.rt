//! A reply in plain words.

ghost use Rattle.std.specs.Prelude.{◌≡◌, ◌++◌, IfOk, OnOk, codes, length};
ghost use Rattle.std.specs.List.{flat_map};
ghost use Rattle.ts_render.specs.Chain.{certificates_in};
ghost use Rattle.ts_render.specs.Explanations.{ExplainsReply, IsEnded, IsInvalidChainLine};
ghost use Rattle.ts_render.specs.Explanations.{found_words, malformed_words, not_yet_words};
ghost use Rattle.ts_render.specs.Explanations.{page_words, place_words, valid_words};

use crate::chain::certificates_in;
use std::alloc::{AllocError, Global};
use ts_cert::Cert;
use ts_der::Oid;
use ts_explain::reason_line;
use ts_line::Line;
use ts_question::{Question, Reply};
use ts_reason::Reason;

/// The line where no certificate has the place that a reply names.
fn no_certificate(alloc: Global) -> Result<Line, AllocError>
    ensures { IfOk result (λ line. line ≡ codes "no certificate has this place") }
{
    Line::of(alloc, b"no certificate has this place")
}

/// The line on a certificate that does not meet a condition.
fn invalid_line(
    alloc: Global,
    question: &Question,
    position: u8,
    reason: &Reason<Oid>,
) -> Result<Line, AllocError>
    ensures { IfOk result (IsInvalidChainLine (certificates_in question.now) position reason.now) }
{
    let certificates = certificates_in(question);
    let place = position as usize;
    let Some(octets) = certificates.get(place.saturating_sub(1)) else {
        return no_certificate(alloc);
    };
    let Ok(cert) = Cert::read(octets) else {
        return no_certificate(alloc);
    };
    reason_line(alloc, place, certificates.len(), &cert, &reason.as_ref())
}

/// The line on a chain that is valid.
fn valid_line(alloc: Global, count: usize, anchor: &[u8; 32]) -> Result<Line, AllocError>
    ensures { IfOk result (λ line. line ≡ valid_words count anchor.now) }
{
    let mut line = Line::of(alloc, b"the chain of ")?;
    line.number(count as u64)?;
    line.text(b" is valid under the trust anchor ")?;
    line.hex(anchor)?;
    Ok(line)
}

/// Writes places, a space before each.
fn write_places(line: &mut Line, places: &[u8]) -> Result<(), AllocError>
    ensures { OnOk result (line.new ≡ line.old ++ flat_map place_words places.now) }
{
    for place in places {
        line.text(b" ")?;
        line.number(*place as u64)?;
    }
    Ok(())
}

/// The line on a chain that was found.
fn found_line(alloc: Global, anchor: &[u8; 32], places: &[u8]) -> Result<Line, AllocError>
    ensures { IfOk result (λ line. line ≡ found_words anchor.now places.now) }
{
    let mut line = Line::of(alloc, b"valid under the trust anchor ")?;
    line.hex(anchor)?;
    line.text(b" are, in this order, these certificates of the question:")?;
    write_places(&mut line, places)?;
    Ok(line)
}

/// The line on a part of the question that can't be read.
fn malformed_line(alloc: Global, index: u8, place: u32) -> Result<Line, AllocError>
    ensures { IfOk result (λ line. line ≡ malformed_words index place) }
{
    if index == 0 {
        return Line::of(
            alloc,
            b"an initial subtree of the question breaks a rule (RFC 5280 4.2.1.10)",
        );
    }
    let mut line = Line::of(alloc, b"certificate ")?;
    line.number(index as u64)?;
    line.text(b" of the question is none: it breaks the rule at octet ")?;
    line.number(place as u64)?;
    Ok(line)
}

/// The line on a node that knows fewer commands than are asked for.
fn not_yet_line(alloc: Global, prefix: u32) -> Result<Line, AllocError>
    ensures { IfOk result (λ line. line ≡ not_yet_words prefix) }
{
    let mut line = Line::of(alloc, b"the node knows ")?;
    line.number(prefix as u64)?;
    line.text(b" commands, fewer than the question is about")?;
    Ok(line)
}

/// The line on a page.
fn page_line(alloc: Global, total: u32, count: usize) -> Result<Line, AllocError>
    ensures { IfOk result (λ line. line ≡ page_words count total) }
{
    let mut line = Line::of(alloc, b"a page of ")?;
    line.number(count as u64)?;
    line.text(b" rows, of ")?;
    line.number(total as u64)?;
    line.text(b" in all; trustd store and trustd log print them")?;
    Ok(line)
}

/// What a reply to a question means.
///
/// # Errors
///
/// Out of memory.
pub(crate) fn line_of(alloc: Global, question: &Question, reply: &Reply) -> Result<Line, AllocError>
    ensures { IfOk result (ExplainsReply question.now reply.now) }
{
    match reply {
        Reply::Valid { anchor, .. } => valid_line(alloc, certificates_in(question).len(), anchor),
        Reply::Invalid { position, reason } => invalid_line(alloc, question, *position, reason),
        Reply::Found { anchor, places, .. } => found_line(alloc, anchor, places.as_slice()),
        Reply::NoPath => Line::of(
            alloc,
            b"no chain of these certificates is valid under a trust anchor of the store",
        ),
        Reply::SearchLimit => Line::of(
            alloc,
            b"none of the first 4096 chains of these certificates is valid, and there are more",
        ),
        Reply::NotYet { prefix } => not_yet_line(alloc, *prefix),
        Reply::Malformed { index, place, .. } => malformed_line(alloc, *index, *place),
        Reply::NoAnchor => Line::of(
            alloc,
            b"the store has no trust anchor of this id after these commands",
        ),
        Reply::Limit => Line::of(alloc, b"the policies have more paths than a limit"),
        Reply::Page { total, rows } => page_line(alloc, *total, rows.len()),
    }
}

/// What a reply to a question means, in plain words, as a line that is ended.
///
/// # Errors
///
/// Out of memory.
pub fn explanation(alloc: Global, question: &Question, reply: &Reply) -> Result<Vec<u8>, AllocError>
    ensures { IfOk result (λ text. IsEnded question.now reply.now text.items) }
{
    let line = line_of(alloc, question, reply)?;
    let mut text = Vec::new(alloc);
    text.extend_from_slice(line.as_slice())?;
    text.push(b'\n')?;
    Ok(text)
}
