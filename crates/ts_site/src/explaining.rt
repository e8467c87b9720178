//! Why no chain is valid: where a search finds none, the question about the chain that was sent.

ghost use Rattle.std.specs.Prelude.{◌≡◌, ◌↔◌, IfOk, IsTrue, None, Some, map};
ghost use Rattle.ts_site.specs.Explaining.{AsksChain, AsksForRows, BeginsAnew, Concludes};
ghost use Rattle.ts_site.specs.Explaining.{EndsAnchors, EndsFirst, GoesOnRows, IsPassed};
ghost use Rattle.ts_site.specs.Explaining.{TakesRows};
ghost use Rattle.ts_site.specs.Explaining.{TellsEnd, chain_asked, nothing_in};
ghost use Rattle.ts_site.specs.Frames.{reply_in};

use crate::frames::reply_in;
use crate::listing::rows_question;
use crate::next::{Next, Waits, ask};
use crate::refusing::{node_failed, problem};
use crate::verifying::{time_kept, verdict};
use std::alloc::{AllocError, Global};
use ts_api::{AskedQuestion, Content, Response, Route, question_frame};
use ts_form::Pair;
use ts_page::verdict_page;
use ts_question::{Answer, Question, Reply};
use ts_render::{answer_fields, chain_fields};
use ts_sent::{AnchorAbove, chain_under, is_anchor, nearest, sent_in};
use ts_wire::Frame;

/// What stands below a verdict on the chain as it was sent.
const AS_SENT: &str =
    "The search found no valid chain to the first certificate. This is what the certificates come \
    to as they were sent, up to the first whose issuer is a trust anchor of the store.";

/// What stands below the answer of a search, where there is no question about the chain.
const NO_ANCHOR: &str =
    "No trust anchor of the store is the issuer of one of the first sixteen certificates.";

/// A search that found nothing, while the anchor above the chain that was sent is looked for.
#[derive(Drop)]
pub(crate) struct Explaining {
    pub asked: AskedQuestion,
    /// What the search answered.
    pub answer: Answer,
    /// The fields of the page's form; none where a program asks.
    pub form: Option<Vec<Pair>>,
    /// How many rows of the store were looked at.
    pub from: u32,
    /// The nearest anchor among these.
    pub found: Option<AnchorAbove>,
}

/// The answer of a search that found nothing, once more. `None` for any other answer.
fn nothing_in(answer: &Answer) -> Option<Answer>
    ensures { result ≡ nothing_in answer.now }
{
    let reply = match answer.reply() {
        Reply::NoPath => Reply::NoPath,
        Reply::SearchLimit => Reply::SearchLimit,
        _ => return None,
    };
    match Answer::new(answer.k(), reply) {
        Ok(answer) => Some(answer),
        Err(_) => unreachable!(),
    }
}

/// Asks for the rows of the store behind those that were looked at, as it was when the search found
/// nothing.
fn ask_rows(alloc: Global, explaining: Explaining) -> Result<Next, AllocError>
    ensures { IfOk result (AsksForRows explaining) }
{
    let question = rows_question(alloc, false, Some(explaining.answer.k()), explaining.from)?;
    let frame = question_frame(alloc, &question)?;
    Ok(ask(Waits::Anchors(explaining), frame))
}

/// Begins to look for the anchor above the chain that was sent, where a search found nothing.
fn begin_explaining(
    alloc: Global,
    asked: AskedQuestion,
    answer: Answer,
    form: Option<Vec<Pair>>,
) -> Result<Next, AllocError>
    ensures { IfOk result (BeginsAnew asked answer form) }
{
    ask_rows(
        alloc,
        Explaining {
            asked,
            answer,
            form,
            from: 0,
            found: None,
        },
    )
}

/// The page with a verdict.
fn page(
    alloc: Global,
    asked: &AskedQuestion,
    answer: &Answer,
    note: &'static str,
    pairs: &[Pair],
) -> Result<Response, AllocError> {
    let fields = answer_fields(alloc, &asked.question, answer, &asked.id)?;
    let chain = chain_fields(alloc, &asked.question, answer.reply())?;
    let body = verdict_page(alloc, &fields, &chain, note, pairs)?;
    let mut response = Response::new(200, Content::Html, body);
    response.keeps = time_kept(asked.is_pinned, answer.reply());
    Ok(response)
}

/// Tells an answer: to a program, or on the page, with a note.
fn tell(
    alloc: Global,
    asked: &AskedQuestion,
    answer: &Answer,
    note: &'static str,
    form: &Option<Vec<Pair>>,
) -> Result<Next, AllocError>
    ensures { IfOk result (TellsEnd asked.now (Some answer.now) form.now) }
{
    match form {
        Some(pairs) => Ok(Next::Tell(page(alloc, asked, answer, note, pairs)?)),
        None => Ok(Next::Tell(verdict(alloc, asked, Route::Explain, answer)?)),
    }
}

/// Tells that the node failed.
pub(crate) fn tell_failure(
    alloc: Global,
    asked: &AskedQuestion,
    form: &Option<Vec<Pair>>,
) -> Result<Next, AllocError>
    ensures { IfOk result (TellsEnd asked.now None form.now) }
{
    match form {
        Some(pairs) => Ok(Next::Tell(problem(alloc, 503, "the node failed", pairs)?)),
        None => Ok(Next::Tell(node_failed(alloc)?)),
    }
}

/// Goes on once the node has answered a question: tells the answer, unless a search found nothing.
pub(crate) fn end_search(
    alloc: Global,
    asked: AskedQuestion,
    answer: &Answer,
    form: Option<Vec<Pair>>,
) -> Result<Next, AllocError>
    ensures { IfOk result (EndsFirst asked form (Some answer.now)) }
{
    match nothing_in(answer) {
        Some(nothing) => begin_explaining(alloc, asked, nothing, form),
        None => tell(alloc, &asked, answer, "", &form),
    }
}

/// The question about the chain that was sent, where there is one.
fn chain_asked(
    alloc: Global,
    explaining: &Explaining,
    found: Option<AnchorAbove>,
) -> Result<Option<Question>, AllocError>
    ensures { IfOk result (λ question. question ≡ chain_asked explaining.now found) }
{
    match found {
        Some(above) => {
            chain_under(
                alloc,
                &explaining.asked.question,
                explaining.answer.k(),
                &above,
            )
        }
        None => Ok(None),
    }
}

/// Asks about the chain that was sent.
fn ask_chain(alloc: Global, explaining: Explaining, question: Question) -> Result<Next, AllocError>
    ensures { IfOk result (AsksChain explaining question) }
{
    let frame = question_frame(alloc, &question)?;
    let asked = AskedQuestion::of(alloc, question, explaining.asked.is_pinned)?;
    Ok(ask(Waits::Chain(asked, explaining.form), frame))
}

/// Goes on once the nearest anchor is known, or that there is none.
fn conclude(
    alloc: Global,
    explaining: Explaining,
    found: Option<AnchorAbove>,
) -> Result<Next, AllocError>
    ensures { IfOk result (Concludes explaining found) }
{
    match chain_asked(alloc, &explaining, found)? {
        Some(question) => ask_chain(alloc, explaining, question),
        None => {
            let Explaining {
                asked,
                answer,
                form,
                ..
            } = &explaining;
            tell(alloc, asked, answer, NO_ANCHOR, form)
        }
    }
}

/// Whether no anchor stands behind these rows: the first is none, and anchors stand before all
/// others.
fn end_anchors(rows: &[Vec<u8>]) -> Result<bool, AllocError>
    ensures { IfOk result (λ end. IsTrue end ↔ EndsAnchors (map (λ row. row.items) rows.now)) }
{
    match rows {
        [row, ..] => Ok(!is_anchor(row)?),
        [] => Ok(true),
    }
}

/// How many rows have been looked at, where more of them may be an anchor's.
fn rows_passed(
    explaining: &Explaining,
    total: u32,
    rows: &[Vec<u8>],
) -> Result<Option<u32>, AllocError>
    ensures { IfOk result (IsPassed explaining.now total (map (λ row. row.items) rows.now)) }
{
    let passed = explaining.from as usize + rows.len();
    if passed >= total as usize {
        return Ok(None);
    }
    if end_anchors(rows)? {
        return Ok(None);
    }
    Ok(Some(passed as u32))
}

/// Goes on with rows of the store.
fn take_rows(
    alloc: Global,
    explaining: Explaining,
    total: u32,
    rows: &[Vec<u8>],
) -> Result<Next, AllocError>
    ensures { IfOk result (TakesRows explaining total (map (λ row. row.items) rows.now)) }
{
    let sent = sent_in(&explaining.asked.question);
    let found = nearest(alloc, sent, explaining.found, rows)?;
    match rows_passed(&explaining, total, rows)? {
        Some(from) => {
            let mut explaining = explaining;
            explaining.from = from;
            explaining.found = found;
            ask_rows(alloc, explaining)
        }
        None => conclude(alloc, explaining, found),
    }
}

/// Goes on once the node has answered with rows of the store.
pub(crate) fn go_on_anchors(
    alloc: Global,
    explaining: Explaining,
    frame: &Frame,
) -> Result<Next, AllocError>
    ensures { IfOk result (GoesOnRows explaining (reply_in frame.now)) }
{
    let Some(answer) = reply_in(frame) else {
        return tell_failure(alloc, &explaining.asked, &explaining.form);
    };
    match answer.reply() {
        Reply::Page { total, rows } => take_rows(alloc, explaining, *total, rows.as_slice()),
        _ => tell_failure(alloc, &explaining.asked, &explaining.form),
    }
}

/// Goes on once the node has answered the question about the chain that was sent.
pub(crate) fn end_chain(
    alloc: Global,
    asked: &AskedQuestion,
    form: &Option<Vec<Pair>>,
    frame: &Frame,
) -> Result<Next, AllocError>
    ensures { IfOk result (TellsEnd asked.now (reply_in frame.now) form.now) }
{
    match reply_in(frame) {
        Some(answer) => tell(alloc, asked, answer, AS_SENT, form),
        None => tell_failure(alloc, asked, form),
    }
}
