//! What the store holds and the commands that it took, for programs.

ghost use Rattle.std.specs.Prelude.{◌≡◌, IfOk, MatchOption, map};
ghost use Rattle.ts_json.specs.Members.{named_value};
ghost use Rattle.ts_api.specs.Response.{IsError};
ghost use Rattle.ts_site.specs.Frames.{reply_in};
ghost use Rattle.ts_api.specs.Asking.{pairs_in};
ghost use Rattle.ts_site.specs.Listings.{AreMembers, AreWanted, BeginsRows, HasNoRow};
ghost use Rattle.ts_site.specs.Listings.{TellsPage, TellsRows};
ghost use Rattle.ts_site.specs.Steps.{Answers};
ghost use Rattle.ts_site.specs.Listings.{head_of, not_yet_words, rows_question};

use crate::frames::reply_in;
use crate::next::{Next, RowsAsked, Waits, ask};
use crate::refusing::{error, fault_error, node_failed};
use crate::status::count;
use crate::verifying::time_kept;
use std::alloc::{AllocError, Global};
use ts_api::{Content, Response, query_of, question_frame};
use ts_form::{FormFault, RowsWanted, form_pairs};
use ts_http::Request;
use ts_json::{Member, page_text};
use ts_question::{Answer, Question, Reply, Terms};
use ts_render::{row_fields, row_members};
use ts_wire::Frame;

/// The question for rows.
pub(crate) fn rows_question(
    alloc: Global,
    log: bool,
    k: Option<u32>,
    from: u32,
) -> Result<Question, AllocError>
    ensures { IfOk result (λ question. question ≡ rows_question log k from) }
{
    let terms = Terms::plain(alloc, k);
    let question = if log {
        Question::log(terms, from)
    } else {
        Question::store(terms, from)
    };
    match question {
        Ok(question) => Ok(question),
        // A position that was read is within the limits.
        Err(_) => Err(AllocError),
    }
}

/// Which rows the query of a target asks for, or why it is refused.
pub(crate) fn rows_wanted(
    alloc: Global,
    target: &[u8],
) -> Result<Result<RowsWanted, FormFault>, AllocError>
    ensures { IfOk result (AreWanted (pairs_in target.now)) }
{
    match form_pairs(alloc, query_of(target)) {
        Ok(pairs) => Ok(RowsWanted::of(&pairs)),
        Err(FormFault::Memory) => Err(AllocError),
        Err(fault) => Ok(Err(fault)),
    }
}

/// Begins a request to `/v1/store` or `/v1/log`.
pub(crate) fn begin_rows(alloc: Global, request: &Request, log: bool) -> Result<Next, AllocError>
    ensures { IfOk result (BeginsRows log request.now.target.items) }
{
    let wanted = match rows_wanted(alloc, &request.target)? {
        Ok(wanted) => wanted,
        Err(fault) => return Ok(Next::Tell(fault_error(alloc, fault)?)),
    };
    let asked = RowsAsked {
        log,
        from: wanted.from.unwrap_or(0),
        is_pinned: wanted.k.is_some(),
    };
    let question = rows_question(alloc, log, wanted.k, asked.from)?;
    let frame = question_frame(alloc, &question)?;
    Ok(ask(Waits::Rows(asked), frame))
}

/// The members above the rows.
fn head_members(
    alloc: Global,
    answer: &Answer,
    from: u32,
    total: u32,
) -> Result<Vec<Member>, AllocError>
    ensures { IfOk result (λ all. map named_value all.items ≡ head_of answer.now.k from total) }
{
    let mut members = Vec::new(alloc);
    members.push(count("k", u64::from(answer.k())))?;
    members.push(count("from", u64::from(from)))?;
    members.push(count("total", u64::from(total)))?;
    Ok(members)
}

/// The members of each row. `None` where some octets are no row.
fn all_members(
    alloc: Global,
    from: u32,
    rows: &[Vec<u8>],
) -> Result<Option<Vec<Vec<Member>>>, AllocError>
    ensures { IfOk result (λ all. MatchOption all (HasNoRow (map (λ row. row.items) rows.now))
        (λ all. AreMembers from (map (λ row. row.items) rows.now)
        (map (λ row. map named_value row.items) all.items))) }
{
    let mut all = Vec::new(alloc);
    for (place, octets) in rows.iter().enumerate() {
        let Some(row) = row_fields(alloc, octets)? else {
            return Ok(None);
        };
        let place = u64::from(from) + place as u64 + 1;
        all.push(row_members(alloc, place, row)?)?;
    }
    Ok(Some(all))
}

/// The response with the rows of an answer.
fn page(
    alloc: Global,
    asked: RowsAsked,
    answer: &Answer,
    total: u32,
    rows: &[Vec<u8>],
) -> Result<Response, AllocError>
    ensures { IfOk result
        (TellsPage asked answer.now total (map (λ row. row.items) rows.now)) }
{
    let Some(all) = all_members(alloc, asked.from, rows)? else {
        return node_failed(alloc);
    };
    let members = head_members(alloc, answer, asked.from, total)?;
    let text = page_text(alloc, &members, &all)?;
    let mut response = Response::json(alloc, 200, text.as_str())?;
    response.keeps = time_kept(asked.is_pinned, answer.reply());
    Ok(response)
}

/// That the node knows fewer commands than it was asked about.
fn not_yet(alloc: Global, prefix: u32) -> Result<Response, AllocError>
    ensures { IfOk result (IsError 404 (not_yet_words prefix)) }
{
    let words = format!(in alloc; "the node knows {prefix} commands")?;
    error(alloc, 404, words.as_str())
}

/// Goes on once the node has answered.
pub(crate) fn end_rows(alloc: Global, asked: RowsAsked, frame: &Frame) -> Result<Next, AllocError>
    ensures { IfOk result (Answers (TellsRows asked (reply_in frame.now))) }
{
    let Some(answer) = reply_in(frame) else {
        return Ok(Next::Tell(node_failed(alloc)?));
    };
    let response = match answer.reply() {
        Reply::Page { total, rows } => page(alloc, asked, answer, *total, rows.as_slice())?,
        Reply::NotYet { prefix } => not_yet(alloc, *prefix)?,
        _ => node_failed(alloc)?,
    };
    Ok(Next::Tell(response))
}
