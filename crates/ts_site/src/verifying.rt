//! Verdicts over HTTP, for programs.

ghost use Rattle.std.specs.Prelude.{◌≡◌, IfOk, Ok, Some};
ghost use Rattle.ts_render.specs.Replies.{valid_in};
ghost use Rattle.ts_site.specs.Frames.{reply_in};
ghost use Rattle.ts_site.specs.Explaining.{EndsVerdict, explains};
ghost use Rattle.ts_site.specs.Verdicts.{AsksQuestion, BeginsVerdict, IsVerdict};
ghost use Rattle.ts_site.specs.Verdicts.{keeps_of, verdict_status};

use crate::board::Board;
use crate::explaining::end_search;
use crate::frames::reply_in;
use crate::next::{Next, Waits, ask};
use crate::refusing::{no_question, node_failed};
use std::alloc::{AllocError, Global};
use ts_api::{
    AskedQuestion, Content, Keeps, NoQuestion, Response, Route, question_frame, question_in,
};
use ts_http::Request;
use ts_json::answer_text;
use ts_question::{Answer, Reply};
use ts_render::{answer_fields, is_final, valid_in};
use ts_wire::Frame;

/// Asks a question.
fn ask_question(alloc: Global, asked: AskedQuestion, route: Route) -> Result<Next, AllocError>
    ensures { IfOk result (AsksQuestion route (Ok asked)) }
{
    let frame = question_frame(alloc, &asked.question)?;
    Ok(ask(Waits::Verdict(asked, route), frame))
}

/// Begins a request to `/v1/verify`, `/v1/check` or `/v1/explain`.
pub(crate) fn begin_verdict(
    alloc: Global,
    request: &Request,
    route: Route,
    now: i64,
) -> Result<Next, AllocError>
    ensures { IfOk result
        (BeginsVerdict route request.now.target.items request.now.body.items now) }
{
    match question_in(alloc, request, now)? {
        Ok(asked) => ask_question(alloc, asked, route),
        Err(why) => Ok(Next::Tell(no_question(alloc, why)?)),
    }
}

/// The status of an answer.
fn status_of(route: Route, reply: &Reply) -> u16
    ensures { result ≡ verdict_status route (valid_in reply.now) }
{
    if route == Route::Check && valid_in(reply) != Some(true) {
        return 403;
    }
    200
}

/// For how long an answer may be kept.
pub(crate) fn time_kept(is_pinned: bool, reply: &Reply) -> Keeps
    ensures { result ≡ keeps_of is_pinned reply.now }
{
    if is_pinned && is_final(reply) {
        return Keeps::Always;
    }
    Keeps::Never
}

/// The answer to a question.
pub(crate) fn verdict(
    alloc: Global,
    asked: &AskedQuestion,
    route: Route,
    answer: &Answer,
) -> Result<Response, AllocError>
    ensures { IfOk result (IsVerdict asked.now route answer.now) }
{
    let fields = answer_fields(alloc, &asked.question, answer, &asked.id)?;
    let text = answer_text(alloc, &fields)?;
    let status = status_of(route, answer.reply());
    let mut response = Response::json(alloc, status, text.as_str())?;
    response.keeps = time_kept(asked.is_pinned, answer.reply());
    Ok(response)
}

/// Whether a route is that where it is said why no chain is valid.
fn explains(route: Route) -> bool
    ensures { result ≡ explains route }
{
    route == Route::Explain
}

/// Tells an answer, or begins to look for why a search found nothing.
fn tell_or_explain(
    alloc: Global,
    asked: AskedQuestion,
    route: Route,
    answer: &Answer,
) -> Result<Next, AllocError>
    ensures { IfOk result (EndsVerdict asked route (Some answer.now)) }
{
    if explains(route) {
        return end_search(alloc, asked, answer, None);
    }
    Ok(Next::Tell(verdict(alloc, &asked, route, answer)?))
}

/// Goes on once the node has answered.
pub(crate) fn end_verdict(
    alloc: Global,
    asked: AskedQuestion,
    route: Route,
    frame: &Frame,
    board: &mut Board,
) -> Result<Next, AllocError>
    ensures { IfOk result (EndsVerdict asked route (reply_in frame.now)) }
{
    match reply_in(frame) {
        Some(answer) => {
            board.judged(answer.reply());
            tell_or_explain(alloc, asked, route, answer)
        }
        None => Ok(Next::Tell(node_failed(alloc)?)),
    }
}
