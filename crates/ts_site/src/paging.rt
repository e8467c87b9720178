//! The page of the store.

ghost use Rattle.std.specs.Prelude.{IfOk};
ghost use Rattle.ts_site.specs.Requests.{Shows};

use crate::board::Board;
use crate::frames::{prefix_in, reply_in};
use crate::listing::{rows_question, rows_wanted};
use crate::next::{HomeAsked, Next, Waits, ask};
use crate::refusing::problem;
use crate::status::ask_status;
use std::alloc::{AllocError, Global};
use ts_api::{Content, Keeps, Response, fault_text, question_frame};
use ts_http::Request;
use ts_page::{SCRIPT, STYLE, StoreView, store_page};
use ts_question::{Answer, Reply};
use ts_render::{RowFields, row_fields};
use ts_wire::Frame;

/// What pages load, which may be kept for an hour.
fn loaded_response(alloc: Global, content: Content, text: &str) -> Result<Response, AllocError> {
    let body = Vec::from_slice(alloc, text.as_bytes())?;
    let mut response = Response::new(200, content, body);
    response.keeps = Keeps::Hour;
    Ok(response)
}

/// The style of the pages.
pub(crate) fn style(alloc: Global) -> Result<Response, AllocError> {
    loaded_response(alloc, Content::Css, STYLE)
}

/// The script of the pages.
pub(crate) fn script(alloc: Global) -> Result<Response, AllocError> {
    loaded_response(alloc, Content::JavaScript, SCRIPT)
}

/// Begins a request for the page.
pub(crate) fn begin_home(alloc: Global, request: &Request) -> Result<Next, AllocError>
    ensures { IfOk result Shows }
{
    match rows_wanted(alloc, &request.target)? {
        Ok(wanted) => {
            let asked = HomeAsked {
                k: wanted.k,
                from: wanted.from.unwrap_or(0),
            };
            ask_status(alloc, Waits::Home(asked))
        }
        Err(fault) => {
            let words = fault_text(alloc, fault)?;
            Ok(Next::Tell(problem(alloc, 400, words.as_str(), &[])?))
        }
    }
}

/// The node knows so many commands: it is asked for the rows.
pub(crate) fn go_on_home(alloc: Global, asked: HomeAsked, frame: &Frame) -> Result<Next, AllocError>
    ensures { IfOk result Shows }
{
    let Some(prefix) = prefix_in(frame) else {
        return Ok(Next::Tell(problem(alloc, 503, "the node failed", &[])?));
    };
    let question = rows_question(alloc, false, asked.k, asked.from)?;
    let frame = question_frame(alloc, &question)?;
    Ok(ask(Waits::HomeRows(asked, prefix), frame))
}

/// The fields of rows; of octets that are no row, nothing.
fn all_fields(alloc: Global, rows: &[Vec<u8>]) -> Result<Vec<RowFields>, AllocError> {
    let mut all = Vec::new(alloc);
    for octets in rows {
        if let Some(row) = row_fields(alloc, octets)? {
            all.push(row)?;
        }
    }
    Ok(all)
}

/// The page with these rows.
fn page(
    alloc: Global,
    asked: HomeAsked,
    prefix: u32,
    answer: &Answer,
    total: u32,
    rows: &[Vec<u8>],
    board: &Board,
) -> Result<Response, AllocError> {
    let view = StoreView {
        node: board.node,
        k: u64::from(answer.k()),
        prefix: u64::from(prefix.max(answer.k())),
        from: u64::from(asked.from),
        total: u64::from(total),
        rows: all_fields(alloc, rows)?,
    };
    let body = store_page(alloc, &board.peers, &view, board.now)?;
    Ok(Response::new(200, Content::Html, body))
}

/// Goes on once the node has answered with rows.
pub(crate) fn end_home(
    alloc: Global,
    asked: HomeAsked,
    prefix: u32,
    frame: &Frame,
    board: &Board,
) -> Result<Next, AllocError>
    ensures { IfOk result Shows }
{
    let Some(answer) = reply_in(frame) else {
        return Ok(Next::Tell(problem(alloc, 503, "the node failed", &[])?));
    };
    let response = match answer.reply() {
        Reply::Page { total, rows } => {
            page(alloc, asked, prefix, answer, *total, rows.as_slice(), board)?
        }
        Reply::NotYet { prefix } => {
            let words = format!(in alloc; "this node knows {prefix} commands")?;
            problem(alloc, 404, words.as_str(), &[])?
        }
        _ => problem(alloc, 503, "the node failed", &[])?,
    };
    Ok(Next::Tell(response))
}
