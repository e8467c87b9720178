//! Why a request is not answered as it asks.

ghost use Rattle.std.specs.Prelude.{IfOk, codes};
ghost use Rattle.ts_api.specs.Response.{IsError, IsLine};
ghost use Rattle.ts_api.specs.Words.{fault_words, no_question_words};
ghost use Rattle.ts_site.specs.Requests.{IsNotAllowed};

use std::alloc::{AllocError, Global};
use ts_api::{Content, LIMITS, NoQuestion, Response, Route, fault_text};
use ts_form::{FormFault, Pair};
use ts_json::{Member, Plain};
use ts_page::problem_page;

/// An error in words, as JSON.
pub(crate) fn error(alloc: Global, status: u16, words: &str) -> Result<Response, AllocError>
    ensures { IfOk result (IsError status words.now) }
{
    let mut members = Vec::new(alloc);
    members.push(Member {
        name: "error",
        value: Plain::Text(Some(String::from_str(alloc, words)?)),
    })?;
    Response::object(alloc, status, &members)
}

/// Why a request asks no question, as JSON.
pub(crate) fn no_question(alloc: Global, why: NoQuestion) -> Result<Response, AllocError>
    ensures { IfOk result (IsError 400 (no_question_words why)) }
{
    match why {
        NoQuestion::Limits => error(alloc, 400, LIMITS),
        NoQuestion::Form(fault) => fault_error(alloc, fault),
    }
}

/// Why pairs are refused, as JSON.
pub(crate) fn fault_error(alloc: Global, fault: FormFault) -> Result<Response, AllocError>
    ensures { IfOk result (IsError 400 (fault_words fault)) }
{
    let words = fault_text(alloc, fault)?;
    error(alloc, 400, words.as_str())
}

/// That the node answered with a fault, or not what it was asked, as JSON.
pub(crate) fn node_failed(alloc: Global) -> Result<Response, AllocError>
    ensures { IfOk result (IsError 503 (codes "the node failed")) }
{
    error(alloc, 503, "the node failed")
}

/// The same, as a line of text.
pub(crate) fn node_failed_line(alloc: Global) -> Result<Response, AllocError>
    ensures { IfOk result (IsLine 503 (codes "the node failed")) }
{
    Response::line(alloc, 503, "the node failed")
}

/// A page with words, and what the form held.
pub(crate) fn problem(
    alloc: Global,
    status: u16,
    words: &str,
    pairs: &[Pair],
) -> Result<Response, AllocError> {
    let body = problem_page(alloc, words, pairs)?;
    Ok(Response::new(status, Content::Html, body))
}

/// Why a form asks no question, as a page.
pub(crate) fn no_question_page(
    alloc: Global,
    why: NoQuestion,
    pairs: &[Pair],
) -> Result<Response, AllocError> {
    match why {
        NoQuestion::Limits => problem(alloc, 400, LIMITS, pairs),
        NoQuestion::Form(fault) => {
            let words = fault_text(alloc, fault)?;
            problem(alloc, 400, words.as_str(), pairs)
        }
    }
}

/// That a path is asked for otherwise.
pub(crate) fn not_allowed(alloc: Global, route: Route) -> Result<Response, AllocError>
    ensures { IfOk result (IsNotAllowed route) }
{
    let mut response = Response::line(alloc, 405, "this path takes another method")?;
    response.allow = Some(route.methods());
    Ok(response)
}
