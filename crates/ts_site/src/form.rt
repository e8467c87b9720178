//! The page's form: a question, and its answer.

ghost use Rattle.std.specs.Prelude.{◌≡◌, IfOk};
ghost use Rattle.ts_site.specs.Explaining.{BeginsForm, EndsForm};
ghost use Rattle.ts_site.specs.Frames.{reply_in};

use crate::board::Board;
use crate::explaining::{end_search, tell_failure};
use crate::frames::reply_in;
use crate::next::{Next, Waits, ask};
use crate::refusing::no_question_page;
use std::alloc::{AllocError, Global};
use ts_api::{AskedQuestion, NoQuestion, question_frame, question_from};
use ts_form::{FormFault, Pair, form_pairs};
use ts_http::Request;
use ts_wire::Frame;

/// Begins a request of the page's form.
pub(crate) fn begin_form(alloc: Global, request: &Request, now: i64) -> Result<Next, AllocError>
    ensures { IfOk result (BeginsForm request.now.body.items now) }
{
    let pairs = match form_pairs(alloc, &request.body) {
        Ok(pairs) => pairs,
        Err(FormFault::Memory) => return Err(AllocError),
        Err(fault) => {
            let why = NoQuestion::Form(fault);
            return Ok(Next::Tell(no_question_page(alloc, why, &[])?));
        }
    };
    match question_from(alloc, &pairs, now)? {
        Ok(asked) => {
            let frame = question_frame(alloc, &asked.question)?;
            Ok(ask(Waits::Form(asked, pairs), frame))
        }
        Err(why) => Ok(Next::Tell(no_question_page(alloc, why, &pairs)?)),
    }
}

/// Goes on once the node has answered a form's question.
pub(crate) fn end_form(
    alloc: Global,
    asked: AskedQuestion,
    pairs: Vec<Pair>,
    frame: &Frame,
    board: &mut Board,
) -> Result<Next, AllocError>
    ensures { IfOk result (EndsForm asked pairs (reply_in frame.now)) }
{
    let form = Some(pairs);
    let Some(answer) = reply_in(frame) else {
        return tell_failure(alloc, &asked, &form);
    };
    board.judged(answer.reply());
    end_search(alloc, asked, answer, form)
}
