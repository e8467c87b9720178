//! What an answer means, in plain words; and where a search found nothing, what its certificates
//! come to as they were sent.

use crate::keyed::ReachedNode;
use crate::listing::{MAX_STORE_PAGES, page_of};
use crate::requests::answer_of;
use std::alloc::Global;
use std::io::Print;
use std::net::Net;
use std::random::RandomSource;
use std::rt::Clock;
use ts_exchange::{PageWalk, Rows, answer_to_question};
use ts_files::{TaskFault, put, say};
use ts_question::{Answer, Question, Reply};
use ts_render::explanation;
use ts_sent::{AnchorAbove, chain_under, is_anchor, nearest, sent_in};
use ts_wire::Frame;

/// Whether an anchor may stand behind these rows: the last is one, and anchors stand before all
/// other rows.
fn may_go_on(rows: &[Vec<u8>]) -> Result<bool, TaskFault> {
    match rows {
        [.., row] => Ok(is_anchor(row)?),
        [] => Ok(false),
    }
}

/// The nearest anchor of the server's store, after k commands, that is an issuer of certificates
/// that were sent.
fn anchor_above<R: Net + Clock + RandomSource>(
    alloc: Global,
    server: &mut ReachedNode<'_, R>,
    sent: &[Vec<u8>],
    k: u32,
) -> Result<Option<AnchorAbove>, TaskFault> {
    let mut walk = PageWalk {
        rows: Rows::Store,
        k: Some(k),
        from: 0,
    };
    let mut found = None;
    for _ in 0..MAX_STORE_PAGES {
        let Ok(page) = page_of(alloc, server, &walk)? else {
            return Ok(None);
        };
        found = nearest(alloc, sent, found, &page.rows)?;
        if !walk.pass(page.k, page.total, &page.rows) || !may_go_on(&page.rows)? {
            return Ok(found);
        }
    }
    Ok(found)
}

/// The question about the certificates of a search as they were sent, after k commands, where an
/// anchor of the server's store is the issuer of one.
fn question_as_sent<R: Net + Clock + RandomSource>(
    alloc: Global,
    server: &mut ReachedNode<'_, R>,
    search: &Question,
    k: u32,
) -> Result<Option<Question>, TaskFault> {
    match anchor_above(alloc, server, sent_in(search), k)? {
        Some(above) => Ok(chain_under(alloc, search, k, &above)?),
        None => Ok(None),
    }
}

/// What the answer to the question of a frame means.
fn meaning(alloc: Global, asked: &Frame, answer: &Answer) -> Result<Vec<u8>, TaskFault> {
    match asked {
        Frame::Question { question } => Ok(explanation(alloc, question, answer.reply())?),
        _ => Err(TaskFault::Field),
    }
}

/// Asks a question, and gives what the answer means.
fn meaning_of<R: Net + Clock + RandomSource>(
    alloc: Global,
    server: &mut ReachedNode<'_, R>,
    question: Question,
) -> Result<Vec<u8>, TaskFault> {
    let asked = Frame::Question { question };
    let answered = answer_of(alloc, server, &asked)?;
    let answer = answer_to_question(answered)?;
    meaning(alloc, &asked, &answer)
}

/// Prints what the certificates of a search come to as they were sent, if that can be asked.
fn explain_as_sent<R: Net + Clock + RandomSource + Print>(
    rt: &R,
    alloc: Global,
    server: &mut ReachedNode<'_, R>,
    search: &Question,
    k: u32,
) -> Result<(), TaskFault> {
    let Some(question) = question_as_sent(alloc, server, search, k)? else {
        return Ok(());
    };
    let text = meaning_of(alloc, server, question)?;
    say(rt, "as they were sent: ")?;
    put(rt, &text)
}

/// Prints what the answer to a question means, whose octets these are. Where a search found
/// nothing, a second line says what its certificates come to as they were sent.
pub(crate) fn explain_answer<R: Net + Clock + RandomSource + Print>(
    rt: &R,
    alloc: Global,
    server: &mut ReachedNode<'_, R>,
    octets: &[u8],
    answer: &Answer,
) -> Result<(), TaskFault> {
    let Some(question) = Question::read(alloc, octets)? else {
        return Err(TaskFault::Field);
    };
    put(rt, &explanation(alloc, &question, answer.reply())?)?;
    match answer.reply() {
        Reply::NoPath | Reply::SearchLimit => {
            explain_as_sent(rt, alloc, server, &question, answer.k())
        }
        _ => Ok(()),
    }
}
