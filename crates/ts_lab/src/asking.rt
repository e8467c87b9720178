//! The questions of `ask` and `search` lines, and the words of their replies.

ghost use Rattle.ts_lab.specs.inside.Member.{InputIsFit};

use crate::commands::{certificate, digest_of};
use crate::member::{NodeInput, NodeReply};
use crate::node_line::AskedLine;
use std::alloc::{AllocError, Global};
use ts_node::{Input, Reply};
use ts_question::{Flags, OctetStrings, Oids, Question, Reply as Words, Terms};
use ts_script::words::{SPACE, first_piece};
use ts_script::{LineFault, Options, Symbols};
use ts_show::{found_text, not_yet_text, reply_text};
use ts_time::Moment;

/// The first word of the answer to a question.
pub(crate) fn word_of(asked: &AskedLine<'_>) -> &'static str {
    match asked {
        AskedLine::Chain { .. } => "ask",
        AskedLine::Search { .. } => "search",
    }
}

/// What options ask for at a moment.
fn terms_of(alloc: Global, moment: Moment, options: Options) -> Terms {
    Terms {
        moment: moment.0,
        flags: Flags {
            explicit_policy: options.explicit,
            inhibit_policy_mapping: options.nomap,
            inhibit_any_policy: options.noany,
            hard: options.hard,
            use_deltas: options.deltas,
        },
        k: options.k,
        purpose: options.purpose,
        user_policies: Oids::new(options.policies),
        permitted_subtrees: OctetStrings::empty(alloc),
        excluded_subtrees: OctetStrings::empty(alloc),
    }
}

/// Puts copies of the certificates of these names after others. A name that has none is refused as
/// `Name`.
fn push_named(
    alloc: Global,
    known: &Symbols,
    names: Option<&[u8]>,
    certificates: &mut Vec<Vec<u8>>,
) -> Result<(), LineFault> {
    let mut rest = names;
    while let Some(left) = rest {
        let (name, behind) = first_piece(left, SPACE);
        let copy = certificate(known, name)?.to_vec(alloc)?;
        certificates.push(copy)?;
        rest = behind;
    }
    Ok(())
}

/// The question of a line.
///
/// # Errors
///
/// `Name` for a name that has no certificate; `Limit` outside the limits of a question; `Memory`.
pub(crate) fn question_of(
    alloc: Global,
    known: &Symbols,
    moment: Moment,
    options: Options,
    asked: &AskedLine<'_>,
) -> Result<Question, LineFault> {
    let terms = terms_of(alloc, moment, options);
    let mut certificates = Vec::new(alloc);
    let question = match asked {
        AskedLine::Chain { anchor, names } => {
            let anchor = digest_of(certificate(known, anchor)?);
            push_named(alloc, known, Some(names), &mut certificates)?;
            Question::chain(terms, anchor, certificates)
        }
        AskedLine::Search { leaf, pool } => {
            push_named(alloc, known, Some(leaf), &mut certificates)?;
            push_named(alloc, known, *pool, &mut certificates)?;
            Question::search(terms, certificates)
        }
    };
    question.map_err(|_| LineFault::Limit)
}

/// The name at a place of a search, which is 1 for the leaf.
fn name_at<'a>(asked: &AskedLine<'a>, place: u8) -> Option<&'a [u8]> {
    let AskedLine::Search { leaf, pool } = asked else {
        return None;
    };
    if place == 1 {
        return Some(leaf);
    }
    let mut rest = *pool;
    for _ in 2..place {
        let (_name, behind) = first_piece(rest?, SPACE);
        rest = behind;
    }
    let (name, _behind) = first_piece(rest?, SPACE);
    Some(name)
}

/// The names at places, each after a space.
fn names_text(alloc: Global, asked: &AskedLine<'_>, places: &[u8]) -> Result<String, AllocError> {
    let mut text = String::new(alloc);
    for place in places {
        text.push_str(" ")?;
        let name = name_at(asked, *place).unwrap_or(b"-");
        text.push_str(str::from_utf8(name).unwrap_or("-"))?;
    }
    Ok(text)
}

/// The words of an answer, with the names that the script has.
fn words_of(
    alloc: Global,
    known: &Symbols,
    asked: &AskedLine<'_>,
    reply: &Words,
) -> Result<String, AllocError> {
    let Words::Found {
        anchor,
        places,
        policies,
    } = reply
    else {
        return reply_text(alloc, reply);
    };
    let name = known.name_of(anchor).unwrap_or(b"-");
    let names = names_text(alloc, asked, places.as_slice())?;
    found_text(
        alloc,
        str::from_utf8(name).unwrap_or("-"),
        names.as_str(),
        policies,
    )
}

/// The answer to a question: its k, and the words of the reply.
pub(crate) fn answer_text(
    alloc: Global,
    known: &Symbols,
    asked: &AskedLine<'_>,
    reply: &NodeReply,
) -> Result<String, AllocError> {
    let word = word_of(asked);
    let (k, words) = match reply {
        Reply::Answered { k, answer } => (*k, words_of(alloc, known, asked, answer.reply())?),
        Reply::NotYet { k, prefix } => (*k, not_yet_text(alloc, *prefix)?),
        _ => (0, String::new(alloc)),
    };
    format!(in alloc; "{word} {k} {words}\n")
}

/// What a question is to a node.
pub(crate) fn input_of(question: Question) -> NodeInput
    ensures { InputIsFit result }
{
    let k = question.terms().k;
    Input::Ask { k, question }
}
