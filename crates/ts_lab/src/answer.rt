//! What a line is answered.

ghost use Rattle.std.specs.Prelude.{◌≡◌};
ghost use Rattle.ts_script.specs.Known.{known_in};
ghost use Rattle.ts_lab.specs.Says.{Answers, is_asking_word as asking_word};
ghost use Rattle.ts_lab.specs.Says.{is_node_word as node_word, is_running_word as running_word};
ghost use Rattle.ts_lab.specs.Says.{is_sending_word as sending_word};

use crate::network::Network;
use crate::node_answer::answer_nodes;
use std::alloc::Global;
use ts_script::words::{SPACE, first_piece};
use ts_script::{COMMENT, LineFault, Symbols, answer_cert, answer_check, answer_crl};

/// The text that answers a line, none for an empty one and a comment.
///
/// # Errors
///
/// Why the line is refused.
pub(crate) fn answer_line(
    alloc: Global,
    known: &mut Symbols,
    nodes: &mut Option<Network>,
    line: &[u8],
) -> Result<String, LineFault>
    ensures { Answers (known_in known.old) line.now result (known_in known.new) }
{
    let Some(&first) = line.first() else {
        return Ok(String::new(alloc));
    };
    if first == COMMENT {
        return Ok(String::new(alloc));
    }
    let (word, _rest) = first_piece(line, SPACE);
    if word == b"cert".as_slice() {
        answer_cert(alloc, known, line)
    } else if word == b"crl".as_slice() {
        answer_crl(alloc, known, line)
    } else if word == b"check".as_slice() {
        answer_check(alloc, known, line)
    } else if is_node_word(word) {
        answer_nodes(alloc, known, nodes, line)
    } else {
        Err(LineFault::Unknown)
    }
}

/// Whether a line with this first word begins nodes, or lets messages and restarts reach them.
fn is_running_word(word: &[u8]) -> bool
    ensures { result ≡ running_word word.now }
{
    word == b"nodes".as_slice()
        || word == b"restart".as_slice()
        || word == b"deliver".as_slice()
        || word == b"settle".as_slice()
}

/// Whether it has nodes do something.
fn is_sending_word(word: &[u8]) -> bool
    ensures { result ≡ sending_word word.now }
{
    word == b"submit".as_slice() || word == b"catchup".as_slice() || word == b"compact".as_slice()
}

/// Whether it asks nodes.
fn is_asking_word(word: &[u8]) -> bool
    ensures { result ≡ asking_word word.now }
{
    word == b"outcome".as_slice()
        || word == b"ask".as_slice()
        || word == b"search".as_slice()
        || word == b"show".as_slice()
}

/// Whether it is one about nodes.
fn is_node_word(word: &[u8]) -> bool
    ensures { result ≡ node_word word.now }
{
    is_running_word(word) || is_sending_word(word) || is_asking_word(word)
}
