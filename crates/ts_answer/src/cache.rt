//! The answers that were given last.

ghost use Rattle.std.specs.Prelude.{◌≡◌, [], Contains, IfSome};
ghost use Rattle.ts_question.specs.Question.{QuestionFits};
ghost use Rattle.ts_question.specs.Reply.{AnswerFits, answer_encoding};
ghost use Rattle.ts_recent.specs.Recent.{AreAmong, AreAmongOr};
ghost use Rattle.ts_answer.specs.inside.Cache.{key_of};

use std::alloc::Global;
use std::marker::Model;
use ts_question::{Answer, OctetStrings, Question, Target};
use ts_recent::{Key, Recent};

/// How many answers are cached.
const MAX_ANSWERS: usize = 64;

/// The most octets of an answer that is cached, and of the certificates and initial subtrees of its
/// question. A usual chain has a few thousand. A question may have eight million, and 64 of those
/// would hold half a gigabyte.
const MAX_OCTETS: usize = 131_072;

/// How much room a key has for what is in it beside certificates and subtrees. It seldom needs
/// more.
const KEY_ROOM: usize = 1_024;

/// The answers that were given last, each under its key, as octets. Contracts see the pairs of key
/// and answer.
#[derive(Drop)]
pub(crate) struct Cache {
    answers: Recent<Vec<u8>>,
}

impl Model for Cache {
    ghost use Rattle.std.specs.Prelude.{ℕ, List, map};
    ghost use Rattle.ts_answer.specs.inside.CacheView.{octets_in};

    ghost Value = { List (List ℕ × List ℕ) };

    ghost view = { λ c. map octets_in c.answers };
}

/// How many octets these strings have.
fn size_of(strings: &OctetStrings) -> usize {
    let mut size: usize = 0;
    for string in strings.as_slice() {
        size = size.saturating_add(string.len());
    }
    size
}

/// How many octets the certificates and the initial subtrees of a question have.
fn size_of_question(question: &Question) -> usize {
    let certificates = match question.target() {
        Target::Chain { certificates, .. } | Target::Search { certificates } => {
            size_of(certificates)
        }
        Target::Store { .. } | Target::Log { .. } => 0,
    };
    let terms = question.terms();
    certificates
        .saturating_add(size_of(&terms.permitted_subtrees))
        .saturating_add(size_of(&terms.excluded_subtrees))
}

/// Whether a question is one for a page. A page is not cached: whoever asks for all pages would
/// have the verdicts forgotten.
fn is_of_page(question: &Question) -> bool {
    match question.target() {
        Target::Chain { .. } | Target::Search { .. } => false,
        Target::Store { .. } | Target::Log { .. } => true,
    }
}

/// The key of the answer to a question after the first k commands. `None` for a question that is
/// too long or one for a page, and where memory is refused: such an answer is given without the
/// cache.
pub(crate) fn key_of(alloc: Global, k: u32, question: &Question) -> Option<Key>
    ensures key { IfSome result (λ key. key ≡ key_of k question.now) }
    ensures fits { QuestionFits question.now }
{
    let _target = question.target();
    let size = size_of_question(question);
    if size > MAX_OCTETS || is_of_page(question) {
        return None;
    }
    let mut key = Vec::with_capacity(alloc, size + KEY_ROOM).ok()?;
    key.extend_from_slice(&k.to_be_bytes()).ok()?;
    question.write(&mut key).ok()?;
    Some(Key::of(key))
}

impl Cache {
    /// No answers.
    pub(crate) fn new(alloc: Global) -> Cache
        ensures { result ≡ [] }
    {
        Cache {
            answers: Recent::new(alloc, MAX_ANSWERS),
        }
    }

    /// The answer under a key. `None` where there is none, and where memory is refused.
    fn read(&self, alloc: Global, key: &Key) -> Option<Answer>
        ensures { IfSome result (λ answer. AnswerFits answer
            × Contains self.now (key.now, answer_encoding answer)) }
    {
        let octets = self.answers.find(key)?;
        match Answer::read(alloc, octets) {
            Ok(answer) => answer,
            Err(_) => None,
        }
    }

    /// The answer under a key, which then is the one that was used last. `None` where there is
    /// none, and where memory is refused.
    pub(crate) fn find(&mut self, alloc: Global, key: &Key) -> Option<Answer>
        ensures found { IfSome result (λ answer. AnswerFits answer
            × Contains self.old (key.now, answer_encoding answer)) }
        ensures others { AreAmong self.new self.old }
    {
        let answer = self.read(alloc, key)?;
        self.answers.touch(key);
        Some(answer)
    }

    /// Caches an answer under its key. Nothing is changed where the answer is too long, and where
    /// memory is refused.
    pub(crate) fn keep(&mut self, alloc: Global, key: Key, answer: &Answer)
        ensures { AreAmongOr (key, answer_encoding answer.now) self.new self.old }
    {
        let Ok(octets) = answer.octets(alloc) else {
            return;
        };
        if octets.len() > MAX_OCTETS {
            return;
        }
        self.answers.keep(key, octets);
    }
}
