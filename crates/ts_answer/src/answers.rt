//! The trust store under a node.

ghost use Rattle.std.specs.Prelude.{◌≡◌, ◌<◌, ◌≤◌, ◌++◌, ◌∷◌, [], ℕ, List, length, take, Ok, IfOk};
ghost use Rattle.std.specs.Prelude.{OnOk, OnErr, true, is_ok};
ghost use Rattle.ts_store.specs.Outcome.{outcome_after};
ghost use Rattle.ts_store.specs.Ids.{first_of};
ghost use Rattle.ts_store.specs.Store.{store_after};
ghost use Rattle.ts_question.specs.declared.reply.Reply.TheVariants.{NotYet};
ghost use Rattle.ts_question.specs.Reply.{AnswerFits, numbered_reply, is_answer};
ghost use Rattle.ts_answer.specs.Machine.{IsAnswer};
ghost use Rattle.ts_answer.specs.inside.Ranges.{InRange};
ghost use Rattle.ts_answer.specs.Reply.{IsReply};
ghost use Rattle.ts_answer.specs.inside.View.{IsOfTables};
ghost use Rattle.ts_listing.specs.Log.{log_rows};
ghost use Rattle.ts_listing.specs.Page.{page};

use crate::cache::{Cache, key_of};
use crate::judging::reply_over;
use std::alloc::{AllocError, Global};
use std::marker::Model;
use ts_command::{Command, Outcome};
use ts_listing::{Entry, log_page, purposes_of};
use ts_question::{Answer, Question, Reply, Target};
use ts_sig::SignatureCheck;
use ts_store::{FirstCommand, History};

/// A trust store that keeps the commands that it took, each with what it came to, and answers
/// questions after any number of them. It caches the answers that were given last.
#[derive(Drop)]
pub struct Answers<S: SignatureCheck> {
    alloc: Global,
    check: S,
    history: History,
    log: Vec<Entry>,
    cache: Cache,
}

impl<S: SignatureCheck> Model for Answers<S> {
    ghost use Rattle.ts_answer.specs.Held.{TrustStore};
    ghost use Rattle.ts_answer.specs.inside.Cache.{AreCached};
    ghost use Rattle.ts_answer.specs.inside.Ranges.{AreTaken};
    ghost use Rattle.ts_answer.specs.inside.View.{AreEntries};

    ghost Value = { TrustStore S };

    ghost view = { λ a. record { check = a.check; commands = a.history } };

    ghost invariant = { λ a. AreCached (S.accepts a.check) a.history a.cache
        × AreEntries a.log.items a.history × AreTaken a.history };
}

/// An answer, each field of which is in its range.
fn answer_of(k: u32, reply: Reply) -> Answer
    requires { is_answer (numbered_reply k reply) ≡ true }
    ensures answer { result ≡ numbered_reply k reply }
    ensures fits { AnswerFits result }
{
    match Answer::new(k, reply) {
        Ok(answer) => answer,
        Err(_) => unreachable!(),
    }
}

impl<S: SignatureCheck> Answers<S> {
    /// A store that took no command. It owns the check of signatures.
    pub fn new(alloc: Global, check: S) -> Answers<S>
        ensures { result ≡ record { check = check; commands = [] } }
    {
        Answers {
            alloc,
            check,
            history: History::new(alloc),
            log: Vec::new(alloc),
            cache: Cache::new(alloc),
        }
    }

    /// Gives the check of signatures back.
    pub fn close(self) -> S
        ensures { result ≡ self.check }
    {
        let Answers {
            alloc: _alloc,
            check,
            history: _history,
            log: _log,
            cache: _cache,
        } = self;
        check
    }

    /// How many commands were taken.
    pub fn prefix(&self) -> u32
        ensures { result ≡ length self.now.commands }
    {
        self.history.count()
    }

    /// Takes the command of the next position, of which it keeps a copy, and answers what it came
    /// to.
    ///
    /// # Errors
    ///
    /// Out of memory. Nothing is changed then.
    pub fn push(&mut self, command: &Command) -> Result<Outcome, AllocError>
        requires { length self.old.commands < 1000000 }
        ensures outcome { IfOk result (λ outcome. outcome
            ≡ outcome_after self.old.commands command.now) }
        ensures pushed { OnOk result (self.new.commands ≡ self.old.commands ++ command.now ∷ []) }
        ensures refused { OnErr result (self.new.commands ≡ self.old.commands) }
        ensures check { self.new.check ≡ self.old.check }
    {
        command.has_encoding();
        self.log.reserve(1)?;
        let purposes = purposes_of(self.alloc, command)?;
        let outcome = self.history.push(command)?;
        match self.log.push(Entry::of(command, purposes, outcome)) {
            Ok(()) => Ok(outcome),
            Err(_) => unreachable!(),
        }
    }

    /// The first command that had an id: its position, and what it came to.
    pub fn settled(&self, id: &[u8; 16]) -> Option<FirstCommand>
        ensures { result ≡ first_of id.now (store_after self.now.commands).ids }
    {
        self.history.first(id)
    }

    /// How many commands were taken: no more than there are positions.
    pub(crate) fn taken(&self) -> u32
        ensures count { result ≡ length self.now.commands }
        ensures few { result ≤ 1000000 }
    {
        self.history.count()
    }

    /// The reply over the tables after the first k commands.
    fn reply_of_tables(&self, k: u32, question: &Question) -> Result<Reply, AllocError>
        requires taken { k ≤ length self.now.commands }
        requires tables { IsOfTables question.now.target }
        ensures reply { IfOk result (IsReply (S.accepts self.now.check)
            (take k self.now.commands) question.now) }
        ensures within { IfOk result InRange }
    {
        let snapshot = self.history.at(self.alloc, k)?;
        let reply = reply_over(self.alloc, &self.check, &snapshot, question)?;
        Ok(reply)
    }

    /// A page of the first k commands, after so many rows.
    fn log_of(&self, k: u32, from: u32) -> Result<Reply, AllocError>
        requires { k ≤ length self.now.commands }
        ensures page { IfOk result (λ reply. reply
            ≡ page from (log_rows (take k self.now.commands))) }
        ensures within { IfOk result InRange }
    {
        log_page(self.alloc, &self.log[..k as usize], from)
    }

    /// The reply after the first k commands.
    fn reply(&self, k: u32, question: &Question) -> Result<Reply, AllocError>
        requires { k ≤ length self.now.commands }
        ensures reply { IfOk result (IsReply (S.accepts self.now.check)
            (take k self.now.commands) question.now) }
        ensures within { IfOk result InRange }
    {
        match question.target() {
            Target::Log { from } => self.log_of(k, *from),
            Target::Chain { .. } => self.reply_of_tables(k, question),
            Target::Search { .. } => self.reply_of_tables(k, question),
            Target::Store { .. } => self.reply_of_tables(k, question),
        }
    }

    /// The answer to a question, without the cache.
    fn judge(&self, k: u32, question: &Question) -> Result<Answer, AllocError>
        requires taken { k ≤ length self.now.commands }
        requires few { k ≤ 1000000 }
        ensures answer { IfOk result (IsAnswer (S.accepts self.now.check)
            (take k self.now.commands) question.now) }
        ensures fits { IfOk result AnswerFits }
    {
        let reply = self.reply(k, question)?;
        Ok(answer_of(k, reply))
    }

    /// The answer where fewer than k commands were taken.
    fn not_yet(&self, k: u32) -> Answer
        requires taken { length self.now.commands < k }
        requires few { k ≤ 1000000 }
        ensures { result ≡ numbered_reply k (NotYet (length self.now.commands)) }
    {
        let prefix = self.prefix();
        answer_of(k, Reply::NotYet { prefix })
    }

    /// The answer to a question after the first k commands; `NotYet` with their number exactly
    /// where fewer were taken. An answer that was given before, and is cached, is given again
    /// without validating anything.
    ///
    /// # Errors
    ///
    /// Out of memory, but never where fewer than k commands were taken.
    pub fn answer(&mut self, k: u32, question: &Question) -> Result<Answer, AllocError>
        requires { k ≤ 1000000 }
        ensures answer { k ≤ length self.old.commands
            → IfOk result (IsAnswer (S.accepts self.old.check)
            (take k self.old.commands) question.now) }
        ensures not_yet { length self.old.commands < k
            → IfOk result (λ answer. answer
            ≡ record { k = k; reply = NotYet (length self.old.commands) }) }
        ensures at_once { length self.old.commands < k → is_ok result ≡ true }
        ensures unchanged { self.new ≡ self.old }
    {
        // `NotYet` is not cached: it is wrong as soon as the commands have come.
        if k > self.taken() {
            return Ok(self.not_yet(k));
        }
        let Some(key) = key_of(self.alloc, k, question) else {
            return self.judge(k, question);
        };
        if let Some(answer) = self.cache.find(self.alloc, &key) {
            return Ok(answer);
        }
        let answer = self.judge(k, question)?;
        self.cache.keep(self.alloc, key, &answer);
        Ok(answer)
    }
}
