//! Rows are asked for, page after page.

ghost use Rattle.std.specs.Prelude.{◌≡◌, false, Some, MatchResult, length};
ghost use Rattle.ts_question.specs.Question.{is_within};
ghost use Rattle.ts_exchange.specs.Walk.{goes_on, next_from, question_of};

use std::alloc::Global;
use ts_question::{OutOfLimits, Question, Terms};

/// What rows are asked for.
#[derive(Clone, Copy, Debug, PartialEq, Eq)]
pub enum Rows {
    /// What the store holds.
    Store,
    /// The commands that it took.
    Log,
}

/// What the next page is asked for.
#[derive(Clone, Copy, Debug, PartialEq, Eq)]
pub struct PageWalk {
    pub rows: Rows,
    /// After how many commands the store is looked at; `None` for all that the node knows.
    pub k: Option<u32>,
    /// Behind how many rows the page begins.
    pub from: u32,
}

impl PageWalk {
    /// The question for the next page.
    ///
    /// # Errors
    ///
    /// `OutOfLimits` exactly where k is outside its limits.
    pub fn question(&self, alloc: Global) -> Result<Question, OutOfLimits>
        ensures { MatchResult result (λ q. q ≡ question_of self.now)
            (λ _. is_within (question_of self.now) ≡ false) }
    {
        let terms = Terms::plain(alloc, self.k);
        match self.rows {
            Rows::Store => Question::store(terms, self.from),
            Rows::Log => Question::log(terms, self.from),
        }
    }

    /// Goes on behind the rows of a page, of which there are `total` in all, after k commands.
    /// Whether there are more.
    pub fn pass(&mut self, k: u32, total: u32, rows: &[Vec<u8>]) -> bool
        ensures k { self.new.k ≡ Some k }
        ensures from { self.new.from ≡ next_from self.old.from (length rows.now) }
        ensures kind { self.new.rows ≡ self.old.rows }
        ensures more { result ≡ goes_on self.new.from total (length rows.now) }
    {
        let count = u32::try_from(rows.len()).unwrap_or(u32::MAX);
        self.k = Some(k);
        self.from = self.from.saturating_add(count);
        !rows.is_empty() && self.from < total
    }
}
