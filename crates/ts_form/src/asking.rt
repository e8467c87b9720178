//! The question that fields say.

ghost use Rattle.std.specs.Prelude.{◌≡◌, false, MatchResult};
ghost use Rattle.ts_question.specs.Question.{is_within};
ghost use Rattle.ts_form.specs.Asking.{asked_in};

use crate::wanted::WantedFields;
use std::alloc::Global;
use ts_question::{OctetStrings, Oids, OutOfLimits, Question, Terms};

/// The question that fields say, at the moment that they give, or now.
///
/// # Errors
///
/// `OutOfLimits` exactly where that question is outside its limits.
pub fn question_of(alloc: Global, wanted: WantedFields, now: i64) -> Result<Question, OutOfLimits>
    ensures { MatchResult result (λ question. question ≡ asked_in wanted now)
        (λ _. is_within (asked_in wanted now) ≡ false) }
{
    let terms = Terms {
        moment: wanted.at.unwrap_or(now),
        flags: wanted.flags,
        k: wanted.k,
        purpose: wanted.purpose,
        user_policies: Oids::new(wanted.policies),
        permitted_subtrees: OctetStrings::empty(alloc),
        excluded_subtrees: OctetStrings::empty(alloc),
    };
    let mut certificates = wanted.chain;
    match wanted.anchor {
        Some(anchor) => {
            certificates.reverse();
            Question::chain(terms, anchor, certificates)
        }
        None => Question::search(terms, certificates),
    }
}
