//! Laws about the definitions that the clauses of this crate cite. Each is the contract of a
//! function that does nothing.

ghost use Rattle.std.specs.Prelude.{◌≡◌, ℕ, List, Bool};
ghost use Rattle.ts_search.specs.Candidates.{AreCandidates};
ghost use Rattle.ts_search.specs.Search.{IsSearchAnswer, IsSame, Search};
ghost use Rattle.ts_search.specs.declared.answer.SearchAnswer.{SearchAnswer};

/// The candidates in their order are one list, and a search has one answer: two that are its
/// answers name the same anchor, the same chain and the same policies.
pub fn one_answer()
    ensures candidates { (issues : ℕ → ℕ → Bool) (count : ℕ) (cs ds : List (List ℕ))
        → AreCandidates issues count cs → AreCandidates issues count ds → cs ≡ ds }
    ensures answer { (s : Search) (a b : SearchAnswer) → IsSearchAnswer s a → IsSearchAnswer s b
        → IsSame a b }
{}
