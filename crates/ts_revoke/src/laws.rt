//! Laws about the definitions that the clauses of this crate cite. Each is the contract of a
//! function that does nothing.

ghost use Rattle.std.specs.Prelude.{◌≡◌, List};
ghost use Rattle.ts_revoke.specs.declared.verdict.Status.TheVariants.{Good, Undetermined};
ghost use Rattle.ts_revoke.specs.Pairs.{Pair, Pairs};
ghost use Rattle.ts_revoke.specs.Decision.{status};
ghost use Rattle.ts_revoke.specs.Loop.{loop, IsOrder, RevokesInSomeOrder};
ghost use Rattle.ts_revoke.specs.Question.{StatusQuestion};
ghost use Rattle.ts_revoke.specs.Status.{status_of};
ghost use Rattle.ts_revoke.specs.inside.ByList.{by_list};

/// Where the status is `Good` or `Undetermined`, the loop of RFC 5280 6.3.3 answers the same in
/// every order of the pairs within a pass; where it is `Revoked`, the loop answers so in some
/// order.
pub fn in_any_order()
    ensures good { (q : Pairs) (order : List Pair) → status q ≡ Good → IsOrder q order
        → loop order ≡ Good }
    ensures undetermined { (q : Pairs) (order : List Pair) → status q ≡ Undetermined
        → IsOrder q order → loop order ≡ Undetermined }
    ensures revoked { (q : Pairs) → RevokesInSomeOrder q (status q) }
{}

/// CRL by CRL the passes find what they find pair by pair.
fn whole()
    ensures { (q : StatusQuestion) → by_list q ≡ status_of q }
{}
