//! Laws about the definitions that the clauses of this crate cite. Each is the contract of a
//! function that does nothing.

ghost use Rattle.std.specs.Prelude.{◌≡◌, ◌≤◌, ◌↔◌, ℕ, true, false, IsTrue, List, length};
ghost use Rattle.std.specs.Prelude.{Some, None};
ghost use Rattle.ts_cert.specs.Certificate.{Certificate};
ghost use Rattle.ts_reason.specs.Conditions.{Condition, path_length};
ghost use Rattle.ts_path.specs.Asked.{TrustAnchor, ValidationInputs};
ghost use Rattle.ts_path.specs.Chain.{ChainQuestion, Link, Stands};
ghost use Rattle.ts_path.specs.Names.{is_self_issued};
ghost use Rattle.ts_path.specs.State.{PathState, state_at};
ghost use Rattle.ts_path.specs.Conditions.{may_go_on};
ghost use Rattle.ts_path.specs.PathLength.{FollowersFit, FollowsWithin};
ghost use Rattle.ts_path.specs.WorkingKey.{parameters_of};
ghost use Rattle.ts_path.specs.Inherited.{AreInherited, keys_above};
ghost use Rattle.ts_path.specs.Verdict.{HoldsAt, IsLeast, IsSame, IsVerdict};
ghost use Rattle.ts_path.specs.declared.verdict.Verdict.{Verdict};

/// A question has one verdict: two that are its verdicts say the same policies, or the same
/// position and reason with what the reason names. Where a condition fails the chain is not valid,
/// and of the conditions that fail one is the least.
pub fn one_verdict()
    ensures least { (q : ChainQuestion) (i j : ℕ) (k m : Condition) → IsLeast q i k → IsLeast q j m
        → (i ≡ j) × (k ≡ m) }
    ensures invalid { (q : ChainQuestion) (i : ℕ) (k : Condition) → IsLeast q i k
        → ¬ ((j : ℕ) (m : Condition) → HoldsAt m q j) }
    ensures same { (q : ChainQuestion) (v w : Verdict) → 1 ≤ length q.chain → IsVerdict q v
        → IsVerdict q w → IsSame v w }
{}

/// The condition on path lengths is what RFC 5280 4.2.1.9 says of a pathLenConstraint: it holds at
/// each position exactly where no more intermediate certificates that are not self-issued follow a
/// certificate than it states. At one certificate: if it is not self-issued, the path may go on
/// exactly where each certificate above allows as many as there are down to this one; the chain's
/// length, with which max_path_length starts, bounds nothing. A self-issued certificate may always
/// be followed.
pub fn path_lengths()
    ensures chain { (q : ChainQuestion) → ((i : ℕ) → HoldsAt path_length q i)
        ↔ ((i : ℕ) (l : Link) → Stands q.chain i l → FollowersFit l) }
    ensures certificate { (a : ValidationInputs) (chain : List Certificate) (i : ℕ) (l : Link)
        → Stands chain i l → is_self_issued l.certificate ≡ false
        → IsTrue (may_go_on (state_at a (length chain) l.above) l.certificate)
        ↔ FollowsWithin l.above l.certificate }
    ensures self_issued { (s : PathState) (c : Certificate) → is_self_issued c ≡ true
        → IsTrue (may_go_on s c) }
{}

/// The parameters of the working key (RFC 5280 6.1.4 (d) to (f)) are those that a key above states,
/// where the keys that are nearer state none and have its algorithm; and there are none exactly
/// where there is no such key.
pub fn inherited_parameters()
    ensures some { (anchor : TrustAnchor) (above : List Certificate) (p : List ℕ)
        → (parameters_of anchor above ≡ Some p) ↔ AreInherited (keys_above anchor above) p }
    ensures none { (anchor : TrustAnchor) (above : List Certificate)
        → (parameters_of anchor above ≡ None)
        ↔ ((p : List ℕ) → ¬ (AreInherited (keys_above anchor above) p)) }
{}
