//! Laws about plans. Each is the contract of a function that does nothing.

ghost use Rattle.std.specs.Prelude.{◌≡◌, ◌↔◌, [], ℕ, List, take, true};
ghost use Rattle.ts_sync.specs.Plan.{AreSame, KeptIds, after, has, plan};

/// After the steps of a plan exactly what is wanted is held.
pub fn plans_reach()
    ensures anchors { (held wanted : KeptIds)
        → AreSame (after held (plan held wanted)).anchors wanted.anchors }
    ensures crls { (held wanted : KeptIds)
        → AreSame (after held (plan held wanted)).crls wanted.crls }
{}

/// After any number of the steps of a plan what was held and is wanted is held.
pub fn plans_keep()
    ensures anchors { (held wanted : KeptIds) (n : ℕ) (id : List ℕ) → has held.anchors id ≡ true
        → has wanted.anchors id ≡ true
        → has (after held (take n (plan held wanted))).anchors id ≡ true }
    ensures crls { (held wanted : KeptIds) (n : ℕ) (id : List ℕ) → has held.crls id ≡ true
        → has wanted.crls id ≡ true
        → has (after held (take n (plan held wanted))).crls id ≡ true }
{}

/// A plan has no step exactly where the same is held and wanted.
pub fn plans_rest()
    ensures { (held wanted : KeptIds) → (plan held wanted ≡ []) ↔
        (AreSame held.anchors wanted.anchors × AreSame held.crls wanted.crls) }
{}
