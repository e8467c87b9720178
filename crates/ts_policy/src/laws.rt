//! The law of the policy tree.

ghost use Rattle.std.specs.Prelude.{◌↔◌, suc, ◌∷◌, List, ◌++◌};
ghost use Rattle.ts_policy.specs.Labels.{Path, In};
ghost use Rattle.ts_policy.specs.Paths.{CertPolicies, InS, InT, NoneMapsAny, count};
ghost use Rattle.ts_policy.specs.Tree.{Node, tree_S, tree_T, names_at};

/// As long as no earlier certificate maps anyPolicy, the valid policy tree of RFC 5280 has the
/// paths of the sets.
///
/// The names of the tree's nodes at the depth of the latest certificate are T(i) before its
/// mappings (6.1.3 (d)) and S(i) after them (6.1.4 (b)). And each node is the beginning of such a
/// path: pruning leaves nothing else, so that the tree is empty exactly where the set is.
pub fn tree_paths()
    ensures after_taking { (c : CertPolicies) (before : List CertPolicies) → NoneMapsAny before
        → (w : Path) →
        In w (names_at (suc (count before)) (tree_T (c ∷ before))) ↔ InT (c ∷ before) w }
    ensures after_mapping { (cs : List CertPolicies) → NoneMapsAny cs → (w : Path) →
        In w (names_at (count cs) (tree_S cs)) ↔ InS cs w }
    ensures pruned_after_taking { (c : CertPolicies) (before : List CertPolicies)
        → NoneMapsAny before → (n : Node) →
        In n (tree_T (c ∷ before)) → (v : Path) × InT (c ∷ before) (v ++ n.name) }
    ensures pruned_after_mapping { (cs : List CertPolicies) → NoneMapsAny cs → (n : Node) →
        In n (tree_S cs) → (v : Path) × InS cs (v ++ n.name) }
{}
