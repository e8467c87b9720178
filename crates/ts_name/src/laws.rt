//! Laws about the definitions that the clauses of this crate cite. Each is the contract of a
//! function that does nothing.

ghost use Rattle.std.specs.Prelude.{◌≡◌, ◌↔◌, List, true};
ghost use Rattle.ts_name.specs.Canon.{Attr};
ghost use Rattle.ts_name.specs.Sameness.{canon_name, is_same_name, IsWithin};

/// To be one name is an equivalence.
pub fn same_is_an_equivalence()
    ensures itself { (a : List (List Attr)) → canon_name a ≡ canon_name a }
    ensures turned { (a b : List (List Attr)) → canon_name a ≡ canon_name b
        → canon_name b ≡ canon_name a }
    ensures chained { (a b c : List (List Attr)) → canon_name a ≡ canon_name b
        → canon_name b ≡ canon_name c → canon_name a ≡ canon_name c }
{}

/// Two names are the same exactly where their canonical forms are equal (RFC 5280 7.1).
pub fn same_is_one_canonical_form()
    ensures { (a b : List (List Attr)) → (is_same_name a b ≡ true) ↔ (canon_name a ≡ canon_name b) }
{}

/// To lie within a subtree is an order on names, up to names that are one.
pub fn within_is_an_order()
    ensures itself { (a : List (List Attr)) → IsWithin a a }
    ensures chained { (a b c : List (List Attr)) → IsWithin a b → IsWithin b c → IsWithin a c }
    ensures both { (a b : List (List Attr)) → IsWithin a b → IsWithin b a
        → canon_name a ≡ canon_name b }
{}

/// Names that are one lie within the same subtrees, and subtrees that are one hold the same names.
pub fn same_names_are_interchangeable()
    ensures { (a b name subtree : List (List Attr)) → canon_name a ≡ canon_name name
        → canon_name b ≡ canon_name subtree
        → IsWithin a b → IsWithin name subtree }
{}
