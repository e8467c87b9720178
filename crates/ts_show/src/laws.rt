//! A law about what octets hold. It is the contract of a function that does nothing.

ghost use Rattle.std.specs.Prelude.{◌≡◌, ℕ, List};
ghost use Rattle.ts_show.specs.Kind.{IsKind};
ghost use Rattle.ts_show.specs.declared.kind.Kind.{Kind};

/// Octets hold one kind of thing.
pub fn one_kind()
    ensures { (octets : List ℕ) (kind other : Kind) → IsKind octets kind → IsKind octets other
        → kind ≡ other }
{}
