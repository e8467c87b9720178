//! Laws about what a script says. Each is the contract of a function that does nothing.

ghost use Rattle.std.specs.Prelude.{◌≡◌, ◌≢◌, ℕ, List};
ghost use Rattle.ts_script.specs.declared.script.LineFault.{LineFault};
ghost use Rattle.ts_script.specs.declared.script.LineFault.TheVariants.{Memory};
ghost use Rattle.ts_script.specs.Known.{Entry};
ghost use Rattle.ts_lab.specs.Says.{Says, Refuses, kind_of, check_kind, node_kind};

/// A line that is no `check` line and asks nothing of nodes is answered, or refused with one word:
/// only `memory` may stand for any other.
pub fn one_word()
    ensures answered { (known after : List Entry) (line text : List ℕ) (fault : LineFault)
        → kind_of line ≢ check_kind → kind_of line ≢ node_kind → Says known line text after
        → Refuses known line fault → fault ≡ Memory }
    ensures refused { (known : List Entry) (line : List ℕ) (fault other : LineFault)
        → kind_of line ≢ check_kind → kind_of line ≢ node_kind → Refuses known line fault
        → Refuses known line other → fault ≢ Memory → other ≢ Memory → fault ≡ other }
{}
