//! Laws about what a client asks. Each is the contract of a function that does nothing.

ghost use Rattle.std.specs.Prelude.{◌≡◌, ◌≤◌, ◌+◌, ◌*◌, ℕ, List, suc, drop, length};
ghost use Rattle.ts_exchange.specs.Walk.{walked};

/// The pages of a walk have together all rows from its begin on, in their order and each once, if
/// enough pages are asked for: one for each 64 rows.
pub fn walks_get_all()
    ensures { (pages from : ℕ) (rows : List (List ℕ)) → length rows ≤ 4294967295
        → length rows ≤ from + 64 * suc pages → walked (suc pages) from rows ≡ drop from rows }
{}
