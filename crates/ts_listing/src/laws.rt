//! Laws about pages. Each is the contract of a function that does nothing.

ghost use Rattle.std.specs.Prelude.{◌≡◌, ◌≤◌, ◌*◌, ℕ, List, length};
ghost use Rattle.ts_listing.specs.Page.{join_pages};

/// What pages have that are asked one after another is all rows, each once and in their order.
pub fn pages_are_all()
    ensures { (n : ℕ) (rows : List (List ℕ)) → length rows ≤ 64 * n → join_pages n 0 rows ≡ rows }
{}
