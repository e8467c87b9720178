//! What changed between two listings.

ghost use Rattle.std.specs.Prelude.{◌≡◌, map, IfOk};
ghost use Rattle.std.specs.List.{list_any};
ghost use Rattle.std.specs.Str.{bytes_eq};
ghost use Rattle.ts_listing.specs.Changes.{missing};

use std::alloc::{AllocError, Global};

/// Whether a row is among others. A store has at most 2,304.
fn is_among(row: &[u8], others: &[Vec<u8>]) -> bool
    ensures { result ≡ list_any (λ other. bytes_eq row.now other.items) others.now }
{
    others.iter().any(|other| row == other.as_slice())
}

/// The rows that are not among others, in their order. It compares each with each.
///
/// # Errors
///
/// Out of memory.
pub fn missing<'a>(
    alloc: Global,
    others: &[Vec<u8>],
    rows: &'a [Vec<u8>],
) -> Result<Vec<&'a [u8]>, AllocError>
    ensures { IfOk result (λ kept. map (λ row. row.now) kept.items
        ≡ missing (map (λ other. other.items) others.now) (map (λ row. row.items) rows.now)) }
{
    let mut kept = Vec::new(alloc);
    for row in rows {
        if !is_among(row.as_slice(), others) {
            kept.push(row.as_slice())?;
        }
    }
    Ok(kept)
}
