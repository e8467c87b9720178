//! Candidates, by their length: those of one length are made from those that are shorter by one.

ghost use Rattle.std.specs.Prelude.{◌≡◌, ◌≤◌, ◌<◌, ◌++◌, ◌∷◌, [], length, map, take, IfOk, OnOk};
ghost use Rattle.std.specs.List.{flat_map};
ghost use Rattle.ts_search.specs.inside.Levels.{top_row, longer as longer_of};

use std::alloc::{AllocError, Global};

/// The chain of the leaf alone.
pub(crate) fn leaf_alone(alloc: Global) -> Result<Vec<Vec<u8>>, AllocError>
    ensures { IfOk result (λ chains. map (λ c. c.items) chains.items ≡ (0 ∷ []) ∷ []) }
{
    let mut chain = Vec::new(alloc);
    chain.push(0)?;
    let mut chains = Vec::new(alloc);
    chains.push(chain)?;
    Ok(chains)
}

/// The places of the certificates that issued the first of a chain.
fn row_above<'a>(rows: &'a [Vec<u8>], chain: &[u8]) -> &'a [u8]
    ensures { result.now ≡ top_row (map (λ row. row.items) rows.now) chain.now }
{
    let Some(top) = chain.first() else {
        return &[];
    };
    match rows.get(*top as usize) {
        Some(row) => row.as_slice(),
        None => &[],
    }
}

/// A chain with one certificate above it.
fn with_above(alloc: Global, above: u8, chain: &[u8]) -> Result<Vec<u8>, AllocError>
    ensures { IfOk result (λ longer. longer.items ≡ above ∷ chain.now) }
{
    let mut longer = Vec::new(alloc);
    longer.push(above)?;
    longer.extend_from_slice(chain)?;
    Ok(longer)
}

/// Adds the chains with one certificate above this one, up to a limit of chains.
fn extend(
    alloc: Global,
    rows: &[Vec<u8>],
    chain: &[u8],
    limit: usize,
    chains: &mut Vec<Vec<u8>>,
) -> Result<(), AllocError>
    requires { length chains.old.items ≤ limit }
    ensures { OnOk result (map (λ c. c.items) chains.new.items
        ≡ take limit (map (λ c. c.items) chains.old.items
        ++ longer_of (map (λ row. row.items) rows.now) chain.now)) }
{
    for above in row_above(rows, chain) {
        if chains.len() < limit && !chain.contains(above) {
            chains.push(with_above(alloc, *above, chain)?)?;
        }
    }
    Ok(())
}

/// The first chains, up to a limit, that are longer by one certificate than these.
pub(crate) fn longer(
    alloc: Global,
    rows: &[Vec<u8>],
    chains: &[Vec<u8>],
    limit: usize,
) -> Result<Vec<Vec<u8>>, AllocError>
    ensures { IfOk result (λ found. map (λ c. c.items) found.items
        ≡ take limit (flat_map (longer_of (map (λ row. row.items) rows.now))
        (map (λ c. c.items) chains.now))) }
{
    let mut found = Vec::new(alloc);
    for chain in chains {
        extend(alloc, rows, chain, limit, &mut found)?;
    }
    Ok(found)
}
