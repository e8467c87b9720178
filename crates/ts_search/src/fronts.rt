//! Fronts of chains that are not valid: what the failure of one candidate says of others.

ghost use Rattle.std.specs.Prelude.{◌≡◌, ◌≤◌, List, IsTrue, IfOk, length, map, take};
ghost use Rattle.ts_search.specs.inside.Dead.{AreDeadUnder, BeginsWithOne, fronts_in};
ghost use Rattle.ts_cert.specs.Certificate.{Certificate};
ghost use Rattle.ts_path.specs.Asked.{ValidationInputs, TrustAnchor};

use std::alloc::{AllocError, Global};

/// For each anchor the fronts of chains, as places, that no chain under it has which is valid.
pub(crate) type Fronts = Vec<Vec<Vec<u8>>>;

/// No front for any of so many anchors.
pub(crate) fn no_fronts(alloc: Global, anchors: usize) -> Result<Fronts, AllocError>
    ensures length { IfOk result (λ fronts. length fronts.items ≡ anchors) }
    ensures dead { IfOk result (λ fronts. (asked : TrustAnchor → ValidationInputs)
        (certificates : List Certificate) (under : List TrustAnchor)
        → AreDeadUnder asked certificates under (fronts_in fronts.items)) }
{
    let mut fronts = Vec::new(alloc);
    for _anchor in 0..anchors {
        fronts.push(Vec::new(alloc))?;
    }
    Ok(fronts)
}

/// Whether a chain begins with one of the fronts.
pub(crate) fn has_front(fronts: &[Vec<u8>], chain: &[u8]) -> bool
    ensures { IsTrue result → BeginsWithOne (map (λ front. front.items) fronts.now) chain.now }
{
    for front in fronts {
        if chain.starts_with(front.as_slice()) {
            return true;
        }
    }
    false
}

/// The first places of a chain, so many.
pub(crate) fn front_of(alloc: Global, chain: &[u8], count: usize) -> Result<Vec<u8>, AllocError>
    requires { count ≤ length chain.now }
    ensures { IfOk result (λ front. front.items ≡ take count chain.now) }
{
    let front = Vec::from_slice(alloc, &chain[..count])?;
    Ok(front)
}
