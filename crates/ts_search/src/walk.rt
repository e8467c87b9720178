//! The search.

ghost use Rattle.std.specs.Prelude.{◌≡◌, ◌≤◌, ◌<◌, ◌∷◌, List, ℕ, length, map, IfOk};
ghost use Rattle.ts_cert.specs.CertView.{cert_in};
ghost use Rattle.ts_search.specs.Search.{IsSearchAnswer};
ghost use Rattle.ts_search.specs.View.{search_among, search_in};

use crate::answer::SearchAnswer;
use crate::fronts::no_fronts;
use crate::issuers::all_issuers;
use crate::levels::{leaf_alone, longer};
use crate::trial::Trial;
use std::alloc::{AllocError, Global};
use ts_cert::Cert;
use ts_path::{Anchor, Inputs};
use ts_revoke::Crls;
use ts_sig::SignatureCheck;

/// The greatest number of certificates in a pool.
pub const MAX_POOL: usize = 32;

/// The greatest number of certificates in a candidate.
pub const MAX_LENGTH: usize = 10;

/// The greatest number of candidates that are tried.
pub const MAX_CANDIDATES: usize = 4096;

/// The leaf, and the pool after it.
fn together<'a>(
    alloc: Global,
    leaf: &Cert<'a>,
    pool: &[Cert<'a>],
) -> Result<Vec<Cert<'a>>, AllocError>
    ensures { IfOk result (λ certificates. certificates.items ≡ leaf.now ∷ pool.now) }
{
    let mut certificates = Vec::new(alloc);
    certificates.push(*leaf)?;
    for cert in pool {
        certificates.push(*cert)?;
    }
    Ok(certificates)
}

/// The search among certificates of which the first is the leaf.
fn search_all<'a, S: SignatureCheck>(
    alloc: Global,
    certificates: &[Cert<'a>],
    anchors: &[Anchor<'a>],
    inputs: &Inputs<'a>,
    crls: &Crls<'_>,
    check: &S,
) -> Result<SearchAnswer<'a>, AllocError>
    requires some { 1 ≤ length certificates.now }
    requires few { length certificates.now ≤ 33 }
    ensures { IfOk result (IsSearchAnswer
        (search_among certificates.now anchors.now inputs.now crls.now (S.accepts check.now))) }
{
    let trial = Trial {
        alloc,
        certificates,
        anchors,
        inputs,
        crls,
        check,
    };
    let mut fronts = no_fronts(alloc, anchors.len())?;
    let rows = all_issuers(alloc, certificates)?;
    let mut chains = leaf_alone(alloc)?;
    let mut left = MAX_CANDIDATES;
    for _above in 0..MAX_LENGTH {
        if left < chains.len() {
            let tried = &chains[..left];
            let found = trial.first_valid(tried, &mut fronts)?;
            return Ok(found.unwrap_or(SearchAnswer::SearchLimit));
        }
        if let Some(found) = trial.first_valid(&chains, &mut fronts)? {
            return Ok(found);
        }
        left -= chains.len();
        chains = longer(alloc, &rows, &chains, left + 1)?;
    }
    Ok(SearchAnswer::NoPath)
}

/// Searches a chain from a trust anchor to the leaf, through certificates of the pool: of the
/// candidates in their order the first that is valid under an anchor, and the first such anchor. At
/// most 4,096 candidates are tried.
///
/// # Errors
///
/// Out of memory.
pub fn search<'a, S: SignatureCheck>(
    alloc: Global,
    leaf: &Cert<'a>,
    pool: &[Cert<'a>],
    anchors: &[Anchor<'a>],
    inputs: &Inputs<'a>,
    crls: &Crls<'_>,
    check: &S,
) -> Result<SearchAnswer<'a>, AllocError>
    requires { length pool.now ≤ 32 }
    ensures { IfOk result (IsSearchAnswer
        (search_in leaf.now pool.now anchors.now inputs.now crls.now (S.accepts check.now))) }
{
    let certificates = together(alloc, leaf, pool)?;
    let answer = search_all(alloc, &certificates, anchors, inputs, crls, check)?;
    Ok(answer)
}
