//! What is given is read. Nothing is copied.

ghost use Rattle.std.specs.Prelude.{◌≡◌, length, map, option_map, IfOk, IfErr};
ghost use Rattle.ts_path.specs.View.{anchor_in};
ghost use Rattle.ts_given.specs.Given.{octets_of};
ghost use Rattle.ts_judge.specs.Given.{anchors_of, is_count, AreRead, IsRefusal};
ghost use Rattle.ts_judge.specs.inside.Views.{AreViews};

use crate::given::GivenChain;
use std::alloc::{AllocError, Global};
use ts_cert::Cert;
use ts_der::{Oid, OidRef};
use ts_given::{GivenCrls, GivenFault, certificates_in, crls_in};
use ts_path::Anchor;

/// The most certificates that a leaf's path is searched among, the leaf included.
const MAX_CERTIFICATES: usize = 33;

/// What is judged, as it lies in what is given.
#[derive(Drop)]
pub(crate) struct Views<'a> {
    pub anchors: Vec<Anchor<'a>>,
    pub certificates: Vec<Cert<'a>>,
    pub crls: GivenCrls<'a>,
    pub policies: Vec<OidRef<'a>>,
    pub purpose: Option<&'a [u8]>,
}

/// The trust anchors: those of the octets that are certificates.
fn anchors_in<'a>(alloc: Global, bundle: &'a [Vec<u8>]) -> Result<Vec<Anchor<'a>>, AllocError>
    ensures read { IfOk result (λ anchors. map anchor_in anchors.items
        ≡ anchors_of (octets_of bundle.now)) }
    ensures count { IfOk result (λ anchors. length anchors.items
        ≡ length (anchors_of (octets_of bundle.now))) }
{
    let mut anchors = Vec::new(alloc);
    for octets in bundle {
        if let Ok(cert) = Cert::read(octets.as_slice()) {
            anchors.push(Anchor::of(&cert))?;
        }
    }
    Ok(anchors)
}

/// Policies, borrowed.
fn policies_in(alloc: Global, oids: &[Oid]) -> Result<Vec<OidRef<'_>>, AllocError>
    ensures { IfOk result (λ policies. map (λ p. p.content.now) policies.items ≡ oids.now) }
{
    let mut policies = Vec::new(alloc);
    for oid in oids {
        policies.push(oid.as_ref())?;
    }
    Ok(policies)
}

/// Octets, borrowed.
fn borrow(octets: &Option<Vec<u8>>) -> Option<&[u8]>
    ensures { option_map (λ p. p.now) result ≡ option_map (λ p. p.items) octets.now }
{
    match octets {
        Some(octets) => Some(octets),
        None => None,
    }
}

/// Whether there is a leaf, and at most 32 certificates more.
fn is_count(count: usize) -> bool
    ensures { result ≡ is_count count }
{
    0 < count && count <= MAX_CERTIFICATES
}

/// What is judged, of what is given.
pub(crate) fn views_of<'a>(
    alloc: Global,
    given: &'a GivenChain,
) -> Result<Views<'a>, GivenFault<'a>>
    ensures views { IfOk result (AreViews given.now) }
    ensures read { IfOk result (λ _. AreRead (octets_of given.now.anchors.items)
        (octets_of given.now.certificates.items) (octets_of given.now.crls.items)) }
    ensures refused { IfErr result (IsRefusal (octets_of given.now.anchors.items)
        (octets_of given.now.certificates.items) (octets_of given.now.crls.items)) }
{
    if !is_count(given.certificates.len()) {
        return Err(GivenFault::Count);
    }
    let anchors = anchors_in(alloc, &given.anchors)?;
    if anchors.is_empty() {
        return Err(GivenFault::NoAnchor);
    }
    let certificates = certificates_in(alloc, &given.certificates)?;
    let crls = crls_in(alloc, &given.crls)?;
    let policies = policies_in(alloc, &given.policies)?;
    Ok(Views {
        anchors,
        certificates,
        crls,
        policies,
        purpose: borrow(&given.purpose),
    })
}
