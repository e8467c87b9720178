//! Candidates are tried: each under the anchors in their order.
//!
//! Many candidates have the certificates at their front in common, and a stranger can hand in
//! thousands that do. What fails at a front, by a condition that looks at it alone, fails in each
//! of them, so it is judged once for each anchor.

ghost use Rattle.std.specs.Prelude.{◌≡◌, ◌≤◌, ◌<◌, length, map, slice_get, option_map, IfOk};
ghost use Rattle.std.specs.Prelude.{◌↔◌, IsTrue, OnOk};
ghost use Rattle.ts_name.specs.Sameness.{canon_name};
ghost use Rattle.ts_cert.specs.CertView.{cert_in};
ghost use Rattle.ts_reason.specs.Conditions.{number_of};
ghost use Rattle.ts_path.specs.View.{anchor_in, asked_under};
ghost use Rattle.ts_search.specs.Search.{certificates_at as certificates_of, question};
ghost use Rattle.ts_path.specs.declared.verdict.Verdict.TheVariants.{Invalid};
ghost use Rattle.ts_path.specs.Verdict.{IsVerdict};
ghost use Rattle.ts_reason.specs.View.{condition_of};
ghost use Rattle.ts_search.specs.inside.Dead.{AreDead, AreDeadUnder, fronts_in};
ghost use Rattle.ts_search.specs.inside.Trial.{AreTriable, FirstOf, FirstOrNone, IsTriable};
ghost use Rattle.ts_search.specs.inside.Trial.{ValidOrNot};
ghost use Rattle.ts_search.specs.View.{search_among};

use crate::answer::SearchAnswer;
use crate::fronts::{Fronts, front_of, has_front};
use std::alloc::{AllocError, Global};
use ts_cert::Cert;
use ts_der::OidRef;
use ts_path::{Anchor, Inputs, Verdict, validate};
use ts_reason::Reason;
use ts_revoke::Crls;
use ts_sig::SignatureCheck;

/// An anchor under which a chain is valid, by its place, and the policies that are accepted.
#[derive(Drop)]
pub(crate) struct Success<'a> {
    pub(crate) anchor: usize,
    pub(crate) policies: Vec<OidRef<'a>>,
}

/// The certificate at a place, if there is one.
fn certificate_at<'a>(certificates: &[Cert<'a>], place: u8) -> Option<Cert<'a>>
    ensures { option_map cert_in result ≡ slice_get (map cert_in certificates.now) place }
{
    certificates.get(place as usize).copied()
}

/// The certificates at the places of a chain. A place at which there is none is passed over.
///
/// # Errors
///
/// Out of memory.
pub fn certificates_at<'a>(
    alloc: Global,
    certificates: &[Cert<'a>],
    chain: &[u8],
) -> Result<Vec<Cert<'a>>, AllocError>
    ensures { IfOk result (λ found. map cert_in found.items
        ≡ certificates_of (map cert_in certificates.now) chain.now) }
{
    let mut found = Vec::new(alloc);
    for place in chain {
        if let Some(cert) = certificate_at(certificates, *place) {
            found.push(cert)?;
        }
    }
    Ok(found)
}

/// What each candidate is tried with.
#[derive_where(Clone, Copy)]
pub(crate) struct Trial<'t, 'a, S> {
    pub(crate) alloc: Global,
    /// The leaf, and the pool after it.
    pub(crate) certificates: &'t [Cert<'a>],
    pub(crate) anchors: &'t [Anchor<'a>],
    pub(crate) inputs: &'t Inputs<'a>,
    pub(crate) crls: &'t Crls<'t>,
    pub(crate) check: &'t S,
}

/// Whether an anchor has the name of a certificate's issuer.
fn is_issuer(anchor: &Anchor<'_>, cert: &Cert<'_>) -> bool
    ensures { IsTrue result ↔ (canon_name (cert_in cert.now).tbsCertificate.issuer
        ≡ canon_name (anchor_in anchor.now).name) }
{
    cert.issuer().same(anchor.name)
}

/// Whether a reason is that of a condition which looks at a certificate and those above it alone:
/// not at those below it, at their number, or at policies.
fn is_of_front(reason: &Reason<OidRef<'_>>) -> bool
    ensures { IsTrue result ↔ (number_of (condition_of reason.now) ≤ 7) }
{
    reason.number() <= 7
}

impl<'t, 'a, S: SignatureCheck> Trial<'t, 'a, S> {
    /// Keeps the front of a chain that is not valid, if each chain with this front fails as it
    /// does.
    fn learn(
        &self,
        places: &[u8],
        chain: &[Cert<'a>],
        anchor: &Anchor<'a>,
        position: u8,
        reason: &Reason<OidRef<'a>>,
        fronts: &mut Vec<Vec<u8>>,
    ) -> Result<(), AllocError>
        requires at { map cert_in chain.now
            ≡ certificates_of (map cert_in self.now.certificates.now) places.now }
        requires verdict { IsVerdict (question
            (asked_under self.now.inputs.now self.now.crls.now (S.accepts self.now.check.now))
            (map cert_in chain.now) (anchor_in anchor.now)) (Invalid position reason.now) }
        requires dead { AreDead
            (asked_under self.now.inputs.now self.now.crls.now (S.accepts self.now.check.now))
            (map cert_in self.now.certificates.now) (anchor_in anchor.now)
            (map (λ front. front.items) fronts.old.items) }
        ensures { OnOk result (AreDead
            (asked_under self.now.inputs.now self.now.crls.now (S.accepts self.now.check.now))
            (map cert_in self.now.certificates.now) (anchor_in anchor.now)
            (map (λ front. front.items) fronts.new.items)) }
    {
        if is_of_front(reason) && chain.len() == places.len() {
            fronts.push(front_of(self.alloc, places, position as usize)?)?;
        }
        Ok(())
    }

    /// The policies that are accepted where a chain is valid under an anchor; `None` where it is
    /// not.
    fn policies_under(
        &self,
        places: &[u8],
        chain: &[Cert<'a>],
        anchor: &Anchor<'a>,
        fronts: &mut Vec<Vec<u8>>,
    ) -> Result<Option<Vec<OidRef<'a>>>, AllocError>
        requires some { 1 ≤ length chain.now }
        requires few { length chain.now ≤ 16 }
        requires at { map cert_in chain.now
            ≡ certificates_of (map cert_in self.now.certificates.now) places.now }
        requires dead { AreDead
            (asked_under self.now.inputs.now self.now.crls.now (S.accepts self.now.check.now))
            (map cert_in self.now.certificates.now) (anchor_in anchor.now)
            (map (λ front. front.items) fronts.old.items) }
        ensures found { IfOk result (λ found. ValidOrNot (question
            (asked_under self.now.inputs.now self.now.crls.now (S.accepts self.now.check.now))
            (map cert_in chain.now) (anchor_in anchor.now)) found) }
        ensures dead { OnOk result (AreDead
            (asked_under self.now.inputs.now self.now.crls.now (S.accepts self.now.check.now))
            (map cert_in self.now.certificates.now) (anchor_in anchor.now)
            (map (λ front. front.items) fronts.new.items)) }
    {
        // Why: under an anchor of another name condition 7 fails, whatever the signature is, and so
        // no signature is computed for it (RFC 5280 6.1.3 (a) (4)).
        if !is_issuer(anchor, &chain[0]) || has_front(fronts, places) {
            return Ok(None);
        }
        match validate(
            self.alloc,
            anchor,
            chain,
            self.inputs,
            self.crls,
            self.check,
        )? {
            Verdict::Valid(policies) => Ok(Some(policies)),
            Verdict::Invalid { position, reason } => {
                self.learn(places, chain, anchor, position, &reason, fronts)?;
                Ok(None)
            }
        }
    }

    /// The first anchor under which the chain at these places is valid.
    fn first_anchor(
        &self,
        places: &[u8],
        chain: &[Cert<'a>],
        fronts: &mut Fronts,
    ) -> Result<Option<Success<'a>>, AllocError>
        requires some { 1 ≤ length chain.now }
        requires few { length chain.now ≤ 16 }
        requires at { map cert_in chain.now
            ≡ certificates_of (map cert_in self.now.certificates.now) places.now }
        requires rows { length fronts.old.items ≡ length self.now.anchors.now }
        requires dead { AreDeadUnder
            (asked_under self.now.inputs.now self.now.crls.now (S.accepts self.now.check.now))
            (map cert_in self.now.certificates.now) (map anchor_in self.now.anchors.now)
            (fronts_in fronts.old.items) }
        ensures found { IfOk result (λ found. FirstOrNone
            (asked_under self.now.inputs.now self.now.crls.now (S.accepts self.now.check.now))
            (map cert_in chain.now) (map anchor_in self.now.anchors.now) found) }
        ensures rows { OnOk result (length fronts.new.items ≡ length self.now.anchors.now) }
        ensures dead { OnOk result (AreDeadUnder
            (asked_under self.now.inputs.now self.now.crls.now (S.accepts self.now.check.now))
            (map cert_in self.now.certificates.now) (map anchor_in self.now.anchors.now)
            (fronts_in fronts.new.items)) }
    {
        for number in 0..self.anchors.len() {
            let anchor = &self.anchors[number];
            let under = &mut fronts[number];
            if let Some(policies) = self.policies_under(places, chain, anchor, under)? {
                return Ok(Some(Success {
                    anchor: number,
                    policies,
                }));
            }
        }
        Ok(None)
    }

    /// The first chain that is valid under an anchor, with the first anchor under which it is.
    pub(crate) fn first_valid(
        &self,
        chains: &[Vec<u8>],
        fronts: &mut Fronts,
    ) -> Result<Option<SearchAnswer<'a>>, AllocError>
        requires triable { AreTriable (map cert_in self.now.certificates.now)
            (map (λ c. c.items) chains.now) }
        requires rows { length fronts.old.items ≡ length self.now.anchors.now }
        requires dead { AreDeadUnder
            (asked_under self.now.inputs.now self.now.crls.now (S.accepts self.now.check.now))
            (map cert_in self.now.certificates.now) (map anchor_in self.now.anchors.now)
            (fronts_in fronts.old.items) }
        ensures found { IfOk result (λ found. FirstOf (search_among self.now.certificates.now
            self.now.anchors.now self.now.inputs.now self.now.crls.now
            (S.accepts self.now.check.now)) (map (λ c. c.items) chains.now) found) }
        ensures rows { OnOk result (length fronts.new.items ≡ length self.now.anchors.now) }
        ensures dead { OnOk result (AreDeadUnder
            (asked_under self.now.inputs.now self.now.crls.now (S.accepts self.now.check.now))
            (map cert_in self.now.certificates.now) (map anchor_in self.now.anchors.now)
            (fronts_in fronts.new.items)) }
    {
        for chain in chains {
            let under = certificates_at(self.alloc, self.certificates, chain)?;
            if let Some(success) = self.first_anchor(chain, &under, fronts)? {
                let Success { anchor, policies } = success;
                let chain = Vec::from_slice(self.alloc, chain)?;
                return Ok(Some(SearchAnswer::Found {
                    anchor,
                    chain,
                    policies,
                }));
            }
        }
        Ok(None)
    }
}
