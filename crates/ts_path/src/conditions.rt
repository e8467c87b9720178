//! The conditions on a certificate, in their order from 1 to 18, each as a question or as the first
//! of its group that fails.

ghost use Rattle.std.specs.Prelude.{◌≡◌, ◌↔◌, ◌≤ℤ◌, IfOk, IsTrue, List, [], false, map};
ghost use Rattle.std.specs.Prelude.{option_map};
ghost use Rattle.ts_name.specs.Sameness.{canon_name};
ghost use Rattle.ts_cert.specs.CertView.{cert_in};
ghost use Rattle.ts_constraint.specs.Conditions.{IsExempt, IsBoundsAnswer};
ghost use Rattle.ts_constraint.specs.Names.{names_of};
ghost use Rattle.ts_policy.specs.Certificates.{policies_in};
ghost use Rattle.ts_policy.specs.Labels.{Path};
ghost use Rattle.ts_policy.specs.Paths.{CertPolicies};
ghost use Rattle.ts_policy.specs.Seen.{InPaths};
ghost use Rattle.ts_path.specs.Asked.{ValidationInputs};
ghost use Rattle.ts_path.specs.Conditions.{Site, status_at, final_explicit as final_explicit_of};
ghost use Rattle.ts_path.specs.Conditions.{is_trusted as is_trusted_of, may_go_on as may_go_on_of};
ghost use Rattle.ts_path.specs.Extensions.{explicit_policy_of};
ghost use Rattle.ts_path.specs.State.{policies_at};
ghost use Rattle.ts_path.specs.View.{at};
ghost use Rattle.ts_path.specs.inside.Context.{asked_by};
ghost use Rattle.ts_path.specs.inside.Judging.{MeetsBelow, FindsBelow};

use crate::context::Context;
use crate::counters::explicit_policy;
use crate::extensions::{first_refused, is_ca, is_trusted_for, may_sign};
use crate::self_issued::is_self_issued;
use crate::state::State;
use std::alloc::{AllocError, Global};
use ts_cert::Cert;
use ts_constraint::NameFault;
use ts_der::OidRef;
use ts_policy::{Certificate, Policies};
use ts_reason::Reason;
use ts_revoke::{Issuer, Status, status};
use ts_sig::{Message, SignatureCheck};

// ---- 1 to 4: the anchor's purpose, the signature, the time

impl<'a> State<'a> {
    /// Whether the anchor is trusted for the purpose that is asked, which is asked of the first
    /// certificate alone.
    fn is_trusted<S: SignatureCheck>(&self, context: &Context<'_, '_, 'a, S>) -> bool
        ensures { result ≡ is_trusted_of (asked_by S.accepts context.now).anchor
            (asked_by S.accepts context.now).purpose self.now }
    {
        self.passed != 0 || is_trusted_for(context.inputs.purpose, context.anchor.purposes)
    }

    /// Whether the check accepts the certificate's signature under the working public key.
    fn is_signed<S: SignatureCheck>(
        &self,
        context: &Context<'_, '_, 'a, S>,
        cert: &Cert<'a>,
    ) -> bool
        ensures { result ≡ S.accepts context.now.check.now
            (cert_in cert.now).signatureAlgorithm.whole self.now.key (cert_in cert.now).tbs
            (cert_in cert.now).signatureValue }
    {
        context.check.good(
            cert.signature_algorithm().whole,
            &self.key,
            &Message::of(cert.tbs()),
            cert.signature(),
        )
    }

    /// The first condition that the certificate does not meet, of those on the anchor, the
    /// signature and the time.
    fn first_of_origin<S: SignatureCheck>(
        &self,
        context: &Context<'_, '_, 'a, S>,
        cert: &Cert<'a>,
        last: bool,
    ) -> Option<Reason<OidRef<'a>>>
        ensures { (above : List CertPolicies)
            → FindsBelow 5 (at (asked_by S.accepts context.now) self.now above
            (cert_in cert.now) last) result }
    {
        if !self.is_trusted(context) {
            return Some(Reason::AnchorPurpose);
        }
        if !self.is_signed(context, cert) {
            return Some(Reason::Signature);
        }
        if !has_begun(context, cert) {
            return Some(Reason::TooEarly);
        }
        if !has_not_ended(context, cert) {
            return Some(Reason::Expired);
        }
        None
    }
}

/// Whether the validity of the certificate has begun at the moment that is asked for.
fn has_begun<S: SignatureCheck>(context: &Context<'_, '_, '_, S>, cert: &Cert<'_>) -> bool
    ensures { IsTrue result ↔ ((cert_in cert.now).tbsCertificate.validity.not_before.moment ≤ℤ
        context.now.inputs.now.moment) }
{
    cert.validity().not_before.moment <= context.inputs.moment
}

/// Whether the validity of the certificate has not ended at the moment that is asked for.
fn has_not_ended<S: SignatureCheck>(context: &Context<'_, '_, '_, S>, cert: &Cert<'_>) -> bool
    ensures { IsTrue result ↔ (context.now.inputs.now.moment ≤ℤ
        (cert_in cert.now).tbsCertificate.validity.not_after.moment) }
{
    context.inputs.moment <= cert.validity().not_after.moment
}

// ---- 5 and 6: revocation

impl<'a> State<'a> {
    /// What the CRLs at hand say of the certificate (RFC 5280 6.3).
    fn status<S: SignatureCheck>(
        &self,
        context: &Context<'_, '_, 'a, S>,
        cert: &Cert<'a>,
        last: bool,
    ) -> Status
        ensures { (above : List CertPolicies)
            → result ≡ status_at (at (asked_by S.accepts context.now) self.now above
            (cert_in cert.now) last) }
    {
        let issuer = Issuer {
            key: self.key,
            key_usage: self.usage,
        };
        let inputs = context.inputs;
        let moment = inputs.moment;
        status(
            context.crls,
            cert,
            &issuer,
            moment,
            context.check,
            inputs.use_deltas,
        )
    }

    /// The first of the conditions on revocation that the certificate does not meet.
    fn first_of_status<S: SignatureCheck>(
        &self,
        context: &Context<'_, '_, 'a, S>,
        cert: &Cert<'a>,
        last: bool,
    ) -> Option<Reason<OidRef<'a>>>
        ensures { (above : List CertPolicies)
            → MeetsBelow 5 (at (asked_by S.accepts context.now) self.now above
            (cert_in cert.now) last)
            → FindsBelow 7 (at (asked_by S.accepts context.now) self.now above
            (cert_in cert.now) last) result }
    {
        match self.status(context, cert, last) {
            Status::Good => None,
            Status::Revoked(code) => Some(Reason::Revoked(code)),
            Status::Undetermined => {
                if context.inputs.hard {
                    return Some(Reason::Undetermined);
                }
                None
            }
        }
    }
}

// ---- 7 to 10: names

impl<'a> State<'a> {
    /// Whether the certificate's issuer is the working issuer name (RFC 5280 6.1.3 (a) (4)).
    fn is_issued(&self, cert: &Cert<'a>) -> bool
        ensures { IsTrue result ↔ (canon_name (cert_in cert.now).tbsCertificate.issuer
            ≡ canon_name self.now.name) }
    {
        cert.issuer().same(self.name)
    }

    /// Whether the names of the certificate meet the constraints above it.
    fn check_names(&self, cert: &Cert<'a>, last: bool) -> Result<(), NameFault>
        ensures exempt { IsExempt (cert_in cert.now).tbsCertificate last → result ≡ Ok tt }
        ensures checked { ¬ (IsExempt (cert_in cert.now).tbsCertificate last)
            → IsBoundsAnswer self.now.sources (names_of (cert_in cert.now).tbsCertificate) result }
    {
        self.bounds.check(cert, last)
    }

    /// The first condition on names that the certificate does not meet.
    fn first_of_names(&self, cert: &Cert<'a>, last: bool) -> Option<Reason<OidRef<'a>>>
        ensures { (asked : ValidationInputs) (above : List CertPolicies)
            → MeetsBelow 7 (at asked self.now above (cert_in cert.now) last)
            → FindsBelow 11 (at asked self.now above (cert_in cert.now) last) result }
    {
        if !self.is_issued(cert) {
            return Some(Reason::IssuerName);
        }
        match self.check_names(cert, last) {
            Ok(()) => None,
            Err(NameFault::Unsupported(_)) => Some(Reason::UnsupportedConstraint),
            Err(NameFault::NotPermitted(_)) => Some(Reason::NotPermitted),
            Err(NameFault::Excluded(_)) => Some(Reason::Excluded),
        }
    }

    /// The first condition before that on the valid policy tree that the certificate does not meet
    /// (RFC 5280 6.1.3 (a) to (c)).
    pub(crate) fn first_before_policies<S: SignatureCheck>(
        &self,
        context: &Context<'_, '_, 'a, S>,
        cert: &Cert<'a>,
        last: bool,
    ) -> Option<Reason<OidRef<'a>>>
        ensures { (above : List CertPolicies)
            → FindsBelow 11 (at (asked_by S.accepts context.now) self.now above
            (cert_in cert.now) last) result }
    {
        if let Some(reason) = self.first_of_origin(context, cert, last) {
            return Some(reason);
        }
        if let Some(reason) = self.first_of_status(context, cert, last) {
            return Some(reason);
        }
        self.first_of_names(cert, last)
    }
}

// ---- 11 and 12: the valid policy tree, and policy mappings

impl<'a> State<'a> {
    /// What a certificate states of policies. Whether its mappings name anyPolicy, which condition
    /// 12 refuses, is asked of it.
    pub(crate) fn policies_of(
        &self,
        alloc: Global,
        cert: &Cert<'a>,
        last: bool,
    ) -> Result<Certificate<'a>, AllocError>
        ensures { IfOk result (λ c. policies_in c ≡ policies_at self.now (cert_in cert.now) last) }
    {
        let stated = Certificate::of(
            alloc,
            *cert,
            last,
            self.counters.inhibit_any_policy,
            self.counters.policy_mapping,
        )?;
        Ok(stated)
    }

    /// Whether a policy is required, and no policy path is left.
    pub(crate) fn lacks_policy(&self, policies: &Policies<'a>) -> bool
        ensures { IsTrue result ↔ ((self.now.counters.explicit_policy ≡ 0)
            × ((w : Path) → InPaths policies.now w → ⊥)) }
    {
        self.counters.explicit_policy == 0 && policies.is_empty()
    }
}

// ---- 13 to 15: a certificate that issues another

impl<'a> State<'a> {
    /// Whether the path may go on after the certificate.
    fn may_go_on(&self, cert: &Cert<'a>) -> bool
        ensures { result ≡ may_go_on_of self.now (cert_in cert.now) }
    {
        is_self_issued(cert) || self.counters.max_path_length > 0
    }

    /// The first condition on a certificate that issues another that it does not meet, but for that
    /// on its mappings.
    pub(crate) fn first_of_issuer(&self, cert: &Cert<'a>) -> Option<Reason<OidRef<'a>>>
        ensures { (asked : ValidationInputs) (above : List CertPolicies)
            → MeetsBelow 13 (at asked self.now above (cert_in cert.now) false)
            → FindsBelow 16 (at asked self.now above (cert_in cert.now) false) result }
    {
        if !is_ca(cert) {
            return Some(Reason::NotCa);
        }
        if !self.may_go_on(cert) {
            return Some(Reason::PathLength);
        }
        if !may_sign(cert) {
            return Some(Reason::KeyUsage);
        }
        None
    }
}

// ---- 16: critical extensions

/// The first critical extension that is not processed, as a reason.
pub(crate) fn first_of_extensions<'a>(cert: &Cert<'a>) -> Option<Reason<OidRef<'a>>>
    ensures { (x : Site) → x.certificate ≡ cert_in cert.now
        → MeetsBelow 16 x → FindsBelow 17 x result }
{
    match first_refused(cert) {
        Some(oid) => Some(Reason::CriticalExtension(oid)),
        None => None,
    }
}

// ---- 17: the policies that are accepted. Condition 18 is `extensions::is_meant_for`.

impl<'a> State<'a> {
    /// explicit_policy at the end: it falls by one, and is 0 where the last certificate states
    /// requireExplicitPolicy as 0 (RFC 5280 6.1.5 (a), (b)).
    pub(crate) fn final_explicit(&self, cert: &Cert<'a>) -> u32
        ensures { result ≡ final_explicit_of self.now.counters.explicit_policy
            (explicit_policy_of (cert_in cert.now).tbsCertificate) }
    {
        match explicit_policy(cert) {
            Some(0) => 0,
            _ => self.counters.explicit_policy.saturating_sub(1),
        }
    }
}

/// Whether a policy is required at the end, and none is accepted.
pub(crate) fn accepts_none(explicit_policy: u32, accepted: &[OidRef<'_>]) -> bool
    ensures { IsTrue result ↔ ((explicit_policy ≡ 0)
        × (map (λ p. p.content.now) accepted.now ≡ [])) }
{
    explicit_policy == 0 && accepted.is_empty()
}
