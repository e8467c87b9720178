//! A walk along a chain, from the anchor's side.

ghost use Rattle.std.specs.Prelude.{◌≡◌, ◌+◌, [], ◌<◌, true, false, IfOk};
ghost use Rattle.ts_cert.specs.CertView.{cert_in};
ghost use Rattle.ts_path.specs.State.{state_at};
ghost use Rattle.ts_path.specs.View.{at};
ghost use Rattle.ts_path.specs.inside.Context.{asked_by};
ghost use Rattle.ts_path.specs.inside.Judging.{IsJudged, IsStep, IsEnd};

use crate::conditions::{accepts_none, first_of_extensions};
use crate::context::Context;
use crate::extensions::is_meant_for;
use crate::state::State;
use std::alloc::{AllocError, Global};
use ts_cert::Cert;
use ts_der::OidRef;
use ts_policy::Policies;
use ts_reason::Reason;
use ts_sig::SignatureCheck;

/// The state variables at a certificate, the valid policy tree among them.
#[derive(Drop)]
pub(crate) struct Walk<'a> {
    pub(crate) state: State<'a>,
    pub(crate) policies: Policies<'a>,
}

/// What the conditions up to that on the valid policy tree lead to.
#[derive(Drop)]
pub(crate) enum Judgement<'a> {
    /// The certificate meets them.
    Met(AfterPolicies<'a>),
    /// The first that it does not meet.
    Failed(Reason<OidRef<'a>>),
}

/// The state variables once the policies of a certificate are taken.
#[derive(Drop)]
pub(crate) struct AfterPolicies<'a> {
    pub(crate) state: State<'a>,
    pub(crate) policies: Policies<'a>,
    /// Whether a mapping of the certificate names anyPolicy.
    pub(crate) maps_any: bool,
}

/// What a certificate that is not the last leads to.
#[derive(Drop)]
pub(crate) enum Step<'a> {
    /// The state at the next certificate.
    Next(Walk<'a>),
    /// The first condition that the certificate does not meet.
    Stop(Reason<OidRef<'a>>),
}

/// What the last certificate leads to.
#[derive(Drop)]
pub(crate) enum End<'a> {
    /// The policies that are accepted.
    Accepted(Vec<OidRef<'a>>),
    /// The first condition that the certificate does not meet.
    Refused(Reason<OidRef<'a>>),
}

impl<'a> Walk<'a> {
    /// The walk before the first certificate of a chain of this length.
    pub(crate) fn start<S: SignatureCheck>(
        alloc: Global,
        context: &Context<'_, '_, 'a, S>,
        length: u8,
    ) -> Result<Walk<'a>, AllocError>
        ensures state { IfOk result (λ w. w.state
            ≡ state_at (asked_by S.accepts context.now) length []) }
        ensures policies { IfOk result
            (λ w. w.policies ≡ record { certificates = []; mapped = true }) }
    {
        Ok(Walk {
            state: State::start(alloc, context, length)?,
            policies: Policies::start(alloc)?,
        })
    }

    /// The position of the next certificate.
    pub(crate) fn position(&self) -> u8
        requires { self.now.state.passed < 255 }
        ensures { result ≡ self.now.state.passed + 1 }
    {
        self.state.position()
    }

    /// Passes a certificate that is not the last (RFC 5280 6.1.3, 6.1.4).
    pub(crate) fn pass<S: SignatureCheck>(
        self,
        alloc: Global,
        context: &Context<'_, '_, 'a, S>,
        cert: &Cert<'a>,
    ) -> Result<Step<'a>, AllocError>
        requires mapped { self.policies.mapped ≡ true }
        requires room { self.state.passed < 255 }
        ensures { IfOk result (IsStep (at (asked_by S.accepts context.now) self.entry.state
            self.entry.policies.certificates (cert_in cert.now) false)) }
    {
        let met = match self.judge(alloc, context, cert, false)? {
            Judgement::Met(met) => met,
            Judgement::Failed(reason) => return Ok(Step::Stop(reason)),
        };
        if met.maps_any {
            return Ok(Step::Stop(Reason::MapsAny));
        }
        if let Some(reason) = met.state.first_of_issuer(cert) {
            return Ok(Step::Stop(reason));
        }
        if let Some(reason) = first_of_extensions(cert) {
            return Ok(Step::Stop(reason));
        }
        let mut state = met.state;
        let policies = met.policies.map(alloc)?;
        state.advance(cert)?;
        Ok(Step::Next(Walk { state, policies }))
    }

    /// Ends at the last certificate (RFC 5280 6.1.3, 6.1.5).
    pub(crate) fn end<S: SignatureCheck>(
        self,
        alloc: Global,
        context: &Context<'_, '_, 'a, S>,
        cert: &Cert<'a>,
    ) -> Result<End<'a>, AllocError>
        requires { self.policies.mapped ≡ true }
        ensures { IfOk result (IsEnd (at (asked_by S.accepts context.now) self.entry.state
            self.entry.policies.certificates (cert_in cert.now) true)) }
    {
        let met = match self.judge(alloc, context, cert, true)? {
            Judgement::Met(met) => met,
            Judgement::Failed(reason) => return Ok(End::Refused(reason)),
        };
        if let Some(reason) = first_of_extensions(cert) {
            return Ok(End::Refused(reason));
        }
        let explicit = met.state.final_explicit(cert);
        let accepted = met.policies.finish(alloc, context.inputs.user_policies)?;
        if accepts_none(explicit, &accepted) {
            return Ok(End::Refused(Reason::FinalPolicy));
        }
        if !is_meant_for(context.inputs.purpose, cert) {
            return Ok(End::Refused(Reason::Purpose));
        }
        Ok(End::Accepted(accepted))
    }

    /// Judges the conditions up to that on the valid policy tree (RFC 5280 6.1.3).
    fn judge<S: SignatureCheck>(
        self,
        alloc: Global,
        context: &Context<'_, '_, 'a, S>,
        cert: &Cert<'a>,
        last: bool,
    ) -> Result<Judgement<'a>, AllocError>
        requires { self.policies.mapped ≡ true }
        ensures { IfOk result (IsJudged (at (asked_by S.accepts context.now) self.entry.state
            self.entry.policies.certificates (cert_in cert.now) last)) }
    {
        let state = self.state;
        if let Some(reason) = state.first_before_policies(context, cert, last) {
            return Ok(Judgement::Failed(reason));
        }
        let stated = state.policies_of(alloc, cert, last)?;
        let maps_any = stated.maps_any();
        let policies = self.policies.certificate(alloc, stated)?;
        if state.lacks_policy(&policies) {
            return Ok(Judgement::Failed(Reason::PolicyRequired));
        }
        Ok(Judgement::Met(AfterPolicies {
            state,
            policies,
            maps_any,
        }))
    }
}
