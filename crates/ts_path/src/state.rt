//! The state variables of path validation.

ghost use Rattle.std.specs.Prelude.{◌≡◌, ◌<◌, ◌+◌, IfOk, OnOk, []};
ghost use Rattle.ts_cert.specs.CertView.{cert_in};
ghost use Rattle.ts_path.specs.inside.Context.{asked_by};
ghost use Rattle.ts_path.specs.inside.Judging.{state_after};
ghost use Rattle.ts_path.specs.State.{state_at};

use crate::context::Context;
use crate::counters::Counters;
use crate::working_key::key_after;
use std::alloc::{AllocError, Global};
use std::marker::Model;
use ts_cert::Cert;
use ts_constraint::Bounds;
use ts_ext::KeyUsage;
use ts_name::Name;
use ts_revoke::own_key;
use ts_sig::{SignatureCheck, WorkingKey};

/// The state variables at a certificate (RFC 5280 6.1.2), without the valid policy tree.
#[derive(Drop)]
pub(crate) struct State<'a> {
    /// How many certificates are above.
    pub(crate) passed: u8,
    /// The subject of the certificate before, or of the anchor.
    pub(crate) name: Name<'a>,
    /// Its key.
    pub(crate) key: WorkingKey<'a>,
    /// What its key may be used for; that of an anchor is not looked at.
    pub(crate) usage: Option<KeyUsage<'a>>,
    pub(crate) bounds: Bounds<'a>,
    pub(crate) counters: Counters,
}

impl<'a> Model for State<'a> {
    ghost use Rattle.std.specs.Prelude.{option_map};
    ghost use Rattle.ts_der.specs.BitsView.{bits_in};
    ghost use Rattle.ts_name.specs.NameView.{rdns_in};
    ghost use Rattle.ts_sig.specs.Key.{key_of};
    ghost use Rattle.ts_path.specs.State.{PathState};

    ghost Value = { PathState };

    ghost view = { λ s. record {
      passed = s.passed;
      name = rdns_in s.name;
      key = key_of s.key;
      usage = option_map (λ u. bits_in u.bits) s.usage;
      sources = s.bounds;
      counters = s.counters;
    } };
}

impl<'a> State<'a> {
    /// The variables at the first certificate of a chain of this length.
    pub(crate) fn start<S: SignatureCheck>(
        alloc: Global,
        context: &Context<'_, '_, 'a, S>,
        length: u8,
    ) -> Result<Self, AllocError>
        ensures { IfOk result (λ s. s ≡ state_at (asked_by S.accepts context.now) length []) }
    {
        let (anchor, inputs) = (context.anchor, context.inputs);
        Ok(State {
            passed: 0,
            name: anchor.name,
            key: own_key(&anchor.key),
            usage: None,
            bounds: Bounds::initial(alloc, inputs.permitted_subtrees, inputs.excluded_subtrees)?,
            counters: Counters::start(length, inputs),
        })
    }

    /// The position of the certificate at which the variables are.
    pub(crate) fn position(&self) -> u8
        requires { self.now.passed < 255 }
        ensures { result ≡ self.now.passed + 1 }
    {
        self.passed + 1
    }

    /// Goes on to the certificate that follows this one (RFC 5280 6.1.4).
    pub(crate) fn advance(&mut self, cert: &Cert<'a>) -> Result<(), AllocError>
        requires { self.old.passed < 255 }
        ensures { OnOk result (self.new ≡ state_after self.old (cert_in cert.now)) }
    {
        self.bounds.narrow(cert)?;
        self.passed += 1;
        self.name = cert.subject();
        self.key = key_after(&self.key, &cert.subject_public_key_info());
        self.usage = cert.key_usage();
        self.counters = self.counters.after(cert);
        Ok(())
    }
}
