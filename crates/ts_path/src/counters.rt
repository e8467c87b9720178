//! The counters of path validation.

ghost use Rattle.std.specs.Prelude.{◌≡◌, ◌<◌, ◌-◌};
ghost use Rattle.ts_cert.specs.CertView.{cert_in};
ghost use Rattle.ts_path.specs.Counters.{counted};
ghost use Rattle.ts_path.specs.Extensions.{path_length_of, explicit_policy_of};
ghost use Rattle.ts_path.specs.Extensions.{inhibit_policy_mapping_of};
ghost use Rattle.ts_path.specs.Extensions.{any_policy_of};
ghost use Rattle.ts_path.specs.inside.Judging.{lowered, counters_after};
ghost use Rattle.ts_path.specs.State.{start};

use crate::inputs::Inputs;
use crate::self_issued::is_self_issued;
use ts_cert::Cert;

/// explicit_policy, policy_mapping, inhibit_anyPolicy and max_path_length (RFC 5280 6.1.2 (d), (f),
/// (e), (k)).
#[derive(Clone, Copy)]
pub(crate) struct Counters {
    pub(crate) explicit_policy: u32,
    pub(crate) policy_mapping: u32,
    pub(crate) inhibit_any_policy: u32,
    pub(crate) max_path_length: u32,
}

impl Counters {
    /// The counters at the first of some certificates.
    pub(crate) fn start(length: u8, inputs: &Inputs<'_>) -> Counters
        ensures explicit_policy { result.explicit_policy ≡ start length inputs.now.explicit_policy }
        ensures policy_mapping { result.policy_mapping
            ≡ start length inputs.now.inhibit_policy_mapping }
        ensures inhibit_any_policy { result.inhibit_any_policy
            ≡ start length inputs.now.inhibit_any_policy }
        ensures max_path_length { result.max_path_length ≡ length }
    {
        Counters {
            explicit_policy: start_of(length, inputs.explicit_policy),
            policy_mapping: start_of(length, inputs.inhibit_policy_mapping),
            inhibit_any_policy: start_of(length, inputs.inhibit_any_policy),
            max_path_length: u32::from(length),
        }
    }

    /// The counters at the certificate that follows this one (RFC 5280 6.1.4 (h) to (j), (l), (m)).
    pub(crate) fn after(self, cert: &Cert<'_>) -> Counters
        ensures { result ≡ counters_after self (cert_in cert.now) }
    {
        let count = counted_as(cert);
        Counters {
            explicit_policy: next(self.explicit_policy, count, explicit_policy(cert)),
            policy_mapping: next(self.policy_mapping, count, policy_mapping(cert)),
            inhibit_any_policy: next(self.inhibit_any_policy, count, any_policy(cert)),
            max_path_length: next(self.max_path_length, count, path_length(cert)),
        }
    }
}

/// Where a counter of policies starts: at 0 if its flag is set, else where it does not reach 0.
fn start_of(length: u8, flag: bool) -> u32
    ensures { result ≡ start length flag }
{
    if flag { 0 } else { u32::from(length) + 1 }
}

/// What a certificate takes from the counters: nothing if it is self-issued, else one.
fn counted_as(cert: &Cert<'_>) -> u32
    ensures { result ≡ counted (cert_in cert.now) }
{
    if is_self_issued(cert) { 0 } else { 1 }
}

/// A counter that falls, not below zero, and is then lowered to a bound.
fn next(counter: u32, count: u32, bound: Option<u32>) -> u32
    ensures { result ≡ lowered (counter - count) bound }
{
    let left = counter.saturating_sub(count);
    match bound {
        Some(bound) => bound.min(left),
        None => left,
    }
}

/// requireExplicitPolicy (RFC 5280 4.2.1.11).
pub(crate) fn explicit_policy(cert: &Cert<'_>) -> Option<u32>
    ensures { result ≡ explicit_policy_of (cert_in cert.now).tbsCertificate }
{
    cert.policy_constraints()?.require_explicit_policy
}

/// inhibitPolicyMapping (RFC 5280 4.2.1.11).
fn policy_mapping(cert: &Cert<'_>) -> Option<u32>
    ensures { result ≡ inhibit_policy_mapping_of (cert_in cert.now).tbsCertificate }
{
    cert.policy_constraints()?.inhibit_policy_mapping
}

/// inhibitAnyPolicy (RFC 5280 4.2.1.14).
fn any_policy(cert: &Cert<'_>) -> Option<u32>
    ensures { result ≡ any_policy_of (cert_in cert.now).tbsCertificate }
{
    Some(cert.inhibit_any_policy()?.0)
}

/// pathLenConstraint (RFC 5280 4.2.1.9).
fn path_length(cert: &Cert<'_>) -> Option<u32>
    ensures { result ≡ path_length_of (cert_in cert.now).tbsCertificate }
{
    cert.basic_constraints()?.path_len_constraint
}
