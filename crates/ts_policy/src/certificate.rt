//! What a certificate states of policies.

ghost use Rattle.std.specs.Prelude.{◌≡◌, ◌↔◌, false, map};
ghost use Rattle.ts_policy.specs.Paths.{policies_stated, any_counts, MapsNoAny};
ghost use Rattle.ts_policy.specs.Certificates.{policies_in, maps_any_of};

use crate::labels::is_any;
use ts_der::OidRef;

/// A mapping (RFC 5280 4.2.1.5): two policies by their object identifiers.
#[derive(Clone, Copy)]
pub struct Mapping<'a> {
    /// The policy of the issuer's domain.
    pub issuer_domain: OidRef<'a>,
    /// The policy of the subject's domain.
    pub subject_domain: OidRef<'a>,
}

/// What certificate i of a path of n certificates states of policies, and the state variables at it
/// (RFC 5280 6.1.2).
#[derive(Drop)]
pub struct Certificate<'a> {
    /// The policies of certificatePolicies; `None` where the extension is absent.
    pub policies: Option<Vec<OidRef<'a>>>,
    /// The pairs of policyMappings, none where the extension is absent.
    pub mappings: Vec<Mapping<'a>>,
    /// Whether issuer and subject are one name.
    pub self_issued: bool,
    /// Whether i is n.
    pub is_last: bool,
    /// inhibit_anyPolicy at i.
    pub inhibit_any_policy: u32,
    /// policy_mapping at i.
    pub policy_mapping: u32,
}

impl<'a> Certificate<'a> {
    /// Whether a mapping names anyPolicy, which no certificate may have but the last (RFC 5280
    /// 6.1.4 (a)).
    pub fn maps_any(&self) -> bool
        ensures { (result ≡ false) ↔ MapsNoAny (policies_in self.now) }
    {
        names_any(&self.mappings)
    }

    /// The policies that the certificate states.
    pub(crate) fn stated(&self) -> &[OidRef<'a>]
        ensures { map (λ x. x.content.now) result.now ≡ policies_stated (policies_in self.now) }
    {
        match &self.policies {
            Some(policies) => policies.as_slice(),
            None => &[],
        }
    }

    /// Whether anyPolicy, if it is stated, counts: it does while it is not inhibited, and in a
    /// self-issued certificate before the last (RFC 5280 6.1.3 (d) (2)).
    pub(crate) fn any_counts(&self) -> bool
        ensures { result ≡ any_counts (policies_in self.now) }
    {
        0 < self.inhibit_any_policy || (!self.is_last && self.self_issued)
    }
}

/// Whether a mapping has anyPolicy on either side.
fn names_any(mappings: &[Mapping<'_>]) -> bool
    ensures { result ≡ maps_any_of mappings.now }
{
    mappings
        .iter()
        .any(|m| is_any(m.issuer_domain) || is_any(m.subject_domain))
}
