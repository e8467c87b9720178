//! What an X.509 certificate states of policies.

ghost use Rattle.std.specs.Prelude.{◌≡◌, ◌↔◌, IfOk, IsTrue, map, option_map};
ghost use Rattle.ts_name.specs.Sameness.{canon_name};
ghost use Rattle.ts_ext.specs.View.{policies_in as information_in, mappings_in};
ghost use Rattle.ts_cert.specs.CertView.{cert_in};
ghost use Rattle.ts_policy.specs.Certificates.{policies_in, mapping_in};
ghost use Rattle.ts_policy.specs.Stated.{identifiers, pairs, policies_of, mappings_of};

use crate::certificate::{Certificate, Mapping};
use std::alloc::{AllocError, Global};
use ts_cert::Cert;
use ts_der::OidRef;
use ts_ext::{CertificatePolicies, PolicyMappings};

impl<'a> Certificate<'a> {
    /// What certificate i of a path states, with the state variables at i.
    ///
    /// # Errors
    ///
    /// Out of memory.
    pub fn of(
        alloc: Global,
        cert: Cert<'a>,
        is_last: bool,
        inhibit_any_policy: u32,
        policy_mapping: u32,
    ) -> Result<Certificate<'a>, AllocError>
        ensures policies { IfOk result
            (λ c. (policies_in c).policies ≡ policies_of (cert_in cert.entry).tbsCertificate) }
        ensures mappings { IfOk result
            (λ c. (policies_in c).mappings ≡ mappings_of (cert_in cert.entry).tbsCertificate) }
        ensures self_issued { IfOk result (λ c. IsTrue c.self_issued
            ↔ (canon_name (cert_in cert.entry).tbsCertificate.issuer
            ≡ canon_name (cert_in cert.entry).tbsCertificate.subject)) }
        ensures is_last { IfOk result (λ c. c.is_last ≡ is_last) }
        ensures inhibit_any_policy { IfOk result (λ c. c.inhibit_any_policy ≡ inhibit_any_policy) }
        ensures policy_mapping { IfOk result (λ c. c.policy_mapping ≡ policy_mapping) }
    {
        let policies = stated_by(alloc, cert)?;
        let mappings = mapped_by(alloc, cert)?;
        Ok(Certificate {
            policies,
            mappings,
            self_issued: cert.is_self_issued(),
            is_last,
            inhibit_any_policy,
            policy_mapping,
        })
    }
}

/// The policies of a certificate's certificatePolicies; `None` where the extension is absent.
fn stated_by<'a>(alloc: Global, cert: Cert<'a>) -> Result<Option<Vec<OidRef<'a>>>, AllocError>
    ensures { IfOk result (λ r. option_map (λ v. map (λ p. p.content.now) v.items) r
        ≡ policies_of (cert_in cert.entry).tbsCertificate) }
{
    match cert.certificate_policies() {
        Some(policies) => Ok(Some(labels_of(alloc, policies)?)),
        None => Ok(None),
    }
}

/// Each policy's object identifier, in order.
fn labels_of<'a>(
    alloc: Global,
    policies: CertificatePolicies<'a>,
) -> Result<Vec<OidRef<'a>>, AllocError>
    ensures { IfOk result (λ v. map (λ p. p.content.now) v.items
        ≡ identifiers (information_in policies.entry)) }
{
    let mut labels = Vec::new(alloc);
    for policy in policies.iter() {
        labels.push(policy.policy_identifier)?;
    }
    Ok(labels)
}

/// The pairs of a certificate's policyMappings, none where the extension is absent.
fn mapped_by<'a>(alloc: Global, cert: Cert<'a>) -> Result<Vec<Mapping<'a>>, AllocError>
    ensures { IfOk result (λ v. map mapping_in v.items
        ≡ mappings_of (cert_in cert.entry).tbsCertificate) }
{
    match cert.policy_mappings() {
        Some(mappings) => {
            let pairs = pairs_of(alloc, mappings)?;
            Ok(pairs)
        }
        None => Ok(Vec::new(alloc)),
    }
}

/// The pairs of policyMappings, in order.
fn pairs_of<'a>(alloc: Global, mappings: PolicyMappings<'a>) -> Result<Vec<Mapping<'a>>, AllocError>
    ensures { IfOk result (λ v. map mapping_in v.items ≡ pairs (mappings_in mappings.entry)) }
{
    let mut pairs = Vec::new(alloc);
    for mapping in mappings.iter() {
        pairs.push(Mapping {
            issuer_domain: mapping.issuer_domain_policy,
            subject_domain: mapping.subject_domain_policy,
        })?;
    }
    Ok(pairs)
}
