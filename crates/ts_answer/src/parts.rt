//! The parts of a question are read: its initial subtrees, its certificates and its policies.
//! Nothing is copied.

ghost use Rattle.std.specs.Prelude.{◌≡◌, ◌≤◌, None, length, map, option_map, IfOk, IfErr};
ghost use Rattle.ts_name.specs.SubtreeView.{subtree_in};
ghost use Rattle.ts_name.specs.SubtreeTable.{constraint_fault};
ghost use Rattle.ts_cert.specs.CertView.{cert_in, certificate_in};
ghost use Rattle.ts_cert.specs.Table.{certificate_fault};
ghost use Rattle.ts_constraint.specs.View.{bases_in};
ghost use Rattle.ts_answer.specs.Parts.{subtree_base, unreadable, first_subtree, first_certificate};
ghost use Rattle.ts_answer.specs.Parts.{first_part};
ghost use Rattle.ts_answer.specs.inside.View.{AreParts, Says};

use crate::fault::PartFault;
use std::alloc::{AllocError, Global};
use ts_cert::Cert;
use ts_der::{Oid, OidRef};
use ts_name::Subtree;
use ts_question::{OctetStrings, Terms};

/// The parts of a question, as they lie in it.
#[derive(Drop)]
pub(crate) struct Parts<'a> {
    pub permitted: Vec<Subtree<'a>>,
    pub excluded: Vec<Subtree<'a>>,
    pub certificates: Vec<Cert<'a>>,
    pub policies: Vec<OidRef<'a>>,
}

/// An initial subtree.
fn subtree_of(octets: &[u8]) -> Result<Subtree<'_>, PartFault>
    ensures read { IfOk result (λ subtree. (constraint_fault octets.now ≡ None)
        × ((subtree_in subtree).base ≡ subtree_base octets.now)) }
    ensures fault { IfErr result (λ fault. Says fault
        (option_map (unreadable 0) (constraint_fault octets.now))) }
{
    match Subtree::read(octets) {
        Ok(subtree) => Ok(subtree),
        Err(fault) => Err(PartFault::Unreadable { index: 0, fault }),
    }
}

/// Initial subtrees of one kind.
fn subtrees_of(alloc: Global, strings: &[Vec<u8>]) -> Result<Vec<Subtree<'_>>, PartFault>
    ensures read { IfOk result (λ subtrees. (first_subtree (map (λ s. s.items) strings.now) ≡ None)
        × (bases_in subtrees.items ≡ map subtree_base (map (λ s. s.items) strings.now))) }
    ensures fault { IfErr result (λ fault. Says fault
        (first_subtree (map (λ s. s.items) strings.now))) }
{
    let mut subtrees = Vec::new(alloc);
    for octets in strings {
        let subtree = subtree_of(octets.as_slice())?;
        subtrees.push(subtree)?;
    }
    Ok(subtrees)
}

/// A certificate of this place.
fn certificate_of(octets: &[u8], place: u8) -> Result<Cert<'_>, PartFault>
    ensures read { IfOk result (λ cert. (certificate_fault octets.now ≡ None)
        × (cert_in cert ≡ certificate_in octets.now)) }
    ensures fault { IfErr result (λ fault. Says fault
        (option_map (unreadable place) (certificate_fault octets.now))) }
{
    match Cert::read(octets) {
        Ok(cert) => Ok(cert),
        Err(fault) => Err(PartFault::Unreadable {
            index: place,
            fault,
        }),
    }
}

/// The certificates, whose places count from 1.
fn certificates_of(alloc: Global, strings: &[Vec<u8>]) -> Result<Vec<Cert<'_>>, PartFault>
    requires { length strings.now ≤ 33 }
    ensures read { IfOk result (λ certificates.
        (first_certificate 1 (map (λ s. s.items) strings.now) ≡ None)
        × (map cert_in certificates.items ≡ map certificate_in (map (λ s. s.items) strings.now))) }
    ensures fault { IfErr result (λ fault. Says fault
        (first_certificate 1 (map (λ s. s.items) strings.now))) }
{
    let mut certificates = Vec::new(alloc);
    for octets in strings {
        let place = certificates.len() as u8 + 1;
        let cert = certificate_of(octets.as_slice(), place)?;
        certificates.push(cert)?;
    }
    Ok(certificates)
}

/// Policies, borrowed.
fn policies_of(alloc: Global, oids: &[Oid]) -> Result<Vec<OidRef<'_>>, AllocError>
    ensures { IfOk result (λ policies. map (λ p. p.content.now) policies.items ≡ oids.now) }
{
    let mut policies = Vec::new(alloc);
    for oid in oids {
        policies.push(oid.as_ref())?;
    }
    Ok(policies)
}

/// The parts of a question, or the first that can't be read.
#[tactic(auto, unfolding(crate::specs::Parts::first_part))]
pub(crate) fn read_parts<'a>(
    alloc: Global,
    terms: &'a Terms,
    certificates: &'a OctetStrings,
) -> Result<Parts<'a>, PartFault>
    requires { length certificates.now ≤ 33 }
    ensures read { IfOk result (λ parts. (first_part terms.now certificates.now ≡ None)
        × AreParts terms.now certificates.now parts) }
    ensures fault { IfErr result (λ fault. Says fault (first_part terms.now certificates.now)) }
{
    let permitted = subtrees_of(alloc, terms.permitted_subtrees.as_slice())?;
    let excluded = subtrees_of(alloc, terms.excluded_subtrees.as_slice())?;
    let certificates = certificates_of(alloc, certificates.as_slice())?;
    let policies = policies_of(alloc, terms.user_policies.as_slice())?;
    Ok(Parts {
        permitted,
        excluded,
        certificates,
        policies,
    })
}
