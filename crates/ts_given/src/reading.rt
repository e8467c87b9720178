//! Certificates and CRLs that are given are read. Nothing is copied.

ghost use Rattle.std.specs.Prelude.{◌≡◌, ◌++◌, None, length, map, IfOk, IfErr, OnOk};
ghost use Rattle.ts_cert.specs.CertView.{cert_in, certificate_in};
ghost use Rattle.ts_crl.specs.ListView.{crl_in};
ghost use Rattle.ts_given.specs.Given.{deltas_of, first_certificate, first_crl, if_complete};
ghost use Rattle.ts_given.specs.Given.{if_delta, lists_of, octets_of, SaysCertificate, SaysCrl};

use crate::fault::GivenFault;
use std::alloc::{AllocError, Global};
use ts_cert::Cert;
use ts_crl::Crl;

/// CRLs, each kind in its order.
#[derive(Drop)]
pub struct GivenCrls<'a> {
    /// The complete ones.
    pub lists: Vec<Crl<'a>>,
    /// The delta CRLs.
    pub deltas: Vec<Crl<'a>>,
}

/// The certificates that octets are, one for one.
///
/// # Errors
///
/// `Certificate` for the first that breaks a rule; `Memory`.
pub fn certificates_in<'a>(
    alloc: Global,
    all: &'a [Vec<u8>],
) -> Result<Vec<Cert<'a>>, GivenFault<'a>>
    ensures read { IfOk result (λ certificates.
        (first_certificate 1 (octets_of all.now) ≡ None)
        × (map cert_in certificates.items ≡ map certificate_in (octets_of all.now))) }
    ensures count { IfOk result (λ certificates. length certificates.items ≡ length all.now) }
    ensures fault { IfErr result (λ e. SaysCertificate e
        (first_certificate 1 (octets_of all.now))) }
{
    let mut certificates = Vec::new(alloc);
    for (i, octets) in all.iter().enumerate() {
        match Cert::read(octets.as_slice()) {
            Ok(cert) => certificates.push(cert)?,
            Err(fault) => return Err(GivenFault::Certificate {
                place: i + 1,
                fault,
            }),
        }
    }
    Ok(certificates)
}

/// Puts a CRL behind those of its kind.
fn keep<'a>(
    crl: Crl<'a>,
    lists: &mut Vec<Crl<'a>>,
    deltas: &mut Vec<Crl<'a>>,
) -> Result<(), AllocError>
    ensures lists { OnOk result (map crl_in lists.new.items
        ≡ map crl_in lists.old.items ++ if_complete (crl_in crl.entry)) }
    ensures deltas { OnOk result (map crl_in deltas.new.items
        ≡ map crl_in deltas.old.items ++ if_delta (crl_in crl.entry)) }
{
    if crl.is_delta() {
        deltas.push(crl)?;
    } else {
        lists.push(crl)?;
    }
    Ok(())
}

/// The complete CRLs, and the delta CRLs.
///
/// # Errors
///
/// `Crl` for the first octets that are no CRL which a store takes; `Memory`.
pub fn crls_in<'a>(alloc: Global, all: &'a [Vec<u8>]) -> Result<GivenCrls<'a>, GivenFault<'a>>
    ensures read { IfOk result (λ crls. (first_crl 1 (octets_of all.now) ≡ None)
        × (map crl_in crls.lists.items ≡ lists_of (octets_of all.now))
        × (map crl_in crls.deltas.items ≡ deltas_of (octets_of all.now))) }
    ensures fault { IfErr result (λ e. SaysCrl e (first_crl 1 (octets_of all.now))) }
{
    let mut lists = Vec::new(alloc);
    let mut deltas = Vec::new(alloc);
    for (i, octets) in all.iter().enumerate() {
        match Crl::read(octets.as_slice()) {
            Ok(crl) => keep(crl, &mut lists, &mut deltas)?,
            Err(fault) => return Err(GivenFault::Crl {
                place: i + 1,
                fault,
            }),
        }
    }
    Ok(GivenCrls { lists, deltas })
}
