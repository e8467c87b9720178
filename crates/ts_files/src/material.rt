//! Certificates and CRLs in files, in PEM or DER.

ghost use Rattle.std.specs.Prelude.{◌≡◌, ◌≢◌, ◌∷◌, [], false, true, length, is_ok, IfOk, IfErr};
ghost use Rattle.ts_cert.specs.Reading.{certificate_of};
ghost use Rattle.ts_crl.specs.Table.{crl_of};

use crate::fault::TaskFault;
use crate::files::read_file;
use crate::kinds::say_other;
use std::alloc::Global;
use std::rt::Files;
use ts_cert::Cert;
use ts_crl::Crl;
use ts_pem::{PemFault, is_pem, read_certificates, read_crls};
use ts_shape::CertFault;
use ts_show::Kind;

/// What the text of a file holds, by blocks of PEM.
///
/// # Errors
///
/// `Field` where a block is broken, of which standard error says the line; `Memory`.
pub fn values_of(
    rt: &impl Eprint,
    path: &str,
    read: Result<Vec<Vec<u8>>, PemFault>,
) -> Result<Vec<Vec<u8>>, TaskFault> {
    match read {
        Ok(values) => Ok(values),
        Err(PemFault::OutOfMemory) => Err(TaskFault::Memory),
        Err(fault) => {
            let _ = eprintln!(rt; "trustd: {path}: {fault}");
            Err(TaskFault::Field)
        }
    }
}

/// The certificates of a file: those of the blocks of PEM, else one, the file's octets, which are
/// not looked at.
///
/// # Errors
///
/// Those of the file; `Field` where a block is broken.
pub fn certificates_of<R: Files + Eprint>(
    rt: &R,
    alloc: Global,
    path: &str,
) -> Result<Vec<Vec<u8>>, TaskFault> {
    any_values_in(rt, alloc, path, Kind::Certificate)
}

/// The certificates, or the CRLs, of the octets of a file.
fn values_read(
    rt: &impl Eprint,
    alloc: Global,
    path: &str,
    wanted: Kind,
    octets: &[u8],
) -> Result<Vec<Vec<u8>>, TaskFault> {
    let read = match wanted {
        Kind::List => read_crls(alloc, octets),
        _ => read_certificates(alloc, octets),
    };
    values_of(rt, path, read)
}

/// The certificates, or the CRLs, of a file, whatever it holds.
fn any_values_in<R: Files + Eprint>(
    rt: &R,
    alloc: Global,
    path: &str,
    wanted: Kind,
) -> Result<Vec<Vec<u8>>, TaskFault> {
    let octets = read_file(rt, alloc, path)?;
    values_read(rt, alloc, path, wanted, &octets)
}

/// The certificates, or the CRLs, of a file. Of one that has none standard error says what it
/// holds.
///
/// # Errors
///
/// Those of [`octets_of`].
pub fn values_in<R: Files + Eprint>(
    rt: &R,
    alloc: Global,
    path: &str,
    wanted: Kind,
) -> Result<Vec<Vec<u8>>, TaskFault> {
    let octets = read_file(rt, alloc, path)?;
    let values = values_read(rt, alloc, path, wanted, &octets)?;
    if values.is_empty() || !is_pem(&octets) {
        let is_other = say_other(rt, alloc, path, wanted, &octets)?;
        if is_other || values.is_empty() {
            return Err(TaskFault::Field);
        }
    }
    Ok(values)
}

/// The octets of all certificates, or of all CRLs, of some files.
///
/// # Errors
///
/// Those of [`certificates_of`]; `Field` where a file has none, or is known to be of another kind,
/// which standard error says.
pub fn octets_of<R: Files + Eprint>(
    rt: &R,
    alloc: Global,
    files: &[String],
    wanted: Kind,
) -> Result<Vec<Vec<u8>>, TaskFault> {
    let mut found = Vec::new(alloc);
    for file in files {
        for value in values_in(rt, alloc, file.as_str(), wanted)? {
            found.push(value)?;
        }
    }
    Ok(found)
}

/// The one value of a file that is to have one.
fn single(rt: &impl Eprint, path: &str, mut values: Vec<Vec<u8>>) -> Result<Vec<u8>, TaskFault>
    ensures one { IfOk result (λ value. values.items ≡ value ∷ []) }
    ensures several { IfErr result (λ _. length values.items ≢ 1) }
{
    let count = values.len();
    match values.pop() {
        Some(value) if count == 1 => Ok(value),
        _ => {
            let _ = eprintln!(rt; "trustd: {path}: holds {count} of them, where one is wanted");
            Err(TaskFault::Field)
        }
    }
}

/// The one certificate, or the one CRL, of a file. Where it is forced, the file may be anything.
fn one_in<R: Files + Eprint>(
    rt: &R,
    alloc: Global,
    path: &str,
    wanted: Kind,
    force: bool,
) -> Result<Vec<u8>, TaskFault> {
    let values = if force {
        any_values_in(rt, alloc, path, wanted)?
    } else {
        values_in(rt, alloc, path, wanted)?
    };
    single(rt, path, values)
}

/// Says why a file's octets are refused, with the rule and its offset.
fn refuse(rt: &impl Eprint, path: &str, what: &str, fault: CertFault) -> TaskFault {
    let (rule, at) = (fault.kind, fault.at);
    let _ = eprintln!(rt;
        "trustd: {path}: no {what}: {rule} at {at} (trustd command --force takes it)"
    );
    TaskFault::Field
}

/// The one certificate of a file. Unless it is forced, it is one by each rule.
///
/// # Errors
///
/// Those of [`values_in`]; `Field` where the file has several, or a rule is broken.
pub fn certificate_of<R: Files + Eprint>(
    rt: &R,
    alloc: Global,
    path: &str,
    force: bool,
) -> Result<Vec<u8>, TaskFault>
    ensures { IfOk result (λ octets. force ≡ false → is_ok (certificate_of octets.items) ≡ true) }
{
    let octets = one_in(rt, alloc, path, Kind::Certificate, force)?;
    if force {
        return Ok(octets);
    }
    match Cert::read(&octets) {
        Ok(_) => {}
        Err(fault) => return Err(refuse(rt, path, "certificate", fault)),
    }
    Ok(octets)
}

/// Whether octets are a certificate by each rule; standard error says which one is broken.
pub fn is_certificate(rt: &impl Eprint, path: &str, octets: &[u8]) -> bool
    ensures { result ≡ is_ok (certificate_of octets.now) }
{
    match Cert::read(octets) {
        Ok(_) => true,
        Err(fault) => {
            let (rule, at) = (fault.kind, fault.at);
            let _ = eprintln!(rt; "trustd: {path}: no certificate: {rule} at {at}");
            false
        }
    }
}

/// Whether octets are a CRL; standard error says why not.
fn is_crl(rt: &impl Eprint, path: &str, octets: &[u8]) -> bool
    ensures { result ≡ is_ok (crl_of octets.now) }
{
    match Crl::read(octets) {
        Ok(_) => true,
        Err(_) => {
            let _ = eprintln!(rt;
                "trustd: {path}: no CRL that a store takes (trustd command --force takes it)"
            );
            false
        }
    }
}

/// The one CRL of a file. Unless it is forced, it is one by each rule.
///
/// # Errors
///
/// Those of [`values_in`]; `Field` where the file has several, or a rule is broken.
pub fn crl_of<R: Files + Eprint>(
    rt: &R,
    alloc: Global,
    path: &str,
    force: bool,
) -> Result<Vec<u8>, TaskFault>
    ensures { IfOk result (λ octets. force ≡ false → is_ok (crl_of octets.items) ≡ true) }
{
    let octets = one_in(rt, alloc, path, Kind::List, force)?;
    if force || is_crl(rt, path, &octets) {
        return Ok(octets);
    }
    Err(TaskFault::Field)
}
