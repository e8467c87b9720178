//! What the benchmarks in `bench/` call: the readers of certificates and of CRLs and the check of
//! signatures, as a static library for programs that are not Rattle. No other crate depends on this
//! one.
//!
//! ```text
//! ts_bench_read(octets, length);                  // called from C, as the benchmark links it
//! ```
//!
//! A static library with four functions: `ts_bench_read` and `ts_bench_read_list` answer the
//! number of the first rule that octets break as a certificate or as a CRL, 0 where they break
//! none, and its place; `ts_bench_find` whether a CRL has an entry of a serial number;
//! `ts_bench_check` whether a signature is good. Not tested; the gate only proves it.
#![tactic(auto)]

ghost use Rattle.std.specs.Prelude.{◌≡◌, Some};
ghost use Rattle.ts_cert.specs.Table.{certificate_fault};
ghost use Rattle.ts_crl.specs.Fault.{fault_in};
ghost use Rattle.ts_crl.specs.Table.{crl_fault, crl_of};
ghost use Rattle.ts_bench.specs.Told.{rule_number, place_of, list_rule_number, list_place_of};
ghost use Rattle.ts_bench.specs.Told.{is_listed};
ghost use Rattle.ts_bench.specs.Keys.{key_with};
ghost use Rattle.ts_check.specs.Native.{native_accepts};

use ts_cert::Cert;
use ts_check::NativeCheck;
use ts_crl::{Crl, CrlFault};
use ts_der::Integer;
use ts_digest::Message;
use ts_sig::{SignatureCheck, WorkingKey};

/// What reading answered, in numbers.
#[repr(C)]
#[derive(Clone, Copy)]
pub struct Answer {
    /// The number of the first rule that is broken (`CertRule::code`), 0 where the octets are a
    /// certificate.
    pub rule: u8,
    /// The offset of what breaks it, in octets; 0 where nothing does.
    pub at: usize,
}

/// Reads octets as a certificate.
#[unsafe(no_mangle)]
pub extern "C" fn ts_bench_read(octets: &[u8]) -> Answer
    ensures rule { result.rule ≡ rule_number (certificate_fault octets.now) }
    ensures place { result.at ≡ place_of (certificate_fault octets.now) }
{
    match Cert::read(octets) {
        Ok(_) => Answer { rule: 0, at: 0 },
        Err(fault) => Answer {
            rule: fault.kind.code(),
            at: fault.at,
        },
    }
}

/// Where a list breaks a rule, 0 for a rule without a place.
fn place(fault: CrlFault<'_>) -> usize
    ensures { result ≡ list_place_of (Some (fault_in fault.entry)) }
{
    match fault {
        CrlFault::Broken(fault) => fault.at,
        _ => 0,
    }
}

/// Reads octets as a CRL.
#[unsafe(no_mangle)]
pub extern "C" fn ts_bench_read_list(octets: &[u8]) -> Answer
    ensures rule { result.rule ≡ list_rule_number (crl_fault octets.now) }
    ensures place { result.at ≡ list_place_of (crl_fault octets.now) }
{
    match Crl::read(octets) {
        Ok(_) => Answer { rule: 0, at: 0 },
        Err(fault) => Answer {
            rule: fault.code(),
            at: place(fault),
        },
    }
}

/// Whether octets, read as a list, have an entry of a serial number, which is given as the content
/// of its INTEGER.
#[unsafe(no_mangle)]
pub extern "C" fn ts_bench_find(octets: &[u8], serial: &[u8]) -> bool
    ensures { result ≡ is_listed serial.now (crl_of octets.now) }
{
    match Crl::read(octets) {
        Ok(crl) => crl.entry(Integer { octets: serial }).is_some(),
        Err(_) => false,
    }
}

/// Whether [`NativeCheck`] takes a signature. The algorithm is a whole AlgorithmIdentifier; of the
/// key there are the content of its algorithm's OBJECT IDENTIFIER, the whole element of its
/// parameters, which is empty where there are none, and its own octets.
#[unsafe(no_mangle)]
pub extern "C" fn ts_bench_check(
    algorithm: &[u8],
    key_algorithm: &[u8],
    key_parameters: &[u8],
    key: &[u8],
    signed: &[u8],
    signature: &[u8],
) -> bool
    ensures { result ≡ native_accepts algorithm.now
        (key_with key_algorithm.now key_parameters.now key.now) signed.now signature.now }
{
    let parameters = if key_parameters.is_empty() {
        None
    } else {
        Some(key_parameters)
    };
    let key = WorkingKey {
        algorithm: key_algorithm,
        parameters,
        octets: key,
    };
    NativeCheck.good(algorithm, &key, &Message::of(signed), signature)
}
