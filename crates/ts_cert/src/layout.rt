//! Where the parts of a certificate begin.

ghost use Rattle.std.specs.Prelude.{◌≡◌, ◌≤◌, ◌++◌, List, false, drop, length, ℕ};
ghost use Rattle.ts_der.specs.Element.{Fits, encode};
ghost use Rattle.ts_der.specs.Reading.{begins_with};
ghost use Rattle.ts_cert.specs.Certificate.{Certificate};
ghost use Rattle.ts_cert.specs.Layout.{AreLaidOut};
ghost use Rattle.ts_cert.specs.Encoding.{IsCertificate};

use crate::optional_reading::{EXTENSIONS, ISSUER_UNIQUE_ID, SUBJECT_UNIQUE_ID};
use crate::version::{VERSION, Version};
use ts_der::Reader;

/// The offsets at which the parts of a certificate begin in its octets (RFC 5280 4.1), and the
/// version that it says. A part that is absent begins where the next does.
#[derive(Clone, Copy, Debug)]
pub(crate) struct Layout {
    pub version: Version,
    pub tbs: usize,
    pub serial_number: usize,
    pub signature: usize,
    pub issuer: usize,
    pub validity: usize,
    pub subject: usize,
    pub subject_public_key_info: usize,
    pub issuer_unique_id: usize,
    pub subject_unique_id: usize,
    pub extensions: usize,
    pub signature_algorithm: usize,
    pub signature_value: usize,
}

/// Where the content of the element begins that is at an offset; the offset itself, where none
/// does.
fn inside(octets: &[u8], at: usize) -> usize
    requires { at ≤ length octets.now }
    ensures within { result ≤ length octets.now }
    ensures begins { (tag : ℕ) (content rest : List ℕ) → Fits tag content
        → drop at octets.now ≡ encode tag content ++ rest
        → drop result octets.now ≡ content ++ rest }
{
    match Reader::at(octets, at).next() {
        Ok(element) => element.start,
        Err(_) => at,
    }
}

/// Where the element ends that is at an offset; the offset itself, where none does.
fn end_of(octets: &[u8], at: usize) -> usize
    requires { at ≤ length octets.now }
    ensures within { result ≤ length octets.now }
    ensures ends { (tag : ℕ) (content rest : List ℕ) → Fits tag content
        → drop at octets.now ≡ encode tag content ++ rest → drop result octets.now ≡ rest }
{
    let mut reader = Reader::at(octets, at);
    match reader.next() {
        Ok(_) => reader.offset(),
        Err(_) => at,
    }
}

/// Where the element of this tag ends that is at an offset; the offset itself, where none of this
/// tag is there.
fn end_if(octets: &[u8], at: usize, tag: u8) -> usize
    requires { at ≤ length octets.now }
    ensures within { result ≤ length octets.now }
    ensures present { (content rest : List ℕ) → Fits tag content
        → drop at octets.now ≡ encode tag content ++ rest → drop result octets.now ≡ rest }
    ensures absent { begins_with tag (drop at octets.now) ≡ false → result ≡ at }
{
    match octets[at..].first() {
        Some(first) if *first == tag => end_of(octets, at),
        _ => at,
    }
}

/// The layout of octets that are a certificate of this version.
pub(crate) fn layout_of(octets: &[u8], version: Version) -> Layout
    ensures { (c : Certificate) → IsCertificate octets.now c → c.tbsCertificate.version ≡ version
        → AreLaidOut octets.now result }
{
    let tbs = inside(octets, 0);
    let fields = inside(octets, tbs);
    let serial_number = end_if(octets, fields, VERSION);
    let signature = end_of(octets, serial_number);
    let issuer = end_of(octets, signature);
    let validity = end_of(octets, issuer);
    let subject = end_of(octets, validity);
    let subject_public_key_info = end_of(octets, subject);
    let issuer_unique_id = end_of(octets, subject_public_key_info);
    let subject_unique_id = end_if(octets, issuer_unique_id, ISSUER_UNIQUE_ID);
    let extensions = end_if(octets, subject_unique_id, SUBJECT_UNIQUE_ID);
    let signature_algorithm = end_if(octets, extensions, EXTENSIONS);
    let signature_value = end_of(octets, signature_algorithm);
    Layout {
        version,
        tbs,
        serial_number,
        signature,
        issuer,
        validity,
        subject,
        subject_public_key_info,
        issuer_unique_id,
        subject_unique_id,
        extensions,
        signature_algorithm,
        signature_value,
    }
}
