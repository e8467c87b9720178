//! What octets hold.

ghost use Rattle.std.specs.Prelude.{◌≡◌, true, false, IfOk};
ghost use Rattle.ts_show.specs.Kind.{BeginsRecord, AreCertificate, AreList, AreCommand};
ghost use Rattle.ts_show.specs.Kind.{AreQuestion, BeginSequence, IsKind, word_of};

use std::alloc::{AllocError, Global};
use ts_cert::Cert;
use ts_command::Command;
use ts_crl::Crl;
use ts_question::Question;

/// What octets hold.
#[derive(Clone, Copy, Debug, PartialEq, Eq)]
pub enum Kind {
    /// The first disk of a node's record.
    Record,
    /// A certificate (RFC 5280 4.1).
    Certificate,
    /// A CRL (RFC 5280 5.1).
    List,
    /// A command of a trust store.
    Command,
    /// A question.
    Question,
    /// None of these, and a SEQUENCE begins there, as one does of a certificate and of a list.
    Broken,
    /// None of these.
    Unknown,
}

impl Kind {
    /// The word for a kind.
    pub fn word(self) -> &'static str
        ensures { result.now ≡ word_of self }
    {
        match self {
            Kind::Record => "record",
            Kind::Certificate => "certificate",
            Kind::List => "list",
            Kind::Command => "command",
            Kind::Question => "question",
            Kind::Broken => "broken",
            Kind::Unknown => "unknown",
        }
    }
}

/// Whether octets begin with the five octets that a record begins with.
fn begins_record(octets: &[u8]) -> bool
    ensures yes { result ≡ true → BeginsRecord octets.now }
    ensures no { result ≡ false → BeginsRecord octets.now → ⊥ }
{
    matches!(octets, [0x54, 0x53, 0x52, 0x45, 0x43, ..])
}

/// Whether octets begin with the tag of a SEQUENCE.
fn begins_sequence(octets: &[u8]) -> bool
    ensures yes { result ≡ true → BeginSequence octets.now }
    ensures no { result ≡ false → BeginSequence octets.now → ⊥ }
{
    matches!(octets, [0x30, ..])
}

/// Whether octets are a certificate.
fn are_certificate(octets: &[u8]) -> bool
    ensures yes { result ≡ true → AreCertificate octets.now }
    ensures no { result ≡ false → AreCertificate octets.now → ⊥ }
{
    Cert::read(octets).is_ok()
}

/// Whether octets are a CRL.
fn are_list(octets: &[u8]) -> bool
    ensures yes { result ≡ true → AreList octets.now }
    ensures no { result ≡ false → AreList octets.now → ⊥ }
{
    Crl::read(octets).is_ok()
}

/// Whether octets are the encoding of a command.
fn are_command(alloc: Global, octets: &[u8]) -> Result<bool, AllocError>
    ensures yes { IfOk result (λ are. are ≡ true → AreCommand octets.now) }
    ensures no { IfOk result (λ are. are ≡ false → AreCommand octets.now → ⊥) }
{
    let command = Command::read(alloc, octets)?;
    Ok(command.is_some())
}

/// Whether octets are the encoding of a question.
fn are_question(alloc: Global, octets: &[u8]) -> Result<bool, AllocError>
    ensures yes { IfOk result (λ are. are ≡ true → AreQuestion octets.now) }
    ensures no { IfOk result (λ are. are ≡ false → AreQuestion octets.now → ⊥) }
{
    match Question::read(alloc, octets)? {
        Some(_) => Ok(true),
        None => Ok(false),
    }
}

/// What octets hold: the first of a record, a certificate, a CRL, a command and a question that
/// they are, a record by its first five octets alone.
///
/// # Errors
///
/// Out of memory.
pub fn kind_of(alloc: Global, octets: &[u8]) -> Result<Kind, AllocError>
    ensures { IfOk result (IsKind octets.now) }
{
    if begins_record(octets) {
        return Ok(Kind::Record);
    }
    if are_certificate(octets) {
        return Ok(Kind::Certificate);
    }
    if are_list(octets) {
        return Ok(Kind::List);
    }
    if are_command(alloc, octets)? {
        return Ok(Kind::Command);
    }
    if are_question(alloc, octets)? {
        return Ok(Kind::Question);
    }
    if begins_sequence(octets) {
        return Ok(Kind::Broken);
    }
    Ok(Kind::Unknown)
}
