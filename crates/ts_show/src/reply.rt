//! The words for what nodes answer.

ghost use Rattle.std.specs.Prelude.{◌≡◌, ◌==◌, IfOk, find, string_bytes};
ghost use Rattle.ts_reason.specs.Printed.{reason_text};
ghost use Rattle.ts_shape.specs.Fault.{code_of};
ghost use Rattle.ts_show.specs.Words.{fault_name, found_words, invalid_words, malformed_words};
ghost use Rattle.ts_show.specs.Words.{not_yet_words, page_words, places_words, policies_words};
ghost use Rattle.ts_show.specs.Words.{reply_words, rule_of, valid_words};

use std::alloc::{AllocError, Global};
use ts_der::{DerFault, Oid};
use ts_question::{Oids, Reply};
use ts_reason::Reason;
use ts_shape::CertRule;
use ts_synod::NodeFault;

/// The name of a node's fault.
pub fn fault_name(fault: NodeFault) -> &'static str
    ensures { result.now ≡ fault_name fault }
{
    match fault {
        NodeFault::Memory => "Memory",
        NodeFault::DiskFailed => "DiskFailed",
        NodeFault::Broken => "Broken",
        NodeFault::RoundsExhausted => "RoundsExhausted",
        NodeFault::PositionsExhausted => "PositionsExhausted",
        NodeFault::GenerationsExhausted => "GenerationsExhausted",
    }
}

/// Why a chain is not valid, from a position on.
fn invalid_text(alloc: Global, position: u8, reason: &Reason<Oid>) -> Result<String, AllocError>
    ensures { IfOk result (λ text. string_bytes text
        ≡ invalid_words position (reason_text reason.now)) }
{
    let reason = reason.as_ref();
    format!(in alloc; "invalid {position} {reason}")
}

/// Policies in dotted form, each after a space.
fn policies_text(alloc: Global, policies: &[Oid]) -> Result<String, AllocError>
    ensures { IfOk result (λ text. string_bytes text ≡ policies_words policies.now) }
{
    let mut text = String::new(alloc);
    for policy in policies {
        let dotted = format!(in alloc; " {policy}")?;
        text.push_str(dotted.as_str())?;
    }
    Ok(text)
}

/// That a chain is valid, with the accepted policies, or `-` where there is none.
fn valid_text(alloc: Global, policies: &Oids) -> Result<String, AllocError>
    ensures { IfOk result (λ text. string_bytes text ≡ valid_words policies.now) }
{
    if policies.as_slice().is_empty() {
        return String::from_str(alloc, "valid -");
    }
    let policies = policies_text(alloc, policies.as_slice())?;
    format!(in alloc; "valid{policies}")
}

/// The rules that a certificate may break.
const RULES: [CertRule; 24] = [
    CertRule::Der(DerFault::Truncated),
    CertRule::Der(DerFault::HighTag),
    CertRule::Der(DerFault::Indefinite),
    CertRule::Der(DerFault::LongLength),
    CertRule::Der(DerFault::TooLarge),
    CertRule::Der(DerFault::WrongTag),
    CertRule::Der(DerFault::Trailing),
    CertRule::Der(DerFault::IntegerForm),
    CertRule::Der(DerFault::BooleanForm),
    CertRule::Der(DerFault::BitsForm),
    CertRule::Der(DerFault::NamedBits),
    CertRule::Der(DerFault::OidForm),
    CertRule::Der(DerFault::SetOrder),
    CertRule::Der(DerFault::DefaultEncoded),
    CertRule::Der(DerFault::TextForm),
    CertRule::Der(DerFault::TimeForm),
    CertRule::Der(DerFault::Empty),
    CertRule::AlgorithmMismatch,
    CertRule::DuplicateExtension,
    CertRule::Version,
    CertRule::ExtensionsInOldVersion,
    CertRule::SubtreeBounds,
    CertRule::DuplicatePolicy,
    CertRule::AddressLength,
];

/// The first of these rules that has this code.
fn rule_in(rules: &[CertRule], code: u8) -> Option<CertRule>
    ensures { result ≡ find (λ rule. code_of rule == code) rules.now }
{
    for rule in rules {
        if rule.code() == code {
            return Some(*rule);
        }
    }
    None
}

/// The rule of this code, if one has it.
fn rule_of(code: u8) -> Option<CertRule>
    ensures { result ≡ rule_of code }
{
    rule_in(&RULES, code)
}

/// Which part of a question can't be read, and the rule of this code that it breaks.
fn malformed_text(alloc: Global, index: u8, code: u8) -> Result<String, AllocError>
    ensures { IfOk result (λ text. string_bytes text ≡ malformed_words index code) }
{
    match rule_of(code) {
        Some(rule) => format!(in alloc; "Malformed {index} {rule}"),
        None => format!(in alloc; "Malformed {index} {code}"),
    }
}

/// A chain that was found, by the words for its anchor and its certificates.
///
/// # Errors
///
/// Out of memory.
pub fn found_text(
    alloc: Global,
    anchor: &str,
    places: &str,
    policies: &Oids,
) -> Result<String, AllocError>
    ensures { IfOk result (λ text. string_bytes text
        ≡ found_words anchor.now places.now policies.now) }
{
    let valid = valid_text(alloc, policies)?;
    format!(in alloc; "found {anchor}{places} {valid}")
}

/// A reply, with an anchor as 64 hexadecimal digits and places as numbers.
///
/// # Errors
///
/// Out of memory.
pub fn reply_text(alloc: Global, reply: &Reply) -> Result<String, AllocError>
    ensures { IfOk result (λ text. string_bytes text ≡ reply_words reply.now) }
{
    match reply {
        Reply::Valid { policies, .. } => valid_text(alloc, policies),
        Reply::Invalid { position, reason } => invalid_text(alloc, *position, reason),
        Reply::Found {
            anchor,
            places,
            policies,
        } => {
            let anchor = hex::encode(alloc, anchor.as_slice())?;
            let places = numbers_text(alloc, places.as_slice())?;
            found_text(alloc, anchor.as_str(), places.as_str(), policies)
        }
        Reply::NoPath => String::from_str(alloc, "NoPath"),
        Reply::SearchLimit => String::from_str(alloc, "SearchLimit"),
        Reply::NotYet { prefix } => not_yet_text(alloc, *prefix),
        Reply::Malformed { index, fault, .. } => malformed_text(alloc, *index, *fault),
        Reply::NoAnchor => String::from_str(alloc, "NoAnchor"),
        Reply::Limit => String::from_str(alloc, "Limit PolicyPaths"),
        Reply::Page { total, rows } => page_text(alloc, *total, rows.len()),
    }
}

/// How many rows a page has, of how many.
fn page_text(alloc: Global, total: u32, count: usize) -> Result<String, AllocError>
    ensures { IfOk result (λ text. string_bytes text ≡ page_words total count) }
{
    format!(in alloc; "Page {count} {total}")
}

/// That a node knows of so many commands alone.
///
/// # Errors
///
/// Out of memory.
pub fn not_yet_text(alloc: Global, prefix: u32) -> Result<String, AllocError>
    ensures { IfOk result (λ text. string_bytes text ≡ not_yet_words prefix) }
{
    format!(in alloc; "NotYet {prefix}")
}

/// Numbers, each after a space.
fn numbers_text(alloc: Global, numbers: &[u8]) -> Result<String, AllocError>
    ensures { IfOk result (λ text. string_bytes text ≡ places_words numbers.now) }
{
    let mut text = String::new(alloc);
    for number in numbers {
        let word = format!(in alloc; " {number}")?;
        text.push_str(word.as_str())?;
    }
    Ok(text)
}
