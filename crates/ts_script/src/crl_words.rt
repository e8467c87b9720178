//! The words after the signer of a `crl` line, decoded.

ghost use Rattle.std.specs.Prelude.{◌≡◌, ◌≢◌, ◌++◌, ℕ, List, option_map, IfOk, IfErr, MatchOption};
ghost use Rattle.ts_ext.specs.declared.reason_code.ReasonCode.{ReasonCode};
ghost use Rattle.ts_make.specs.declared.crl_description.EntryText.{EntryText};
ghost use Rattle.ts_script.specs.declared.crl_words.CrlKeyword.{CrlKeyword};
ghost use Rattle.ts_script.specs.declared.script.LineFault.TheVariants.{Form};
ghost use Rattle.ts_script.specs.Pieces.{pieces_behind};
ghost use Rattle.ts_script.specs.Words.{RefusesWord};
ghost use Rattle.ts_script.specs.CrlLineWords.{CrlPart, crl_keyword_text, IsReason, IsEntry};
ghost use Rattle.ts_script.specs.CrlLineWords.{SaysCrl, IsCrlWord, AreCrlWords};
ghost use Rattle.ts_script.specs.inside.CrlParts.{crl_part, crl_parts};

use crate::script::LineFault;
use crate::values::{number_in, numbers_in, oid_in, text_in};
use crate::words::{SPACE, first_piece};
use std::alloc::Global;
use ts_der::Oid;
use ts_ext::ReasonCode;
use ts_literal::number_of_octets;
use ts_make::EntryText;

/// Stands between the serial number and the reason of an entry.
const COLON: u8 = b':';

/// What a word says, by what it begins with.
#[derive(Clone, Copy)]
pub enum CrlKeyword {
    /// revokedCertificates, one entry (RFC 5280 5.1.2.6).
    Entry,
    /// cRLNumber (RFC 5280 5.2.3).
    Number,
    /// deltaCRLIndicator (RFC 5280 5.2.4).
    Base,
    /// issuingDistributionPoint, onlySomeReasons (RFC 5280 5.2.5).
    Reasons,
    /// issuingDistributionPoint, one URI of its full name (RFC 5280 5.2.5).
    Uri,
    /// A critical extension that nobody knows.
    Critical,
}

impl CrlKeyword {
    /// The keyword with which a word begins, and the value after it.
    fn cut(word: &[u8]) -> Option<(CrlKeyword, &[u8])>
        ensures { MatchOption result
            ((keyword : CrlKeyword) (value : List ℕ) → word.now ≢ crl_keyword_text keyword ++ value)
            (λ found. word.now ≡ crl_keyword_text found.0 ++ found.1.now) }
    {
        if let Some(value) = word.strip_prefix(b"entry=") {
            Some((CrlKeyword::Entry, value))
        } else if let Some(value) = word.strip_prefix(b"number=") {
            Some((CrlKeyword::Number, value))
        } else if let Some(value) = word.strip_prefix(b"base=") {
            Some((CrlKeyword::Base, value))
        } else if let Some(value) = word.strip_prefix(b"reasons=") {
            Some((CrlKeyword::Reasons, value))
        } else if let Some(value) = word.strip_prefix(b"uri=") {
            Some((CrlKeyword::Uri, value))
        } else {
            Some((CrlKeyword::Critical, word.strip_prefix(b"critical=")?))
        }
    }
}

/// A word that says something of a CRL, decoded.
#[derive(Drop)]
pub enum CrlWord<'a> {
    Entry(EntryText),
    Number(u32),
    Base(u32),
    /// One or more reasons.
    Reasons(Vec<u32>),
    Uri(&'a str),
    Critical(Oid),
}

impl<'a> CrlWord<'a> {
    /// What a value says after a keyword.
    fn read_value(
        alloc: Global,
        keyword: CrlKeyword,
        value: &'a [u8],
    ) -> Result<CrlWord<'a>, LineFault>
        ensures found { IfOk result (λ word. SaysCrl keyword value.now (crl_part word)) }
        ensures fault { IfErr result (RefusesWord
            ((part : CrlPart) → ¬ (SaysCrl keyword value.now part))) }
    {
        match keyword {
            CrlKeyword::Entry => Ok(CrlWord::Entry(entry_in(value)?)),
            CrlKeyword::Number => Ok(CrlWord::Number(number_in(value)?)),
            CrlKeyword::Base => Ok(CrlWord::Base(number_in(value)?)),
            CrlKeyword::Reasons => Ok(CrlWord::Reasons(numbers_in(alloc, value)?)),
            CrlKeyword::Uri => Ok(CrlWord::Uri(text_in(value)?)),
            CrlKeyword::Critical => Ok(CrlWord::Critical(oid_in(alloc, value)?)),
        }
    }

    /// What a word says.
    fn read(alloc: Global, word: &'a [u8]) -> Result<CrlWord<'a>, LineFault>
        ensures found { IfOk result (λ said. IsCrlWord word.now (crl_part said)) }
        ensures fault { IfErr result
            (RefusesWord ((part : CrlPart) → ¬ (IsCrlWord word.now part))) }
    {
        let (keyword, value) = CrlKeyword::cut(word).ok_or(LineFault::Form)?;
        CrlWord::read_value(alloc, keyword, value)
    }
}

/// The reason whose number a value writes.
fn reason_of(value: &[u8]) -> Option<ReasonCode>
    ensures { MatchOption result ((reason : ReasonCode) → ¬ (IsReason value.now reason))
        (IsReason value.now) }
{
    match u8::try_from(number_of_octets(value)?) {
        Ok(number) => ReasonCode::of_number(number),
        // The number of a reason takes one octet.
        Err(_) => None,
    }
}

/// The entry that a value writes, as `SERIAL:REASON`.
fn entry_of(value: &[u8]) -> Option<EntryText>
    ensures { MatchOption result ((entry : EntryText) → ¬ (IsEntry value.now entry))
        (IsEntry value.now) }
{
    let (serial, rest) = first_piece(value, COLON);
    let (reason, rest) = first_piece(rest?, COLON);
    if rest.is_some() {
        return None;
    }
    let serial = number_of_octets(serial)?;
    let reason = reason_of(reason)?;
    Some(EntryText { serial, reason })
}

/// The entry that a value writes.
fn entry_in(value: &[u8]) -> Result<EntryText, LineFault>
    ensures found { IfOk result (IsEntry value.now) }
    ensures fault { IfErr result (RefusesWord ((entry : EntryText) → ¬ (IsEntry value.now entry))) }
    ensures form { IfErr result (λ fault. fault ≡ Form) }
{
    entry_of(value).ok_or(LineFault::Form)
}

/// What the words after the signer of a `crl` line say, one after another.
pub fn crl_words(alloc: Global, words: Option<&[u8]>) -> Result<Vec<CrlWord<'_>>, LineFault>
    ensures found { IfOk result (λ said. AreCrlWords
        (pieces_behind 32 (option_map (λ rest. rest.now) words.entry)) (crl_parts said.items)) }
    ensures fault { IfErr result (RefusesWord
        ((parts : List CrlPart) → ¬ (AreCrlWords
        (pieces_behind 32 (option_map (λ rest. rest.now) words.entry)) parts))) }
{
    let mut said = Vec::new(alloc);
    let mut rest = words;
    while let Some(left) = rest {
        let (word, behind) = first_piece(left, SPACE);
        said.push(CrlWord::read(alloc, word)?)?;
        rest = behind;
    }
    Ok(said)
}
