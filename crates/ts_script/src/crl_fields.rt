//! The fields of a CRL, gathered from words.

ghost use Rattle.std.specs.Prelude.{◌≡◌, ◌≢◌, ℕ, Option, map, IfOk, IfErr};
ghost use Rattle.std.specs.List.{flat_map};
ghost use Rattle.ts_make.specs.Told.{list_of};
ghost use Rattle.ts_script.specs.Words.{RefusesWord};
ghost use Rattle.ts_script.specs.declared.script.LineFault.TheVariants.{Form};
ghost use Rattle.ts_script.specs.CrlLineWords.{Fields, Gather, entry_said, number_said, base_said};
ghost use Rattle.ts_script.specs.CrlLineWords.{reasons_said, uri_said, critical_said};
ghost use Rattle.ts_script.specs.inside.CrlParts.{crl_part, crl_parts, fields_in};

use crate::crl_words::CrlWord;
use crate::script::LineFault;
use std::alloc::{AllocError, Global};
use ts_der::OidRef;
use ts_make::EntryText;

/// What words say of a CRL, each part in its field.
#[derive(Drop)]
pub struct CrlFields<'a> {
    pub entries: Vec<EntryText>,
    pub number: Option<u32>,
    pub base: Option<u32>,
    pub reasons: Vec<u32>,
    pub uris: Vec<&'a str>,
    pub critical: Vec<OidRef<'a>>,
}

impl<'a> CrlFields<'a> {
    /// Those of these words.
    pub fn gather(alloc: Global, words: &'a [CrlWord<'a>]) -> Result<CrlFields<'a>, LineFault>
        ensures found { IfOk result (λ fields. Gather (crl_parts words.now) (fields_in fields)) }
        ensures fault { IfErr result (RefusesWord
            ((fields : Fields) → ¬ (Gather (crl_parts words.now) fields))) }
    {
        let number = number_in(words)?;
        let base = base_in(words)?;
        Ok(CrlFields {
            entries: entries_in(alloc, words)?,
            number,
            base,
            reasons: reasons_in(alloc, words)?,
            uris: uris_in(alloc, words)?,
            critical: critical_in(alloc, words)?,
        })
    }
}

/// The number that words say, of which at most one may.
fn number_in(words: &[CrlWord<'_>]) -> Result<Option<u32>, LineFault>
    ensures found { IfOk result (λ number. list_of number
        ≡ flat_map number_said (crl_parts words.now)) }
    ensures fault { IfErr result (λ fault. (fault ≡ Form)
        × ((number : Option ℕ) → list_of number ≢ flat_map number_said (crl_parts words.now))) }
{
    let mut found = None;
    for word in words {
        if let CrlWord::Number(number) = word {
            if found.is_some() {
                return Err(LineFault::Form);
            }
            found = Some(*number);
        }
    }
    Ok(found)
}

/// The base number that words say, of which at most one may.
fn base_in(words: &[CrlWord<'_>]) -> Result<Option<u32>, LineFault>
    ensures found { IfOk result (λ base. list_of base ≡ flat_map base_said (crl_parts words.now)) }
    ensures fault { IfErr result (λ fault. (fault ≡ Form)
        × ((base : Option ℕ) → list_of base ≢ flat_map base_said (crl_parts words.now))) }
{
    let mut base = None;
    for word in words {
        if let CrlWord::Base(number) = word {
            if base.is_some() {
                return Err(LineFault::Form);
            }
            base = Some(*number);
        }
    }
    Ok(base)
}

/// The entries that words say.
fn entries_in(alloc: Global, words: &[CrlWord<'_>]) -> Result<Vec<EntryText>, AllocError>
    ensures { IfOk result (λ entries. entries.items ≡ flat_map entry_said (crl_parts words.now)) }
{
    let mut entries = Vec::new(alloc);
    for word in words {
        if let CrlWord::Entry(entry) = word {
            entries.push(*entry)?;
        }
    }
    Ok(entries)
}

/// The reasons that words say.
fn reasons_in(alloc: Global, words: &[CrlWord<'_>]) -> Result<Vec<u32>, AllocError>
    ensures { IfOk result (λ reasons. reasons.items ≡ flat_map reasons_said (crl_parts words.now)) }
{
    let mut reasons = Vec::new(alloc);
    for word in words {
        if let CrlWord::Reasons(numbers) = word {
            reasons.extend_from_slice(numbers)?;
        }
    }
    Ok(reasons)
}

/// The URIs that words say.
fn uris_in<'a>(alloc: Global, words: &'a [CrlWord<'a>]) -> Result<Vec<&'a str>, AllocError>
    ensures { IfOk result (λ uris. map (λ uri. uri.now) uris.items
        ≡ flat_map uri_said (crl_parts words.now)) }
{
    let mut uris = Vec::new(alloc);
    for word in words {
        if let CrlWord::Uri(uri) = word {
            uris.push(*uri)?;
        }
    }
    Ok(uris)
}

/// The object identifiers of critical extensions that words say.
fn critical_in<'a>(alloc: Global, words: &'a [CrlWord<'a>]) -> Result<Vec<OidRef<'a>>, AllocError>
    ensures { IfOk result (λ oids. map (λ oid. oid.content.now) oids.items
        ≡ flat_map critical_said (crl_parts words.now)) }
{
    let mut oids = Vec::new(alloc);
    for word in words {
        if let CrlWord::Critical(oid) = word {
            oids.push(oid.as_ref())?;
        }
    }
    Ok(oids)
}
