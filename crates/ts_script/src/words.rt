//! The words of a line, and what they mean.

ghost use Rattle.std.specs.Prelude.{◌≡◌, ◌≢◌, ◌∷◌, ◌↔◌, ℕ, ℤ, List, IsTrue, IfOk, IfErr};
ghost use Rattle.std.specs.Prelude.{MatchOption, option_map};
ghost use Rattle.std.specs.List.{AllByRecursion};
ghost use Rattle.ts_make.specs.declared.description.RdnText.{RdnText};
ghost use Rattle.ts_time.specs.Text.{IsGeneral};
ghost use Rattle.ts_script.specs.Pieces.{pieces_of, pieces_behind};
ghost use Rattle.ts_script.specs.Words.{IsName, IsHex, IsRdn, IsDn, RefusesWord};

use crate::script::LineFault;
use std::alloc::Global;
use ts_make::{AttributeType, RdnText};
use ts_time::{Moment, read_general};

/// Stands between two words.
pub const SPACE: u8 = b' ';

/// Stands between two relative distinguished names.
const SLASH: u8 = b'/';

/// The octets up to the first mark, and those after it where there is one.
pub fn first_piece(octets: &[u8], mark: u8) -> (&[u8], Option<&[u8]>)
    ensures { pieces_of mark octets.now
        ≡ result.0.now ∷ pieces_behind mark (option_map (λ rest. rest.now) result.1) }
{
    for at in 0..octets.len() {
        if octets[at] == mark {
            return (&octets[..at], Some(&octets[at + 1..]));
        }
    }
    (octets, None)
}

/// The word after a keyword with which these words begin, and what follows the two.
pub fn word_behind<'a>(
    words: Option<&'a [u8]>,
    keyword: &[u8],
) -> Option<(&'a [u8], Option<&'a [u8]>)>
    ensures { MatchOption result
        ((word : List ℕ) (others : List (List ℕ))
        → pieces_behind 32 (option_map (λ rest. rest.now) words.entry) ≢ keyword.now ∷ word
        ∷ others)
        (λ found. pieces_behind 32 (option_map (λ rest. rest.now) words.entry)
        ≡ keyword.now ∷ found.0.now ∷ pieces_behind 32 (option_map (λ rest. rest.now) found.1)) }
{
    let (first, rest) = first_piece(words?, SPACE);
    if first != keyword {
        return None;
    }
    Some(first_piece(rest?, SPACE))
}

/// Whether a word is one or more ASCII letters and digits.
pub fn is_name(word: &[u8]) -> bool
    ensures { IsTrue result ↔ IsName word.now }
{
    for octet in word {
        if !octet.is_ascii_alphanumeric() {
            return false;
        }
    }
    !word.is_empty()
}

/// Whether each of these words is a name.
pub fn are_names(words: Option<&[u8]>) -> bool
    ensures { IsTrue result ↔ AllByRecursion IsName
        (pieces_behind 32 (option_map (λ rest. rest.now) words.entry)) }
{
    let mut rest = words;
    while let Some(left) = rest {
        let (word, behind) = first_piece(left, SPACE);
        if !is_name(word) {
            return false;
        }
        rest = behind;
    }
    true
}

/// The moment that a word names as a GeneralizedTime.
pub fn moment_of(word: &[u8]) -> Option<Moment>
    ensures { MatchOption result ((m : ℤ) → ¬ (IsGeneral word.now m)) (IsGeneral word.now) }
{
    read_general(word).ok()
}

/// The octets that a word writes in lower-case hexadecimal digits, one or more.
pub fn octets_of(alloc: Global, word: &[u8]) -> Result<Vec<u8>, LineFault>
    ensures found { IfOk result (λ octets. IsHex word.now octets.items) }
    ensures fault { IfErr result (RefusesWord ((octets : List ℕ) → ¬ (IsHex word.now octets))) }
{
    let octets = hex::decode(alloc, word)?;
    let encoding = hex::encode(alloc, octets.as_slice())?;
    if encoding.as_bytes() != word || octets.is_empty() {
        return Err(LineFault::Form);
    }
    Ok(octets)
}

/// The relative distinguished name that a piece writes, as `CN=text` or `O=text`.
fn rdn_of(piece: &[u8]) -> Option<RdnText<'_>>
    ensures { MatchOption result ((rdn : RdnText) → ¬ (IsRdn piece.now rdn)) (IsRdn piece.now) }
{
    let (kind, text) = if let Some(text) = piece.strip_prefix(b"CN=") {
        (AttributeType::CommonName, text)
    } else {
        (AttributeType::OrganizationName, piece.strip_prefix(b"O=")?)
    };
    let text = str::from_utf8(text).ok()?;
    Some(RdnText { kind, text })
}

/// The distinguished name that a word writes, its relative ones joined by `/`.
pub fn rdns_of(alloc: Global, word: &[u8]) -> Result<Vec<RdnText<'_>>, LineFault>
    ensures found { IfOk result (λ rdns. IsDn word.now rdns.items) }
    ensures fault { IfErr result (RefusesWord ((rdns : List RdnText) → ¬ (IsDn word.now rdns))) }
{
    let mut rdns = Vec::new(alloc);
    let mut rest = Some(word);
    while let Some(left) = rest {
        let (piece, behind) = first_piece(left, SLASH);
        let Some(rdn) = rdn_of(piece) else {
            return Err(LineFault::Form);
        };
        rdns.push(rdn)?;
        rest = behind;
    }
    Ok(rdns)
}
