//! The words that say extensions, decoded.

ghost use Rattle.std.specs.Prelude.{◌≡◌, ◌++◌, List, None, map, option_map, IfOk, IfErr, IsTrue};
ghost use Rattle.std.specs.Prelude.{◌↔◌, OnOk};
ghost use Rattle.std.specs.List.{AllByRecursion, flat_map};
ghost use Rattle.ts_script.specs.declared.keyword.Keyword.{Keyword};
ghost use Rattle.ts_script.specs.declared.script.LineFault.TheVariants.{Form};
ghost use Rattle.ts_script.specs.Pieces.{pieces_behind};
ghost use Rattle.ts_script.specs.Words.{RefusesWord};
ghost use Rattle.ts_script.specs.Parts.{Part, PartName, name_in, part_in, usage_bit};
ghost use Rattle.ts_script.specs.ExtensionWords.{IsNameValue, SaysValue, SaysWith, IsWord};
ghost use Rattle.ts_script.specs.ExtensionWords.{AreWords, StandsOnce, AreParts, once};
ghost use Rattle.ts_script.specs.inside.OwnedParts.{name_of, parts_of};

use crate::keyword::{Keyword, NameKind};
use crate::script::LineFault;
use crate::values::{number_in, numbers_in, oid_in, text_in};
use crate::words::{SPACE, first_piece, octets_of};
use std::alloc::{AllocError, Global};
use ts_der::Oid;
use ts_make::{ExtensionText, NameText};

/// Stands between a keyword and its value.
const EQUALS: u8 = b'=';

/// Stands between the two policies of a mapping.
const ARROW: u8 = b'>';

/// A name, with memory of its own where its word writes it otherwise.
#[derive(Drop)]
pub enum NameWord<'a> {
    /// dNSName.
    Dns(&'a str),
    /// iPAddress.
    Ip(Vec<u8>),
    /// rfc822Name.
    Mail(&'a str),
}

impl<'a> NameWord<'a> {
    /// The name that a value writes.
    fn read(alloc: Global, kind: NameKind, value: &'a [u8]) -> Result<NameWord<'a>, LineFault>
        ensures found { IfOk result (λ name. IsNameValue kind value.now (name_of name)) }
        ensures fault { IfErr result (RefusesWord
            ((name : PartName) → ¬ (IsNameValue kind value.now name))) }
    {
        match kind {
            NameKind::Dns => Ok(NameWord::Dns(text_in(value)?)),
            NameKind::Ip => Ok(NameWord::Ip(octets_of(alloc, value)?)),
            NameKind::Mail => Ok(NameWord::Mail(text_in(value)?)),
        }
    }
}

impl NameWord<'_> {
    /// The name, borrowed.
    fn borrow(&self) -> NameText<'_>
        ensures { name_in result ≡ name_of self.now }
    {
        match self {
            NameWord::Dns(text) => NameText::Dns(text),
            NameWord::Ip(octets) => NameText::Ip(octets),
            NameWord::Mail(text) => NameText::Mail(text),
        }
    }
}

/// A word that says parts of an extension, decoded. The variants are those of [`ExtensionText`].
#[derive(Drop)]
pub enum ExtensionWord<'a> {
    /// One or more bits.
    KeyUsage(Vec<u32>),
    SubjectAltName(NameWord<'a>),
    BasicConstraints(Option<u32>),
    PermittedSubtree(NameWord<'a>),
    ExcludedSubtree(NameWord<'a>),
    DistributionPoint(&'a str),
    Policy(Oid),
    PolicyMapping { issuer: Oid, subject: Oid },
    RequireExplicitPolicy(u32),
    InhibitPolicyMapping(u32),
    KeyPurpose(Oid),
    InhibitAnyPolicy(u32),
    Critical(Oid),
}

impl<'a> ExtensionWord<'a> {
    /// What a value says after a keyword.
    fn read_value(
        alloc: Global,
        keyword: Keyword,
        value: &'a [u8],
    ) -> Result<ExtensionWord<'a>, LineFault>
        ensures found { IfOk result (λ word. SaysValue keyword value.now (parts_of word)) }
        ensures fault { IfErr result (RefusesWord
            ((parts : List Part) → ¬ (SaysValue keyword value.now parts))) }
    {
        use ExtensionWord as Word;
        match keyword {
            Keyword::KeyUsage => Ok(Word::KeyUsage(numbers_in(alloc, value)?)),
            Keyword::SubjectAltName(kind) => {
                Ok(Word::SubjectAltName(NameWord::read(alloc, kind, value)?))
            }
            Keyword::BasicConstraints => Ok(Word::BasicConstraints(Some(number_in(value)?))),
            Keyword::PermittedSubtree(kind) => {
                Ok(Word::PermittedSubtree(NameWord::read(alloc, kind, value)?))
            }
            Keyword::ExcludedSubtree(kind) => {
                Ok(Word::ExcludedSubtree(NameWord::read(alloc, kind, value)?))
            }
            Keyword::DistributionPoint => Ok(Word::DistributionPoint(text_in(value)?)),
            Keyword::Policy => Ok(Word::Policy(oid_in(alloc, value)?)),
            Keyword::PolicyMapping => mapping_in(alloc, value),
            Keyword::RequireExplicitPolicy => Ok(Word::RequireExplicitPolicy(number_in(value)?)),
            Keyword::InhibitPolicyMapping => Ok(Word::InhibitPolicyMapping(number_in(value)?)),
            Keyword::KeyPurpose => Ok(Word::KeyPurpose(oid_in(alloc, value)?)),
            Keyword::InhibitAnyPolicy => Ok(Word::InhibitAnyPolicy(number_in(value)?)),
            Keyword::Critical => Ok(Word::Critical(oid_in(alloc, value)?)),
        }
    }

    /// What a word says.
    fn read(alloc: Global, word: &'a [u8]) -> Result<ExtensionWord<'a>, LineFault>
        ensures found { IfOk result (λ said. IsWord word.now (parts_of said)) }
        ensures fault { IfErr result (RefusesWord
            ((parts : List Part) → ¬ (IsWord word.now parts))) }
    {
        let (name, value) = first_piece(word, EQUALS);
        let keyword = Keyword::of(name).ok_or(LineFault::Form)?;
        match value {
            Some(value) => ExtensionWord::read_value(alloc, keyword, value),
            None => ExtensionWord::read_alone(keyword),
        }
    }

    /// What a keyword says without a value.
    fn read_alone(keyword: Keyword) -> Result<ExtensionWord<'a>, LineFault>
        ensures found { IfOk result (λ word. SaysWith keyword None (parts_of word)) }
        ensures fault { IfErr result (RefusesWord
            ((parts : List Part) → ¬ (SaysWith keyword None parts))) }
        ensures form { IfErr result (λ fault. fault ≡ Form) }
    {
        match keyword {
            Keyword::BasicConstraints => Ok(ExtensionWord::BasicConstraints(None)),
            _ => Err(LineFault::Form),
        }
    }

    /// Appends the parts that the word says.
    fn append_to(&'a self, parts: &mut Vec<ExtensionText<'a>>) -> Result<(), AllocError>
        ensures { OnOk result (map part_in parts.new.items
            ≡ map part_in parts.old.items ++ parts_of self.now) }
    {
        use ExtensionText as Text;
        use ExtensionWord as Word;
        let part = match self {
            Word::KeyUsage(bits) => return append_bits(bits, parts),
            Word::SubjectAltName(name) => Text::SubjectAltName(name.borrow()),
            Word::BasicConstraints(length) => Text::BasicConstraints(*length),
            Word::PermittedSubtree(base) => Text::PermittedSubtree(base.borrow()),
            Word::ExcludedSubtree(base) => Text::ExcludedSubtree(base.borrow()),
            Word::DistributionPoint(uri) => Text::DistributionPoint(uri),
            Word::Policy(oid) => Text::Policy(oid.as_ref()),
            Word::PolicyMapping { issuer, subject } => Text::PolicyMapping {
                issuer: issuer.as_ref(),
                subject: subject.as_ref(),
            },
            Word::RequireExplicitPolicy(skip) => Text::RequireExplicitPolicy(*skip),
            Word::InhibitPolicyMapping(skip) => Text::InhibitPolicyMapping(*skip),
            Word::KeyPurpose(oid) => Text::KeyPurpose(oid.as_ref()),
            Word::InhibitAnyPolicy(skip) => Text::InhibitAnyPolicy(*skip),
            Word::Critical(oid) => Text::Critical(oid.as_ref()),
        };
        parts.push(part)?;
        Ok(())
    }
}

/// Appends bits of keyUsage.
fn append_bits<'a>(bits: &[u32], parts: &mut Vec<ExtensionText<'a>>) -> Result<(), AllocError>
    ensures { OnOk result (map part_in parts.new.items
        ≡ map part_in parts.old.items ++ map usage_bit bits.now) }
{
    for bit in bits {
        parts.push(ExtensionText::KeyUsage(*bit))?;
    }
    Ok(())
}

/// Two object identifiers, joined by `>`.
fn mapping_in<'a>(alloc: Global, value: &[u8]) -> Result<ExtensionWord<'a>, LineFault>
    ensures found { IfOk result
        (λ word. SaysValue Keyword.PolicyMapping value.now (parts_of word)) }
    ensures fault { IfErr result (RefusesWord
        ((parts : List Part) → ¬ (SaysValue Keyword.PolicyMapping value.now parts))) }
{
    let (left, right) = first_piece(value, ARROW);
    let (right, rest) = first_piece(right.ok_or(LineFault::Form)?, ARROW);
    if rest.is_some() {
        return Err(LineFault::Form);
    }
    let issuer = oid_in(alloc, left)?;
    let subject = oid_in(alloc, right)?;
    Ok(ExtensionWord::PolicyMapping { issuer, subject })
}

/// Whether at most one of the words has this keyword.
fn stands_once(words: Option<&[u8]>, keyword: Keyword) -> bool
    ensures { IsTrue result ↔ StandsOnce
        (pieces_behind 32 (option_map (λ rest. rest.now) words.entry)) keyword }
{
    let mut has_stood = false;
    let mut rest = words;
    while let Some(left) = rest {
        let (word, behind) = first_piece(left, SPACE);
        let (name, _value) = first_piece(word, EQUALS);
        if name == keyword.text() {
            if has_stood {
                return false;
            }
            has_stood = true;
        }
        rest = behind;
    }
    true
}

/// What the words say one after another.
fn words_in(alloc: Global, words: Option<&[u8]>) -> Result<Vec<ExtensionWord<'_>>, LineFault>
    ensures found { IfOk result (λ said. AreWords
        (pieces_behind 32 (option_map (λ rest. rest.now) words.entry))
        (flat_map parts_of said.items)) }
    ensures fault { IfErr result (RefusesWord
        ((parts : List Part) → ¬ (AreWords
        (pieces_behind 32 (option_map (λ rest. rest.now) words.entry)) parts))) }
{
    let mut said = Vec::new(alloc);
    let mut rest = words;
    while let Some(left) = rest {
        let (word, behind) = first_piece(left, SPACE);
        said.push(ExtensionWord::read(alloc, word)?)?;
        rest = behind;
    }
    Ok(said)
}

/// Whether at most one of the words has each keyword whose extension has one such value.
fn stand_once(words: Option<&[u8]>) -> bool
    ensures { IsTrue result ↔ AllByRecursion
        (StandsOnce (pieces_behind 32 (option_map (λ rest. rest.now) words.entry))) once }
{
    stands_once(words, Keyword::BasicConstraints)
        && stands_once(words, Keyword::RequireExplicitPolicy)
        && stands_once(words, Keyword::InhibitPolicyMapping)
        && stands_once(words, Keyword::InhibitAnyPolicy)
}

/// What the words after the signer of a `cert` line say.
pub fn extension_words(
    alloc: Global,
    words: Option<&[u8]>,
) -> Result<Vec<ExtensionWord<'_>>, LineFault>
    ensures found { IfOk result (λ said. AreParts
        (pieces_behind 32 (option_map (λ rest. rest.now) words.entry))
        (flat_map parts_of said.items)) }
    ensures fault { IfErr result (RefusesWord
        ((parts : List Part) → ¬ (AreParts
        (pieces_behind 32 (option_map (λ rest. rest.now) words.entry)) parts))) }
{
    if !stand_once(words) {
        return Err(LineFault::Form);
    }
    words_in(alloc, words)
}

/// The parts that words say, in their order.
pub fn parts_in<'a>(
    alloc: Global,
    words: &'a [ExtensionWord<'a>],
) -> Result<Vec<ExtensionText<'a>>, AllocError>
    ensures { IfOk result (λ parts. map part_in parts.items ≡ flat_map parts_of words.now) }
{
    let mut parts = Vec::new(alloc);
    for word in words {
        word.append_to(&mut parts)?;
    }
    Ok(parts)
}
