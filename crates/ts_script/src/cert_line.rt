//! The `cert` line: the certificate that its words describe.

ghost use Rattle.std.specs.Prelude.{◌≡◌, ℕ, List, IfOk, IfErr, MatchOption, OnErr, string_bytes};
ghost use Rattle.ts_make.specs.Making.{AnswersMade};
ghost use Rattle.ts_script.specs.Known.{Entry, known_in};
ghost use Rattle.ts_script.specs.CertLine.{IsMade};
ghost use Rattle.ts_script.specs.Objects.{IsLine, IsSaid, Refuses, RefusesWords, a_certificate};
ghost use Rattle.ts_script.specs.inside.Making.{AnswersWords};

use crate::cert_octets::CertOctets;
use crate::extension_words::{extension_words, parts_in};
use crate::making::{keep, unless_taken};
use crate::script::LineFault;
use crate::symbols::{Item, Symbols};
use crate::words::{is_name, moment_of, octets_of, rdns_of, word_behind};
use std::alloc::Global;
use ts_literal::number_of_octets;
use ts_make::{CertText, MakeFault, make_cert};

/// The words of a `cert` line that say something.
#[derive(Clone, Copy)]
pub struct CertWords<'a> {
    pub name: &'a [u8],
    pub serial: &'a [u8],
    pub issuer: &'a [u8],
    pub subject: &'a [u8],
    pub from: &'a [u8],
    pub to: &'a [u8],
    pub key: &'a [u8],
    pub signer: &'a [u8],
    /// The words after the signer.
    pub others: Option<&'a [u8]>,
}

impl<'a> CertWords<'a> {
    /// Those of a line.
    #[tactic(auto, unfolding(crate::specs::CertLine::cert_line))]
    fn of(line: &'a [u8]) -> Option<CertWords<'a>>
        ensures { MatchOption result ((c : CertWords) → ¬ (IsLine a_certificate line.now c))
            (IsLine a_certificate line.now) }
    {
        let (name, rest) = word_behind(Some(line), b"cert")?;
        let (serial, rest) = word_behind(rest, b"serial")?;
        let (issuer, rest) = word_behind(rest, b"issuer")?;
        let (subject, rest) = word_behind(rest, b"subject")?;
        let (from, rest) = word_behind(rest, b"from")?;
        let (to, rest) = word_behind(rest, b"to")?;
        let (key, rest) = word_behind(rest, b"key")?;
        let (signer, others) = word_behind(rest, b"signer")?;
        if !is_name(name) {
            return None;
        }
        Some(CertWords {
            name,
            serial,
            issuer,
            subject,
            from,
            to,
            key,
            signer,
            others,
        })
    }

    /// What is made of the words: the octets of the certificate that they describe, or why there
    /// are none.
    fn try_make(&self, alloc: Global) -> Result<Result<Vec<u8>, MakeFault>, LineFault>
        ensures made { IfOk result (λ made. (octets : List ℕ) × IsMade self.now octets
            × AnswersMade made octets) }
        ensures fault { (known : List Entry)
            → IfErr result (RefusesWords a_certificate known self.now) }
    {
        let serial = number_of_octets(self.serial).ok_or(LineFault::Form)?;
        let from = moment_of(self.from).ok_or(LineFault::Form)?;
        let to = moment_of(self.to).ok_or(LineFault::Form)?;
        let issuer = rdns_of(alloc, self.issuer)?;
        let subject = rdns_of(alloc, self.subject)?;
        let key = octets_of(alloc, self.key)?;
        let signer = octets_of(alloc, self.signer)?;
        let words = extension_words(alloc, self.others)?;
        let extensions = parts_in(alloc, &words)?;
        let text = CertText {
            serial,
            issuer: &issuer,
            subject: &subject,
            from,
            to,
            key: &key,
            signer: &signer,
            extensions: &extensions,
        };
        Ok(make_cert(alloc, &text))
    }

    /// The octets of the certificate that the words say, where it can be read, unless its name is
    /// taken.
    fn make(&self, alloc: Global, known: &Symbols) -> Result<Vec<u8>, LineFault>
        ensures { AnswersWords a_certificate (known_in known.now) self.now result }
    {
        let made = self.try_make(alloc)?;
        let is_taken = known.find(self.name).is_some();
        unless_taken(made, is_taken)
    }
}

/// Answers a `cert` line, and keeps its certificate.
pub fn answer_cert(alloc: Global, known: &mut Symbols, line: &[u8]) -> Result<String, LineFault>
    ensures said { IfOk result (λ text. IsSaid a_certificate (known_in known.old) line.now
        (string_bytes text) (known_in known.new)) }
    ensures fault { IfErr result (Refuses a_certificate (known_in known.old) line.now) }
    ensures unchanged { OnErr result (known_in known.new ≡ known_in known.old) }
{
    let words = CertWords::of(line).ok_or(LineFault::Form)?;
    let octets = words.make(alloc, known)?;
    let count = octets.len();
    keep(
        alloc,
        known,
        "cert",
        words.name,
        Item::Certificate(CertOctets { octets }),
        count,
    )
}
