//! The `crl` line: the CRL that its words describe.

ghost use Rattle.std.specs.Prelude.{◌≡◌, ℕ, List, IfOk, IfErr, MatchOption, OnErr, string_bytes};
ghost use Rattle.ts_make.specs.CrlMaking.{AnswersCrl, IsTaken};
ghost use Rattle.ts_script.specs.Known.{Entry, known_in};
ghost use Rattle.ts_script.specs.CrlLine.{IsCrlMade};
ghost use Rattle.ts_script.specs.Objects.{IsLine, IsSaid, Refuses, RefusesWords, a_crl};
ghost use Rattle.ts_script.specs.inside.Making.{AnswersWords};

use crate::crl_fields::CrlFields;
use crate::crl_words::crl_words;
use crate::making::{keep, unless_taken};
use crate::script::LineFault;
use crate::symbols::{Item, Symbols};
use crate::words::{is_name, moment_of, octets_of, rdns_of, word_behind};
use std::alloc::Global;
use ts_make::{CrlText, MakeFault, make_crl};

/// The words of a `crl` line that say something.
#[derive(Clone, Copy)]
pub struct CrlWords<'a> {
    pub name: &'a [u8],
    pub issuer: &'a [u8],
    pub this_update: &'a [u8],
    pub next_update: &'a [u8],
    pub signer: &'a [u8],
    /// The words after the signer.
    pub others: Option<&'a [u8]>,
}

impl<'a> CrlWords<'a> {
    /// Those of a line.
    #[tactic(auto, unfolding(crate::specs::CrlLine::crl_line))]
    fn of(line: &'a [u8]) -> Option<CrlWords<'a>>
        ensures { MatchOption result ((c : CrlWords) → ¬ (IsLine a_crl line.now c))
            (IsLine a_crl line.now) }
    {
        let (name, rest) = word_behind(Some(line), b"crl")?;
        let (issuer, rest) = word_behind(rest, b"issuer")?;
        let (this_update, rest) = word_behind(rest, b"this")?;
        let (next_update, rest) = word_behind(rest, b"next")?;
        let (signer, others) = word_behind(rest, b"signer")?;
        if !is_name(name) {
            return None;
        }
        Some(CrlWords {
            name,
            issuer,
            this_update,
            next_update,
            signer,
            others,
        })
    }

    /// What is made of the words: the octets of the CRL that they describe, or why there are none.
    fn try_make(&self, alloc: Global) -> Result<Result<Vec<u8>, MakeFault>, LineFault>
        ensures made { IfOk result (λ made. (octets : List ℕ) × IsCrlMade self.now octets
            × AnswersCrl IsTaken made octets) }
        ensures fault { (known : List Entry) → IfErr result (RefusesWords a_crl known self.now) }
    {
        let this_update = moment_of(self.this_update).ok_or(LineFault::Form)?;
        let next_update = moment_of(self.next_update).ok_or(LineFault::Form)?;
        let issuer = rdns_of(alloc, self.issuer)?;
        let signer = octets_of(alloc, self.signer)?;
        let words = crl_words(alloc, self.others)?;
        let fields = CrlFields::gather(alloc, &words)?;
        let text = CrlText {
            issuer: &issuer,
            this_update,
            next_update,
            signer: &signer,
            entries: &fields.entries,
            number: fields.number,
            base: fields.base,
            reasons: &fields.reasons,
            uris: &fields.uris,
            critical: &fields.critical,
        };
        Ok(make_crl(alloc, &text))
    }

    /// The octets of the CRL that the words say, where it can be read, unless its name is taken.
    fn make(&self, alloc: Global, known: &Symbols) -> Result<Vec<u8>, LineFault>
        ensures { AnswersWords a_crl (known_in known.now) self.now result }
    {
        let made = self.try_make(alloc)?;
        let is_taken = known.find(self.name).is_some();
        unless_taken(made, is_taken)
    }
}

/// Answers a `crl` line, and keeps its CRL.
pub fn answer_crl(alloc: Global, known: &mut Symbols, line: &[u8]) -> Result<String, LineFault>
    ensures said { IfOk result (λ text. IsSaid a_crl (known_in known.old) line.now
        (string_bytes text) (known_in known.new)) }
    ensures fault { IfErr result (Refuses a_crl (known_in known.old) line.now) }
    ensures unchanged { OnErr result (known_in known.new ≡ known_in known.old) }
{
    let words = CrlWords::of(line).ok_or(LineFault::Form)?;
    let octets = words.make(alloc, known)?;
    let count = octets.len();
    keep(alloc, known, "crl", words.name, Item::List(octets), count)
}
