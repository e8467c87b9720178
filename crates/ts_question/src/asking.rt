//! Questions are made, read and written.

ghost use Rattle.std.specs.Prelude.{◌≡◌, ◌++◌, ◌∷◌, true, false, map, Some, Ok, IfOk, IfSome, OnOk};
ghost use Rattle.std.specs.Prelude.{MatchResult};
ghost use Rattle.ts_codec.specs.Reading.{whole};
ghost use Rattle.ts_question.specs.Question.{StoreQuestion, is_within, question_encoding};
ghost use Rattle.ts_question.specs.Question.{QuestionFits};
ghost use Rattle.ts_question.specs.QuestionReading.{question_at};
ghost use Rattle.ts_question.specs.declared.question.Target.TheVariants.{Chain, Search, Store, Log};

use crate::limits::{are_terms, is_target, target_fits, terms_fit};
use crate::lists::OctetStrings;
use crate::question::{OutOfLimits, Question, Target};
use crate::reading;
use crate::terms::Terms;
use crate::writing::{kind_of, push_target, push_terms};
use std::alloc::{AllocError, Global};
use ts_codec::ReadFault;

/// The question, if it is within its limits.
fn question_within_limits(terms: Terms, target: Target) -> Result<Question, OutOfLimits>
    ensures { MatchResult result
        (λ q. (q ≡ record { terms = terms; target = target }) × QuestionFits q)
        (λ _. is_within (record { terms = terms; target = target }) ≡ false) }
{
    if !(are_terms(&terms) && is_target(&target)) {
        return Err(OutOfLimits);
    }
    terms_fit(&terms);
    target_fits(&target);
    Ok(Question { terms, target })
}

impl Question {
    /// Whether a chain is valid under the anchor whose certificate has this SHA-256 digest. The
    /// certificates stand from the one that the anchor issued to the last.
    ///
    /// # Errors
    ///
    /// `OutOfLimits` exactly where the question is outside its limits.
    pub fn chain(
        terms: Terms,
        anchor: [u8; 32],
        certificates: Vec<Vec<u8>>,
    ) -> Result<Question, OutOfLimits>
        ensures { let asked : StoreQuestion = record
            { terms = terms; target = Chain anchor (map (λ c. c.items) certificates.items) } in
            MatchResult result (λ q. (q ≡ asked) × QuestionFits q) (λ _. is_within asked ≡ false) }
    {
        let certificates = OctetStrings::new(certificates);
        let target = Target::Chain {
            anchor,
            certificates,
        };
        question_within_limits(terms, target)
    }

    /// Whether there is a valid chain to the first certificate, the leaf, through others, the pool.
    ///
    /// # Errors
    ///
    /// `OutOfLimits` exactly where the question is outside its limits.
    pub fn search(terms: Terms, certificates: Vec<Vec<u8>>) -> Result<Question, OutOfLimits>
        ensures { let asked : StoreQuestion = record
            { terms = terms; target = Search (map (λ c. c.items) certificates.items) } in
            MatchResult result (λ q. (q ≡ asked) × QuestionFits q) (λ _. is_within asked ≡ false) }
    {
        let certificates = OctetStrings::new(certificates);
        question_within_limits(terms, Target::Search { certificates })
    }

    /// A page of what the store holds, after so many rows. Of the terms k alone counts.
    pub fn store(terms: Terms, from: u32) -> Result<Question, OutOfLimits>
        ensures { let asked : StoreQuestion = record { terms = terms; target = Store from } in
            MatchResult result (λ q. (q ≡ asked) × QuestionFits q) (λ _. is_within asked ≡ false) }
    {
        question_within_limits(terms, Target::Store { from })
    }

    /// A page of the commands that the store took, after so many rows. Of the terms k alone counts.
    pub fn log(terms: Terms, from: u32) -> Result<Question, OutOfLimits>
        ensures { let asked : StoreQuestion = record { terms = terms; target = Log from } in
            MatchResult result (λ q. (q ≡ asked) × QuestionFits q) (λ _. is_within asked ≡ false) }
    {
        question_within_limits(terms, Target::Log { from })
    }

    /// What is asked beside the target.
    pub fn terms(&self) -> &Terms
        ensures { result.now ≡ self.now.terms }
    {
        &self.terms
    }

    /// What is asked for.
    pub fn target(&self) -> &Target
        ensures target { result.now ≡ self.now.target }
        ensures fits { QuestionFits self.now }
    {
        &self.target
    }

    /// The question that octets are. `None` exactly where they are not one whole question.
    ///
    /// # Errors
    ///
    /// Out of memory.
    pub fn read(alloc: Global, octets: &[u8]) -> Result<Option<Question>, AllocError>
        // The result is the one that the definition of reading gives.
        ensures exact { IfOk result (λ read. read ≡ whole (question_at octets.now)) }
        // The octets are the encoding of the question that is read.
        ensures found { IfOk result (λ read. IfSome read
            (λ q. QuestionFits q × (octets.now ≡ question_encoding q))) }
        // Octets that encode a question are read as it.
        ensures only { (q : StoreQuestion) → QuestionFits q → octets.now ≡ question_encoding q
            → IfOk result (λ read. read ≡ Some q) }
    {
        match reading::question(alloc, octets) {
            Ok((terms, target)) => Ok(Some(Question { terms, target })),
            Err(ReadFault::Form) => Ok(None),
            Err(ReadFault::Memory) => Err(AllocError),
        }
    }

    /// Writes the octets of the question, which are its one encoding, after others.
    ///
    /// # Errors
    ///
    /// Out of memory.
    pub fn write(&self, out: &mut Vec<u8>) -> Result<(), AllocError>
        ensures encoded { OnOk result
            (out.new.items ≡ out.old.items ++ question_encoding self.now) }
        ensures fits { QuestionFits self.now }
    {
        out.push(kind_of(&self.target))?;
        push_terms(out, &self.terms)?;
        push_target(out, &self.target)?;
        Ok(())
    }

    /// The octets of the question, which are its one encoding.
    ///
    /// # Errors
    ///
    /// Out of memory.
    pub fn octets(&self, alloc: Global) -> Result<Vec<u8>, AllocError>
        ensures { IfOk result (λ octets. octets.items ≡ question_encoding self.now) }
    {
        let mut octets = Vec::new(alloc);
        self.write(&mut octets)?;
        Ok(octets)
    }
}
