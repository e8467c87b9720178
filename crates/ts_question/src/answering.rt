//! Answers are made, read and written.

ghost use Rattle.std.specs.Prelude.{◌≡◌, ◌++◌, true, false, Some, IfOk, IfSome, OnOk, MatchResult};
ghost use Rattle.ts_codec.specs.Reading.{Gives};
ghost use Rattle.ts_question.specs.ReplyReading.{answer_at};
ghost use Rattle.ts_question.specs.Reply.{NumberedReply, is_answer, answer_encoding, AnswerFits};

use crate::question::OutOfLimits;
use crate::ranges::{fields_fit, is_reply};
use crate::reply::{Answer, Reply};
use crate::reply_reading;
use crate::reply_writing::{push_fields, tag_of};
use std::alloc::{AllocError, Global};
use ts_codec::{MAX_POSITION, ReadFault};

impl Answer {
    /// This reply, after so many commands.
    ///
    /// # Errors
    ///
    /// `OutOfLimits` exactly where k is above 1,000,000, the position of `Invalid` is not 1 to 16,
    /// the places of `Found` are more than 255, not distinct or don't end in 1, the prefix of
    /// `NotYet` is not below k, there are 2^32 policies, or the rows of a page are more than 64 or
    /// longer than 65,535 octets.
    pub fn new(k: u32, reply: Reply) -> Result<Answer, OutOfLimits>
        ensures { let answered : NumberedReply = record { k = k; reply = reply } in
            MatchResult result (λ a. (a ≡ answered) × AnswerFits a) (λ _. is_answer answered
            ≡ false) }
    {
        if !(k <= MAX_POSITION && is_reply(k, &reply)) {
            return Err(OutOfLimits);
        }
        fields_fit(&reply);
        Ok(Answer { k, reply })
    }

    /// The number of commands after which the store was looked at; for `NotYet` the number that was
    /// asked for.
    pub fn k(&self) -> u32
        ensures { result ≡ self.now.k }
    {
        self.k
    }

    /// The reply.
    pub fn reply(&self) -> &Reply
        ensures reply { result.now ≡ self.now.reply }
        ensures fits { AnswerFits self.now }
    {
        &self.reply
    }

    /// The reply, given back.
    pub fn into_reply(self) -> Reply
        ensures { result ≡ self.reply }
    {
        self.reply
    }

    /// The answer that octets are. `None` exactly where they are not one whole answer.
    ///
    /// # Errors
    ///
    /// Out of memory.
    pub fn read(alloc: Global, octets: &[u8]) -> Result<Option<Answer>, AllocError>
        // The octets are the encoding of the answer that is read.
        ensures found { IfOk result (λ read. IfSome read
            (λ a. AnswerFits a × (octets.now ≡ answer_encoding a))) }
        // Octets that encode an answer are read as it.
        ensures only { (a : NumberedReply) → AnswerFits a → octets.now ≡ answer_encoding a
            → IfOk result (λ read. read ≡ Some a) }
    {
        match reply_reading::whole_answer(alloc, octets) {
            Ok((k, reply)) => Ok(Some(Answer { k, reply })),
            Err(ReadFault::Form) => Ok(None),
            Err(ReadFault::Memory) => Err(AllocError),
        }
    }

    /// The answer that octets begin with, and the octets after it.
    ///
    /// # Errors
    ///
    /// Out of memory; `Form` exactly where octets begin with no answer.
    pub fn read_front(alloc: Global, octets: &[u8]) -> Result<(Answer, &[u8]), ReadFault>
        ensures { Gives (λ x. (x.0, x.1.now)) result (answer_at octets.now) }
    {
        let (k, reply, rest) = reply_reading::answer(alloc, octets)?;
        Ok((Answer { k, reply }, rest))
    }

    /// Writes the octets of the answer, which are its one encoding, after others.
    ///
    /// # Errors
    ///
    /// Out of memory.
    pub fn write(&self, out: &mut Vec<u8>) -> Result<(), AllocError>
        ensures encoded { OnOk result (out.new.items ≡ out.old.items ++ answer_encoding self.now) }
        ensures fits { AnswerFits self.now }
    {
        out.extend_from_slice(&self.k.to_be_bytes())?;
        out.push(tag_of(&self.reply))?;
        push_fields(out, self.k, &self.reply)?;
        Ok(())
    }

    /// The octets of the answer, which are its one encoding.
    ///
    /// # Errors
    ///
    /// Out of memory.
    pub fn octets(&self, alloc: Global) -> Result<Vec<u8>, AllocError>
        ensures { IfOk result (λ octets. octets.items ≡ answer_encoding self.now) }
    {
        let mut octets = Vec::new(alloc);
        self.write(&mut octets)?;
        Ok(octets)
    }
}
