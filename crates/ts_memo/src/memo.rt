//! The answers that are kept.

ghost use Rattle.std.specs.Prelude.{◌≡◌, ◌<◌, ◌^◌, ◌++◌, length, IfSome, OnOk};
ghost use Rattle.std.specs.Option.{option_copied};
ghost use Rattle.ts_sig.specs.Key.{key_of};
ghost use Rattle.ts_check.specs.Native.{native_accepts};
ghost use Rattle.ts_memo.specs.inside.Memo.{Asks, Fits, IsRight, IsShort, StandsFor};
ghost use Rattle.ts_memo.specs.inside.Memo.{parameters_octets, question_octets, text_octets};

use std::alloc::{AllocError, Global};
use std::marker::Model;
use ts_check::NativeCheck;
use ts_codec::writing::push_blob32;
use ts_digest::Message;
use ts_recent::{Key, Recent};
use ts_sig::{SignatureCheck, WorkingKey, hash_named};

/// How many answers are kept.
const MAX_ANSWERS: usize = 4_096;

/// The most octets that a question may have for its answer to be kept: 4,096 such questions have 32
/// MiB.
const MAX_OCTETS: usize = 8_192;

/// How much room the octets of a question have for the lengths of its parts, with some to spare.
const ROOM: usize = 64;

/// What stands for signed octets in a question: their hash, or all of them.
#[derive(Clone, Copy)]
pub(crate) struct SignedText<'a> {
    is_hash: bool,
    octets: &'a [u8],
}

/// The answers that were used last.
#[derive(Drop)]
pub(crate) struct Memo {
    alloc: Global,
    answers: Recent<bool>,
}

impl Model for Memo {
    ghost use Rattle.ts_memo.specs.inside.Memo.{AreRight};

    ghost Value = { Unit {0} };

    ghost view = { λ _. tt };

    ghost invariant = { λ m. AreRight m.answers };
}

/// What stands for signed octets: their hash, where that is known and the algorithm hashes them so.
fn text_of<'a>(algorithm: &[u8], signed: &Message<'a>) -> SignedText<'a>
    ensures { StandsFor algorithm.now signed.now.octets.now result.is_hash result.octets.now }
{
    if let Some(digest) = signed.digest() {
        if hash_named(algorithm) == Some(digest.hash) {
            return SignedText {
                is_hash: true,
                octets: digest.octets.as_slice(),
            };
        }
    }
    SignedText {
        is_hash: false,
        octets: signed.octets,
    }
}

/// How many octets the parts of a question have.
fn size_of(algorithm: &[u8], key: &WorkingKey<'_>, text: SignedText<'_>, signature: &[u8]) -> usize
    ensures { result < 2 ^ 32
        → Fits algorithm.now (key_of key.now) text.entry.octets.now signature.now }
{
    let parameters = match key.parameters {
        Some(parameters) => parameters.len(),
        None => 0,
    };
    algorithm
        .len()
        .saturating_add(key.algorithm.len())
        .saturating_add(parameters)
        .saturating_add(key.octets.len())
        .saturating_add(signature.len())
        .saturating_add(text.octets.len())
}

/// Writes the parameters of a key: whether there are any, and which.
fn push_parameters(out: &mut Vec<u8>, parameters: Option<&[u8]>) -> Result<(), AllocError>
    requires { IsShort (option_copied parameters) }
    ensures { OnOk result (out.new.items
        ≡ out.old.items ++ parameters_octets (option_copied parameters.entry)) }
{
    match parameters {
        Some(parameters) => {
            out.push(1)?;
            push_blob32(out, parameters)
        }
        None => {
            out.push(0)?;
            Ok(())
        }
    }
}

/// Writes what stands for the signed octets: whether it is their hash, and its octets.
fn push_text(out: &mut Vec<u8>, text: SignedText<'_>) -> Result<(), AllocError>
    requires { length text.octets.now < 2 ^ 32 }
    ensures { OnOk result (out.new.items
        ≡ out.old.items ++ text_octets text.entry.is_hash text.entry.octets.now) }
{
    out.push(u8::from(text.is_hash))?;
    push_blob32(out, text.octets)
}

/// Writes the octets of a question.
fn push_question(
    out: &mut Vec<u8>,
    algorithm: &[u8],
    key: &WorkingKey<'_>,
    text: SignedText<'_>,
    signature: &[u8],
) -> Result<(), AllocError>
    requires { Fits algorithm.now (key_of key.now) text.octets.now signature.now }
    ensures { OnOk result (out.new.items ≡ out.old.items
        ++ question_octets algorithm.now (key_of key.now) text.entry.is_hash
        text.entry.octets.now signature.now) }
{
    push_blob32(out, algorithm)?;
    push_blob32(out, key.algorithm)?;
    push_parameters(out, key.parameters)?;
    push_blob32(out, key.octets)?;
    push_blob32(out, signature)?;
    push_text(out, text)
}

/// The octets under which the answer to a question is kept. `None` where there are too many, and
/// where memory is refused.
fn question_of(
    alloc: Global,
    algorithm: &[u8],
    key: &WorkingKey<'_>,
    signed: &Message<'_>,
    signature: &[u8],
) -> Option<Key>
    ensures { IfSome result (λ question. Asks question algorithm.now (key_of key.now)
        signed.now.octets.now signature.now) }
{
    let text = text_of(algorithm, signed);
    let size = size_of(algorithm, key, text, signature);
    if size > MAX_OCTETS {
        return None;
    }
    let mut octets = Vec::with_capacity(alloc, size + ROOM).ok()?;
    push_question(&mut octets, algorithm, key, text, signature).ok()?;
    Some(Key::of(octets))
}

impl Memo {
    /// A memo that keeps no answers yet.
    pub(crate) fn new(alloc: Global) -> Memo {
        Memo {
            alloc,
            answers: Recent::new(alloc, MAX_ANSWERS),
        }
    }

    /// The answer to this question, if it is kept; it then is the one that was used last.
    fn find(&mut self, question: &Key) -> Option<bool>
        ensures { IfSome result (λ good. IsRight question.now good) }
    {
        let Some(good) = self.answers.find(question) else {
            return None;
        };
        let good = *good;
        self.answers.touch(question);
        Some(good)
    }

    /// Keeps an answer, where memory is given.
    fn keep(&mut self, question: Key, good: bool)
        requires { IsRight question good }
    {
        self.answers.keep(question, good);
    }

    /// Whether a signature is good: the answer that is kept, or else that of the native check.
    pub(crate) fn good(
        &mut self,
        algorithm: &[u8],
        key: &WorkingKey<'_>,
        signed: &Message<'_>,
        signature: &[u8],
    ) -> bool
        ensures { result ≡ native_accepts algorithm.now (key_of key.now) signed.now.octets.now
            signature.now }
    {
        let Some(question) = question_of(self.alloc, algorithm, key, signed, signature) else {
            return NativeCheck.good(algorithm, key, signed, signature);
        };
        if let Some(good) = self.find(&question) {
            return good;
        }
        let good = NativeCheck.good(algorithm, key, signed, signature);
        self.keep(question, good);
        good
    }
}
