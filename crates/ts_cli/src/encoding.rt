//! Words as encoded commands and questions.

ghost use Rattle.std.specs.Prelude.{◌≡◌, ◌⊎◌, ◌<◌, true, false, Err, map, length, IfOk, IfErr};
ghost use Rattle.std.specs.Prelude.{string_bytes};
ghost use Rattle.hex.specs.Hex.{encode_lower};
ghost use Rattle.sha2.specs.Sha256.{sha256};
ghost use Rattle.ts_command.specs.Commands as commands;
ghost use Rattle.ts_command.specs.declared.command.Command.TheVariants.{AddAnchor, LoadCrl};
ghost use Rattle.ts_command.specs.declared.command.Command.TheVariants.{SetPurposes};
ghost use Rattle.ts_question.specs.Question as questions;
ghost use Rattle.ts_cli.specs.Encoding.{command_in, is_too_long, terms_in, asked_in};
ghost use Rattle.ts_cli.specs.declared.encoding.MakeFault.TheVariants.{Memory, TooLong};
ghost use Rattle.ts_cli.specs.declared.encoding.MakeFault.TheVariants.{OutOfLimits};

use crate::command_words::CommandAction;
use crate::question_words::{QuestionWords, Subject, TermWords};
use sha2::{Digest, Sha256};
use std::alloc::{AllocError, AllocFailed, Global};
use ts_command::{Command, Purposes};
use ts_der::Oid;
use ts_octets::{MAX_CERTIFICATE, MAX_CRL, Octets};
use ts_question::{OctetStrings, Oids, Question, Terms};

/// Why words have no encoding.
#[derive(Clone, Copy, Debug, PartialEq, Eq)]
pub enum MakeFault {
    /// Memory could not be had.
    Memory,
    /// A file is longer than a command holds.
    TooLong,
    /// The question is outside its limits.
    OutOfLimits,
}

impl From<AllocError> for MakeFault {
    ghost from_gives = { λ _ fault. fault ≡ Memory };

    fn from(_error: AllocError) -> MakeFault {
        MakeFault::Memory
    }
}

impl<T: Drop> From<AllocFailed<T>> for MakeFault {
    ghost from_gives = { λ _ fault. fault ≡ Memory };

    fn from(_error: AllocFailed<T>) -> MakeFault {
        MakeFault::Memory
    }
}

/// Whether the file of a change is longer than a command holds.
fn is_too_long(change: &CommandAction, contents: &[u8]) -> bool
    ensures { result ≡ is_too_long change.now contents.now }
{
    match change {
        CommandAction::Add { .. } => contents.len() > MAX_CERTIFICATE,
        CommandAction::Load { .. } => contents.len() > MAX_CRL,
        CommandAction::Withdraw { .. }
        | CommandAction::Drop { .. }
        | CommandAction::Purposes { .. }
        | CommandAction::Noop => { false }
    }
}

/// The command that adds a trust anchor.
fn add(alloc: Global, id: [u8; 16], contents: &[u8]) -> Result<Command, MakeFault>
    ensures made { IfOk result (λ command. command ≡ AddAnchor id contents.now) }
    ensures refused { IfErr result (λ fault. (fault ≡ Memory) ⊎ (65536 < length contents.now)) }
{
    let octets = Octets::copy_of(alloc, contents)?;
    match Command::add_anchor(id, octets) {
        Ok(command) => Ok(command),
        Err(_) => Err(MakeFault::TooLong),
    }
}

/// The command that adds a CRL.
fn load(alloc: Global, id: [u8; 16], contents: &[u8]) -> Result<Command, MakeFault>
    ensures made { IfOk result (λ command. command ≡ LoadCrl id contents.now) }
    ensures refused { IfErr result (λ fault. (fault ≡ Memory) ⊎ (4194304 < length contents.now)) }
{
    let octets = Octets::copy_of(alloc, contents)?;
    match Command::load_crl(id, octets) {
        Ok(command) => Ok(command),
        Err(_) => Err(MakeFault::TooLong),
    }
}

/// The command that sets purposes.
fn set(
    alloc: Global,
    id: [u8; 16],
    anchor: [u8; 32],
    purposes: &Purposes,
) -> Result<Command, AllocError>
    ensures { IfOk result (λ command. command ≡ SetPurposes id anchor purposes.now) }
{
    let purposes = purposes.try_copy(alloc)?;
    Ok(Command::SetPurposes {
        id,
        anchor,
        purposes,
    })
}

/// The command that does a change.
fn command_in(
    alloc: Global,
    id: [u8; 16],
    change: &CommandAction,
    contents: &[u8],
) -> Result<Command, MakeFault>
    ensures made { IfOk result (λ command. command ≡ command_in id change.now contents.now) }
    ensures refused { IfErr result
        (λ fault. (fault ≡ Memory) ⊎ (is_too_long change.now contents.now ≡ true)) }
{
    match change {
        CommandAction::Add { .. } => add(alloc, id, contents),
        CommandAction::Withdraw { anchor } => Ok(Command::WithdrawAnchor {
            id,
            anchor: *anchor,
        }),
        CommandAction::Load { .. } => load(alloc, id, contents),
        CommandAction::Drop { list } => Ok(Command::DropCrl { id, crl: *list }),
        CommandAction::Purposes { anchor, purposes } => Ok(set(alloc, id, *anchor, purposes)?),
        CommandAction::Noop => Ok(Command::Noop { id }),
    }
}

/// The octets of the command of this id that does this change. `contents` are the octets of the
/// file of `Add` or `Load`, and are not looked at for the others.
///
/// # Errors
///
/// `TooLong` exactly where the file is longer than a command holds: a certificate of more than
/// 65,536 octets, a list of more than 4,194,304. Out of memory. Never `OutOfLimits`.
pub fn command_octets(
    alloc: Global,
    id: &[u8; 16],
    change: &CommandAction,
    contents: &[u8],
) -> Result<Vec<u8>, MakeFault>
    // The octets are the one encoding of that command, which fits its limits.
    ensures made { IfOk result (λ octets. octets.items
        ≡ commands.command_encoding (command_in id.now change.now contents.now)) }
    ensures fits { IfOk result (λ _. commands.CommandFits
        (command_in id.now change.now contents.now)) }
    // A file is too long exactly where the limits say so, and else only memory is wanting.
    ensures long { is_too_long change.now contents.now ≡ true → result ≡ Err TooLong }
    ensures memory { is_too_long change.now contents.now ≡ false
        → IfErr result (λ fault. fault ≡ Memory) }
{
    if is_too_long(change, contents) {
        return Err(MakeFault::TooLong);
    }
    let command = command_in(alloc, *id, change, contents)?;
    Ok(command.octets(alloc)?)
}

/// A copy of object identifiers.
fn copy_oids(alloc: Global, oids: &[Oid]) -> Result<Vec<Oid>, AllocError>
    ensures { IfOk result (λ copies. copies.items ≡ oids.now) }
{
    let mut copies = Vec::new(alloc);
    for oid in oids {
        copies.push(Oid::from_oid(alloc, oid.as_ref())?)?;
    }
    Ok(copies)
}

/// A copy of an object identifier that may not be there.
fn copy_oid(alloc: Global, oid: &Option<Oid>) -> Result<Option<Oid>, AllocError>
    ensures { IfOk result (λ copy. copy ≡ oid.now) }
{
    match oid {
        Some(oid) => Ok(Some(Oid::from_oid(alloc, oid.as_ref())?)),
        None => Ok(None),
    }
}

/// A copy of the octets of files.
fn copy_files(alloc: Global, files: &[Vec<u8>]) -> Result<Vec<Vec<u8>>, AllocError>
    ensures { IfOk result (λ copies. map (λ file. file.items) copies.items
        ≡ map (λ file. file.items) files.now) }
{
    let mut copies = Vec::new(alloc);
    for file in files {
        copies.push(Vec::from_slice(alloc, file)?)?;
    }
    Ok(copies)
}

/// What is asked beside the certificates, without initial subtrees.
fn terms_in(alloc: Global, words: &TermWords) -> Result<Terms, AllocError>
    ensures { IfOk result (λ terms. terms ≡ terms_in words.now) }
{
    let policies = copy_oids(alloc, words.policies.as_slice())?;
    Ok(Terms {
        moment: words.moment,
        flags: words.flags,
        k: words.k,
        purpose: copy_oid(alloc, &words.purpose)?,
        user_policies: Oids::new(policies),
        permitted_subtrees: OctetStrings::empty(alloc),
        excluded_subtrees: OctetStrings::empty(alloc),
    })
}

/// The octets of the question that words ask about these certificates, which are the octets of its
/// files in their order.
///
/// # Errors
///
/// `OutOfLimits` only where the question is outside its limits, as by a certificate of more than
/// 65,536 octets. Memory that is refused. Never `TooLong`.
pub fn question_octets(
    alloc: Global,
    words: &QuestionWords,
    certificates: &[Vec<u8>],
) -> Result<Vec<u8>, MakeFault>
    // The octets are the one encoding of that question, which is within its limits.
    ensures made { IfOk result (λ octets. octets.items
        ≡ questions.question_encoding (asked_in words.now (map (λ c. c.items) certificates.now))) }
    ensures fits { IfOk result (λ _. questions.QuestionFits
        (asked_in words.now (map (λ c. c.items) certificates.now))) }
    // It is refused where it is outside its limits, and else only memory is wanting.
    ensures refused { IfErr result (λ fault. (fault ≡ Memory)
        ⊎ ((fault ≡ OutOfLimits) × (questions.is_within
        (asked_in words.now (map (λ c. c.items) certificates.now)) ≡ false))) }
{
    let terms = terms_in(alloc, &words.terms)?;
    let copies = copy_files(alloc, certificates)?;
    let question = match words.subject {
        Subject::Chain { anchor } => Question::chain(terms, anchor, copies),
        Subject::Search => Question::search(terms, copies),
    };
    match question {
        Ok(question) => Ok(question.octets(alloc)?),
        Err(_) => Err(MakeFault::OutOfLimits),
    }
}

/// The name of an anchor or a CRL: the SHA-256 of its octets in lower-case hexadecimal digits, by
/// which the store knows it.
///
/// # Errors
///
/// Out of memory.
pub fn id_text(alloc: Global, octets: &[u8]) -> Result<String, AllocError>
    ensures { IfOk result (λ text. string_bytes text ≡ encode_lower (sha256 octets.now)) }
{
    let mut hasher = Sha256::new();
    hasher.update(octets);
    hex::encode(alloc, hasher.finalize())
}
