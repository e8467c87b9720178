//! Facts are read from an entry.

ghost use Rattle.std.specs.Prelude.{◌≡◌, ◌⊎◌, ◌≤◌, ◌<◌, ◌+◌, ◌^◌, ◌++◌, ◌∷◌, [], ℕ, List, length};
ghost use Rattle.std.specs.Prelude.{drop, take, MatchOption, MatchResult, IfSome, IfOk, OnOk};
ghost use Rattle.std.specs.Prelude.{Option, true, false};
ghost use Rattle.std.specs.Int.{to_be_bytes, w32, w64};
ghost use Rattle.ts_record.specs.Facts.{IsPosition, IsRound, IsBallot, IsBlob, blob, fact_encoding};
ghost use Rattle.ts_record.specs.Facts.{encodings, FactFits, AllFit, Begins, FactOrNot};
ghost use Rattle.ts_synod.specs.declared.message.Fact.{Fact};

use crate::known::KnownFacts;
use std::alloc::{AllocError, Global};
use ts_synod::{Codec, Fact};

/// The number in the first four octets, the highest octet first. None where there are fewer.
pub(crate) fn u32_at(rest: &[u8]) -> Option<u32>
    ensures found { MatchOption result (length rest.now < 4)
        (λ n. rest.now ≡ to_be_bytes w32 n ++ drop 4 rest.now) }
    ensures range { IfSome result (λ n. n < 2 ^ 32) }
{
    if rest.len() < 4 {
        return None;
    }
    Some(u32::from_be_bytes([rest[0], rest[1], rest[2], rest[3]]))
}

/// The number in the first eight octets, the highest octet first. None where there are fewer.
fn u64_at(rest: &[u8]) -> Option<u64>
    ensures found { MatchOption result (length rest.now < 8)
        (λ n. rest.now ≡ to_be_bytes w64 n ++ drop 8 rest.now) }
    ensures range { IfSome result (λ n. n < 2 ^ 64) }
{
    if rest.len() < 8 {
        return None;
    }
    Some(u64::from_be_bytes([
        rest[0], rest[1], rest[2], rest[3], rest[4], rest[5], rest[6], rest[7],
    ]))
}

/// The round that begins here. None where there is none, as 0 is no round.
fn round_at(rest: &[u8]) -> Option<u32>
    ensures { MatchOption result ((n : ℕ) (after : List ℕ) → IsRound n
        → rest.now ≡ to_be_bytes w32 n ++ after → ⊥)
        (λ n. IsRound n × (rest.now ≡ to_be_bytes w32 n ++ drop 4 rest.now)) }
{
    let round = u32_at(rest)?;
    if round < 1 {
        return None;
    }
    Some(round)
}

/// The position that begins here. None where the number is not 1 to 1,000,000.
fn position_at(rest: &[u8]) -> Option<u32>
    ensures { MatchOption result ((n : ℕ) (after : List ℕ) → IsPosition n
        → rest.now ≡ to_be_bytes w32 n ++ after → ⊥)
        (λ n. IsPosition n × (rest.now ≡ to_be_bytes w32 n ++ drop 4 rest.now)) }
{
    let position = u32_at(rest)?;
    if position < 1 || 1_000_000 < position {
        return None;
    }
    Some(position)
}

/// The ballot that begins here. None where the number has no round of 1 to 4,294,967,295 or no node
/// of 1 to 9.
fn ballot_at(rest: &[u8]) -> Option<u64>
    ensures { MatchOption result ((n : ℕ) (after : List ℕ) → IsBallot n
        → rest.now ≡ to_be_bytes w64 n ++ after → ⊥)
        (λ n. IsBallot n × (rest.now ≡ to_be_bytes w64 n ++ drop 8 rest.now)) }
{
    let ballot = u64_at(rest)?;
    if ballot < 16 || (1 << 36) <= ballot || ballot % 16 < 1 || 9 < ballot % 16 {
        return None;
    }
    Some(ballot)
}

/// The length of the blob that begins here.
fn blob_at(rest: &[u8]) -> Option<usize>
    ensures { MatchOption result ((octets after : List ℕ) → IsBlob octets
        → rest.now ≡ blob octets ++ after → ⊥)
        (λ n. (n < 2 ^ 32) × (4 + n ≤ length rest.now)
        × (rest.now ≡ to_be_bytes w32 n ++ drop 4 rest.now)) }
{
    let size = u32_at(rest)? as usize;
    if rest.len() - 4 < size {
        return None;
    }
    Some(size)
}

/// The command of a blob that begins here, and the length of both.
fn command_at<'a, C: Codec>(
    alloc: Global,
    rest: &'a [u8],
    known: &mut KnownFacts<'a, C>,
) -> Result<Option<(C, usize)>, AllocError>
    ensures { IfOk result (λ found. MatchOption found
        ((command : C) (after : List ℕ) → IsBlob (C.octets command)
        → rest.now ≡ blob (C.octets command) ++ after → ⊥)
        (λ read. IsBlob (C.octets read.0) × (read.1 ≤ length rest.now) × (4 ≤ read.1)
        × (rest.now ≡ blob (C.octets read.0) ++ drop read.1 rest.now))) }
{
    let Some(size) = blob_at(rest) else {
        return Ok(None);
    };
    match known.read(alloc, &rest[4..4 + size])? {
        Some(command) => Ok(Some((command, 4 + size))),
        None => Ok(None),
    }
}

/// The fact that a round is used, from its fields, and the length of its octets.
fn used_at<C: Codec>(fields: &[u8]) -> Option<(Fact<C>, usize)>
    ensures { FactOrNot C.octets 1 fields.now result }
{
    let round = round_at(fields)?;
    Some((Fact::Used { round }, 5))
}

/// The fact that a ballot is promised, from its fields, and the length of its octets.
fn promised_at<C: Codec>(fields: &[u8]) -> Option<(Fact<C>, usize)>
    ensures { FactOrNot C.octets 2 fields.now result }
{
    let Some(position) = position_at(fields) else {
        return None;
    };
    let Some(ballot) = ballot_at(&fields[4..]) else {
        return None;
    };
    Some((Fact::Promised { position, ballot }, 13))
}

/// The ballot and the command that begin here, and the length of both.
fn vote_at<'a, C: Codec>(
    alloc: Global,
    rest: &'a [u8],
    known: &mut KnownFacts<'a, C>,
) -> Result<Option<(u64, C, usize)>, AllocError>
    ensures { IfOk result (λ found. MatchOption found
        ((ballot : ℕ) (command : C) (after : List ℕ) → IsBallot ballot → IsBlob (C.octets command)
        → rest.now ≡ to_be_bytes w64 ballot ++ blob (C.octets command) ++ after → ⊥)
        (λ read. IsBallot read.0 × IsBlob (C.octets read.1) × (read.2 ≤ length rest.now)
        × (12 ≤ read.2)
        × (rest.now ≡ to_be_bytes w64 read.0 ++ blob (C.octets read.1) ++ drop read.2 rest.now))) }
{
    let Some(ballot) = ballot_at(rest) else {
        return Ok(None);
    };
    match command_at(alloc, &rest[8..], known)? {
        Some((command, size)) => Ok(Some((ballot, command, 8 + size))),
        None => Ok(None),
    }
}

/// The fact that a vote is taken, from its fields, and the length of its octets.
fn took_at<'a, C: Codec>(
    alloc: Global,
    fields: &'a [u8],
    known: &mut KnownFacts<'a, C>,
) -> Result<Option<(Fact<C>, usize)>, AllocError>
    ensures { IfOk result (λ found. FactOrNot C.octets 3 fields.now found) }
{
    C::one_encoding();
    let Some(position) = position_at(fields) else {
        return Ok(None);
    };
    match vote_at(alloc, &fields[4..], known)? {
        Some((ballot, command, size)) => Ok(Some((
            Fact::Took {
                position,
                ballot,
                command,
            },
            5 + size,
        ))),
        None => Ok(None),
    }
}

/// The fact that a command is chosen, from its fields, and the length of its octets.
fn chosen_at<'a, C: Codec>(
    alloc: Global,
    fields: &'a [u8],
    known: &mut KnownFacts<'a, C>,
) -> Result<Option<(Fact<C>, usize)>, AllocError>
    ensures { IfOk result (λ found. FactOrNot C.octets 4 fields.now found) }
{
    let Some(position) = position_at(fields) else {
        return Ok(None);
    };
    match command_at(alloc, &fields[4..], known)? {
        Some((command, size)) => Ok(Some((Fact::Chosen { position, command }, 5 + size))),
        None => Ok(None),
    }
}

/// The fact that begins here, and the length of its octets.
fn fact_at<'a, C: Codec>(
    alloc: Global,
    rest: &'a [u8],
    known: &mut KnownFacts<'a, C>,
) -> Result<Option<(Fact<C>, usize)>, AllocError>
    ensures { IfOk result (λ found. Begins C.octets rest.now found) }
{
    let [kind, fields @ ..] = rest else {
        return Ok(None);
    };
    match *kind {
        1 => Ok(used_at(fields)),
        2 => Ok(promised_at(fields)),
        3 => took_at(alloc, fields, known),
        4 => chosen_at(alloc, fields, known),
        _ => Ok(None),
    }
}

/// Reads the facts of a whole entry, and adds them to the list. False where the entry is not a list
/// of facts; then what was added has no meaning.
pub(crate) fn read_facts<'a, C: Codec>(
    alloc: Global,
    body: &'a [u8],
    facts: &mut Vec<Fact<C>>,
    known: &mut KnownFacts<'a, C>,
) -> Result<bool, AllocError>
    ensures found { IfOk result (λ found. found ≡ true
        → (more : List (Fact C)) × AllFit C.octets more
        × (body.now ≡ encodings C.octets more) × (facts.new.items ≡ facts.old.items ++ more)) }
    ensures none { IfOk result (λ found. found ≡ false → (more : List (Fact C))
        → AllFit C.octets more → body.now ≡ encodings C.octets more → ⊥) }
{
    C::one_encoding();
    let mut rest = body;
    while !rest.is_empty() {
        let Some((fact, size)) = fact_at(alloc, rest, known)? else {
            return Ok(false);
        };
        facts.push(fact)?;
        rest = &rest[size..];
    }
    Ok(true)
}
