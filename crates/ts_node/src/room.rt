//! Whether a record can keep facts at once.

ghost use Rattle.std.specs.Prelude.{◌≡◌, ◌≤◌, ◌+◌, ◌↔◌, length, IfOk, IfSome, IfNone, true};
ghost use Rattle.ts_record.specs.Facts.{AllFit, FactFits, IsBallot, IsPosition, fact_encoding};
ghost use Rattle.ts_record.specs.Facts.{encodings};

use std::alloc::{AllocError, Global};
use ts_synod::{Ballot, Codec, Fact};

/// The most octets of an entry of a record.
pub(crate) const MAX_BODY: usize = 4_194_500;

/// Whether a number is a position of the log, which are 1 to 1,000,000.
fn is_position(position: u32) -> bool
    ensures { (result ≡ true) ↔ IsPosition position }
{
    1 <= position && position <= 1_000_000
}

/// Whether a number is a ballot: a round of 1 to 4,294,967,295, times 16, plus a node of 1 to 9.
fn is_ballot(ballot: Ballot) -> bool
    ensures { (result ≡ true) ↔ IsBallot ballot }
{
    16 <= ballot && ballot < 1 << 36 && 1 <= ballot % 16 && ballot % 16 <= 9
}

/// How many octets a command has, if it has some and a record can keep them.
fn command_size<C: Codec>(alloc: Global, command: &C) -> Result<Option<usize>, AllocError>
    ensures some { IfOk result (λ found. IfSome found
        (λ size. (size ≡ length (C.octets command.now)) × (1 ≤ size) × (size ≤ 4194500))) }
    ensures none { IfOk result (λ found. IfNone found (1 ≤ length (C.octets command.now)
        → length (C.octets command.now) ≤ 4194500 → ⊥)) }
{
    let mut octets = Vec::new(alloc);
    command.write(&mut octets)?;
    let size = octets.len();
    if 1 <= size && size <= MAX_BODY {
        return Ok(Some(size));
    }
    Ok(None)
}

/// How many octets a fact takes, if it fits and a record can keep them.
fn fact_size<C: Codec>(alloc: Global, fact: &Fact<C>) -> Result<Option<usize>, AllocError>
    ensures some { IfOk result (λ found. IfSome found (λ size. FactFits C.octets fact.now
        × (size ≡ length (fact_encoding C.octets fact.now)) × (size ≤ 4194517))) }
    ensures none { IfOk result (λ found. IfNone found (FactFits C.octets fact.now
        → length (fact_encoding C.octets fact.now) ≤ 4194500 → ⊥)) }
{
    match fact {
        Fact::Used { round } => {
            if 1 <= *round {
                return Ok(Some(5));
            }
        }
        Fact::Promised { position, ballot } => {
            if is_position(*position) && is_ballot(*ballot) {
                return Ok(Some(13));
            }
        }
        Fact::Took {
            position,
            ballot,
            command,
        } => {
            if let Some(size) = command_size(alloc, command)? {
                if is_position(*position) && is_ballot(*ballot) {
                    return Ok(Some(17 + size));
                }
            }
        }
        Fact::Chosen { position, command } => {
            if let Some(size) = command_size(alloc, command)? {
                if is_position(*position) {
                    return Ok(Some(9 + size));
                }
            }
        }
    }
    Ok(None)
}

/// How many octets facts take behind so many, if a record can keep all of these at once.
pub(crate) fn room_for<C: Codec>(
    alloc: Global,
    facts: &[Fact<C>],
    before: usize,
) -> Result<Option<usize>, AllocError>
    requires { before ≤ 4194500 }
    ensures some { IfOk result (λ found. IfSome found (λ size. AllFit C.octets facts.now
        × (size ≡ before + length (encodings C.octets facts.now)) × (size ≤ 4194500))) }
    ensures none { IfOk result (λ found. IfNone found (AllFit C.octets facts.now
        → before + length (encodings C.octets facts.now) ≤ 4194500 → ⊥)) }
{
    let mut size = before;
    for fact in facts {
        let Some(more) = fact_size(alloc, fact)? else {
            return Ok(None);
        };
        if MAX_BODY < size + more {
            return Ok(None);
        }
        size += more;
    }
    Ok(Some(size))
}
