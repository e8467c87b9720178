//! Facts are written as an entry.

ghost use Rattle.std.specs.Prelude.{◌≡◌, ◌≤◌, ◌+◌, ◌^◌, ◌<◌, ◌++◌, length, IfOk, OnOk, cond, []};
ghost use Rattle.std.specs.Prelude.{◌∷◌, vec_len, vec_capacity};
ghost use Rattle.std.specs.Int.{to_be_bytes, w32};
ghost use Rattle.ts_journal.specs.Images.{entry};
ghost use Rattle.ts_record.specs.Facts.{blob, fact_encoding, encodings};

use std::alloc::{AllocError, Global};
use ts_synod::{Codec, Fact};

/// Copies of facts.
pub(crate) fn copies<C: Codec>(alloc: Global, facts: &[Fact<C>]) -> Result<Vec<Fact<C>>, AllocError>
    ensures { IfOk result (λ copies. copies.items ≡ facts.now) }
{
    let mut all = Vec::new(alloc);
    for fact in facts {
        all.push(fact.try_copy(alloc)?)?;
    }
    Ok(all)
}

/// Copies of facts, where they are wanted.
pub(crate) fn copies_if<C: Codec>(
    alloc: Global,
    wanted: bool,
    facts: &[Fact<C>],
) -> Result<Vec<Fact<C>>, AllocError>
    ensures { IfOk result (λ copies. copies.items ≡ cond wanted facts.now []) }
{
    if wanted {
        copies(alloc, facts)
    } else {
        Ok(Vec::new(alloc))
    }
}

/// Moves facts after others, for which there is room.
pub(crate) fn move_behind<C: Codec>(facts: &mut Vec<Fact<C>>, more: &mut Vec<Fact<C>>)
    requires { vec_len facts.old + vec_len more.old ≤ vec_capacity facts.old }
    ensures { facts.new.items ≡ facts.old.items ++ more.old.items }
{
    let moved = facts.append(more);
    prove!(moved.is_ok());
}

/// Writes octets behind their length in four octets.
fn push_blob(out: &mut Vec<u8>, octets: &[u8]) -> Result<(), AllocError>
    requires { length octets.now < 2 ^ 32 }
    ensures { OnOk result (out.new.items ≡ out.old.items ++ blob octets.now) }
{
    out.extend_from_slice(&(octets.len() as u32).to_be_bytes())?;
    out.extend_from_slice(octets)?;
    Ok(())
}

/// Writes a command's octets behind their length in four octets.
fn push_command<C: Codec>(alloc: Global, out: &mut Vec<u8>, command: &C) -> Result<(), AllocError>
    requires { length (C.octets command.now) < 2 ^ 32 }
    ensures { OnOk result (out.new.items ≡ out.old.items ++ blob (C.octets command.now)) }
{
    let mut octets = Vec::new(alloc);
    command.write(&mut octets)?;
    push_blob(out, &octets)
}

/// Writes the kind of a fact, and the number that every kind begins with: a round or a position.
fn push_kind(out: &mut Vec<u8>, kind: u8, number: u32) -> Result<(), AllocError>
    ensures { OnOk result (out.new.items ≡ out.old.items ++ kind ∷ to_be_bytes w32 number) }
{
    out.push(kind)?;
    out.extend_from_slice(&number.to_be_bytes())?;
    Ok(())
}

/// Writes the encoding of a fact.
fn push_encoding<C: Codec>(
    alloc: Global,
    out: &mut Vec<u8>,
    fact: &Fact<C>,
) -> Result<(), AllocError>
    requires { length (fact_encoding C.octets fact.now) < 2 ^ 32 }
    ensures { OnOk result (out.new.items ≡ out.old.items ++ fact_encoding C.octets fact.now) }
{
    match fact {
        Fact::Used { round } => push_kind(out, 1, *round)?,
        Fact::Promised { position, ballot } => {
            push_kind(out, 2, *position)?;
            out.extend_from_slice(&ballot.to_be_bytes())?;
        }
        Fact::Took {
            position,
            ballot,
            command,
        } => {
            push_kind(out, 3, *position)?;
            out.extend_from_slice(&ballot.to_be_bytes())?;
            push_command(alloc, out, command)?;
        }
        Fact::Chosen { position, command } => {
            push_kind(out, 4, *position)?;
            push_command(alloc, out, command)?;
        }
    }
    Ok(())
}

/// The encodings of facts, one after another.
fn encodings_of<C: Codec>(alloc: Global, facts: &[Fact<C>]) -> Result<Vec<u8>, AllocError>
    requires { length (encodings C.octets facts.now) < 2 ^ 32 }
    ensures { IfOk result (λ octets. octets.items ≡ encodings C.octets facts.now) }
{
    let mut octets = Vec::new(alloc);
    for fact in facts {
        push_encoding(alloc, &mut octets, fact)?;
    }
    Ok(octets)
}

/// What follows the commit byte of an entry: its length, its octets, and a clear commit byte.
fn framed_entry(alloc: Global, body: &[u8]) -> Result<Vec<u8>, AllocError>
    requires { length body.now ≤ 4194500 }
    ensures { IfOk result (λ octets. octets.items ≡ entry body.now) }
{
    let mut out = Vec::new(alloc);
    push_blob(&mut out, body)?;
    out.push(0)?;
    Ok(out)
}

/// What follows the commit byte of an entry of these facts.
pub(crate) fn entry_of<C: Codec>(alloc: Global, facts: &[Fact<C>]) -> Result<Vec<u8>, AllocError>
    requires { length (encodings C.octets facts.now) ≤ 4194500 }
    ensures { IfOk result (λ octets. octets.items ≡ entry (encodings C.octets facts.now)) }
{
    let body = encodings_of(alloc, facts)?;
    let out = framed_entry(alloc, &body)?;
    Ok(out)
}

/// What follows the commit byte of an entry of one fact.
pub(crate) fn entry_of_one<C: Codec>(alloc: Global, fact: &Fact<C>) -> Result<Vec<u8>, AllocError>
    requires { length (fact_encoding C.octets fact.now) ≤ 4194500 }
    ensures { IfOk result (λ octets. octets.items ≡ entry (fact_encoding C.octets fact.now)) }
{
    let mut body = Vec::new(alloc);
    push_encoding(alloc, &mut body, fact)?;
    let out = framed_entry(alloc, &body)?;
    Ok(out)
}
