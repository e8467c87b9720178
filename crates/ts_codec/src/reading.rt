//! Parts at the front of octets. Each call gives the part and borrows the octets after it; `Form`
//! where they are cut, or the part is out of its range.

ghost use Rattle.std.specs.Prelude.{◌≡◌, Ok};
ghost use Rattle.std.specs.Int.{w16, w32, w64};
ghost use Rattle.ts_codec.specs.Ranges.{is_short};
ghost use Rattle.ts_codec.specs.Reading.{Gives, octet_at, number_at, octets_at, blob8_at};
ghost use Rattle.ts_codec.specs.Reading.{blob16_at, blob32_at, short_blob_at, oid_at, many_at};
ghost use Rattle.ts_codec.specs.Reading.{node_at, position_at, prefix_at, ballot_at, signed_at};
ghost use Rattle.ts_codec.specs.Reading.{tag_at};

use crate::fault::ReadFault;
use crate::ranges::{is_ballot, is_node, is_position, is_prefix};
use std::alloc::Global;
use ts_der::{Oid, OidRef};

/// An octet.
pub fn octet(octets: &[u8]) -> Result<(u8, &[u8]), ReadFault>
    ensures { Gives (λ x. (x.0, x.1.now)) result (octet_at octets.now) }
{
    match octets {
        [octet, rest @ ..] => Ok((*octet, rest)),
        [] => Err(ReadFault::Form),
    }
}

/// Two octets as a number.
pub fn number16(octets: &[u8]) -> Result<(u16, &[u8]), ReadFault>
    ensures { Gives (λ x. (x.0, x.1.now)) result (number_at w16 octets.now) }
{
    if octets.len() < 2 {
        return Err(ReadFault::Form);
    }
    let (front, rest) = octets.split_at(2);
    Ok((u16::from_be_bytes([front[0], front[1]]), rest))
}

/// Four octets as a number.
pub fn number32(octets: &[u8]) -> Result<(u32, &[u8]), ReadFault>
    ensures { Gives (λ x. (x.0, x.1.now)) result (number_at w32 octets.now) }
{
    if octets.len() < 4 {
        return Err(ReadFault::Form);
    }
    let (front, rest) = octets.split_at(4);
    let number = u32::from_be_bytes([front[0], front[1], front[2], front[3]]);
    Ok((number, rest))
}

/// Eight octets as a number.
pub fn number64(octets: &[u8]) -> Result<(u64, &[u8]), ReadFault>
    ensures { Gives (λ x. (x.0, x.1.now)) result (number_at w64 octets.now) }
{
    if octets.len() < 8 {
        return Err(ReadFault::Form);
    }
    let (front, rest) = octets.split_at(8);
    let number = u64::from_be_bytes([
        front[0], front[1], front[2], front[3], front[4], front[5], front[6], front[7],
    ]);
    Ok((number, rest))
}

/// Eight octets as a signed number.
#[tactic(auto, unfolding(crate::specs::Reading::signed_at))]
pub fn signed_number(octets: &[u8]) -> Result<(i64, &[u8]), ReadFault>
    ensures { Gives (λ x. (x.0, x.1.now)) result (signed_at octets.now) }
{
    let (number, rest) = number64(octets)?;
    Ok((number.cast_signed(), rest))
}

/// An octet that is always this one.
#[tactic(auto, unfolding(crate::specs::Reading::tag_at))]
pub fn tag(tag: u8, octets: &[u8]) -> Result<(u8, &[u8]), ReadFault>
    ensures { Gives (λ x. (x.0, x.1.now)) result (tag_at tag octets.now) }
{
    let (found, rest) = octet(octets)?;
    if found != tag {
        return Err(ReadFault::Form);
    }
    Ok((found, rest))
}

/// So many octets.
pub fn octets_of(size: usize, octets: &[u8]) -> Result<(&[u8], &[u8]), ReadFault>
    ensures { Gives (λ x. (x.0.now, x.1.now)) result (octets_at size octets.now) }
{
    if octets.len() < size {
        return Err(ReadFault::Form);
    }
    Ok(octets.split_at(size))
}

/// The 16 octets of a command's id.
pub fn id(octets: &[u8]) -> Result<([u8; 16], &[u8]), ReadFault>
    ensures { Gives (λ x. (x.0, x.1.now)) result (octets_at 16 octets.now) }
{
    if octets.len() < 16 {
        return Err(ReadFault::Form);
    }
    let (front, rest) = octets.split_at(16);
    match <[u8; 16]>::try_from(front) {
        Ok(id) => Ok((id, rest)),
        Err(_) => Err(ReadFault::Form),
    }
}

/// The 32 octets of a digest.
pub fn digest(octets: &[u8]) -> Result<([u8; 32], &[u8]), ReadFault>
    ensures { Gives (λ x. (x.0, x.1.now)) result (octets_at 32 octets.now) }
{
    if octets.len() < 32 {
        return Err(ReadFault::Form);
    }
    let (front, rest) = octets.split_at(32);
    match <[u8; 32]>::try_from(front) {
        Ok(digest) => Ok((digest, rest)),
        Err(_) => Err(ReadFault::Form),
    }
}

/// An octet of length, and that many octets.
#[tactic(auto, unfolding(crate::specs::Reading::blob8_at))]
pub fn blob8(octets: &[u8]) -> Result<(&[u8], &[u8]), ReadFault>
    ensures { Gives (λ x. (x.0.now, x.1.now)) result (blob8_at octets.now) }
{
    let (size, rest) = octet(octets)?;
    octets_of(usize::from(size), rest)
}

/// Two octets of length, and that many octets.
#[tactic(auto, unfolding(crate::specs::Reading::blob16_at))]
pub fn blob16(octets: &[u8]) -> Result<(&[u8], &[u8]), ReadFault>
    ensures { Gives (λ x. (x.0.now, x.1.now)) result (blob16_at octets.now) }
{
    let (size, rest) = number16(octets)?;
    octets_of(usize::from(size), rest)
}

/// Four octets of length, and that many octets.
#[tactic(auto, unfolding(crate::specs::Reading::blob32_at))]
pub fn blob32(octets: &[u8]) -> Result<(&[u8], &[u8]), ReadFault>
    ensures { Gives (λ x. (x.0.now, x.1.now)) result (blob32_at octets.now) }
{
    let (size, rest) = number32(octets)?;
    octets_of(size as usize, rest)
}

/// Four octets of length, and that many octets, at most so many.
#[tactic(auto, unfolding(crate::specs::Reading::short_blob_at))]
pub fn short_blob(most: usize, octets: &[u8]) -> Result<(&[u8], &[u8]), ReadFault>
    ensures { Gives (λ x. (x.0.now, x.1.now)) result (short_blob_at most octets.now) }
{
    let (content, rest) = blob32(octets)?;
    if content.len() > most {
        return Err(ReadFault::Form);
    }
    Ok((content, rest))
}

/// The number of a node.
#[tactic(auto, unfolding(crate::specs::Reading::node_at))]
pub fn node(octets: &[u8]) -> Result<(u8, &[u8]), ReadFault>
    ensures { Gives (λ x. (x.0, x.1.now)) result (node_at octets.now) }
{
    let (number, rest) = octet(octets)?;
    if !is_node(number) {
        return Err(ReadFault::Form);
    }
    Ok((number, rest))
}

/// A position.
#[tactic(auto, unfolding(crate::specs::Reading::position_at))]
pub fn position(octets: &[u8]) -> Result<(u32, &[u8]), ReadFault>
    ensures { Gives (λ x. (x.0, x.1.now)) result (position_at octets.now) }
{
    let (number, rest) = number32(octets)?;
    if !is_position(number) {
        return Err(ReadFault::Form);
    }
    Ok((number, rest))
}

/// A number of commands.
#[tactic(auto, unfolding(crate::specs::Reading::prefix_at))]
pub fn prefix(octets: &[u8]) -> Result<(u32, &[u8]), ReadFault>
    ensures { Gives (λ x. (x.0, x.1.now)) result (prefix_at octets.now) }
{
    let (number, rest) = number32(octets)?;
    if !is_prefix(number) {
        return Err(ReadFault::Form);
    }
    Ok((number, rest))
}

/// A ballot.
#[tactic(auto, unfolding(crate::specs::Reading::ballot_at))]
pub fn ballot(octets: &[u8]) -> Result<(u64, &[u8]), ReadFault>
    ensures { Gives (λ x. (x.0, x.1.now)) result (ballot_at octets.now) }
{
    let (number, rest) = number64(octets)?;
    if !is_ballot(number) {
        return Err(ReadFault::Form);
    }
    Ok((number, rest))
}

/// The contents octets of an object identifier, after an octet of their length.
#[tactic(auto, unfolding(crate::specs::Reading::oid_at))]
pub fn oid(alloc: Global, octets: &[u8]) -> Result<(Oid, &[u8]), ReadFault>
    ensures { Gives (λ x. (x.0, x.1.now)) result (oid_at octets.now) }
{
    let (content, rest) = blob8(octets)?;
    let Some(oid) = OidRef::from_content(content) else {
        return Err(ReadFault::Form);
    };
    Ok((Oid::from_oid(alloc, oid)?, rest))
}

/// So many object identifiers.
pub fn oids(alloc: Global, count: usize, octets: &[u8]) -> Result<(Vec<Oid>, &[u8]), ReadFault>
    ensures { Gives (λ x. (x.0.items, x.1.now)) result (many_at oid_at count octets.now) }
{
    let mut oids = Vec::new(alloc);
    let mut rest = octets;
    for _ in 0..count {
        let (oid, after) = oid(alloc, rest)?;
        oids.push(oid)?;
        rest = after;
    }
    Ok((oids, rest))
}
