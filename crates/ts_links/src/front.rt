//! The frame at the front of octets.

ghost use Rattle.std.specs.Prelude.{◌≡◌, ◌≤◌, ◌<◌, ◌^◌, ◌++◌, ℕ, List, length, drop};
ghost use Rattle.std.specs.Prelude.{IfSome, MatchOption, MatchResult};
ghost use Rattle.std.specs.Int.{to_be_bytes, w32};
ghost use Rattle.ts_wire.specs.Frames.{frame_encoding, FrameFits};
ghost use Rattle.ts_wire.specs.Stream.{IsPartial};
ghost use Rattle.ts_wire.specs.Taking.{IsWrong};
ghost use Rattle.ts_wire.specs.inside.Taking.{SizeOr};

use std::alloc::Global;
use ts_wire::{Feed, FeedError, Frame, FrameFault, MAX_LENGTH};

/// The number that begins here.
fn length_at(octets: &[u8]) -> Option<u32>
    ensures found { MatchOption result (length octets.now < 4)
        (λ n. octets.now ≡ to_be_bytes w32 n ++ drop 4 octets.now) }
    ensures range { IfSome result (λ n. n < 2 ^ 32) }
    ensures enough { IfSome result (λ _. 4 ≤ length octets.now) }
{
    if octets.len() < 4 {
        return None;
    }
    Some(u32::from_be_bytes([octets[0], octets[1], octets[2], octets[3]]))
}

/// The length of a frame that begins here, if the frame is whole.
pub(crate) fn size_of(octets: &[u8]) -> Result<Option<usize>, FrameFault>
    ensures { SizeOr octets.now result }
{
    let Some(size) = length_at(octets) else {
        return Ok(None);
    };
    let size = size as usize;
    if size < 2 || size > MAX_LENGTH {
        return Err(FrameFault::Length);
    }
    if octets.len() - 4 < size {
        return Ok(None);
    }
    Ok(Some(size))
}

/// The frame of these octets, which are as many as their length says.
fn whole_frame(alloc: Global, octets: &[u8]) -> Result<Option<Frame>, FeedError>
    ensures { MatchResult result
        (λ found. MatchOption found (IsPartial octets.now)
        (λ frame. FrameFits frame × (rest : List ℕ) × (octets.now ≡ frame_encoding frame ++ rest)))
        (λ e. IsWrong e octets.now) }
{
    let mut feed = Feed::new(alloc);
    feed.push(octets)?;
    feed.take()
}

/// The frame that begins here, and the length of its octets.
pub(crate) fn first(alloc: Global, octets: &[u8]) -> Result<Option<(Frame, usize)>, FeedError>
    ensures { MatchResult result
        (λ found. MatchOption found (IsPartial octets.now)
        (λ x. FrameFits x.0 × (x.1 ≤ length octets.now)
        × (octets.now ≡ frame_encoding x.0 ++ drop x.1 octets.now)))
        (λ e. IsWrong e octets.now) }
{
    let size = match size_of(octets) {
        Ok(Some(size)) => size,
        Ok(None) => return Ok(None),
        Err(fault) => return Err(FeedError::Frame(fault)),
    };
    match whole_frame(alloc, &octets[..4 + size]) {
        Ok(Some(frame)) => Ok(Some((frame, 4 + size))),
        Ok(None) => Ok(None),
        Err(fault) => Err(fault),
    }
}
