//! A whole stream, in whatever pieces it comes.

ghost use Rattle.std.specs.Prelude.{◌≡◌, ◌≤◌, ◌<◌, ◌++◌, ℕ, List, Option, length, map, slice_index};
ghost use Rattle.std.specs.Prelude.{IfOk};
ghost use Rattle.std.specs.List.{flat_map, AllByRecursion};
ghost use Rattle.ts_wire.specs.Frames.{frame_encoding, FrameFits};
ghost use Rattle.ts_wire.specs.Stream.{Ends, Splits};
ghost use Rattle.ts_wire.specs.inside.Taking.{Drains};
ghost use Rattle.ts_wire.specs.declared.fault.FrameFault.{FrameFault};
ghost use Rattle.ts_wire.specs.declared.frame.Frame.{Frame};

use crate::fault::FrameFault;
use crate::feed::Feed;
use crate::frame::Frame;
use crate::wire_error::FeedError;
use std::alloc::{AllocError, Global};

/// Takes the frames that are whole, up to a fault, and puts them after others.
fn drain(feed: &mut Feed, frames: &mut Vec<Frame>) -> Result<Option<FrameFault>, AllocError>
    ensures { IfOk result (λ fault. Drains feed.old frames.old.items feed.new frames.new.items
        fault) }
{
    loop {
        match feed.take() {
            Ok(Some(frame)) => frames.push(frame)?,
            Ok(None) => return Ok(None),
            Err(FeedError::Frame(fault)) => return Ok(Some(fault)),
            Err(FeedError::Memory) => return Err(AllocError),
        }
    }
}

/// The frames of a stream that comes in these pieces, and the fault that follows them in a frame's
/// place, if one does.
///
/// # Errors
///
/// Out of memory.
pub fn decode(
    alloc: Global,
    pieces: &[Vec<u8>],
) -> Result<(Vec<Frame>, Option<FrameFault>), AllocError>
    // The stream is these frames, up to the fault or to less than a whole frame.
    ensures splits { IfOk result (λ read. Splits
        (flat_map (λ piece. piece.items) pieces.now) read.0.items read.1) }
    // No others are, however the stream was cut into pieces.
    ensures only { IfOk result (λ read. (others : List Frame) (other : Option FrameFault)
        → Splits (flat_map (λ piece. piece.items) pieces.now) others other
        → (read.0.items ≡ others) × (read.1 ≡ other)) }
{
    let mut feed = Feed::new(alloc);
    let mut frames = Vec::new(alloc);
    for piece in pieces {
        feed.push(piece.as_slice())?;
        let fault = drain(&mut feed, &mut frames)?;
        if fault.is_some() {
            return Ok((frames, fault));
        }
    }
    Ok((frames, None))
}
