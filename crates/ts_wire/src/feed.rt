//! A stream that comes in pieces is read as frames.

ghost use Rattle.std.specs.Prelude.{◌≡◌, ◌≤◌, ◌<◌, ◌^◌, ◌++◌, [], None, ℕ, List, length};
ghost use Rattle.std.specs.Prelude.{drop, nat_eq, OnOk, OnErr, IfOk, IfSome, IfNone, MatchResult};
ghost use Rattle.std.specs.Prelude.{MatchOption, ⊤};
ghost use Rattle.std.specs.Int.{to_be_bytes, w32};
ghost use Rattle.ts_wire.specs.Frames.{frame_encoding, FrameFits};
ghost use Rattle.ts_wire.specs.inside.FrameReading.{frame_in};
ghost use Rattle.ts_wire.specs.Stream.{IsPartial, IsFault};
ghost use Rattle.ts_wire.specs.Taking.{IsWrong};
ghost use Rattle.ts_wire.specs.inside.Taking.{FrameGives, SizeOr};

use crate::fault::FrameFault;
use crate::frame::Frame;
use crate::reading::{fields, is_kind};
use crate::wire_error::FeedError;
use crate::writing::MAX_LENGTH;
use std::alloc::{AllocError, Global};
use std::marker::Model;
use ts_codec::ReadFault;

/// The frame that follows its length.
#[tactic(auto, unfolding(crate::specs::inside::FrameReading::frame_in))]
fn frame_of(alloc: Global, body: &[u8]) -> Result<Frame, FeedError>
    ensures { FrameGives result (frame_in body.now) }
{
    let [version, kind, rest @ ..] = body else {
        return Err(FeedError::Frame(FrameFault::Length));
    };
    if *version != 2 {
        return Err(FeedError::Frame(FrameFault::Version));
    }
    if !is_kind(*kind) {
        return Err(FeedError::Frame(FrameFault::Kind));
    }
    match fields(alloc, *kind, rest) {
        Ok((frame, after)) => {
            if after.is_empty() {
                Ok(frame)
            } else {
                drop(frame);
                Err(FeedError::Frame(FrameFault::Trailing))
            }
        }
        Err(ReadFault::Form) => Err(FeedError::Frame(FrameFault::Field)),
        Err(ReadFault::Memory) => Err(FeedError::Memory),
    }
}

/// The number that begins here.
fn length_at(octets: &[u8]) -> Option<u32>
    ensures found { MatchOption result (length octets.now < 4)
        (λ n. octets.now ≡ to_be_bytes w32 n ++ drop 4 octets.now) }
    ensures range { IfSome result (λ n. n < 2 ^ 32) }
    ensures enough { IfSome result (λ _. 4 ≤ length octets.now) }
{
    if octets.len() < 4 {
        return None;
    }
    Some(u32::from_be_bytes([octets[0], octets[1], octets[2], octets[3]]))
}

/// The length of a frame that begins here, if the frame is whole.
fn size_of(octets: &[u8]) -> Result<Option<usize>, FrameFault>
    ensures { SizeOr octets.now result }
{
    let Some(size) = length_at(octets) else {
        return Ok(None);
    };
    let size = size as usize;
    if size < 2 || size > MAX_LENGTH {
        return Err(FrameFault::Length);
    }
    if octets.len() - 4 < size {
        return Ok(None);
    }
    Ok(Some(size))
}

/// The frame that begins here, and the length of its octets.
fn first(alloc: Global, octets: &[u8]) -> Result<Option<(Frame, usize)>, FeedError>
    ensures { MatchResult result
        (λ found. MatchOption found (IsPartial octets.now)
        (λ x. FrameFits x.0 × (x.1 ≤ length octets.now)
        × (octets.now ≡ frame_encoding x.0 ++ drop x.1 octets.now)))
        (λ e. IsWrong e octets.now) }
{
    let size = match size_of(octets) {
        Ok(Some(size)) => size,
        Ok(None) => return Ok(None),
        Err(fault) => return Err(FeedError::Frame(fault)),
    };
    let rest = &octets[4..];
    match frame_of(alloc, &rest[..size]) {
        Ok(frame) => Ok(Some((frame, 4 + size))),
        Err(fault) => Err(fault),
    }
}

/// A stream's octets of which no frame was taken yet. Contracts see these.
///
/// A frame that comes octet by octet is copied about twice, as the room for it doubles, and is
/// looked into once it is whole.
#[derive(Drop)]
pub struct Feed {
    alloc: Global,
    buffer: Vec<u8>,
    /// Where the octets begin of which no frame was taken yet.
    start: usize,
}

impl Model for Feed {
    ghost Value = { List ℕ };

    ghost view = { λ f. drop f.start f.buffer.items };

    ghost invariant = { λ f. f.start ≤ length f.buffer.items };
}

impl Feed {
    /// A stream of which nothing has come.
    pub fn new(alloc: Global) -> Feed
        ensures { result ≡ [] }
    {
        Feed {
            alloc,
            buffer: Vec::new(alloc),
            start: 0,
        }
    }

    /// Whether all that came was taken as frames.
    pub fn is_empty(&self) -> bool
        ensures { result ≡ nat_eq (length self.now) 0 }
    {
        self.start == self.buffer.len()
    }

    /// Begins the room anew where nothing is left in it.
    fn begin_anew(&mut self)
        ensures { self.new ≡ self.old }
    {
        if self.start == self.buffer.len() {
            self.buffer.truncate(0);
            self.start = 0;
        }
    }

    /// Takes the next piece of the stream.
    ///
    /// # Errors
    ///
    /// Out of memory. Nothing changes then.
    pub fn push(&mut self, piece: &[u8]) -> Result<(), AllocError>
        ensures pushed { OnOk result (self.new ≡ self.old ++ piece.now) }
        ensures unchanged { OnErr result (self.new ≡ self.old) }
    {
        self.begin_anew();
        if self.start <= self.buffer.len() / 2 {
            self.buffer.extend_from_slice(piece)?;
            return Ok(());
        }
        // What was taken is more than what is left, which is moved to the front of new room.
        let mut buffer = Vec::from_slice(self.alloc, &self.buffer[self.start..])?;
        buffer.extend_from_slice(piece)?;
        self.buffer = buffer;
        self.start = 0;
        Ok(())
    }

    /// The next frame; `None` where no whole frame is there yet.
    ///
    /// # Errors
    ///
    /// Out of memory; `Frame` with the fault that is in a frame's place. Nothing changes
    /// then: a fault is answered again, whatever comes after it.
    pub fn take(&mut self) -> Result<Option<Frame>, FeedError>
        ensures frame { IfOk result (λ found. IfSome found
            (λ frame. FrameFits frame × (self.old ≡ frame_encoding frame ++ self.new))) }
        ensures partial { IfOk result (λ found. IfNone found
            (IsPartial self.old × (self.new ≡ self.old))) }
        ensures wrong { MatchResult result (λ _. ⊤)
            (λ e. IsWrong e self.old × (self.new ≡ self.old)) }
    {
        match first(self.alloc, &self.buffer[self.start..])? {
            Some((frame, size)) => {
                self.start += size;
                Ok(Some(frame))
            }
            None => Ok(None),
        }
    }
}
