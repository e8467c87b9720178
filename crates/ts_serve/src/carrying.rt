//! Messages are carried between servers.

ghost use Rattle.std.specs.Prelude.{◌≡◌, ◌↔◌, All, IfOk, IfSome, IsTrue};
ghost use Rattle.ts_serve.specs.inside.Carrying.{IsDelivered, IsGiven, are_given, is_message};
ghost use Rattle.ts_serve.specs.inside.Carrying.{is_reply};
ghost use Rattle.std.specs.List.{flat_map, list_all, AllByRecursion};
ghost use Rattle.ts_wire.specs.Frames.{FrameFits, frame_encoding};

use crate::outbox::MAX_WAITING;
use crate::peer::Peer;
use std::alloc::{AllocError, Global};
use ts_wire::{Feed, FeedError, Frame, WriteError, write_frame};

/// The frame Take.
const TAKE: [u8; 6] = [0, 0, 0, 2, 2, 0x12];

/// How many frames answer Take at most: the messages of an outbox, and their count.
const GIVEN: u16 = MAX_WAITING as u16 + 1;

/// The frames that octets are, if they are frames, one after another, and nothing else.
fn frames_of(alloc: Global, octets: &[u8]) -> Result<Option<Vec<Frame>>, AllocError>
    ensures { IfOk result (λ found. IfSome found
        (λ frames. (octets.now ≡ flat_map frame_encoding frames.items)
        × AllByRecursion FrameFits frames.items)) }
{
    let mut feed = Feed::new(alloc);
    feed.push(octets)?;
    let mut frames = Vec::new(alloc);
    while !feed.is_empty() {
        match feed.take() {
            Ok(Some(frame)) => frames.push(frame)?,
            Ok(None) | Err(FeedError::Frame(_)) => return Ok(None),
            Err(FeedError::Memory) => return Err(AllocError),
        }
    }
    Ok(Some(frames))
}

/// Whether a frame is a message from a node to a node.
fn is_message(frame: &Frame) -> bool
    ensures { result ≡ is_message frame.now }
{
    matches!(frame, Frame::Peer(_))
}

/// Whether all frames are messages from a node to a node.
fn are_messages(frames: &[Frame]) -> bool
    ensures { result ≡ list_all is_message frames.now }
{
    frames.iter().all(|frame| is_message(frame))
}

/// Whether these frames are messages, at most as many as an outbox holds, and the last one is their
/// count.
fn are_given(messages: &[Frame], last: &Frame) -> bool
    ensures { result ≡ are_given messages.now last.now }
{
    let Frame::Done { count } = last else {
        return false;
    };
    messages.len() <= MAX_WAITING && messages.len() == *count as usize && are_messages(messages)
}

/// Whether frames are messages, at most as many as an outbox holds, and then their count.
fn is_given(frames: &[Frame]) -> bool
    ensures { IsTrue result ↔ IsGiven frames.now }
{
    match frames.split_last() {
        Some((last, messages)) => are_given(messages, last),
        None => false,
    }
}

/// Whether a frame answers a message: it was done and nothing was given, or a node's fault.
fn is_reply(frame: &Frame) -> bool
    ensures { result ≡ is_reply frame.now }
{
    match frame {
        Frame::Done { count } => *count == 0,
        Frame::NodeFault { .. } => true,
        _ => false,
    }
}

/// Whether these frames are an answer to a message, and nothing else.
fn is_delivered(frames: &[Frame]) -> bool
    ensures { IsTrue result ↔ IsDelivered frames.now }
{
    match frames {
        [frame] => is_reply(frame),
        _ => false,
    }
}

/// The messages that a peer gives, each in its frame. None where the exchange fails.
fn take_from<P: Peer>(alloc: Global, peer: &mut P) -> Result<Vec<Frame>, AllocError>
    requires { P.is_ready peer.old }
    ensures { P.is_ready peer.new }
{
    if let Ok(answer) = peer.exchange(&TAKE, GIVEN) {
        if let Some(mut frames) = frames_of(alloc, &answer)? {
            if is_given(&frames) {
                drop(frames.pop());
                return Ok(frames);
            }
        }
    }
    Ok(Vec::new(alloc))
}

/// The messages that the peers give, in the peers' order, each in its frame.
fn take_all<P: Peer>(alloc: Global, peers: &mut [P]) -> Result<Vec<Frame>, AllocError>
    requires { All P.is_ready peers.old }
    ensures { All P.is_ready peers.new }
{
    let mut messages = Vec::new(alloc);
    for place in 0..peers.len() {
        let mut given = take_from(alloc, &mut peers[place])?;
        messages.append(&mut given)?;
    }
    Ok(messages)
}

/// Delivers a message to its node, by an exchange of its own. False where no peer is that node, or
/// the exchange fails.
fn deliver<P: Peer>(alloc: Global, peers: &mut [P], frame: &Frame) -> Result<bool, AllocError>
    requires { All P.is_ready peers.old }
    ensures { All P.is_ready peers.new }
{
    let Frame::Peer(message) = frame else {
        return Ok(false);
    };
    let node = message.to as usize;
    if node == 0 || peers.len() < node {
        return Ok(false);
    }
    let mut octets = Vec::new(alloc);
    match write_frame(alloc, &mut octets, frame) {
        Ok(()) => {}
        Err(WriteError::Memory) => return Err(AllocError),
        Err(WriteError::Length) => return Ok(false),
    }
    let Ok(answer) = peers[node - 1].exchange(&octets, 1) else {
        return Ok(false);
    };
    match frames_of(alloc, &answer)? {
        Some(frames) => Ok(is_delivered(&frames)),
        None => Ok(false),
    }
}

/// Carries the messages that wait at the peers, once, and counts those that were delivered.
fn carry_once<P: Peer>(alloc: Global, peers: &mut [P]) -> Result<u64, AllocError>
    requires { All P.is_ready peers.old }
    ensures { All P.is_ready peers.new }
{
    let messages = take_all(alloc, peers)?;
    let mut delivered = 0u64;
    for message in &messages {
        if deliver(alloc, peers, message)? {
            delivered = delivered.saturating_add(1);
        }
    }
    Ok(delivered)
}

/// Carries messages between peers, of which peer i is node i, and counts those that were delivered.
///
/// In a round each peer in order is asked for the messages that wait there; then these are
/// delivered in that order, each by an exchange of its own. One that is answered by a node's fault
/// counts as delivered. A message to a node without a peer does not count. An exchange whose answer
/// is not what a server gives has failed: what it carried does not count and is not sent again, and
/// the round goes on.
///
/// # Errors
///
/// Out of memory here; where it is refused to an exchange, that has failed.
pub fn carry<P: Peer>(alloc: Global, peers: &mut [P], rounds: u32) -> Result<u64, AllocError>
    requires { All P.is_ready peers.old }
    ensures { All P.is_ready peers.new }
{
    let mut delivered = 0u64;
    for _round in 0..rounds {
        delivered = delivered.saturating_add(carry_once(alloc, peers)?);
    }
    Ok(delivered)
}
