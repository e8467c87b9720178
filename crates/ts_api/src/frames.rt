//! The frames that the node is asked by.

ghost use Rattle.std.specs.Prelude.{◌≡◌, IfOk};
ghost use Rattle.ts_wire.specs.Frames.{frame_encoding};
ghost use Rattle.ts_wire.specs.declared.frame.Frame.TheVariants as frames;

use std::alloc::{AllocError, Global};
use ts_command::Command;
use ts_question::Question;
use ts_wire::{Frame, write_frame};

/// The frame that asks how many commands the node knows.
const STATUS: [u8; 6] = [0, 0, 0, 2, 2, 0x15];

/// The frame that asks which node it is.
const IDENTIFY: [u8; 6] = [0, 0, 0, 2, 2, 0x17];

/// What stands before the id in a frame that asks what became of a command.
const OUTCOME: [u8; 6] = [0, 0, 0, 18, 2, 0x13];

/// The frame that asks how many commands the node knows.
pub fn status_frame(alloc: Global) -> Result<Vec<u8>, AllocError>
    ensures { IfOk result (λ frame. frame.items ≡ frame_encoding frames.Status) }
{
    Vec::from_slice(alloc, &STATUS)
}

/// The frame that asks which node it is.
pub fn identify_frame(alloc: Global) -> Result<Vec<u8>, AllocError>
    ensures { IfOk result (λ frame. frame.items ≡ frame_encoding frames.Identify) }
{
    Vec::from_slice(alloc, &IDENTIFY)
}

/// The frame that asks what became of a command.
pub fn outcome_frame(alloc: Global, id: &[u8; 16]) -> Result<Vec<u8>, AllocError>
    ensures { IfOk result (λ frame. frame.items ≡ frame_encoding (frames.Outcome id.now)) }
{
    let mut octets = Vec::from_slice(alloc, &OUTCOME)?;
    octets.extend_from_slice(id)?;
    Ok(octets)
}

/// The octets of a frame.
fn octets_of(alloc: Global, frame: &Frame) -> Result<Vec<u8>, AllocError>
    ensures { IfOk result (λ octets. octets.items ≡ frame_encoding frame.now) }
{
    let mut octets = Vec::new(alloc);
    match write_frame(alloc, &mut octets, frame) {
        Ok(()) => Ok(octets),
        // No question and no command is longer than a frame may be.
        Err(_) => Err(AllocError),
    }
}

/// The frame of a question.
pub fn question_frame(alloc: Global, question: &Question) -> Result<Vec<u8>, AllocError>
    ensures { IfOk result (λ frame. frame.items ≡ frame_encoding (frames.Question question.now)) }
{
    let octets = question.octets(alloc)?;
    // No question is longer than a frame may be.
    let Ok(size) = u32::try_from(octets.len()) else {
        return Err(AllocError);
    };
    let Some(length) = size.checked_add(6) else {
        return Err(AllocError);
    };
    let mut frame = Vec::from_slice(alloc, &length.to_be_bytes())?;
    frame.extend_from_slice(&[2, 0x11])?;
    frame.extend_from_slice(&size.to_be_bytes())?;
    frame.extend_from_slice(&octets)?;
    Ok(frame)
}

/// The frame that submits a command.
pub fn submit_frame(alloc: Global, command: Command) -> Result<Vec<u8>, AllocError>
    ensures { IfOk result (λ frame. frame.items ≡ frame_encoding (frames.Submit command)) }
{
    octets_of(alloc, &Frame::Submit { command })
}
