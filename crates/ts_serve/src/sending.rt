//! Answers are written.

ghost use Rattle.std.specs.Prelude.{◌≡◌, ◌++◌, ◌∷◌, [], ◌⊎◌, OnOk, OnErr, IfOk, IfErr};
ghost use Rattle.std.specs.Io.KnownBytes.{Appends, Keeps};
ghost use Rattle.ts_wire.specs.declared.frame.Frame.TheVariants.{Done};
ghost use Rattle.ts_serve.specs.Text.{AppendsFront, text, frame_text};
ghost use Rattle.ts_serve.specs.inside.Steps.{Refuses};

use crate::fault::ServeFault;
use crate::serving::READ_LIMIT;
use std::alloc::Global;
use std::io::{ErrorKind, Write};
use ts_synod::NodeFault;
use ts_wire::{Frame, FrameFault, WriteError, write_frame};

/// The octets of an answer.
pub(crate) fn octets_of(alloc: Global, frame: &Frame) -> Result<Vec<u8>, ServeFault>
    ensures octets { IfOk result (λ octets. octets.items ≡ frame_text frame.now) }
    ensures fault { IfErr result (λ fault. fault ≡ ServeFault.Memory) }
{
    let mut octets = Vec::new(alloc);
    match write_frame(alloc, &mut octets, frame) {
        Ok(()) => return Ok(octets),
        Err(WriteError::Memory) => return Err(ServeFault::Memory),
        Err(WriteError::Length) => {}
    }
    let fault = Frame::NodeFault {
        fault: NodeFault::Memory,
    };
    let refused = write_frame(alloc, &mut octets, &fault);
    drop(fault);
    match refused {
        Ok(()) => Ok(octets),
        Err(_) => Err(ServeFault::Memory),
    }
}

/// Writes octets. An interrupted write is tried again.
pub fn write_octets<W: Write>(writer: &mut W, octets: &[u8]) -> Result<(), ServeFault>
    ensures written { OnOk result (Appends (W.contents writer.old)
        (W.contents writer.new) octets.now) }
    ensures front { OnErr result (AppendsFront (W.contents writer.old)
        (W.contents writer.new) octets.now) }
    ensures fault { IfErr result (λ fault. fault ≡ ServeFault.Write) }
{
    let mut rest = octets;
    for _try in 0..READ_LIMIT {
        if rest.is_empty() {
            return Ok(());
        }
        match writer.write(rest) {
            Ok(0) => return Err(ServeFault::Write),
            Ok(count) => rest = &rest[count..],
            Err(error) if error.kind() == ErrorKind::Interrupted => {}
            Err(_) => return Err(ServeFault::Write),
        }
    }
    Err(ServeFault::Write)
}

/// Writes a borrowed answer.
fn send_borrowed<W: Write>(alloc: Global, writer: &mut W, frame: &Frame) -> Result<(), ServeFault>
    ensures sent { OnOk result (Appends (W.contents writer.old) (W.contents writer.new)
        (text (frame.now ∷ []))) }
    ensures front { OnErr result (AppendsFront (W.contents writer.old) (W.contents writer.new)
        (text (frame.now ∷ []))) }
    ensures fault { IfErr result (λ fault. (fault ≡ ServeFault.Write)
        ⊎ (fault ≡ ServeFault.Memory)) }
{
    let octets = octets_of(alloc, frame)?;
    write_octets(writer, octets.as_slice())
}

/// Writes an answer.
pub(crate) fn send<W: Write>(alloc: Global, writer: &mut W, frame: Frame) -> Result<(), ServeFault>
    ensures sent { OnOk result (Appends (W.contents writer.old) (W.contents writer.new)
        (text (frame ∷ []))) }
    ensures front { OnErr result (AppendsFront (W.contents writer.old) (W.contents writer.new)
        (text (frame ∷ []))) }
    ensures fault { IfErr result (λ fault. (fault ≡ ServeFault.Write)
        ⊎ (fault ≡ ServeFault.Memory)) }
{
    let sent = send_borrowed(alloc, writer, &frame);
    drop(frame);
    sent
}

/// Writes answers, one after another.
pub(crate) fn send_all<W: Write>(
    alloc: Global,
    writer: &mut W,
    frames: &[Frame],
) -> Result<(), ServeFault>
    ensures sent { OnOk result (Appends (W.contents writer.old) (W.contents writer.new)
        (text frames.now)) }
    ensures front { OnErr result (AppendsFront (W.contents writer.old) (W.contents writer.new)
        (text frames.now)) }
    ensures fault { IfErr result (λ fault. (fault ≡ ServeFault.Write)
        ⊎ (fault ≡ ServeFault.Memory)) }
{
    for frame in frames {
        send_borrowed(alloc, writer, frame)?;
    }
    Ok(())
}

/// Flushes a writer.
pub(crate) fn flush<W: Write>(writer: &mut W) -> Result<(), ServeFault>
    ensures same { Keeps (W.contents writer.old) (W.contents writer.new) }
    ensures fault { IfErr result (λ fault. fault ≡ ServeFault.Write) }
{
    match writer.flush() {
        Ok(()) => Ok(()),
        Err(_) => Err(ServeFault::Write),
    }
}

/// Writes the answer to a wrong frame, and gives the fault that ends the stream.
pub(crate) fn refuse<W: Write>(alloc: Global, writer: &mut W, fault: FrameFault) -> ServeFault
    ensures { Refuses fault (W.contents writer.old) result (W.contents writer.new) }
{
    if let Err(fault) = send(alloc, writer, Frame::FrameFault { fault }) {
        return fault;
    }
    match flush(writer) {
        Ok(()) => ServeFault::Frame(fault),
        Err(fault) => fault,
    }
}
