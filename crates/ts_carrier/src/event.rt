//! What a frame that a node takes has to do with the command that is under way.

ghost use Rattle.std.specs.Prelude.{◌≡◌, option_map};
ghost use Rattle.ts_carrier.specs.Event.{event_of, whole_frame};

/// The kind of a frame that submits a command.
const SUBMIT: u8 = 0x10;

/// The kind of a message that begins a round.
const PREPARE: u8 = 0x01;

/// The kind of a message that says that a round was refused.
const BUSY: u8 = 0x03;

/// What a frame says.
#[derive(Clone, Copy, Debug, PartialEq, Eq)]
pub enum FrameEvent {
    /// A command is submitted.
    Submits,
    /// A node begins a round.
    Begins { node: u8 },
    /// A round was refused.
    Refuses,
    /// None of these.
    Other,
}

/// The frame that begins here, if it is whole.
pub fn whole_frame(held: &[u8]) -> Option<&[u8]>
    ensures { option_map (λ frame. frame.now) result ≡ whole_frame held.now }
{
    let [a, b, c, d, rest @ ..] = held else {
        return None;
    };
    let high = u32::from(*a) * 256 + u32::from(*b);
    let low = u32::from(*c) * 256 + u32::from(*d);
    let size = (high * 65_536 + low) as usize;
    if size > rest.len() {
        return None;
    }
    Some(&held[..4 + size])
}

/// What a whole frame says, by its kind.
pub fn event_of(frame: &[u8]) -> FrameEvent
    ensures { result ≡ event_of frame.now }
{
    let [_, _, _, _, _version, kind, fields @ ..] = frame else {
        return FrameEvent::Other;
    };
    match (*kind, fields) {
        (SUBMIT, _) => FrameEvent::Submits,
        (PREPARE, [node, ..]) => FrameEvent::Begins { node: *node },
        (BUSY, _) => FrameEvent::Refuses,
        _ => FrameEvent::Other,
    }
}
