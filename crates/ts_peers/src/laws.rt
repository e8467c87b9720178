//! The laws of the octets of frames that a carrier looks at without reading them. Each is the
//! contract of a function that does nothing.

ghost use Rattle.std.specs.Prelude.{◌≡◌, ◌++◌, ℕ, List, Some};
ghost use Rattle.ts_carrier.specs.Event.{event_of, whole_frame};
ghost use Rattle.ts_wire.specs.Frames.{FrameFits, frame_encoding};
ghost use Rattle.ts_wire.specs.declared.frame.Frame.{Frame};
ghost use Rattle.ts_peers.specs.Events.{event_in};

/// Whatever comes behind a frame, the octets that are taken for a whole frame are its own.
pub fn takes_one_frame()
    ensures { (f : Frame) (rest : List ℕ) → FrameFits f
        → whole_frame (frame_encoding f ++ rest) ≡ Some (frame_encoding f) }
{}

/// What a frame's octets are taken to say is what the frame says: a Submit submits a command, a
/// Prepare begins a round of the node that it is from, a Busy refuses one, and each other frame
/// does nothing of this.
pub fn says_what_the_frame_says()
    ensures { (f : Frame) → event_of (frame_encoding f) ≡ event_in f }
{}
