//! Laws about streams of frames. Each is the contract of a function that does nothing.

ghost use Rattle.std.specs.Prelude.{◌≡◌, ◌++◌, ℕ, List, Option};
ghost use Rattle.ts_wire.specs.Frames.{frame_encoding, FrameFits};
ghost use Rattle.ts_wire.specs.Stream.{IsFault, Splits};
ghost use Rattle.ts_wire.specs.declared.fault.FrameFault.{FrameFault};
ghost use Rattle.ts_wire.specs.declared.frame.Frame.{Frame};

/// No frame's encoding is the beginning of another's.
pub fn no_front()
    ensures frame { (f g : Frame) (a b : List ℕ) → FrameFits f → FrameFits g
        → frame_encoding f ++ a ≡ frame_encoding g ++ b → f ≡ g }
    ensures rest { (f g : Frame) (a b : List ℕ) → FrameFits f → FrameFits g
        → frame_encoding f ++ a ≡ frame_encoding g ++ b → a ≡ b }
{}

/// A stream is one list of frames, up to one fault or none.
pub fn one_reading()
    ensures frames { (stream : List ℕ) (frames others : List Frame)
        (fault other : Option FrameFault)
        → Splits stream frames fault → Splits stream others other → frames ≡ others }
    ensures fault { (stream : List ℕ) (frames others : List Frame) (fault other : Option FrameFault)
        → Splits stream frames fault → Splits stream others other → fault ≡ other }
{}

/// A fault stays, whatever comes after it.
pub fn fault_stays()
    ensures { (fault : FrameFault) (octets more : List ℕ) → IsFault fault octets
        → IsFault fault (octets ++ more) }
{}
