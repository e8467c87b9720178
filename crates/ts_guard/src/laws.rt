//! Laws about streams of records. Each is the contract of a function that does nothing.

ghost use Rattle.std.specs.Prelude.{◌≡◌, ◌≢◌, ◌<◌, ◌^◌, ◌++◌, [], ℕ, List, Option, length};
ghost use Rattle.std.specs.List.{AllByRecursion};
ghost use Rattle.ts_guard.specs.Session.{Fits, context};
ghost use Rattle.ts_guard.specs.Sealed.{IsContent, stream};
ghost use Rattle.ts_guard.specs.Reading.{Splits};
ghost use Rattle.ts_guard.specs.Opening.{IsFault};
ghost use Rattle.ts_guard.specs.Streams.{AreSeals, Event, NoneForged, Seal, SealedAs, Steps};
ghost use Rattle.ts_guard.specs.Streams.{came_in, contents_in, text_of};
ghost use Rattle.ts_guard.specs.declared.fault.GuardFault.{GuardFault};
ghost use Rattle.ts_guard.specs.declared.fault.GuardFault.TheVariants.{Memory};
ghost use Rattle.ts_guard.specs.declared.opener.Opener.{Opener};
ghost use Rattle.ts_guard.specs.declared.session.Direction.{Direction};
ghost use Rattle.ts_guard.specs.declared.session.Session.{Session};

/// Over every stream, in whatever pieces it comes: what came is the records of the contents that
/// were let through, each with the tag of its number, and then what is held. Nothing else was let
/// through, and nothing between.
pub fn only_sealed()
    ensures front { (key context : List ℕ) (events : List Event) (a b : Opener)
        → a.number ≡ 0 → a.held ≡ [] → Steps key context a events b
        → came_in events ≡ stream key context 0 (contents_in events) ++ b.held }
    ensures each { (key context : List ℕ) (events : List Event) (a b : Opener)
        → Steps key context a events b → AllByRecursion IsContent (contents_in events) }
{}

/// After the first wrong record nothing is let through, whatever comes after it.
pub fn ends_at_a_fault()
    ensures { (key context : List ℕ) (fault : GuardFault) (events : List Event) (a b : Opener)
        → fault ≢ Memory → IsFault key context a fault → Steps key context a events b
        → contents_in events ≡ [] }
{}

/// A stream is the records of one list of contents, up to one fault or none.
pub fn one_reading()
    ensures contents { (key context octets : List ℕ) (contents others : List (List ℕ))
        (fault other : Option GuardFault)
        → Splits key context octets contents fault → Splits key context octets others other
        → contents ≡ others }
    ensures fault { (key context octets : List ℕ) (contents others : List (List ℕ))
        (fault other : Option GuardFault)
        → Splits key context octets contents fault → Splits key context octets others other
        → fault ≡ other }
{}

/// What a tag vouches for is one key's number, one connection, one direction, one number and one
/// content.
pub fn one_text()
    ensures { (a b : Seal) → Fits a.session → Fits b.session → a.number < 2 ^ 64 → b.number < 2 ^ 64
        → text_of a ≡ text_of b → a ≡ b }
{}

/// If nobody but the holders of a key makes its tags, then what is let through on a connection is a
/// front of what was sealed on it in that direction: nothing is left out between, repeated, moved,
/// turned round or taken from another connection.
pub fn front_of_what_was_sealed()
    ensures { (seals : List Seal) (session : Session) (direction : Direction)
        (contents sent : List (List ℕ))
        → AreSeals seals → Fits session → length contents < 2 ^ 64
        → NoneForged seals session direction contents → SealedAs seals session direction sent
        → (more : List (List ℕ)) × (sent ≡ contents ++ more) }
{}
