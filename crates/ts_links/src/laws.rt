//! The law of all connections. It is the contract of a function that does nothing.

ghost use Rattle.std.specs.Prelude.{◌≡◌, ℕ, List, Option, All, Some, slice_get};
ghost use Rattle.ts_wire.specs.Stream.{Splits};
ghost use Rattle.ts_wire.specs.declared.fault.FrameFault.{FrameFault};
ghost use Rattle.ts_wire.specs.declared.frame.Frame.{Frame};
ghost use Rattle.ts_links.specs.Account.{IsFair, IsFront, account_after, nothing};
ghost use Rattle.ts_links.specs.Events.{Changes, Event};
ghost use Rattle.ts_links.specs.Moves.{IsUnused};
ghost use Rattle.ts_links.specs.declared.link.Link.{Link as Connection};

/// Whatever happens on connections, and in whatever order: what left and what waits on each is the
/// text of the answers to the requests at the front of what came on it, in order, and nothing of
/// either is lost while it is open. Those requests are the first of the frames that its octets
/// split into.
pub fn each_is_answered()
    ensures fair { (links others : List Connection) (events : List Event)
        → All IsUnused links → Changes links events others
        → (slot : ℕ) (link : Connection) → slice_get others slot ≡ Some link
        → IsFair (account_after slot nothing events) link }
    ensures exact { (links others : List Connection) (events : List Event)
        → All IsUnused links → Changes links events others
        → (slot : ℕ) (link : Connection) → slice_get others slot ≡ Some link
        → (frames : List Frame) (fault : Option FrameFault)
        → Splits (account_after slot nothing events).came frames fault
        → IsFront (account_after slot nothing events) frames fault }
{}
