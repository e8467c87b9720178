//! Laws about connections with keys. Each is the contract of a function that does nothing.

ghost use Rattle.std.specs.Prelude.{◌≡◌, ◌<◌, ◌^◌, [], ℕ, List, length};
ghost use Rattle.ts_guard.specs.Session.{Fits};
ghost use Rattle.ts_guard.specs.Streams.{AreSeals, NoneForged, Seal, SealedAs};
ghost use Rattle.ts_guard.specs.declared.session.Direction.TheVariants.{FromClient};
ghost use Rattle.ts_access.specs.Calls.{Call, Calls, came_in, handed_in};
ghost use Rattle.ts_access.specs.Entered.{HasHandedOn, IsFromHolder, IsVouched, Vouches};
ghost use Rattle.ts_access.specs.Entered.{session_of};
ghost use Rattle.ts_access.specs.Keys.{IsKeyLine, IsRole, line_text};
ghost use Rattle.hex.specs.Hex.{IsBytes};
ghost use Rattle.ts_access.specs.declared.entrance.Entrance.{Entrance};
ghost use Rattle.ts_access.specs.declared.key.Key.{Key};

use ts_guard::laws::front_of_what_was_sealed;

/// Over every list of calls, in any order: nothing was handed on; or what came is a greeting that
/// names a key, and records that bear this key's tags on this connection, and what was handed on is
/// what the key's role may ask of their contents, up to the first frame that it may not ask.
pub fn only_what_the_role_may_ask()
    ensures stands { (keys : List Key) (calls : List Call) (a b : Entrance)
        → HasHandedOn keys a [] [] → Calls keys a calls b
        → HasHandedOn keys b (came_in calls) (handed_in calls) }
    ensures vouched { (keys : List Key) (entrance : Entrance) (came handed : List ℕ)
        → HasHandedOn keys entrance came handed
        → IsVouched keys entrance.node entrance.challenge came handed }
{}

/// If nobody but the holders of a key makes its tags, then what was handed on is what the key's
/// role may ask of a front of what was sealed with it on this connection.
pub fn from_the_holder_of_a_key()
    ensures { (keys : List Key) (node : ℕ) (challenge came handed : List ℕ)
        (v : Vouches keys node challenge came handed) (seals : List Seal)
        (sent : List (List ℕ)) → AreSeals seals → Fits (session_of challenge v.greeting)
        → length v.contents < 2 ^ 64
        → NoneForged seals (session_of challenge v.greeting) FromClient v.contents
        → SealedAs seals (session_of challenge v.greeting) FromClient sent
        → IsFromHolder keys node v.key v.greeting sent handed }
{
    // For its clause alone.
    front_of_what_was_sealed();
}

/// The line that is written of a key names it.
pub fn reads_what_it_writes()
    ensures { (key : Key) → key.id < 2 ^ 32 → IsRole key.role → length key.secret ≡ 32
        → IsBytes key.secret → IsKeyLine (line_text key) key }
{}
