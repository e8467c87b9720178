//! The first octets in each direction.

ghost use Rattle.std.specs.Prelude.{◌≡◌, ◌≤◌, ◌<◌, ◌+◌, ◌^◌, ◌++◌, ◌∷◌, [], ℕ, List, true, false};
ghost use Rattle.std.specs.Prelude.{drop, length, OnOk, OnErr, IfOk, IfErr, MatchOption};
ghost use Rattle.std.specs.Prelude.{MatchResult, Ok};
ghost use Rattle.std.specs.Int.{to_be_bytes, w32};
ghost use Rattle.ts_guard.specs.Hello.{IsHelloFault, IsPartHello, challenge_octets};
ghost use Rattle.ts_guard.specs.Hello.{greeting_octets};

use crate::fault::HelloFault;
use crate::record::{VERSION, length_at};

/// The kind of a challenge.
pub(crate) const CHALLENGE: u8 = 0x40;

/// The kind of a greeting.
pub(crate) const GREETING: u8 = 0x41;

/// The octets of a challenge, with its length.
pub const CHALLENGE_LENGTH: usize = 38;

/// The octets of a greeting, with its length.
pub const GREETING_LENGTH: usize = 42;

/// What a client says first: which key it has, and 32 octets of its own.
#[derive(Clone, Copy, Debug, PartialEq, Eq)]
pub struct Greeting {
    pub key_id: u32,
    pub nonce: [u8; 32],
}

/// Whether a hello of this length and kind is whole.
fn is_whole(octets: &[u8], size: u32, kind: u8) -> Result<bool, HelloFault>
    ensures whole { result ≡ Ok true → (4 + size ≤ length octets.now)
        × (octets.now ≡ to_be_bytes w32 size ++ 3 ∷ kind ∷ drop 6 octets.now) }
    ensures partial { result ≡ Ok false → IsPartHello size kind octets.now }
    ensures fault { IfErr result (λ fault. IsHelloFault size kind octets.now fault) }
{
    if octets.len() < 6 {
        return Ok(false);
    }
    let Some(found) = length_at(octets) else {
        return Ok(false);
    };
    if octets[4] != VERSION {
        return Err(HelloFault::Version);
    }
    if found != size {
        return Err(HelloFault::Length);
    }
    if octets[5] != kind {
        return Err(HelloFault::Kind);
    }
    Ok(octets.len() - 4 >= size as usize)
}

/// The 32 octets that begin here.
fn octets_at(octets: &[u8]) -> [u8; 32]
    requires { 32 ≤ length octets.now }
    ensures { octets.now ≡ result ++ drop 32 octets.now }
{
    let mut out = [0; 32];
    out.copy_from_slice(&octets[..32]);
    out
}

/// The challenge at the front of octets; `None` where it is not whole yet.
pub(crate) fn challenge_in(octets: &[u8]) -> Result<Option<[u8; 32]>, HelloFault>
    ensures { MatchResult result
        (λ found. MatchOption found (IsPartHello 34 0x40 octets.now)
        (λ challenge. (38 ≤ length octets.now)
        × (octets.now ≡ challenge_octets challenge ++ drop 38 octets.now)))
        (λ fault. IsHelloFault 34 0x40 octets.now fault) }
{
    if !is_whole(octets, 34, CHALLENGE)? {
        return Ok(None);
    }
    Ok(Some(octets_at(&octets[6..])))
}

/// The greeting at the front of octets; `None` where it is not whole yet.
pub(crate) fn greeting_in(octets: &[u8]) -> Result<Option<Greeting>, HelloFault>
    ensures { MatchResult result
        (λ found. MatchOption found (IsPartHello 38 0x41 octets.now)
        (λ greeting. (42 ≤ length octets.now)
        × (octets.now
        ≡ greeting_octets greeting.key_id greeting.nonce ++ drop 42 octets.now)))
        (λ fault. IsHelloFault 38 0x41 octets.now fault) }
{
    if !is_whole(octets, 38, GREETING)? {
        return Ok(None);
    }
    let Some(key_id) = length_at(&octets[6..]) else {
        return Ok(None);
    };
    let nonce = octets_at(&octets[10..]);
    Ok(Some(Greeting { key_id, nonce }))
}

/// A challenge as it is sent.
pub(crate) fn challenge_octets(challenge: &[u8; 32]) -> [u8; CHALLENGE_LENGTH]
    ensures { result ≡ challenge_octets challenge.now }
{
    let mut out = [VERSION; CHALLENGE_LENGTH];
    out[..4].copy_from_slice(&34u32.to_be_bytes());
    out[5] = CHALLENGE;
    out[6..].copy_from_slice(challenge);
    out
}

/// A greeting as it is sent.
pub(crate) fn greeting_octets(greeting: &Greeting) -> [u8; GREETING_LENGTH]
    ensures { result ≡ greeting_octets greeting.now.key_id greeting.now.nonce }
{
    let mut out = [VERSION; GREETING_LENGTH];
    out[..4].copy_from_slice(&38u32.to_be_bytes());
    out[5] = GREETING;
    out[6..10].copy_from_slice(&greeting.key_id.to_be_bytes());
    out[10..].copy_from_slice(&greeting.nonce);
    out
}
