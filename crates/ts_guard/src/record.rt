//! A record's parts.

ghost use Rattle.std.specs.Prelude.{◌≡◌, ◌≤◌, ◌<◌, ◌+◌, ◌^◌, ◌++◌, ◌∷◌, ℕ, List, drop, take};
ghost use Rattle.std.specs.Prelude.{length, IfSome, MatchOption, MatchResult};
ghost use Rattle.std.specs.Int.{to_be_bytes, w32};
ghost use Rattle.ts_hmac.specs.Holding.{Holds};
ghost use Rattle.ts_guard.specs.Sealed.{tag};
ghost use Rattle.ts_guard.specs.Reading.{IsPartial};
ghost use Rattle.ts_guard.specs.inside.Parts.{IsWhole, IsWrongHead};

use crate::fault::GuardFault;
use ts_hmac::Hmac;

/// The most octets of a record's content.
pub const MAX_CONTENT: usize = 65_536;

/// The version of records.
pub(crate) const VERSION: u8 = 3;

/// The octets of a record before its content: its length, the version and the tag.
pub(crate) const HEAD: usize = 37;

/// The number that begins here.
pub(crate) fn length_at(octets: &[u8]) -> Option<u32>
    ensures found { MatchOption result (length octets.now < 4)
        (λ n. octets.now ≡ to_be_bytes w32 n ++ drop 4 octets.now) }
    ensures range { IfSome result (λ n. n < 2 ^ 32) }
    ensures enough { IfSome result (λ _. 4 ≤ length octets.now) }
{
    if octets.len() < 4 {
        return None;
    }
    Some(u32::from_be_bytes([octets[0], octets[1], octets[2], octets[3]]))
}

/// The length of the content of the record that begins here, if the record is whole and of this
/// version.
pub(crate) fn content_length(octets: &[u8]) -> Result<Option<usize>, GuardFault>
    ensures { MatchResult result
        (λ found. MatchOption found (IsPartial octets.now) (λ n. IsWhole octets.now n))
        (λ fault. IsWrongHead octets.now fault) }
{
    let Some(size) = length_at(octets) else {
        return Ok(None);
    };
    let size = size as usize;
    if size < HEAD - 4 + 1 || size > HEAD - 4 + MAX_CONTENT {
        return Err(GuardFault::Length);
    }
    if octets.len() - 4 < size {
        return Ok(None);
    }
    if octets[4] != VERSION {
        return Err(GuardFault::Version);
    }
    Ok(Some(size - (HEAD - 4)))
}

/// The tag of a record.
#[tactic(auto, unfolding(crate::specs::Sealed::tag))]
pub(crate) fn tag_of(start: &Hmac, number: u64, content: &[u8]) -> [u8; 32]
    ensures { (key context : List ℕ) → Holds start.now key context
        → result ≡ tag key context number content.now }
{
    let mut hmac = start.clone().unwrap();
    hmac.update(&number.to_be_bytes());
    hmac.update(content);
    hmac.finalize()
}
