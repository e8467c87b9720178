//! The public key of RSA.

ghost use Rattle.std.specs.Prelude.{◌≡◌};
ghost use Rattle.std.specs.Option.{option_map, option_copied};
ghost use Rattle.ts_der.specs.Answer.{Answers};
ghost use Rattle.ts_check.specs.PublicKey.{contents_of, magnitude_of, small_of, public_of};
ghost use Rattle.ts_check.specs.inside.View.{public_in};

use ts_der::tag::{INTEGER, SEQUENCE};
use ts_der::{Fault, Reader};
use ts_rsa::small_number;

/// A public key, by the octets in which it is encoded.
#[derive(Clone, Copy, Debug)]
pub struct PublicKey<'a> {
    /// The octets of the modulus, the highest first.
    pub modulus: &'a [u8],
    /// The public exponent.
    pub exponent: u64,
}

/// The contents of the modulus and of the exponent.
#[tactic(auto, unfolding(crate::specs::PublicKey::contents_of))]
fn read_contents<'a>(octets: &'a [u8]) -> Result<(&'a [u8], &'a [u8]), Fault>
    ensures { Answers (λ c. (c.0.now, c.1.now)) result (contents_of octets.now) }
{
    let mut whole = Reader::new(octets);
    let key = whole.element(SEQUENCE)?;
    whole.end()?;
    let mut fields = key.reader();
    let modulus = fields.element(INTEGER)?.integer()?;
    let exponent = fields.element(INTEGER)?.integer()?;
    fields.end()?;
    Ok((modulus.octets, exponent.octets))
}

/// The octets of a number that is not negative, without an octet 00 that only shows the sign.
#[tactic(auto, unfolding(crate::specs::PublicKey::magnitude_of))]
fn magnitude(content: &[u8]) -> Option<&[u8]>
    ensures { option_copied result ≡ magnitude_of content.now }
{
    match content {
        [0, rest @ ..] => Some(rest),
        [first, ..] if *first >= 0x80 => None,
        _ => Some(content),
    }
}

/// The number of at most eight octets.
#[tactic(auto, unfolding(crate::specs::PublicKey::small_of))]
fn small(octets: &[u8]) -> Option<u64>
    ensures { result ≡ small_of octets.now }
{
    if octets.len() > 8 {
        return None;
    }
    Some(small_number(octets))
}

/// The public key of RSA that some octets are (RFC 8017 A.1.1). `None`: they are none, or the
/// exponent has more than eight octets.
#[tactic(auto, unfolding(crate::specs::PublicKey::public_of))]
pub fn read_public(octets: &[u8]) -> Option<PublicKey<'_>>
    ensures { option_map public_in result ≡ public_of octets.now }
{
    let (modulus, exponent) = read_contents(octets).ok()?;
    let modulus = magnitude(modulus)?;
    let exponent = small(magnitude(exponent)?)?;
    Some(PublicKey { modulus, exponent })
}
