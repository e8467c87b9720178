//! Signatures by Ed25519 under the keys of certificates.

ghost use Rattle.std.specs.Prelude.{◌≡◌};
ghost use Rattle.ts_sig.specs.Key.{key_of};
ghost use Rattle.ts_check.specs.Edwards.{ed25519_takes, is_for_ed25519};

use ts_digest::Message;
use ts_eddsa::is_ed25519_signature;
use ts_sig::WorkingKey;

/// The content of OBJECT IDENTIFIER id-Ed25519 (RFC 8410 3).
const ED25519: [u8; 3] = [0x2b, 0x65, 0x70];

/// Whether a key is one of Ed25519.
#[tactic(auto, unfolding(crate::specs::Edwards::is_for_ed25519))]
fn is_for_ed25519(key: &WorkingKey<'_>) -> bool
    ensures { result ≡ is_for_ed25519 (key_of key.now) }
{
    key.algorithm == ED25519.as_slice() && key.parameters.is_none()
}

/// Whether the signature is one by Ed25519 under the key.
#[tactic(auto, unfolding(crate::specs::Edwards::ed25519_takes))]
pub fn ed25519_takes(key: &WorkingKey<'_>, signed: &Message<'_>, signature: &[u8]) -> bool
    ensures { result ≡ ed25519_takes (key_of key.now) signed.now.octets.now signature.now }
{
    is_for_ed25519(key) && is_ed25519_signature(key.octets, signed.octets, signature)
}
