//! The check of signatures that this project computes by itself.

ghost use Rattle.std.specs.Prelude.{◌≡◌, ◌↔◌, IsTrue};
ghost use Rattle.ts_der.specs.Octets.{AreOctets};
ghost use Rattle.ts_sig.specs.Key.{key_of};
ghost use Rattle.ts_check.specs.Native.{IsNativeSignature, native_accepts, takes};

use crate::edwards::ed25519_takes;
use crate::elliptic::ecdsa_takes;
use crate::rsa::{pkcs1_takes, pss_takes};
use ts_digest::Message;
use ts_sig::{SignatureAlgorithm, SignatureCheck, WorkingKey, algorithm_named};

/// The algorithms in words, one a line, for whoever asks which a program has.
pub const ALGORITHMS: &str = "\
algorithm RSASSA-PKCS1-v1_5 with SHA-256, SHA-384, SHA-512
algorithm RSASSA-PSS with SHA-256, SHA-384, SHA-512
algorithm ECDSA on P-256, P-384 and P-521 with SHA-256, SHA-384, SHA-512
algorithm Ed25519
";

/// Checks signatures by RSA, ECDSA and Ed25519. It has no state: each node that has this version
/// answers alike.
#[derive(Clone, Copy, Debug)]
pub struct NativeCheck;

/// Whether the signature is one by this algorithm.
fn takes(
    algorithm: SignatureAlgorithm,
    key: &WorkingKey<'_>,
    signed: &Message<'_>,
    signature: &[u8],
) -> bool
    ensures { result ≡ takes algorithm (key_of key.now) signed.now.octets.now signature.now }
{
    match algorithm {
        SignatureAlgorithm::Pkcs1(hash) => pkcs1_takes(hash, key, signed, signature),
        SignatureAlgorithm::Pss(hash) => pss_takes(hash, key, signed, signature),
        SignatureAlgorithm::Ecdsa(hash) => ecdsa_takes(hash, key, signed, signature),
        SignatureAlgorithm::Ed25519 => ed25519_takes(key, signed, signature),
    }
}

impl SignatureCheck for NativeCheck {
    ghost accepts = { λ _ identifier key signed signature.
        native_accepts identifier key signed signature };

    #[tactic(auto, unfolding(crate::specs::Native::native_accepts))]
    fn good(
        &self,
        algorithm: &[u8],
        key: &WorkingKey<'_>,
        signed: &Message<'_>,
        signature: &[u8],
    ) -> bool {
        match algorithm_named(algorithm) {
            Some(algorithm) => takes(algorithm, key, signed, signature),
            None => false,
        }
    }
}
