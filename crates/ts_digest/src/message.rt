//! Octets that are signed, with their hash where it is known.

ghost use Rattle.std.specs.Prelude.{◌≡◌, Some, IfSome};
ghost use Rattle.std.specs.Borrow.{Bor};
ghost use Rattle.ts_digest.specs.declared.message.Digest.{Digest as DigestOf};
ghost use Rattle.arrayvec.specs.ArrayVec.{array_vec_len};
ghost use Rattle.ts_digest.specs.Hash.{hash_of, hash_size};
ghost use Rattle.ts_digest.specs.Message.{IsDigestOf};

use crate::hash::{HASH_OCTETS, Hash, array_of, hash_of_message};
use arrayvec::ArrayVec;

/// The hash of some octets, and the function by which it is.
#[derive(Debug, Drop)]
pub struct Digest {
    pub hash: Hash,
    pub octets: ArrayVec<u8, HASH_OCTETS>,
}

impl Digest {
    /// The hash of octets by a function.
    pub fn of(hash: Hash, octets: &[u8]) -> Digest
        ensures hash { result.hash ≡ hash }
        ensures digest { IsDigestOf result octets.now }
    {
        Digest {
            hash,
            octets: hash_of_message(hash, octets),
        }
    }
}

/// Octets that are signed, with their hash by one function where that is known: what is checked
/// many times, as a CRL that a store holds, is hashed once.
#[derive(Clone, Copy, Debug)]
pub struct Message<'a> {
    pub octets: &'a [u8],
    digest: Option<&'a Digest>,
    ghost hashed: { (d : Bor DigestOf) → digest ≡ Some d → IsDigestOf d.now octets.now },
}

impl<'a> Message<'a> {
    /// Octets of which no hash is known.
    pub fn of(octets: &'a [u8]) -> Message<'a>
        ensures { result.octets.now ≡ octets.now }
    {
        Message {
            octets,
            digest: None,
        }
    }

    /// Octets of which this hash is known.
    pub fn with_digest(octets: &'a [u8], digest: &'a Digest) -> Message<'a>
        requires { IsDigestOf digest.now octets.now }
        ensures { result.octets.now ≡ octets.now }
    {
        Message {
            octets,
            digest: Some(digest),
        }
    }

    /// The hash that is known.
    pub fn digest(&self) -> Option<&'a Digest>
        ensures { IfSome result (λ digest. IsDigestOf digest.now self.now.octets.now) }
    {
        self.digest
    }

    /// The hash of the octets, which is computed only where it is not known.
    pub fn hash_by(&self, hash: Hash) -> ArrayVec<u8, HASH_OCTETS>
        ensures items { result.items ≡ hash_of hash self.now.octets.now }
        ensures len { array_vec_len result ≡ hash_size hash }
    {
        if let Some(digest) = self.digest {
            if digest.hash == hash {
                return array_of(digest.octets.as_slice());
            }
        }
        hash_of_message(hash, self.octets)
    }
}
