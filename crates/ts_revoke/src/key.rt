//! The key of a certificate or of a trust anchor.

ghost use Rattle.std.specs.Prelude.{◌≡◌};
ghost use Rattle.std.specs.Option.{option_copied};
ghost use Rattle.ts_sig.specs.Key.{key_of};
ghost use Rattle.ts_cert.specs.View.{key_in};
ghost use Rattle.ts_revoke.specs.OwnKey.{not_null, own_key};

use ts_cert::SubjectPublicKeyInfo;
use ts_sig::WorkingKey;

/// NULL as a whole element (X.690 8.8).
const NULL: [u8; 2] = [0x05, 0x00];

/// Parameters that are not NULL.
fn not_null(parameters: Option<&[u8]>) -> Option<&[u8]>
    ensures { option_copied result ≡ not_null (option_copied parameters.entry) }
{
    match parameters {
        Some(element) if element != NULL.as_slice() => Some(element),
        _ => None,
    }
}

/// The key of a certificate or of a trust anchor with the parameters that it states, where NULL
/// stands for none (RFC 5280 6.1.2 (g) to (i)). Those that a certificate's key inherits from the
/// one above it (6.1.4 (d) to (f)) are not in it.
pub fn own_key<'a>(key: &SubjectPublicKeyInfo<'a>) -> WorkingKey<'a>
    ensures { key_of result ≡ own_key (key_in key.now) }
{
    WorkingKey {
        algorithm: key.algorithm.algorithm,
        parameters: not_null(key.algorithm.parameters),
        octets: key.subject_public_key,
    }
}
