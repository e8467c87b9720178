//! The key under which a signature is checked.

ghost use Rattle.std.specs.Prelude.{◌≡◌};
ghost use Rattle.std.specs.Option.{option_copied};
ghost use Rattle.ts_sig.specs.Key.{key_of};
ghost use Rattle.ts_cert.specs.View.{key_in};
ghost use Rattle.ts_path.specs.inside.Judging.{key_after as after};

use ts_cert::SubjectPublicKeyInfo;
use ts_revoke::own_key;
use ts_sig::WorkingKey;

/// The key of a certificate, which inherits the parameters of the key before it if it states none
/// and has the same algorithm (RFC 5280 6.1.4 (d) to (f)).
pub(crate) fn key_after<'a>(
    before: &WorkingKey<'a>,
    key: &SubjectPublicKeyInfo<'a>,
) -> WorkingKey<'a>
    ensures { key_of result ≡ after (key_of before.now) (key_in key.now) }
{
    WorkingKey {
        algorithm: key.algorithm.algorithm,
        parameters: parameters_after(before, key),
        octets: key.subject_public_key,
    }
}

/// The parameters of a key, or those that it inherits.
fn parameters_after<'a>(before: &WorkingKey<'a>, key: &SubjectPublicKeyInfo<'a>) -> Option<&'a [u8]>
    ensures { option_copied result ≡ (after (key_of before.now) (key_in key.now)).parameters }
{
    let own = own_key(key).parameters;
    if own.is_none() && key.algorithm.algorithm == before.algorithm {
        return before.parameters;
    }
    own
}
