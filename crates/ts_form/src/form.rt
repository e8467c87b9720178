//! The pairs of a form.

ghost use Rattle.std.specs.Prelude.{◌≡◌, IfErr, IfOk, map};
ghost use Rattle.ts_form.specs.Pairs.{AreFew, IsMany, decode_pair, pair_in, pairs_of};

use crate::fault::FormFault;
use crate::pair::{MAX_PAIRS, Pair};
use form_urlencoded::decode;
use std::alloc::{AllocError, Global};

/// A pair of a form, decoded.
fn pair_of(alloc: Global, name: &[u8], value: &[u8]) -> Result<Pair, AllocError>
    ensures { IfOk result (λ pair. pair_in pair ≡ decode_pair (name.now, value.now)) }
{
    let name = decode(alloc, name)?.into_owned(alloc)?;
    let value = decode(alloc, value)?.into_owned(alloc)?;
    Ok(Pair { name, value })
}

/// The pairs of octets in the form `application/x-www-form-urlencoded` (URL Standard 5.1), in their
/// order: `+` is a space, escapes are decoded, and what is then no UTF-8 becomes U+FFFD.
///
/// # Errors
///
/// `Many` exactly where there are more than 256 pairs, of which no more are decoded then; `Memory`.
pub fn form_pairs(alloc: Global, octets: &[u8]) -> Result<Vec<Pair>, FormFault>
    ensures pairs { IfOk result (λ pairs. map pair_in pairs.items ≡ pairs_of octets.now) }
    ensures few { IfOk result (λ _. AreFew (pairs_of octets.now)) }
    ensures many { IfErr result (IsMany (pairs_of octets.now)) }
{
    let mut pairs = Vec::new(alloc);
    for (name, value) in form_urlencoded::raw_pairs(octets) {
        if pairs.len() == MAX_PAIRS {
            return Err(FormFault::Many);
        }
        pairs.push(pair_of(alloc, name, value)?)?;
    }
    Ok(pairs)
}
