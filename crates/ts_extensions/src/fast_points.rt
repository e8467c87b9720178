//! Fast path. `false` or `None` means undecided; the caller then uses the full reader. Removing it
//! changes speed alone.
//!
//! Distribution points in the form that most certificates have.

ghost use Rattle.std.specs.Prelude.{◌≡◌, ◌++◌, true, ℕ, List, IfSome, map};
ghost use Rattle.ts_shape.specs.Fields.{Within};
ghost use Rattle.ts_ext.specs.Points.{IsPoint, ArePoints, point_of_uri};

use ts_der::are_ascii;
use ts_der::tag::SEQUENCE;
use ts_ext::tag::{FULL_NAME, POINT_NAME};

/// The tag of a URI among general names (RFC 5280 4.2.1.6).
const URI: u8 = 0x86;

/// The distribution points after the first, where that is known by one URI alone, of fewer than 122
/// octets. `None` decides nothing.
#[inline(always)]
fn behind_uri(points: &[u8]) -> Option<&[u8]>
    ensures { IfSome result (λ more. (first : List ℕ) × (uri : List ℕ)
        × Within 0x30 IsPoint first (point_of_uri uri) × (points.now ≡ first ++ more.now)) }
{
    let [
        point,
        length,
        named,
        inner,
        full,
        names,
        identifier,
        size,
        more @ ..,
    ] = points
    else {
        return None;
    };
    if *point != SEQUENCE || *named != POINT_NAME || *full != FULL_NAME || *identifier != URI {
        return None;
    }
    let size = *size as usize;
    if size > 121
        || *length as usize != size + 6
        || *inner as usize != size + 4
        || *names as usize != size + 2
    {
        return None;
    }
    if more.len() < size {
        return None;
    }
    let (uri, more) = more.split_at(size);
    if !are_ascii(uri) {
        return None;
    }
    Some(more)
}

/// Whether distribution points are known by one such URI each, and there is one (RFC 5280
/// 4.2.1.13).
#[inline(always)]
pub(crate) fn are_uris(points: &[u8]) -> bool
    ensures { result ≡ true → (uris : List (List ℕ))
        × ArePoints points.now (map point_of_uri uris) }
{
    let mut rest = points;
    while !rest.is_empty() {
        let Some(more) = behind_uri(rest) else {
            return false;
        };
        rest = more;
    }
    !points.is_empty()
}
