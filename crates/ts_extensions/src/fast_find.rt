//! Fast path. `false` or `None` means undecided; the caller then uses the full reader. Removing it
//! changes speed alone.
//!
//! Extensions that are passed because they are others than the one that is looked for.

ghost use Rattle.std.specs.Prelude.{◌≡◌, ◌∷◌, [], Ok, true, false};
ghost use Rattle.std.specs.Str.{bytes_eq};
ghost use Rattle.ts_der.specs.Reading.{is_end};
ghost use Rattle.ts_der.specs.View.{now};
ghost use Rattle.ts_shape.specs.Items.{items_at};
ghost use Rattle.ts_extensions.specs.Extension.{Located, located_in, located_of};

use crate::fast::short_parts;
use ts_der::tag::SEQUENCE;
use ts_der::{Element, Reader};

/// Whether a SEQUENCE is an extension under 2.5.29 with another last arc than this one.
#[inline(always)]
fn is_another(element: Element<'_>, arc: u8) -> bool
    ensures { result ≡ true → (x : Located) × (located_of (now element.entry) ≡ Ok x)
        × (bytes_eq x.extnID (0x55 ∷ 0x1D ∷ arc ∷ []) ≡ false) }
{
    match short_parts(element.content) {
        Some((other, _)) => other != arc,
        None => false,
    }
}

/// Passes the extension at the front, where it is such another one.
#[inline(always)]
pub(crate) fn pass_another(rest: &mut Reader<'_>, arc: u8) -> bool
    requires { is_end rest.old.rest ≡ false }
    ensures passed { result ≡ true → (x : Located)
        × (items_at located_in rest.old ≡ x ∷ items_at located_in rest.new)
        × (bytes_eq x.extnID (0x55 ∷ 0x1D ∷ arc ∷ []) ≡ false) }
    ensures unmoved { result ≡ false → rest.new ≡ rest.old }
{
    let mut ahead = rest.fork();
    let Ok(element) = ahead.element(SEQUENCE) else {
        return false;
    };
    if !is_another(element, arc) {
        return false;
    }
    *rest = ahead;
    true
}
