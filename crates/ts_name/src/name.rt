//! Distinguished names.

ghost use Rattle.std.specs.Prelude.{◌≡◌, true};
ghost use Rattle.ts_der.specs.Element.{inside};
ghost use Rattle.ts_der.specs.View.{now};
ghost use Rattle.ts_name.specs.Names.{are_rdns};

use ts_der::Element;

/// A distinguished name as it lies in the source (RFC 5280 4.1.2.4). Whatever is a `Name` was read:
/// each of its relative distinguished names is a set of attributes.
#[derive(Clone, Copy)]
pub struct Name<'a> {
    /// The SEQUENCE of the relative distinguished names.
    pub element: Element<'a>,
    ghost form: { are_rdns (inside (now element)) ≡ true },
}
