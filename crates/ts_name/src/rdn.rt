//! Relative distinguished names.

ghost use Rattle.std.specs.Prelude.{◌≡◌, true};
ghost use Rattle.ts_der.specs.Element.{inside};
ghost use Rattle.ts_der.specs.View.{now};
ghost use Rattle.ts_name.specs.Names.{are_attributes};

use ts_der::Element;

/// A relative distinguished name as it lies in the source (RFC 5280 4.1.2.4): a set of attributes,
/// each of which was read.
#[derive(Clone, Copy)]
pub struct Rdn<'a> {
    /// The SET of the attributes.
    pub element: Element<'a>,
    ghost form: { are_attributes (inside (now element)) ≡ true },
}
