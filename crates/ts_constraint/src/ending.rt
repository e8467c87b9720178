//! Texts compared from their ends on.

ghost use Rattle.std.specs.Prelude.{◌≡◌};
ghost use Rattle.std.specs.Cmp.Lexicographic.{slice_cmp};
ghost use Rattle.std.specs.Ordering.{nat_cmp};
ghost use Rattle.ts_constraint.specs.inside.Ending.{octets, Takes};
ghost use Rattle.ts_constraint.specs.inside.Fronts.{front_cmp};

use std::cmp::Ordering;

/// The octets of a text from its end on, the letters A to Z as a to z, and then a dot where there
/// is one before it.
#[derive(Clone, Copy)]
pub(crate) struct Ending<'a> {
    pub(crate) text: &'a [u8],
    /// Whether a dot is before the text.
    pub(crate) dotted: bool,
}

impl Ending<'_> {
    /// Takes the first octet away, which is the last of the text.
    fn take(&mut self) -> Option<u8>
        ensures { Takes (octets self.old) result (octets self.new) }
    {
        match self.text {
            [rest @ .., last] => {
                self.text = rest;
                Some(last.to_ascii_lowercase())
            }
            [] if self.dotted => {
                self.dotted = false;
                Some(b'.')
            }
            [] => None,
        }
    }

    /// The order of the octets and the first ones of another, as many as these are. `Equal` where
    /// these are the front of those, `Greater` where they are more.
    pub(crate) fn front_order(self, whole: Ending<'_>) -> Ordering
        ensures { result ≡ front_cmp nat_cmp (octets self.entry) (octets whole.entry) }
    {
        let (mut front, mut whole) = (self, whole);
        while let Some(octet) = front.take() {
            let Some(other) = whole.take() else {
                return Ordering::Greater;
            };
            let order = octet.cmp(&other);
            if order != Ordering::Equal {
                return order;
            }
        }
        Ordering::Equal
    }

    /// The order of the octets of two endings: the first that differ decide, and a front is before
    /// the whole.
    pub(crate) fn order(self, other: Ending<'_>) -> Ordering
        ensures { result ≡ slice_cmp nat_cmp (octets self.entry) (octets other.entry) }
    {
        self.front_order(other)
            .then(other.front_order(self).reverse())
    }
}
