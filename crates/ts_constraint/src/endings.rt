//! Endings in a table, in which a text is looked up.

ghost use Rattle.std.specs.Prelude.{◌≡◌, ℕ, List};
ghost use Rattle.std.specs.Ordering.{nat_cmp};
ghost use Rattle.ts_constraint.specs.inside.Ending.{octets};
ghost use Rattle.ts_constraint.specs.inside.Fronts.{has_front, AreApart};

use crate::ending::Ending;

/// Endings in ascending order, of which none is the front of another.
#[derive(Drop)]
pub(crate) struct Endings<'a> {
    items: Vec<Ending<'a>>,
    ghost apart: { AreApart nat_cmp octets items.items },
}

impl<'a> Endings<'a> {
    /// The table of these endings, without each of which another is the front.
    pub(crate) fn new(endings: Vec<Ending<'a>>) -> Self
        ensures { (item : List ℕ) → has_front nat_cmp octets result.items.items item
            ≡ has_front nat_cmp octets endings.entry.items item }
    {
        let mut items = endings;
        items.sort_unstable_by(|a, b| a.order(*b));
        items.dedup_by(|next, kept| kept.front_order(*next).is_eq());
        Endings { items }
    }

    /// Whether one of the endings is the front of this one. The steps grow with the logarithm of
    /// their number.
    pub(crate) fn has_front(&self, item: Ending<'_>) -> bool
        ensures { result ≡ has_front nat_cmp octets self.now.items.items (octets item.entry) }
    {
        self.items
            .as_slice()
            .binary_search_by(|ending| ending.front_order(item))
            .is_ok()
    }
}
