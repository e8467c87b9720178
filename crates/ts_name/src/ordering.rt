//! The order of attributes in canonical form, and sets of attributes in that order, in a table on
//! the stack.

ghost use Rattle.std.specs.Prelude.{◌≡◌, ◌≤◌, ◌↔◌, [], true, IsTrue, IsPermutation, length, map};
ghost use Rattle.std.specs.Cmp.Lexicographic.{slice_cmp};
ghost use Rattle.std.specs.Ordering.{nat_cmp};
ghost use Rattle.ts_name.specs.Canon.{canon_attr, canon_rdn, compare_attrs, canonical_text};
ghost use Rattle.ts_name.specs.NameView.{attributes_in};
ghost use Rattle.ts_name.specs.inside.Sorted.{canon_of, AreSorted};
ghost use Rattle.ts_name.specs.View.{attr_of};

use crate::attribute::Attribute;
use crate::folded::FoldedText;
use crate::rdn::Rdn;
use arrayvec::ArrayVec;
use std::cmp::Ordering;
use ts_der::tag::UTF8_STRING;

impl Attribute<'_> {
    /// The tag in canonical form, that of UTF8String for every text.
    #[tactic(auto, unfolding(crate::specs::Canon::canon_attr))]
    fn canonical_tag(self) -> u8
        ensures { result ≡ (canon_attr (attr_of self.entry)).tag }
    {
        if self.is_text() {
            UTF8_STRING
        } else {
            self.tag
        }
    }

    /// The order of two values in canonical form, which have one tag there.
    fn compare_values(self, other: Attribute<'_>) -> Ordering
        requires { (canon_attr (attr_of self)).tag ≡ (canon_attr (attr_of other)).tag }
        ensures { result ≡ slice_cmp nat_cmp (canon_attr (attr_of self.entry)).value
            (canon_attr (attr_of other.entry)).value }
    {
        if self.is_text() {
            compare_texts(self.value, other.value)
        } else {
            self.value.cmp(other.value)
        }
    }

    /// The order of two attributes in canonical form: by type, then by tag, then by value.
    pub(crate) fn compare(self, other: Attribute<'_>) -> Ordering
        ensures { result ≡ compare_attrs (canon_attr (attr_of self.entry))
            (canon_attr (attr_of other.entry)) }
    {
        let kinds = self.kind.cmp(other.kind);
        if kinds != Ordering::Equal {
            return kinds;
        }
        let tags = self.canonical_tag().cmp(&other.canonical_tag());
        if tags != Ordering::Equal {
            return tags;
        }
        self.compare_values(other)
    }
}

/// The order of two texts in canonical form.
fn compare_texts(a: &[u8], b: &[u8]) -> Ordering
    ensures { result ≡ slice_cmp nat_cmp (canonical_text a.now) (canonical_text b.now) }
{
    FoldedText::new(a).cmp(FoldedText::new(b))
}

/// Puts the attributes of a table in the order of their canonical form.
fn sort<const N: usize>(table: &mut ArrayVec<Attribute<'_>, N>)
    ensures same { IsPermutation table.old.items table.new.items }
    ensures sorted { AreSorted table.new.items }
{
    table.sort_unstable_by(|a, b| a.compare(*b));
}

/// Gathers the attributes of a relative distinguished name in an empty table, in the order of their
/// canonical form, and answers whether there is room for all.
pub(crate) fn gather_sorted<'a, const N: usize>(
    table: &mut ArrayVec<Attribute<'a>, N>,
    rdn: Rdn<'a>,
) -> bool
    requires { table.old.items ≡ [] }
    ensures { result ≡ true → map canon_of table.new.items ≡ canon_rdn (attributes_in rdn.entry) }
{
    for attribute in rdn.attributes() {
        if table.try_push(attribute).is_err() {
            return false;
        }
    }
    sort(table);
    true
}

/// Whether two lists of attributes are one in canonical form, item by item.
pub(crate) fn are_one(a: &[Attribute<'_>], b: &[Attribute<'_>]) -> bool
    ensures { IsTrue result ↔ (map canon_of a.now ≡ map canon_of b.now) }
{
    if a.len() != b.len() {
        return false;
    }
    for (i, attribute) in a.iter().enumerate() {
        if !attribute.same(b[i]) {
            return false;
        }
    }
    true
}
