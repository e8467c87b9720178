//! Names compared in canonical form (RFC 5280 7.1), without allocation.

ghost use Rattle.std.specs.Prelude.{◌≡◌, ◌≤◌, ◌↔◌, true, IsTrue, IfSome, map, length};
ghost use Rattle.ts_name.specs.Canon.{canon_attr, canon_rdn, count_of};
ghost use Rattle.ts_name.specs.Sameness.{canon_name, IsWithin, StripsTo};
ghost use Rattle.ts_name.specs.NameView.{rdns_in, attributes_in};
ghost use Rattle.ts_name.specs.View.{attr_of};

use crate::attribute::Attribute;
use crate::fast_names::have_one_encoding;
use crate::name::Name;
use crate::name_items::Rdns;
use crate::ordering::{are_one, gather_sorted};
use crate::rdn::Rdn;
use arrayvec::ArrayVec;

/// How many attributes there are.
fn size(rdn: Rdn<'_>) -> usize
    ensures { result ≡ length (attributes_in rdn.entry) }
{
    let mut size = 0;
    for _ in rdn.attributes() {
        size += 1;
    }
    size
}

/// How many of the attributes are this one in canonical form.
fn count(rdn: Rdn<'_>, attribute: Attribute<'_>) -> usize
    ensures { result ≡ count_of (canon_attr (attr_of attribute.entry))
        (map canon_attr (attributes_in rdn.entry)) }
{
    let mut count = 0;
    for other in rdn.attributes() {
        if attribute.same(other) {
            count += 1;
        }
    }
    count
}

/// Whether two relative distinguished names have as many attributes, and each as often, by counting
/// each.
fn are_one_by_counts(a: Rdn<'_>, b: Rdn<'_>) -> bool
    ensures { IsTrue result ↔ (canon_rdn (attributes_in a.entry)
        ≡ canon_rdn (attributes_in b.entry)) }
{
    if size(a) != size(b) {
        return false;
    }
    for attribute in a.attributes() {
        if count(a, attribute) != count(b, attribute) {
            return false;
        }
    }
    true
}

/// Whether two relative distinguished names have the attributes in one order, each one in canonical
/// form.
fn are_one_in_order(a: Rdn<'_>, b: Rdn<'_>) -> bool
    ensures { result ≡ true → canon_rdn (attributes_in a.entry)
        ≡ canon_rdn (attributes_in b.entry) }
{
    let mut others = b.attributes();
    for attribute in a.attributes() {
        let Some(other) = others.next() else {
            return false;
        };
        if !attribute.same(other) {
            return false;
        }
    }
    match others.next() {
        None => true,
        Some(_) => false,
    }
}

/// Whether two relative distinguished names are one, by tables of their attributes in the order of
/// the canonical form. `None` where a table has no room for them.
#[inline(never)]
fn are_one_by_tables<const N: usize>(a: Rdn<'_>, b: Rdn<'_>) -> Option<bool>
    requires { N ≤ 16384 }
    ensures { IfSome result (λ one. IsTrue one
        ↔ (canon_rdn (attributes_in a.entry) ≡ canon_rdn (attributes_in b.entry))) }
{
    let mut first = ArrayVec::<Attribute<'_>, N>::new();
    let mut second = ArrayVec::<Attribute<'_>, N>::new();
    if !gather_sorted(&mut first, a) || !gather_sorted(&mut second, b) {
        return None;
    }
    Some(are_one(first.as_slice(), second.as_slice()))
}

/// The attributes of the most relative distinguished names.
const FEW: usize = 16;

/// The attributes of a long relative distinguished name.
const MANY: usize = 512;

/// More attributes than 65,536 octets have, and so than any certificate has in one relative
/// distinguished name.
const ALL: usize = 9_600;

impl Rdn<'_> {
    /// Whether two relative distinguished names are one in canonical form: they have as many
    /// attributes, and each as often, in whatever order. It takes no memory but tables on the
    /// stack, of 768 kB at most. Of sets of more than 9,600 attributes each is counted in the
    /// other, so that their sizes are multiplied.
    pub fn same(self, other: Rdn<'_>) -> bool
        ensures { IsTrue result ↔ (canon_rdn (attributes_in self.entry)
            ≡ canon_rdn (attributes_in other.entry)) }
    {
        if are_one_in_order(self, other) {
            return true;
        }
        let one = match size(self).max(size(other)) {
            ..=1 => return are_one_by_counts(self, other),
            ..=FEW => are_one_by_tables::<FEW>(self, other),
            ..=MANY => are_one_by_tables::<MANY>(self, other),
            _ => are_one_by_tables::<ALL>(self, other),
        };
        match one {
            Some(one) => one,
            None => are_one_by_counts(self, other),
        }
    }
}

/// What is left of a name's relative distinguished names after these others, if it begins with
/// them.
fn behind<'a>(name: Rdns<'a>, front: Rdns<'_>) -> Option<Rdns<'a>>
    ensures { StripsTo name.entry front.entry result }
{
    let mut rest = name;
    for wanted in front {
        let first = rest.next()?;
        if !first.same(wanted) {
            return None;
        }
    }
    Some(rest)
}

impl Name<'_> {
    /// Whether two names are one (RFC 5280 7.1): their canonical forms are equal.
    pub fn same(self, other: Name<'_>) -> bool
        ensures { IsTrue result ↔ (canon_name (rdns_in self.entry)
            ≡ canon_name (rdns_in other.entry)) }
    {
        if have_one_encoding(self, other) {
            return true;
        }
        match behind(self.rdns(), other.rdns()) {
            Some(mut rest) => rest.next().is_none(),
            None => false,
        }
    }

    /// Whether the name lies within the subtree of a name (RFC 5280 7.1, 4.2.1.10): its first
    /// relative distinguished names are all those of that name.
    pub fn within(self, subtree: Name<'_>) -> bool
        ensures { IsTrue result ↔ IsWithin (rdns_in self.entry) (rdns_in subtree.entry) }
    {
        behind(self.rdns(), subtree.rdns()).is_some()
    }
}
