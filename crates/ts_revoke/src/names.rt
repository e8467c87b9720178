//! Names that two lists of names share, found without allocation.

ghost use Rattle.std.specs.Prelude.{◌≡◌};
ghost use Rattle.ts_der.specs.Element.{inside};
ghost use Rattle.ts_der.specs.View.{now};
ghost use Rattle.ts_name.specs.General.{general_of, directoryName};
ghost use Rattle.ts_shape.specs.Items.{items_at};
ghost use Rattle.ts_name.specs.GeneralView.{general_in};
ghost use Rattle.ts_name.specs.NameView.{rdns_in};
ghost use Rattle.std.specs.List.{list_any};
ghost use Rattle.ts_name.specs.Sameness.{is_same_name};
ghost use Rattle.ts_revoke.specs.Names.{is_same_general, share as share_of};

use ts_der::Element;
use ts_name::{General, Name};
use ts_shape::SequenceItems;

/// Whether two names are the same.
pub(crate) fn is_same(name: Name<'_>, other: Name<'_>) -> bool
    ensures { result ≡ is_same_name (rdns_in name.entry) (rdns_in other.entry) }
{
    name.same(other)
}

/// Whether two general names are one.
#[tactic(auto, unfolding(crate::specs::Names::is_same_general))]
fn is_same_form(name: &General<'_>, other: &General<'_>) -> bool
    ensures { result ≡ is_same_general (general_in name.now) (general_in other.now) }
{
    match (*name, *other) {
        (General::OtherName(a), General::OtherName(b)) => a == b,
        (General::Rfc822Name(a), General::Rfc822Name(b)) => a == b,
        (General::DnsName(a), General::DnsName(b)) => a == b,
        (General::X400Address(a), General::X400Address(b)) => a == b,
        (General::DirectoryName(a), General::DirectoryName(b)) => is_same(a, b),
        (General::EdiPartyName(a), General::EdiPartyName(b)) => a == b,
        (General::UniformResourceIdentifier(a), General::UniformResourceIdentifier(b)) => a == b,
        (General::IpAddress(a), General::IpAddress(b)) => a == b,
        (General::RegisteredId(a), General::RegisteredId(b)) => a.content == b.content,
        _ => false,
    }
}

/// Whether a name is among those within an element.
fn is_among<'a>(name: &General<'_>, others: Element<'a>) -> bool
    ensures { result ≡ list_any (is_same_general (general_in name.now))
        (items_at general_of (inside (now others.entry))) }
{
    for other in SequenceItems::<'a, General<'a>>::within(others) {
        if is_same_form(name, &other) {
            return true;
        }
    }
    false
}

/// Whether some name within the first element is among those within the second.
pub(crate) fn share<'a>(names: Element<'a>, others: Element<'_>) -> bool
    ensures { result ≡ share_of (items_at general_of (inside (now names.entry)))
        (items_at general_of (inside (now others.entry))) }
{
    for name in SequenceItems::<'a, General<'a>>::within(names) {
        if is_among(&name, others) {
            return true;
        }
    }
    false
}

/// Whether a distinguished name is among the names within an element.
pub(crate) fn holds_directory_name<'a>(name: Name<'_>, names: Element<'a>) -> bool
    ensures { result ≡ list_any (λ n. is_same_general n (directoryName (rdns_in name.entry)))
        (items_at general_of (inside (now names.entry))) }
{
    let wanted = General::DirectoryName(name);
    for other in SequenceItems::<'a, General<'a>>::within(names) {
        if is_same_form(&other, &wanted) {
            return true;
        }
    }
    false
}
