//! Slots: CRLs of one issuer, one scope and one authority key.

ghost use Rattle.std.specs.List.{find};
ghost use Rattle.std.specs.Prelude.{◌≡◌, option_map, IfOk};
ghost use Rattle.ts_name.specs.NameView.{rdns_in};
ghost use Rattle.ts_name.specs.Sameness.{is_same_name};
ghost use Rattle.ts_extensions.specs.ExtensionView.{extensions_in};
ghost use Rattle.ts_crl.specs.EntryView.{extension_as};
ghost use Rattle.ts_crl.specs.ListView.{crl_in};
ghost use Rattle.ts_crl.specs.Profile.{is_delta as is_delta_list};
ghost use Rattle.ts_crl.specs.Slots.{value_octets, is_same_value as are_same_value};
ghost use Rattle.ts_crl.specs.Slots.{have_same_values as have_same_values_of};
ghost use Rattle.ts_crl.specs.Slots.{is_same_slot as are_one_slot};
ghost use Rattle.ts_crl.specs.Values.{is_known};

use crate::crl::Crl;
use crate::profile::is_delta;
use std::alloc::{AllocError, Global};
use ts_ext::Known;
use ts_extensions::{Extension, Extensions};
use ts_name::Name;

/// Whether two names are the same.
fn is_same(name: Name<'_>, other: Name<'_>) -> bool
    ensures { result ≡ is_same_name (rdns_in name.entry) (rdns_in other.entry) }
{
    name.same(other)
}

/// The octets of a name that are few enough to be compared as they lie: no relative distinguished
/// name in them has more attributes than `Rdn::same` has room for.
const FEW: usize = 65_536;

/// Whether two names are the same. Two long ones are put in canonical form first, since the
/// attributes of each may come in an order of its own, and would be looked up in those of the other
/// one by one.
fn is_same_in(alloc: Global, name: Name<'_>, other: Name<'_>) -> Result<bool, AllocError>
    ensures { IfOk result (λ same. same ≡ is_same_name (rdns_in name.entry) (rdns_in other.entry)) }
{
    if name.element.content.len() <= FEW || other.element.content.len() <= FEW {
        return Ok(is_same(name, other));
    }
    let canon = name.canon(alloc)?;
    let other = other.canon(alloc)?;
    Ok(canon.same(&other))
}

/// The first of the extensions that is this one.
fn find_among<'a>(known: Known, extensions: Extensions<'a>) -> Option<Extension<'a>>
    ensures { option_map extension_as result
        ≡ find (is_known known) (extensions_in extensions.entry) }
{
    extensions.find(known)
}

/// The octets of an extension's value, among others.
fn octets_among<'a>(known: Known, extensions: Extensions<'a>) -> Option<&'a [u8]>
    ensures { option_map (λ o. o.now) result
        ≡ option_map (λ x. x.extnValue) (find (is_known known) (extensions_in extensions.entry)) }
{
    match find_among(known, extensions) {
        Some(extension) => Some(extension.value.content),
        None => None,
    }
}

/// The octets of an extension's value in a CRL.
fn value_octets<'a>(known: Known, crl: &Crl<'a>) -> Option<&'a [u8]>
    ensures { option_map (λ o. o.now) result ≡ value_octets known (crl_in crl.now) }
{
    match crl.extensions() {
        Some(extensions) => octets_among(known, extensions),
        None => None,
    }
}

/// Whether two values are both absent, or equal.
fn is_same_value(value: Option<&[u8]>, other: Option<&[u8]>) -> bool
    ensures { result ≡ are_same_value (option_map (λ o. o.now) value.entry)
        (option_map (λ o. o.now) other.entry) }
{
    match (value, other) {
        (None, None) => true,
        (Some(a), Some(b)) => a == b,
        _ => false,
    }
}

/// Whether two CRLs have the same issuing distribution point, and the same authority key
/// identifier.
fn have_same_values(crl: &Crl<'_>, other: &Crl<'_>) -> bool
    ensures { result ≡ have_same_values_of (crl_in crl.now) (crl_in other.now) }
{
    is_same_value(
        value_octets(Known::IssuingDistributionPoint, crl),
        value_octets(Known::IssuingDistributionPoint, other),
    ) && is_same_value(
        value_octets(Known::AuthorityKeyIdentifier, crl),
        value_octets(Known::AuthorityKeyIdentifier, other),
    )
}

/// Whether two CRLs are of one slot: issuer, issuing distribution point and authority key
/// identifier are the same. They are compared without an allocation.
#[tactic(auto, unfolding(crate::specs::Slots::is_same_slot))]
fn are_of_one_slot(crl: &Crl<'_>, other: &Crl<'_>) -> bool
    ensures { result ≡ are_one_slot (crl_in crl.now) (crl_in other.now) }
{
    is_same(crl.issuer(), other.issuer()) && have_same_values(crl, other)
}

/// Whether two CRLs are of one slot, as `are_of_one_slot` answers, where memory may be used to
/// compare the issuers.
#[tactic(auto, unfolding(crate::specs::Slots::is_same_slot))]
fn are_of_one_slot_in(alloc: Global, crl: &Crl<'_>, other: &Crl<'_>) -> Result<bool, AllocError>
    ensures { IfOk result (λ same. same ≡ are_one_slot (crl_in crl.now) (crl_in other.now)) }
{
    let is_same_issuer = is_same_in(alloc, crl.issuer(), other.issuer())?;
    Ok(is_same_issuer && have_same_values(crl, other))
}

impl<'a> Crl<'a> {
    /// Whether two CRLs are of one slot: their issuers are the same, and so are the octets of
    /// their issuing distribution points and of their authority key identifiers, or both have none
    /// (RFC 5280 6.3.3 (c)).
    pub fn is_same_slot(self, other: Crl<'_>) -> bool
        ensures { result ≡ are_one_slot (crl_in self.entry) (crl_in other.entry) }
    {
        are_of_one_slot(&self, &other)
    }

    /// Whether two CRLs are of one slot, as `is_same_slot` answers, in time that grows with the
    /// CRLs' octets and not with the product of their numbers of attributes.
    ///
    /// # Errors
    ///
    /// Out of memory, where both issuers have more than 65,536 octets.
    pub fn is_same_slot_in(self, alloc: Global, other: Crl<'_>) -> Result<bool, AllocError>
        ensures { IfOk result (λ same. same
            ≡ are_one_slot (crl_in self.entry) (crl_in other.entry)) }
    {
        are_of_one_slot_in(alloc, &self, &other)
    }

    /// Whether the CRL states what has changed since another one (RFC 5280 5.2.4).
    pub fn is_delta(self) -> bool
        ensures { result ≡ is_delta_list (crl_in self.entry) }
    {
        is_delta(&self)
    }
}
