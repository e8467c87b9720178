//! The rules of the values of extensions beside those of DER.

ghost use Rattle.std.specs.Prelude.{◌≡◌, option_map, Some, None, if◌then◌else◌};
ghost use Rattle.std.specs.List.{list_all};
ghost use Rattle.ts_name.specs.General.{has_address_length, has_range_length};
ghost use Rattle.ts_name.specs.Subtree.{is_unbounded};
ghost use Rattle.ts_ext.specs.ExtView.{ext_in};
ghost use Rattle.ts_ext.specs.NameViews.{names_in, subtrees_in, point_name_in, point_in, points_in};
ghost use Rattle.ts_ext.specs.NameViews.{name_constraints_in};
ghost use Rattle.ts_ext.specs.Rules.{all_of, has_point_addresses, has_addresses, are_distinct};
ghost use Rattle.ts_ext.specs.Rules.{broken_rule};
ghost use Rattle.ts_ext.specs.Ext.{nameConstraints};
ghost use Rattle.ts_ext.specs.Reading.{policy_information_in};
ghost use Rattle.ts_der.specs.Element.{inside};
ghost use Rattle.ts_der.specs.View.{now};
ghost use Rattle.ts_shape.specs.Items.{items_at};
ghost use Rattle.ts_shape.specs.declared.fault.CertRule.TheVariants.{AddressLength};

use crate::distribution_point::{DistributionPoint, PointName};
use crate::distribution_points::DistributionPoints;
use crate::ext::Ext;
use crate::name_constraints::NameConstraints;
use crate::policy_information::PolicyInformation;
use ts_der::Element;
use ts_name::{GeneralNames, Subtree};
use ts_shape::{CertRule, SequenceOf, first_repeated};

/// Whether each IP address among names has 4 octets or 16.
fn have_address_length(names: GeneralNames<'_>) -> bool
    ensures { result ≡ list_all has_address_length (names_in names.entry) }
{
    for name in names.iter() {
        if !name.has_address_length() {
            return false;
        }
    }
    true
}

/// Whether each IP address among names that may be absent has 4 octets or 16.
fn have_address_length_if_any(names: Option<GeneralNames<'_>>) -> bool
    ensures { result ≡ all_of has_address_length (option_map names_in names.entry) }
{
    match names {
        Some(names) => have_address_length(names),
        None => true,
    }
}

/// Whether each IP address in the name of a distribution point has 4 octets or 16.
fn point_has_address_length(name: Option<PointName<'_>>) -> bool
    ensures { result ≡ has_point_addresses (option_map point_name_in name.entry) }
{
    match name {
        Some(PointName::FullName(names)) => have_address_length(names),
        _ => true,
    }
}

/// Whether each IP address in the names of distribution points has 4 octets or 16.
fn points_have_address_length(points: DistributionPoints<'_>) -> bool
    ensures { result ≡ list_all has_addresses (points_in points.entry) }
{
    for point in points.iter() {
        let DistributionPoint {
            name,
            crl_issuer,
            ..
        } = point;
        if !point_has_address_length(name) || !have_address_length_if_any(crl_issuer) {
            return false;
        }
    }
    true
}

/// What the subtrees of a list keep to.
#[derive(Clone, Copy)]
struct SubtreeBounds {
    /// Each has minimum zero and no maximum.
    are_unbounded: bool,
    /// Each IP address among their bases has 8 octets or 32.
    have_range_length: bool,
}

/// What the subtrees of a list, if there is one, keep to.
fn bounds_of<'a>(subtrees: Option<SequenceOf<'a, Subtree<'a>>>) -> SubtreeBounds
    ensures unbounded { result.are_unbounded
        ≡ all_of is_unbounded (option_map subtrees_in subtrees.entry) }
    ensures range { result.have_range_length
        ≡ all_of (λ s. has_range_length s.base) (option_map subtrees_in subtrees.entry) }
{
    let mut bounds = SubtreeBounds {
        are_unbounded: true,
        have_range_length: true,
    };
    let Some(subtrees) = subtrees else {
        return bounds;
    };
    for subtree in subtrees.iter() {
        bounds.are_unbounded = bounds.are_unbounded && subtree.is_unbounded();
        bounds.have_range_length = bounds.have_range_length && subtree.has_address_length();
    }
    bounds
}

/// Whether no policy is stated twice.
fn are_distinct_policies(policies: Element<'_>) -> bool
    ensures { result ≡ are_distinct (items_at policy_information_in (inside (now policies.entry))) }
{
    first_repeated::<PolicyInformation>(policies).is_none()
}

/// `AddressLength`, unless each address has its length.
fn length_rule(has_lengths: bool) -> Option<CertRule>
    ensures { result ≡ (if has_lengths then None else Some AddressLength) }
{
    (!has_lengths).then_some(CertRule::AddressLength)
}

/// The first of the rules that name constraints break.
fn constraints_rule(constraints: NameConstraints<'_>) -> Option<CertRule>
    ensures { result ≡ broken_rule (nameConstraints (name_constraints_in constraints.entry)) }
{
    let permitted = bounds_of(constraints.permitted);
    let excluded = bounds_of(constraints.excluded);
    if !permitted.are_unbounded || !excluded.are_unbounded {
        Some(CertRule::SubtreeBounds)
    } else if !permitted.have_range_length || !excluded.have_range_length {
        Some(CertRule::AddressLength)
    } else {
        None
    }
}

impl<'a> Ext<'a> {
    /// The first of the rules beside those of DER that the value breaks: `SubtreeBounds` where a
    /// subtree of name constraints has a minimum other than 0 or a maximum (RFC 5280 4.2.1.10);
    /// `AddressLength` where an IP address has not 4 octets or 16 (4.2.1.6), in a constraint 8 or
    /// 32; `DuplicatePolicy` where a policy is stated twice (4.2.1.4).
    pub fn broken_rule(self) -> Option<CertRule>
        ensures { result ≡ broken_rule (ext_in self.entry) }
    {
        match self {
            Ext::NameConstraints(constraints) => constraints_rule(constraints),
            Ext::CertificatePolicies(policies) => {
                (!are_distinct_policies(policies.list.element)).then_some(CertRule::DuplicatePolicy)
            }
            Ext::SubjectAltName(names)
            | Ext::IssuerAltName(names)
            | Ext::CertificateIssuer(names) => length_rule(have_address_length(names.list)),
            Ext::IssuingDistributionPoint(point) => {
                length_rule(point_has_address_length(point.name))
            }
            Ext::CrlDistributionPoints(points) | Ext::FreshestCrl(points) => {
                length_rule(points_have_address_length(points))
            }
            Ext::AuthorityKeyIdentifier(key) => {
                length_rule(have_address_length_if_any(key.authority_cert_issuer))
            }
            _ => None,
        }
    }
}
