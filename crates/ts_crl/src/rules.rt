//! Rules of a CRL and of its extensions that have a place.

ghost use Rattle.std.specs.Prelude.{◌≡◌, [], map, unwrap_or, option_map};
ghost use Rattle.ts_ext.specs.declared.known.Holder.TheVariants.{List as ListHolder};
ghost use Rattle.ts_extensions.specs.ExtensionView.{located_as};
ghost use Rattle.ts_extensions.specs.ValueRules.{values_fault as values_fault_of};
ghost use Rattle.ts_crl.specs.EntryView.{located_items_in, placed_in, revoked_in};
ghost use Rattle.ts_crl.specs.ListView.{located_list_in};
ghost use Rattle.ts_crl.specs.Rules.{located_as_ruled, all_located_as_ruled};
ghost use Rattle.ts_crl.specs.Rules.{rule_fault as rule_fault_of, fault_if_any as fault_if_any_of};
ghost use Rattle.ts_crl.specs.Rules.{entries_fault as entries_fault_of};
ghost use Rattle.ts_crl.specs.Rules.{fault_by_place as fault_by_place_of};
ghost use Rattle.ts_crl.specs.Rules.{crl_version_fault as version_fault_of};
ghost use Rattle.ts_crl.specs.Rules.{crl_algorithms_fault as algorithms_fault_of};
ghost use Rattle.ts_crl.specs.Rules.{placed_fault as placed_fault_of};

use crate::crl::Crl;
use crate::extension_list::ExtensionList;
use crate::extension_rule::ExtensionRule;
use crate::placed::PlacedFault;
use crate::revoked::RevokedEntries;
use crate::values::with_number;
use crate::version::ListVersion;
use ts_ext::{Holder, Known};
use ts_extensions::Extension;
use ts_shape::{CertFault, CertRule, first_repeated};

/// An extension under the object identifier of the one whose rules its value keeps: a base number
/// keeps those of the number of a CRL (RFC 5280 5.2.4).
fn as_ruled<'a>(extension: Extension<'a>) -> Extension<'a>
    ensures { located_as result ≡ located_as_ruled (located_as extension.entry) }
{
    let indicator = [0x55, 0x1D, Known::DeltaCrlIndicator.arc()];
    if extension.id.content == indicator.as_slice() {
        with_number(extension)
    } else {
        extension
    }
}

/// The first rule that the values of the extensions of a CRL break.
fn list_values_fault(list: ExtensionList<'_>) -> Option<CertFault>
    ensures { result ≡ values_fault_of ListHolder
        (map located_as_ruled (located_items_in list.entry)) }
{
    for extension in list.extensions().iter() {
        if let Some(fault) = as_ruled(extension).first_fault(Holder::List) {
            return Some(fault);
        }
    }
    None
}

/// The first rule that the values of extensions break.
fn values_fault(holder: Holder, list: ExtensionList<'_>) -> Option<CertFault>
    ensures { result ≡ values_fault_of holder
        (all_located_as_ruled holder (located_items_in list.entry)) }
{
    match holder {
        Holder::List => list_values_fault(list),
        Holder::Certificate | Holder::Entry => list.extensions().broken_rule(holder),
    }
}

/// The first place at which extensions break a rule.
pub(crate) fn rule_fault<'a>(
    rule: ExtensionRule,
    holder: Holder,
    placed: PlacedFault<'a>,
) -> Option<CertFault>
    ensures { result ≡ rule_fault_of rule holder (placed_in placed.entry) }
{
    match rule {
        ExtensionRule::OldVersion => Some(CertFault {
            kind: CertRule::ExtensionsInOldVersion,
            at: placed.at,
        }),
        ExtensionRule::Repeated => {
            let extension = first_repeated::<Extension<'a>>(placed.list.element)?;
            Some(CertFault {
                kind: CertRule::DuplicateExtension,
                at: extension.at,
            })
        }
        ExtensionRule::Values => values_fault(holder, placed.list),
    }
}

/// The first place at which extensions break a rule; none where they are absent.
fn fault_if_any(
    rule: ExtensionRule,
    holder: Holder,
    placed: Option<PlacedFault<'_>>,
) -> Option<CertFault>
    ensures { result ≡ fault_if_any_of rule holder (option_map placed_in placed.entry) }
{
    rule_fault(rule, holder, placed?)
}

/// The first place at which the extensions of entries break a rule, which was found when they were
/// read.
fn entries_fault(rule: ExtensionRule, revoked: RevokedEntries<'_>) -> Option<CertFault>
    ensures { result ≡ entries_fault_of rule (revoked_in revoked.entry) }
{
    match rule {
        ExtensionRule::OldVersion => revoked.findings.old_version,
        ExtensionRule::Repeated => revoked.findings.repeated,
        ExtensionRule::Values => revoked.findings.value,
    }
}

/// The first place at which the extensions of entries break a rule, where there may be no list of
/// entries.
fn entries_fault_if_any(
    rule: ExtensionRule,
    revoked: Option<RevokedEntries<'_>>,
) -> Option<CertFault>
    ensures { result ≡ entries_fault_of rule (unwrap_or (option_map revoked_in revoked.entry) []) }
{
    entries_fault(rule, revoked?)
}

/// The first place at which the extensions of entries, and then those of the CRL, break a rule.
fn fault_by_place(rule: ExtensionRule, crl: &Crl<'_>) -> Option<CertFault>
    ensures { result ≡ fault_by_place_of rule (located_list_in crl.now) }
{
    match entries_fault_if_any(rule, crl.revoked) {
        Some(fault) => Some(fault),
        None => fault_if_any(rule, Holder::List, crl.extensions),
    }
}

/// The first place at which a CRL of version 1 has extensions, which that version does not allow.
fn version_fault(crl: &Crl<'_>) -> Option<CertFault>
    ensures { result ≡ version_fault_of crl.now.version (located_list_in crl.now) }
{
    match crl.version {
        ListVersion::V1 => fault_by_place(ExtensionRule::OldVersion, crl),
        ListVersion::V2 => None,
    }
}

/// The fault of a CRL whose two algorithm identifiers differ (RFC 5280 5.1.1.2), at the one beside
/// the signature.
fn algorithms_fault(crl: &Crl<'_>) -> Option<CertFault>
    ensures { result ≡ algorithms_fault_of (located_list_in crl.now) }
{
    if crl.signature.whole != crl.signature_algorithm.whole {
        return Some(CertFault {
            kind: CertRule::AlgorithmMismatch,
            at: crl.identifier_at,
        });
    }
    None
}

/// The first of these rules that a CRL breaks.
pub(crate) fn placed_fault(crl: &Crl<'_>) -> Option<CertFault>
    ensures { result ≡ placed_fault_of (located_list_in crl.now) }
{
    if let Some(fault) = algorithms_fault(crl) {
        return Some(fault);
    }
    if let Some(fault) = version_fault(crl) {
        return Some(fault);
    }
    if let Some(fault) = fault_by_place(ExtensionRule::Repeated, crl) {
        return Some(fault);
    }
    fault_by_place(ExtensionRule::Values, crl)
}
