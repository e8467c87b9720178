//! What is signed of a CRL.

ghost use Rattle.std.specs.Prelude.{◌++◌, ◌<◌, ◌^◌, OnOk};
ghost use Rattle.std.specs.List.{flat_map};
ghost use Rattle.ts_sig.specs.StandIn.{algorithm_identifier};
ghost use Rattle.ts_crl.specs.declared.version.ListVersion.TheVariants.{V2};
ghost use Rattle.ts_crl.specs.Encoding.{crl_version_octets};
ghost use Rattle.ts_make.specs.inside.TimeView.{time_octets};
ghost use Rattle.ts_make.specs.Made.{name_octets};
ghost use Rattle.ts_make.specs.CrlExtensions.{crl_field, crl_extensions};
ghost use Rattle.ts_make.specs.CrlMade.{entry_octets, revoked_octets, crl_content, crl_tbs};
ghost use Rattle.ts_make.specs.CrlMaking.{AreSerials, IsSayableCrl};
ghost use Rattle.ts_make.specs.Sayable.{AreTexts};
ghost use Rattle.ts_make.specs.Told.{IsSmallIfAny};
ghost use Rattle.ts_make.specs.inside.Writing.{Appends, Writes};

use crate::crl_description::{CrlText, EntryText};
use crate::crl_extensions::{append_crl_extensions, append_reason};
use crate::description::RdnText;
use crate::elements::{append, append_element, element};
use crate::fault::MakeFault;
use crate::names::append_name;
use crate::serial::append_number;
use crate::times::TimeText;
use std::alloc::Global;
use ts_der::tag::{INTEGER, SEQUENCE};
use ts_sig::STAND_IN_ALGORITHM;

/// The version, 2: INTEGER 1 (RFC 5280 5.1.2.1).
const VERSION_2: [u8; 3] = [0x02, 0x01, 0x01];

/// Appends an entry (RFC 5280 5.1.2.6).
#[tactic(auto, unfolding(crate::specs::CrlMade::entry_content))]
fn append_entry(
    alloc: Global,
    octets: &mut Vec<u8>,
    date: &TimeText,
    entry: &EntryText,
) -> Result<(), MakeFault>
    ensures exact { Appends result
        (entry_octets (time_octets date.now) entry.now) octets.old.items octets.new.items }
    ensures small { OnOk result (entry.now.serial < 2 ^ 32) }
{
    let mut extensions = Vec::new(alloc);
    append_reason(alloc, &mut extensions, entry.reason)?;
    let mut fields = Vec::new(alloc);
    append_number(alloc, &mut fields, INTEGER, entry.serial)?;
    date.append(alloc, &mut fields)?;
    append_element(alloc, &mut fields, SEQUENCE, &extensions)?;
    append_element(alloc, octets, SEQUENCE, &fields)
}

/// Appends entries, one after another.
fn append_entries(
    alloc: Global,
    octets: &mut Vec<u8>,
    date: &TimeText,
    entries: &[EntryText],
) -> Result<(), MakeFault>
    ensures exact { Appends result
        (flat_map (entry_octets (time_octets date.now)) entries.now) octets.old.items
        octets.new.items }
    ensures small { OnOk result (AreSerials entries.now) }
{
    for entry in entries {
        append_entry(alloc, octets, date, entry)?;
    }
    Ok(())
}

/// Appends revokedCertificates, unless there are none (RFC 5280 5.1.2.6).
#[tactic(auto, unfolding(crate::specs::CrlMade::revoked_octets))]
fn append_revoked(
    alloc: Global,
    octets: &mut Vec<u8>,
    date: &TimeText,
    entries: &[EntryText],
) -> Result<(), MakeFault>
    ensures exact { Appends result
        (revoked_octets (time_octets date.now) entries.now) octets.old.items octets.new.items }
    ensures small { OnOk result (AreSerials entries.now) }
{
    if entries.is_empty() {
        return Ok(());
    }
    let mut list = Vec::new(alloc);
    append_entries(alloc, &mut list, date, entries)?;
    append_element(alloc, octets, SEQUENCE, &list)
}

/// The version, the algorithm and the issuer (RFC 5280 5.1.2.1 to 5.1.2.3).
fn write_head(alloc: Global, issuer: &[RdnText<'_>]) -> Result<Vec<u8>, MakeFault>
    ensures exact { Writes result (crl_version_octets V2
        ++ (algorithm_identifier ++ name_octets issuer.now)) }
    ensures texts { OnOk result (AreTexts issuer.now) }
{
    let mut fields = Vec::new(alloc);
    append(&mut fields, VERSION_2.as_slice())?;
    append(&mut fields, STAND_IN_ALGORITHM.as_slice())?;
    append_name(alloc, &mut fields, issuer)?;
    Ok(fields)
}

/// Appends thisUpdate and nextUpdate (RFC 5280 5.1.2.4, 5.1.2.5).
fn append_times(
    alloc: Global,
    octets: &mut Vec<u8>,
    this: &TimeText,
    next: &TimeText,
) -> Result<(), MakeFault>
    ensures { Appends result (time_octets this.now ++ time_octets next.now) octets.old.items
        octets.new.items }
{
    this.append(alloc, octets)?;
    next.append(alloc, octets)
}

/// The fields that are signed, in the order of the standard (RFC 5280 5.1.2).
#[tactic(auto, unfolding(crate::specs::CrlMade::crl_content))]
fn write_crl_fields(
    alloc: Global,
    text: &CrlText<'_>,
    this: &TimeText,
    next: &TimeText,
) -> Result<Vec<u8>, MakeFault>
    ensures exact { Writes result (crl_content (time_octets this.now)
        (time_octets next.now) text.now) }
    ensures sayable { OnOk result (IsSayableCrl text.now) }
{
    let mut fields = write_head(alloc, text.issuer)?;
    append_times(alloc, &mut fields, this, next)?;
    append_revoked(alloc, &mut fields, this, text.entries)?;
    append_crl_extensions(alloc, &mut fields, text)?;
    Ok(fields)
}

/// What is signed: tbsCertList, header included (RFC 5280 5.1.1.1).
#[tactic(auto, unfolding(crate::specs::CrlMade::crl_tbs))]
pub(crate) fn write_crl_tbs(
    alloc: Global,
    text: &CrlText<'_>,
    this: &TimeText,
    next: &TimeText,
) -> Result<Vec<u8>, MakeFault>
    ensures exact { Writes result (crl_tbs (time_octets this.now) (time_octets next.now) text.now) }
    ensures sayable { OnOk result (IsSayableCrl text.now) }
{
    let fields = write_crl_fields(alloc, text, this, next)?;
    element(alloc, SEQUENCE, &fields)
}
