//! What is signed.

ghost use Rattle.std.specs.Prelude.{OnOk};
ghost use Rattle.ts_make.specs.inside.TimeView.{time_octets};
ghost use Rattle.ts_make.specs.Made.{tbs_content, tbs_octets};
ghost use Rattle.ts_make.specs.Sayable.{IsSayable};
ghost use Rattle.ts_make.specs.inside.Writing.{Writes};

use crate::description::CertText;
use crate::elements::{append, element};
use crate::extensions::append_extensions;
use crate::fault::MakeFault;
use crate::key::append_key;
use crate::names::append_name;
use crate::serial::append_number;
use crate::times::{TimeText, append_validity};
use std::alloc::Global;
use ts_der::tag::{INTEGER, SEQUENCE};
use ts_sig::STAND_IN_ALGORITHM;

/// The version, 3: [0] EXPLICIT INTEGER 2 (RFC 5280 4.1.2.1).
const VERSION_3: [u8; 5] = [0xA0, 0x03, 0x02, 0x01, 0x02];

/// The fields that are signed, in the order of the standard (RFC 5280 4.1.2).
#[tactic(auto, unfolding(crate::specs::Made::tbs_content))]
fn write_fields(
    alloc: Global,
    text: &CertText<'_>,
    before: &TimeText,
    after: &TimeText,
) -> Result<Vec<u8>, MakeFault>
    ensures exact { Writes result (tbs_content (time_octets before.now)
        (time_octets after.now) text.now) }
    ensures sayable { OnOk result (IsSayable text.now) }
{
    let mut fields = Vec::new(alloc);
    append(&mut fields, VERSION_3.as_slice())?;
    append_number(alloc, &mut fields, INTEGER, text.serial)?;
    append(&mut fields, STAND_IN_ALGORITHM.as_slice())?;
    append_name(alloc, &mut fields, text.issuer)?;
    append_validity(alloc, &mut fields, before, after)?;
    append_name(alloc, &mut fields, text.subject)?;
    append_key(alloc, &mut fields, text.key)?;
    append_extensions(alloc, &mut fields, text.extensions)?;
    Ok(fields)
}

/// What is signed: tbsCertificate, header included (RFC 5280 4.1.1.1).
#[tactic(auto, unfolding(crate::specs::Made::tbs_octets))]
pub(crate) fn write_tbs(
    alloc: Global,
    text: &CertText<'_>,
    before: &TimeText,
    after: &TimeText,
) -> Result<Vec<u8>, MakeFault>
    ensures exact { Writes result (tbs_octets (time_octets before.now)
        (time_octets after.now) text.now) }
    ensures sayable { OnOk result (IsSayable text.now) }
{
    let fields = write_fields(alloc, text, before, after)?;
    element(alloc, SEQUENCE, &fields)
}
