//! Names.

ghost use Rattle.std.specs.Prelude.{OnOk};
ghost use Rattle.std.specs.Str.{IsUtf8};
ghost use Rattle.ts_name.specs.NameEncoding.{encoded_rdn};
ghost use Rattle.ts_make.specs.Description.{rdn_in};
ghost use Rattle.ts_make.specs.Made.{name_octets};
ghost use Rattle.ts_make.specs.Sayable.{AreTexts};
ghost use Rattle.ts_make.specs.inside.Writing.{Appends};

use crate::description::RdnText;
use crate::elements::{append_element, element};
use crate::fault::MakeFault;
use std::alloc::Global;
use ts_der::tag::{OBJECT_IDENTIFIER, SEQUENCE, SET, UTF8_STRING};

/// Appends a relative distinguished name of one attribute: SET { SEQUENCE { OBJECT IDENTIFIER,
/// UTF8String } }.
#[tactic(auto, unfolding(ts_name::specs::NameEncoding::rdn_content, ts_name::specs::NameEncoding::attribute_content))]
fn append_rdn(alloc: Global, octets: &mut Vec<u8>, rdn: &RdnText<'_>) -> Result<(), MakeFault>
    ensures exact { Appends result
        (encoded_rdn (rdn_in rdn.now)) octets.old.items octets.new.items }
    ensures text { OnOk result (IsUtf8 rdn.now.text.now) }
{
    let mut fields = Vec::new(alloc);
    append_element(alloc, &mut fields, OBJECT_IDENTIFIER, &rdn.kind.octets())?;
    append_element(alloc, &mut fields, UTF8_STRING, rdn.text.as_bytes())?;
    let attribute = element(alloc, SEQUENCE, &fields)?;
    append_element(alloc, octets, SET, &attribute)
}

/// Appends a name, a SEQUENCE of its relative distinguished names (RFC 5280 4.1.2.4).
#[tactic(auto, unfolding(crate::specs::Made::name_octets))]
pub(crate) fn append_name(
    alloc: Global,
    octets: &mut Vec<u8>,
    rdns: &[RdnText<'_>],
) -> Result<(), MakeFault>
    ensures exact { Appends result (name_octets rdns.now) octets.old.items octets.new.items }
    ensures texts { OnOk result (AreTexts rdns.now) }
{
    let mut names = Vec::new(alloc);
    for rdn in rdns {
        append_rdn(alloc, &mut names, rdn)?;
    }
    append_element(alloc, octets, SEQUENCE, &names)
}
