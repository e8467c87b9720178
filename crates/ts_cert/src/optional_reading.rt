//! Reading the fields that version 1 of a certificate does not have.

ghost use Rattle.std.specs.Prelude.{◌≡◌, IfOk, option_map};
ghost use Rattle.ts_der.specs.Answer.{Answers};
ghost use Rattle.ts_der.specs.BitsView.{parts_of};
ghost use Rattle.ts_shape.specs.Fields.{optional_of};
ghost use Rattle.ts_shape.specs.Steps.{Takes};
ghost use Rattle.ts_extensions.specs.Extension.{explicit_all_located_of};
ghost use Rattle.ts_cert.specs.Reading.{unique_identifier_of, optional_fields_at};
ghost use Rattle.ts_cert.specs.inside.AllLocated.{all_located_within, fault_within};
ghost use Rattle.ts_cert.specs.View.{optional_fields_in};

use crate::optional_fields::{OptionalFields, Places};
use ts_der::{Bits, Element, Fault, Reader};
use ts_ext::Holder;
use ts_extensions::CheckedExtensions;
use ts_shape::CertFault;

/// The tag of the issuer's unique identifier (RFC 5280 4.1).
pub(crate) const ISSUER_UNIQUE_ID: u8 = 0x81;

/// The tag of the subject's unique identifier.
pub(crate) const SUBJECT_UNIQUE_ID: u8 = 0x82;

/// The tag of the extensions, which is explicit.
pub(crate) const EXTENSIONS: u8 = 0xA3;

/// A unique identifier, where an element of this tag stands.
#[tactic(auto, unfolding(crate::specs::Reading::unique_identifier_of, ts_shape::specs::Fields::optional_of, ts_der::specs::Reading::optional_at))]
#[inline(always)]
pub(crate) fn next_unique_id<'a>(
    fields: &mut Reader<'a>,
    tag: u8,
) -> Result<Option<Bits<'a>>, Fault>
    ensures { Takes (option_map parts_of) fields.new result
        (optional_of tag unique_identifier_of fields.old) }
{
    match fields.optional(tag)? {
        Some(element) => Ok(Some(element.bits()?)),
        None => Ok(None),
    }
}

/// The SEQUENCE of the extensions, where they are, and the first rule that they break.
#[tactic(auto, unfolding(ts_shape::specs::Fields::optional_of, ts_der::specs::Reading::optional_at, ts_shape::specs::Repeats::first_repeated))]
#[inline(always)]
fn next_extensions<'a>(
    fields: &mut Reader<'a>,
) -> Result<(Option<Element<'a>>, Option<CertFault>), Fault>
    ensures takes { Takes (λ x. option_map all_located_within x.0) fields.new result
        (optional_of 0xA3 explicit_all_located_of fields.old) }
    ensures fault { IfOk result (λ x. x.1 ≡ fault_within x.0) }
{
    match fields.optional(EXTENSIONS)? {
        Some(element) => {
            let judged = CheckedExtensions::read_explicit(element, Holder::Certificate)?;
            Ok((Some(judged.extensions.list.element), judged.fault))
        }
        None => Ok((None, None)),
    }
}

/// The fields that are left, and no more.
#[tactic(auto, unfolding(crate::specs::Reading::optional_fields_at))]
#[inline(always)]
pub(crate) fn read_late_fields<'a>(fields: &mut Reader<'a>) -> Result<OptionalFields<'a>, Fault>
    ensures { Answers optional_fields_in result (optional_fields_at fields.old) }
{
    let issuer_at = fields.offset();
    let issuer_unique_id = next_unique_id(fields, ISSUER_UNIQUE_ID)?;
    let subject_at = fields.offset();
    let subject_unique_id = next_unique_id(fields, SUBJECT_UNIQUE_ID)?;
    let extensions_at = fields.offset();
    let (extensions, extensions_fault) = next_extensions(fields)?;
    fields.end()?;
    Ok(OptionalFields {
        issuer_unique_id,
        subject_unique_id,
        extensions,
        extensions_fault,
        places: Places {
            issuer_unique_id: issuer_at,
            subject_unique_id: subject_at,
            extensions: extensions_at,
        },
    })
}
