//! Fields that more than one SEQUENCE has. Each reads the element that is next, which the reader
//! has then passed.

ghost use Rattle.ts_shape.specs.Steps.{Takes};
ghost use Rattle.std.specs.Prelude.{option_map};
ghost use Rattle.ts_der.specs.BitsView.{bits_in};
ghost use Rattle.ts_shape.specs.Fields.{oid_at, optional_of};
ghost use Rattle.ts_ext.specs.Reading.{small_of, reason_flags_of};
ghost use Rattle.ts_ext.specs.GeneralNames.{general_names_of};
ghost use Rattle.ts_ext.specs.NameViews.{names_in};

use crate::reason_flags::ReasonFlags;
use ts_der::tag::{INTEGER, OBJECT_IDENTIFIER, SEQUENCE};
use ts_der::{Fault, OidRef, Reader};
use ts_name::GeneralNames;
use ts_shape::SequenceOf;

/// An OBJECT IDENTIFIER.
#[tactic(auto, unfolding(ts_shape::specs::Fields::oid_at, ts_shape::specs::Fields::within))]
#[inline(always)]
pub(crate) fn next_oid<'a>(fields: &mut Reader<'a>) -> Result<OidRef<'a>, Fault>
    ensures { Takes (λ oid. oid.content.now) fields.new result (oid_at fields.old) }
{
    fields.element(OBJECT_IDENTIFIER)?.oid()
}

/// An INTEGER from 0 to 4,294,967,295, where an element of this tag stands.
#[tactic(auto, unfolding(crate::specs::Reading::small_of, ts_shape::specs::Fields::optional_of, ts_der::specs::Reading::optional_at))]
pub(crate) fn next_small_if_any(fields: &mut Reader<'_>, tag: u8) -> Result<Option<u32>, Fault>
    ensures { Takes (λ n. n) fields.new result (optional_of tag small_of fields.old) }
{
    match fields.optional(tag)? {
        Some(element) => Ok(Some(element.small()?)),
        None => Ok(None),
    }
}

/// Named bits of reasons, where an element of this tag stands.
#[tactic(auto, unfolding(ts_shape::specs::Fields::optional_of, ts_der::specs::Reading::optional_at))]
pub(crate) fn next_flags_if_any<'a>(
    fields: &mut Reader<'a>,
    tag: u8,
) -> Result<Option<ReasonFlags<'a>>, Fault>
    ensures { Takes (option_map (λ f. bits_in f.bits)) fields.new result
        (optional_of tag reason_flags_of fields.old) }
{
    match fields.optional(tag)? {
        Some(element) => Ok(Some(ReasonFlags::read(element)?)),
        None => Ok(None),
    }
}

/// General names, where an element of this tag stands.
#[tactic(auto, unfolding(ts_shape::specs::Fields::optional_of, ts_der::specs::Reading::optional_at))]
pub(crate) fn next_names_if_any<'a>(
    fields: &mut Reader<'a>,
    tag: u8,
) -> Result<Option<GeneralNames<'a>>, Fault>
    ensures { Takes (option_map names_in) fields.new result
        (optional_of tag general_names_of fields.old) }
{
    match fields.optional(tag)? {
        Some(element) => Ok(Some(SequenceOf::read(element)?)),
        None => Ok(None),
    }
}
