//! When the next CRL is issued.

ghost use Rattle.ts_shape.specs.Fields.{optional_of};
ghost use Rattle.ts_shape.specs.Steps.{Takes};
ghost use Rattle.ts_field.specs.Time.{time_of};
ghost use Rattle.ts_crl.specs.Reading.{next_update_at};

use ts_der::tag::{GENERALIZED_TIME, UTC_TIME};
use ts_der::{Fault, Reader};
use ts_field::{Time, read_time};

/// A time in one of its forms, where an element of its tag is next.
#[tactic(auto, unfolding(ts_shape::specs::Fields::optional_of, ts_der::specs::Reading::optional_at))]
fn next_form_if_any(fields: &mut Reader<'_>, tag: u8) -> Result<Option<Time>, Fault>
    ensures { Takes (λ t. t) fields.new result (optional_of tag time_of fields.old) }
{
    match fields.optional(tag)? {
        Some(element) => Ok(Some(read_time(element)?)),
        None => Ok(None),
    }
}

/// A time, where one is next (RFC 5280 5.1.2.5).
#[tactic(auto, unfolding(crate::specs::Reading::next_update_at))]
pub(crate) fn next_update(fields: &mut Reader<'_>) -> Result<Option<Time>, Fault>
    ensures { Takes (λ t. t) fields.new result (next_update_at fields.old) }
{
    match next_form_if_any(fields, UTC_TIME)? {
        Some(time) => Ok(Some(time)),
        None => next_form_if_any(fields, GENERALIZED_TIME),
    }
}
