//! The period in which a certificate is valid.

ghost use Rattle.ts_der.specs.Answer.{Answers};
ghost use Rattle.ts_der.specs.View.{now};
ghost use Rattle.ts_shape.specs.Steps.{Takes};
ghost use Rattle.ts_cert.specs.Reading.{validity_of, validity_at};

use ts_der::tag::SEQUENCE;
use ts_der::{Element, Fault, Reader};
use ts_field::{Stamp, Time, next_time};

/// From when to when a certificate is valid, both moments included (RFC 5280 4.1.2.5).
#[derive(Clone, Copy, Debug, PartialEq, Eq)]
pub struct Validity {
    pub not_before: Time,
    pub not_after: Time,
}

/// A validity as a certificate keeps it.
#[derive(Clone, Copy)]
pub(crate) struct Period {
    pub not_before: Stamp,
    pub not_after: Stamp,
}

impl Period {
    ghost use Rattle.std.specs.Prelude.{◌≡◌};
    ghost use Rattle.ts_cert.specs.inside.Period.{validity_in};

    /// The period that keeps a validity.
    pub(crate) fn of(validity: Validity) -> Period
        ensures { validity_in result ≡ validity }
    {
        Period {
            not_before: Stamp::of(validity.not_before),
            not_after: Stamp::of(validity.not_after),
        }
    }

    /// The validity that a period keeps.
    pub(crate) fn validity(self) -> Validity
        ensures { result ≡ validity_in self }
    {
        Validity {
            not_before: self.not_before.time(),
            not_after: self.not_after.time(),
        }
    }
}

/// The period that a SEQUENCE is.
#[tactic(auto, unfolding(crate::specs::Reading::validity_of))]
#[inline(always)]
fn read_validity(element: Element<'_>) -> Result<Validity, Fault>
    ensures { Answers (λ v. v) result (validity_of (now element.entry)) }
{
    let mut fields = element.reader();
    let not_before = next_time(&mut fields)?;
    let not_after = next_time(&mut fields)?;
    fields.end()?;
    Ok(Validity {
        not_before,
        not_after,
    })
}

/// The period that is next, which the reader has then passed.
#[tactic(auto, unfolding(crate::specs::Reading::validity_at, ts_shape::specs::Fields::within))]
#[inline(always)]
pub(crate) fn next_validity(fields: &mut Reader<'_>) -> Result<Validity, Fault>
    ensures { Takes (λ v. v) fields.new result (validity_at fields.old) }
{
    read_validity(fields.element(SEQUENCE)?)
}
