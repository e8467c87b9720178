//! Times.

ghost use Rattle.std.specs.Prelude.{◌≡◌, ◌++◌};
ghost use Rattle.ts_der.specs.Element.{encode};
ghost use Rattle.ts_make.specs.Times.{IsTimeOf};
ghost use Rattle.ts_make.specs.inside.TimeView.{time_octets};
ghost use Rattle.ts_make.specs.inside.Writing.{Appends};

use crate::elements::append_element;
use crate::fault::MakeFault;
use std::alloc::Global;
use ts_der::tag::{GENERALIZED_TIME, SEQUENCE, UTC_TIME};
use ts_time::{Moment, print_general, print_utc};

/// The text of a moment in the form that a certificate writes it in (RFC 5280 4.1.2.5).
#[derive(Clone, Copy)]
pub(crate) enum TimeText {
    /// UTCTime, for the years 1950 to 2049.
    Utc([u8; 13]),
    /// GeneralizedTime, for all others from 0 to 9999.
    General([u8; 15]),
    /// Outside these years, no text.
    Outside,
}

impl TimeText {
    /// The text of a moment.
    pub(crate) fn of(moment: Moment) -> TimeText
        ensures { IsTimeOf (time_octets result) moment }
    {
        if let Some(text) = print_utc(moment) {
            return TimeText::Utc(text);
        }
        match print_general(moment) {
            Some(text) => TimeText::General(text),
            None => TimeText::Outside,
        }
    }

    /// Appends the time as an element.
    pub(crate) fn append(&self, alloc: Global, octets: &mut Vec<u8>) -> Result<(), MakeFault>
        ensures { Appends result (time_octets self.now) octets.old.items octets.new.items }
    {
        match self {
            TimeText::Utc(text) => append_element(alloc, octets, UTC_TIME, text.as_slice()),
            TimeText::General(text) => {
                append_element(alloc, octets, GENERALIZED_TIME, text.as_slice())
            }
            TimeText::Outside => append_element(alloc, octets, GENERALIZED_TIME, &[]),
        }
    }
}

/// Appends a validity period (RFC 5280 4.1.2.5).
pub(crate) fn append_validity(
    alloc: Global,
    octets: &mut Vec<u8>,
    before: &TimeText,
    after: &TimeText,
) -> Result<(), MakeFault>
    ensures { Appends result (encode 0x30 (time_octets before.now ++ time_octets after.now))
        octets.old.items octets.new.items }
{
    let mut times = Vec::new(alloc);
    before.append(alloc, &mut times)?;
    after.append(alloc, &mut times)?;
    append_element(alloc, octets, SEQUENCE, &times)
}
