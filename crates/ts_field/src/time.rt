//! Times, in the two forms in which certificates and lists write them.

ghost use Rattle.ts_der.specs.Answer.{Answers};
ghost use Rattle.ts_der.specs.View.{now};
ghost use Rattle.ts_shape.specs.Steps.{Takes};
ghost use Rattle.ts_field.specs.Time.{time_of, time_at};

use ts_der::tag::{GENERALIZED_TIME, UTC_TIME};
use ts_der::{DerFault, Element, Fault, Reader};
use ts_time::{Moment, read_general, read_utc};

/// The two forms in which a certificate or a list writes a moment (RFC 5280 4.1.2.5, 5.1.2.4).
#[derive(Clone, Copy, Debug, PartialEq, Eq)]
pub enum TimeForm {
    /// UTCTime, of two digits for the year.
    Utc,
    /// GeneralizedTime, of four.
    General,
}

/// A moment, with the form in which it is written (RFC 5280 4.1.2.5, 5.1.2.4).
#[derive(Clone, Copy, Debug, PartialEq, Eq)]
pub struct Time {
    pub form: TimeForm,
    pub moment: Moment,
}

/// A time as the readers of certificates and lists keep it. The language's borrow checker can't
/// hand on a struct that holds a
/// `Moment`, which contracts see as a number, beside a name, which has a proved invariant.
#[derive(Clone, Copy)]
pub struct Stamp {
    pub form: TimeForm,
    /// The seconds of the moment.
    pub seconds: i64,
}

impl Stamp {
    ghost use Rattle.std.specs.Prelude.{◌≡◌};
    ghost use Rattle.ts_field.specs.View.{time_in};

    /// The time, to be kept.
    pub fn of(time: Time) -> Stamp
        ensures { time_in result ≡ time }
    {
        Stamp {
            form: time.form,
            seconds: time.moment.0,
        }
    }

    /// The time that is kept.
    pub fn time(self) -> Time
        ensures { result ≡ time_in self }
    {
        Time {
            form: self.form,
            moment: Moment(self.seconds),
        }
    }
}

/// The time that an element is, by its tag.
#[tactic(auto, unfolding(crate::specs::Time::time_of))]
#[inline(always)]
pub fn read_time(element: Element<'_>) -> Result<Time, Fault>
    ensures { Answers (λ t. t) result (time_of (now element.entry)) }
{
    match element.tag {
        UTC_TIME => Ok(Time {
            form: TimeForm::Utc,
            moment: element.located(read_utc(element.content))?,
        }),
        GENERALIZED_TIME => Ok(Time {
            form: TimeForm::General,
            moment: element.located(read_general(element.content))?,
        }),
        _ => Err(Fault {
            kind: DerFault::WrongTag,
            at: element.at,
        }),
    }
}

/// The time that is next, which the reader has then passed.
#[tactic(auto, unfolding(crate::specs::Time::time_at))]
#[inline(always)]
pub fn next_time(fields: &mut Reader<'_>) -> Result<Time, Fault>
    ensures { Takes (λ t. t) fields.new result (time_at fields.old) }
{
    read_time(fields.next()?)
}
