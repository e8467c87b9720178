//! Since when a certificate may not be relied on.

ghost use Rattle.std.specs.Prelude.{◌≡◌, ℤ, Ok, IfOk, option_map};
ghost use Rattle.ts_der.specs.Answer.{Answers, refusal};
ghost use Rattle.ts_der.specs.View.{now};
ghost use Rattle.ts_shape.specs.Fault.{about};
ghost use Rattle.ts_shape.specs.Shape.{plain};
ghost use Rattle.ts_ext.specs.Inner.{inner_fault};
ghost use Rattle.ts_ext.specs.Encoding.{IsInvalidityDate};
ghost use Rattle.ts_ext.specs.Table.{invalidity_date_rules};
ghost use Rattle.ts_ext.specs.Reading.{invalidity_date_of};

use ts_der::{Element, Fault};
use ts_time::{Moment, read_general};

/// Since when a key was known or believed to be compromised, or a certificate otherwise invalid
/// (RFC 5280 5.3.2).
#[derive(Clone, Copy, Debug, PartialEq, Eq)]
pub struct InvalidityDate {
    /// The seconds of the moment: a type that contracts see as a number can't be copied beside a
    /// reference.
    seconds: i64,
}

impl InvalidityDate {
    /// The date that a GeneralizedTime's content is.
    ///
    /// # Errors
    ///
    /// `TimeForm` where the content has another form, or there is no such time.
    pub fn read(element: Element<'_>) -> Result<InvalidityDate, Fault>
        ensures found { IfOk result (λ d. IsInvalidityDate element.entry.content.now d.seconds) }
        ensures only { (m : ℤ) → IsInvalidityDate element.entry.content.now m
            → result ≡ Ok (record { seconds = m }) }
        ensures fault { option_map about (refusal result)
            ≡ inner_fault plain invalidity_date_rules (now element.entry) }
        ensures exact { Answers (λ d. d.seconds) result (invalidity_date_of (now element.entry)) }
    {
        read_invalidity_date(element)
    }

    /// The date, to the second.
    pub fn moment(self) -> Moment
        ensures { result ≡ self.seconds }
    {
        Moment(self.seconds)
    }
}

/// The invalidityDate (RFC 5280 5.3.2) that an element's content is. It is refused where the
/// content is no GeneralizedTime.
#[tactic(auto, unfolding(crate::specs::Reading::invalidity_date_of))]
fn read_invalidity_date(element: Element<'_>) -> Result<InvalidityDate, Fault>
    ensures { Answers (λ d. d.seconds) result (invalidity_date_of (now element.entry)) }
{
    let Moment(seconds) = element.located(read_general(element.content))?;
    Ok(InvalidityDate { seconds })
}
