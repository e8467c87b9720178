//! The numbers of lists.

ghost use Rattle.std.specs.Prelude.{◌≡◌, ℕ, List, true, false, IfOk, IsOkAnd, option_map};
ghost use Rattle.ts_der.specs.Answer.{Answers, refusal};
ghost use Rattle.ts_der.specs.Integer.{is_shortest, is_negative};
ghost use Rattle.ts_der.specs.View.{now};
ghost use Rattle.ts_shape.specs.Fault.{about};
ghost use Rattle.ts_shape.specs.Shape.{plain};
ghost use Rattle.ts_ext.specs.Inner.{inner_fault};
ghost use Rattle.ts_ext.specs.Encoding.{IsCrlNumber, IsBaseCrlNumber};
ghost use Rattle.ts_ext.specs.Table.{crl_number_rules, base_crl_number_rules};
ghost use Rattle.ts_ext.specs.Reading.{crl_number_of, base_crl_number_of};

use ts_der::{DerFault, Element, Fault};

/// The number of a list, of any size (RFC 5280 5.2.3).
#[derive(Clone, Copy, Debug, PartialEq, Eq)]
pub struct CrlNumber<'a> {
    /// The contents octets of its INTEGER, the most significant first.
    pub octets: &'a [u8],
    ghost shortest: { is_shortest octets.now ≡ true },
    ghost natural: { is_negative octets.now ≡ false },
}

/// The number of the list that another one states the changes of (RFC 5280 5.2.4).
#[derive(Clone, Copy, Debug, PartialEq, Eq)]
pub struct BaseCrlNumber<'a> {
    /// The contents octets of its INTEGER, the most significant first.
    pub octets: &'a [u8],
    ghost shortest: { is_shortest octets.now ≡ true },
}

impl<'a> CrlNumber<'a> {
    /// The number that an INTEGER's content is.
    ///
    /// # Errors
    ///
    /// `IntegerForm` where the content is not in its shortest form, or negative.
    pub fn read(element: Element<'a>) -> Result<CrlNumber<'a>, Fault>
        ensures found { IfOk result (λ n. IsCrlNumber element.entry.content.now n.octets.now) }
        ensures only { (octets : List ℕ) → IsCrlNumber element.entry.content.now octets
            → IsOkAnd result (λ n. n.octets.now ≡ octets) }
        ensures fault { option_map about (refusal result)
            ≡ inner_fault plain crl_number_rules (now element.entry) }
        ensures exact { Answers (λ n. n.octets.now) result (crl_number_of (now element.entry)) }
    {
        read_crl_number(element)
    }
}

impl<'a> BaseCrlNumber<'a> {
    /// The number that an INTEGER's content is.
    ///
    /// # Errors
    ///
    /// `IntegerForm` where the content is not in its shortest form.
    pub fn read(element: Element<'a>) -> Result<BaseCrlNumber<'a>, Fault>
        ensures found { IfOk result (λ n. IsBaseCrlNumber element.entry.content.now n.octets.now) }
        ensures only { (octets : List ℕ) → IsBaseCrlNumber element.entry.content.now octets
            → IsOkAnd result (λ n. n.octets.now ≡ octets) }
        ensures fault { option_map about (refusal result)
            ≡ inner_fault plain base_crl_number_rules (now element.entry) }
        ensures exact { Answers (λ n. n.octets.now) result
            (base_crl_number_of (now element.entry)) }
    {
        read_base_crl_number(element)
    }
}

/// The cRLNumber (RFC 5280 5.2.3) that an element's content is. A negative number is refused.
#[tactic(auto, unfolding(crate::specs::Reading::crl_number_of))]
fn read_crl_number<'a>(element: Element<'a>) -> Result<CrlNumber<'a>, Fault>
    ensures { Answers (λ n. n.octets.now) result (crl_number_of (now element.entry)) }
{
    let number = element.integer()?;
    if number.is_negative() {
        return Err(Fault {
            kind: DerFault::IntegerForm,
            at: element.at,
        });
    }
    Ok(CrlNumber {
        octets: number.octets,
    })
}

/// The BaseCRLNumber (RFC 5280 5.2.4) that an element's content is.
#[tactic(auto, unfolding(crate::specs::Reading::base_crl_number_of))]
fn read_base_crl_number<'a>(element: Element<'a>) -> Result<BaseCrlNumber<'a>, Fault>
    ensures { Answers (λ n. n.octets.now) result (base_crl_number_of (now element.entry)) }
{
    Ok(BaseCrlNumber {
        octets: element.integer()?.octets,
    })
}
