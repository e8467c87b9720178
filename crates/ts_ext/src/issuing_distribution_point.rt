//! What a CRL covers.

ghost use Rattle.std.specs.Prelude.{◌≡◌, IfOk, IsOkAnd, option_map};
ghost use Rattle.ts_der.specs.Answer.{Answers, refusal};
ghost use Rattle.ts_der.specs.View.{now};
ghost use Rattle.ts_shape.specs.Fault.{about};
ghost use Rattle.ts_shape.specs.Shape.{no_rules};
ghost use Rattle.ts_ext.specs.Inner.{inner_fault};
ghost use Rattle.ts_ext.specs.NameViews.{issuing_point_in};
ghost use Rattle.ts_ext.specs.Points.{issuing_point_of, issuing_point_fields, IsIssuingPoint};
ghost use Rattle.ts_ext.specs.Points.{ListScope};

use crate::distribution_point::{PointName, next_point_name};
use crate::fields::next_flags_if_any;
use crate::reason_flags::ReasonFlags;
use ts_der::{Element, Fault};

const ONLY_USER_CERTS: u8 = 0x81;

const ONLY_CA_CERTS: u8 = 0x82;

const ONLY_SOME_REASONS: u8 = 0x83;

const INDIRECT_CRL: u8 = 0x84;

const ONLY_ATTRIBUTE_CERTS: u8 = 0x85;

/// What a CRL covers (RFC 5280 5.2.5): its distribution point, the kinds of certificates, and the
/// reasons.
#[derive(Clone, Copy)]
pub struct IssuingDistributionPoint<'a> {
    /// The name of the distribution point.
    pub name: Option<PointName<'a>>,
    /// It has certificates of subjects that are no authorities alone.
    pub only_user_certs: bool,
    /// It has certificates of authorities alone.
    pub only_ca_certs: bool,
    /// It is for these reasons alone; for all where there are none.
    pub only_some_reasons: Option<ReasonFlags<'a>>,
    /// It has certificates of other issuers.
    pub indirect_crl: bool,
    /// It has attribute certificates alone.
    pub only_attribute_certs: bool,
}

impl<'a> IssuingDistributionPoint<'a> {
    /// The value that a SEQUENCE's content is.
    ///
    /// # Errors
    ///
    /// The first rule that is broken, with its place: of the name those of
    /// `DistributionPoint::read`; of a flag, where one stands, its header, `BooleanForm` and, of
    /// FALSE, which is the default, `DefaultEncoded`; of the reasons those of `ReasonFlags::read`;
    /// then `Trailing`.
    pub fn read(element: Element<'a>) -> Result<IssuingDistributionPoint<'a>, Fault>
        ensures found { IfOk result (λ p. IsIssuingPoint element.entry.content.now
            (issuing_point_in p)) }
        ensures only { (p : ListScope) → IsIssuingPoint element.entry.content.now p
            → IsOkAnd result (λ read. issuing_point_in read ≡ p) }
        ensures fault { option_map about (refusal result)
            ≡ inner_fault issuing_point_fields no_rules (now element.entry) }
        ensures exact { Answers issuing_point_in result (issuing_point_of (now element.entry)) }
    {
        read_issuing_point(element)
    }
}

/// The IssuingDistributionPoint (RFC 5280 5.2.5) that an element's content is, or the first rule
/// that it breaks.
#[tactic(auto, unfolding(crate::specs::Points::issuing_point_of))]
fn read_issuing_point<'a>(element: Element<'a>) -> Result<IssuingDistributionPoint<'a>, Fault>
    ensures { Answers issuing_point_in result (issuing_point_of (now element.entry)) }
{
    let mut fields = element.reader();
    let name = next_point_name(&mut fields)?;
    let only_user_certs = fields.flag(ONLY_USER_CERTS)?;
    let only_ca_certs = fields.flag(ONLY_CA_CERTS)?;
    let only_some_reasons = next_flags_if_any(&mut fields, ONLY_SOME_REASONS)?;
    let indirect_crl = fields.flag(INDIRECT_CRL)?;
    let only_attribute_certs = fields.flag(ONLY_ATTRIBUTE_CERTS)?;
    fields.end()?;
    Ok(IssuingDistributionPoint {
        name,
        only_user_certs,
        only_ca_certs,
        only_some_reasons,
        indirect_crl,
        only_attribute_certs,
    })
}
