//! Where CRLs are found.

ghost use Rattle.std.specs.Prelude.{◌≡◌, IfOk, IsOkAnd, option_map};
ghost use Rattle.ts_der.specs.Answer.{Answers, refusal};
ghost use Rattle.ts_der.specs.View.{now};
ghost use Rattle.ts_shape.specs.Fault.{about};
ghost use Rattle.ts_shape.specs.Fields.{optional_of};
ghost use Rattle.ts_shape.specs.Shape.{no_rules};
ghost use Rattle.ts_shape.specs.Steps.{Takes};
ghost use Rattle.ts_ext.specs.Inner.{inner_fault};
ghost use Rattle.ts_ext.specs.NameViews.{point_name_in, point_in};
ghost use Rattle.ts_ext.specs.Points.{point_name_of, wrapped_name_of, point_of, point_fields};
ghost use Rattle.ts_ext.specs.Points.{IsPoint, Point};

use crate::fields::{next_flags_if_any, next_names_if_any};
use crate::reason_flags::ReasonFlags;
use crate::tag::{FULL_NAME, POINT_NAME};
use ts_der::tag::SEQUENCE;
use ts_der::{DerFault, Element, Fault, Reader};
use ts_name::{GeneralNames, Rdn};
use ts_shape::{FromElement, SequenceOf, tagged_as};

const REASONS: u8 = 0x81;

const CRL_ISSUER: u8 = 0xA2;

const RELATIVE_NAME: u8 = 0xA1;

/// The name of a distribution point (RFC 5280 4.2.1.13, `DistributionPointName`).
#[derive(Clone, Copy)]
pub enum PointName<'a> {
    /// `fullName [0]`: names of one list, each another way to it.
    FullName(GeneralNames<'a>),
    /// `nameRelativeToCRLIssuer [1]`: what follows the name of the list's issuer.
    RelativeName(Rdn<'a>),
}

/// Where a list is found, and for which reasons (RFC 5280 4.2.1.13).
#[derive(Clone, Copy)]
pub struct DistributionPoint<'a> {
    /// The names of the list.
    pub name: Option<PointName<'a>>,
    /// The reasons that the list is for; all of them where there are none.
    pub reasons: Option<ReasonFlags<'a>>,
    /// The names of the list's issuer, where it is not that of the certificate.
    pub crl_issuer: Option<GeneralNames<'a>>,
}

/// The name of a distribution point that an element is, by its tag.
#[tactic(auto, unfolding(crate::specs::Points::point_name_of))]
fn point_name<'a>(element: Element<'a>) -> Result<PointName<'a>, Fault>
    ensures { Answers point_name_in result (point_name_of (now element.entry)) }
{
    match element.tag {
        FULL_NAME => Ok(PointName::FullName(SequenceOf::read(element)?)),
        RELATIVE_NAME => Ok(PointName::RelativeName(Rdn::read(element)?)),
        _ => Err(Fault {
            kind: DerFault::WrongTag,
            at: element.at,
        }),
    }
}

/// The one name of a distribution point within an element.
#[tactic(auto, unfolding(ts_shape::specs::Items::alone, ts_shape::specs::Items::each))]
fn wrapped_name<'a>(element: Element<'a>) -> Result<PointName<'a>, Fault>
    ensures { Answers point_name_in result (wrapped_name_of (now element.entry)) }
{
    let mut fields = element.reader();
    let name = point_name(fields.next()?)?;
    fields.end()?;
    Ok(name)
}

/// The name of a distribution point, where one is next.
#[tactic(auto, unfolding(ts_shape::specs::Fields::optional_of, ts_der::specs::Reading::optional_at))]
pub(crate) fn next_point_name<'a>(fields: &mut Reader<'a>) -> Result<Option<PointName<'a>>, Fault>
    ensures { Takes (option_map point_name_in) fields.new result
        (optional_of 0xA0 wrapped_name_of fields.old) }
{
    match fields.optional(POINT_NAME)? {
        Some(element) => Ok(Some(wrapped_name(element)?)),
        None => Ok(None),
    }
}

impl<'a> DistributionPoint<'a> {
    /// The distribution point that a SEQUENCE's content is.
    ///
    /// # Errors
    ///
    /// The first rule that is broken, with its place: of the name its header and that of the one
    /// form within it, with those of `General::read` and `Rdn::read`, `Empty` and `Trailing`; of
    /// the reasons those of `ReasonFlags::read`; of the issuer those of `General::read` and
    /// `Empty`; then `Trailing`.
    pub fn read(element: Element<'a>) -> Result<DistributionPoint<'a>, Fault>
        ensures found { IfOk result (λ p. IsPoint element.entry.content.now (point_in p)) }
        ensures only { (p : Point) → IsPoint element.entry.content.now p
            → IsOkAnd result (λ read. point_in read ≡ p) }
        ensures fault { option_map about (refusal result)
            ≡ inner_fault point_fields no_rules (now element.entry) }
        ensures exact { Answers point_in result (point_of (now element.entry)) }
    {
        read_point(element)
    }
}

/// The DistributionPoint (RFC 5280 4.2.1.13) that an element's content is, or the first rule that
/// it breaks.
#[tactic(auto, unfolding(crate::specs::Points::point_of))]
fn read_point<'a>(element: Element<'a>) -> Result<DistributionPoint<'a>, Fault>
    ensures { Answers point_in result (point_of (now element.entry)) }
{
    let mut fields = element.reader();
    let name = next_point_name(&mut fields)?;
    let reasons = next_flags_if_any(&mut fields, REASONS)?;
    let crl_issuer = next_names_if_any(&mut fields, CRL_ISSUER)?;
    fields.end()?;
    Ok(DistributionPoint {
        name,
        reasons,
        crl_issuer,
    })
}

impl<'a> FromElement<'a> for DistributionPoint<'a> {
    ghost use Rattle.std.specs.Prelude.{[]};
    ghost use Rattle.ts_ext.specs.Points.{Point, point_item};
    ghost use Rattle.ts_ext.specs.NameViews.{point_in};

    ghost Record = { Point };

    ghost record_of = { point_in };

    ghost reading = { point_item };

    ghost key_of = { λ _. [] };

    #[tactic(auto, unfolding(ts_shape::specs::Items::of_tag))]
    fn read(element: Element<'a>) -> Result<DistributionPoint<'a>, Fault> {
        read_point(tagged_as(element, SEQUENCE)?)
    }
}
