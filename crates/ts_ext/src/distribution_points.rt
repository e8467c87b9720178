//! The places where CRLs are found.

ghost use Rattle.std.specs.Prelude.{◌≡◌, List, IfOk, IsOkAnd, option_map};
ghost use Rattle.ts_der.specs.Answer.{Answers, refusal};
ghost use Rattle.ts_der.specs.View.{now};
ghost use Rattle.ts_shape.specs.Fault.{about};
ghost use Rattle.ts_shape.specs.Items.{items_at};
ghost use Rattle.ts_ext.specs.Inner.{inner_fault};
ghost use Rattle.ts_ext.specs.Table.{list_rules};
ghost use Rattle.ts_ext.specs.Points.{Point, ArePoints, point_item, points_of, points_items};
ghost use Rattle.ts_ext.specs.NameViews.{points_in};

use crate::distribution_point::DistributionPoint;
use ts_der::{Element, Fault};
use ts_shape::{SequenceItems, SequenceOf};

/// Where the lists of a certificate, or the latest changes of a list, are found, one place or more
/// (RFC 5280 4.2.1.13, 4.2.1.15, 5.2.6).
#[derive(Clone, Copy)]
pub struct DistributionPoints<'a> {
    /// The distribution points.
    pub list: SequenceOf<'a, DistributionPoint<'a>>,
}

impl<'a> DistributionPoints<'a> {
    /// The list that a SEQUENCE's content is.
    ///
    /// # Errors
    ///
    /// The first rule that is broken, with its place: of each point in turn, its header (a
    /// SEQUENCE) and the rules of
    /// `DistributionPoint::read`; then `Empty` where there is none.
    pub fn read(element: Element<'a>) -> Result<DistributionPoints<'a>, Fault>
        ensures found { IfOk result (λ x. ArePoints element.entry.content.now (points_in x)) }
        ensures only { (xs : List Point) → ArePoints element.entry.content.now xs
            → IsOkAnd result (λ x. points_in x ≡ xs) }
        ensures fault { option_map about (refusal result)
            ≡ inner_fault points_items list_rules (now element.entry) }
        ensures exact { Answers points_in result (points_of (now element.entry)) }
    {
        read_distribution_points(element)
    }

    /// The distribution points, in their order.
    pub fn iter(self) -> SequenceItems<'a, DistributionPoint<'a>>
        ensures { items_at point_item result.rest ≡ points_in self.entry }
    {
        self.list.iter()
    }
}

/// The CRLDistributionPoints that an element's content is, or the first rule that it breaks.
fn read_distribution_points<'a>(element: Element<'a>) -> Result<DistributionPoints<'a>, Fault>
    ensures { Answers points_in result (points_of (now element.entry)) }
{
    Ok(DistributionPoints {
        list: SequenceOf::read(element)?,
    })
}
