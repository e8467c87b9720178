//! The first rule that the value of an extension breaks, found without keeping the value.

ghost use Rattle.std.specs.Prelude.{◌≡◌};
ghost use Rattle.ts_der.specs.Answer.{Answers};
ghost use Rattle.ts_der.specs.View.{now};
ghost use Rattle.ts_shape.specs.Items.{alone};
ghost use Rattle.ts_ext.specs.Ext.{content_of, value_of, ext_of};
ghost use Rattle.ts_extensions.specs.ExtensionView.{located_as};
ghost use Rattle.ts_extensions.specs.ValueRules.{rule_place, rule_of, value_fault};

use crate::extension::Extension;
use ts_der::{Element, Fault};
use ts_ext::{BasicConstraints, Ext, Holder, KeyUsage, Known, ReasonCode};
use ts_shape::{CertFault, CertRule, tagged_as};

/// The rule beside those of DER that the value breaks which an element's content is. The values
/// that stand in most roots and entries can break none, so that no room is made for them.
#[inline(always)]
fn check_content(known: Known, element: Element<'_>) -> Result<Option<CertRule>, Fault>
    ensures { Answers (λ rule. rule) result (rule_of (content_of known (now element.entry))) }
{
    match known {
        Known::SubjectKeyIdentifier => Ok(None),
        Known::KeyUsage => {
            KeyUsage::read(element)?;
            Ok(None)
        }
        Known::BasicConstraints => {
            BasicConstraints::read(element)?;
            Ok(None)
        }
        Known::ReasonCode => {
            ReasonCode::read(element)?;
            Ok(None)
        }
        _ => Ok(Ext::read_content(known, element)?.broken_rule()),
    }
}

/// The rule beside those of DER that the one value within an OCTET STRING breaks.
#[tactic(auto, unfolding(ts_shape::specs::Items::alone, ts_shape::specs::Items::each, ts_shape::specs::Items::of_tag))]
#[inline(always)]
fn check_alone(known: Known, octets: Element<'_>) -> Result<Option<CertRule>, Fault>
    ensures { Answers (λ rule. rule) result (rule_of (alone (value_of known) (now octets.entry))) }
{
    let mut rest = octets.reader();
    let rule = check_content(known, tagged_as(rest.next()?, known.tag())?)?;
    rest.end()?;
    Ok(rule)
}

/// The rule beside those of DER that the value of an extension breaks, if it is one that is read in
/// its holder.
#[tactic(auto, unfolding(ts_ext::specs::Ext::ext_of))]
#[inline(always)]
fn check(known: Option<Known>, octets: Element<'_>) -> Result<Option<CertRule>, Fault>
    ensures { Answers (λ rule. rule) result (rule_of (ext_of known (now octets.entry))) }
{
    match known {
        Some(known) => check_alone(known, octets),
        None => Ok(None),
    }
}

/// The place of a rule beside those of DER that the value of an extension at this place breaks.
fn place_of(holder: Holder, at: usize) -> usize
    ensures { result ≡ rule_place holder at }
{
    match holder {
        Holder::Certificate => at,
        Holder::List | Holder::Entry => 0,
    }
}

impl<'a> Extension<'a> {
    /// The first rule that the value breaks in a holder: the first that `Ext::read` refuses it for,
    /// else the one that `Ext::broken_rule` finds. The place of the latter is that of the extension
    /// in a certificate, and 0 in a list.
    #[inline(always)]
    pub fn first_fault(self, holder: Holder) -> Option<CertFault>
        ensures { result ≡ value_fault holder (located_as self.entry) }
    {
        match check(Known::at(holder, self.id), self.value) {
            Ok(rule) => {
                let kind = rule?;
                Some(CertFault {
                    kind,
                    at: place_of(holder, self.at),
                })
            }
            Err(fault) => Some(fault.into()),
        }
    }
}
