//! The policies of a certificate.

ghost use Rattle.std.specs.Prelude.{◌≡◌, ℕ, List, IfOk, IsOkAnd, option_map};
ghost use Rattle.ts_der.specs.Answer.{Answers, refusal};
ghost use Rattle.ts_der.specs.View.{now};
ghost use Rattle.ts_shape.specs.Fault.{about};
ghost use Rattle.ts_shape.specs.Items.{items_at};
ghost use Rattle.ts_ext.specs.Inner.{inner_fault};
ghost use Rattle.ts_ext.specs.Policies.{Information};
ghost use Rattle.ts_ext.specs.Encoding.{AreCertificatePolicies};
ghost use Rattle.ts_ext.specs.Table.{certificate_policies, list_rules};
ghost use Rattle.ts_ext.specs.Reading.{policy_information_in, certificate_policies_of};
ghost use Rattle.ts_ext.specs.View.{policies_in};

use crate::policy_information::PolicyInformation;
use ts_der::{Element, Fault};
use ts_shape::{SequenceItems, SequenceOf};

/// The policies of a certificate, one or more (RFC 5280 4.2.1.4).
#[derive(Clone, Copy)]
pub struct CertificatePolicies<'a> {
    /// The policies.
    pub list: SequenceOf<'a, PolicyInformation<'a>>,
}

impl<'a> CertificatePolicies<'a> {
    /// The list that a SEQUENCE's content is.
    ///
    /// # Errors
    ///
    /// The first rule that is broken, with its place: of each policy in turn, its header (a
    /// SEQUENCE), its identifier (`OidForm`), its qualifiers, where a SEQUENCE stands, one by one
    /// and then that there is one (`Empty`), and
    /// `Trailing`; then `Empty` where there is no policy.
    pub fn read(element: Element<'a>) -> Result<CertificatePolicies<'a>, Fault>
        ensures found { IfOk result (λ x. AreCertificatePolicies element.entry.content.now
            (policies_in x)) }
        ensures only { (xs : List Information)
            → AreCertificatePolicies element.entry.content.now xs
            → IsOkAnd result (λ x. policies_in x ≡ xs) }
        ensures fault { option_map about (refusal result)
            ≡ inner_fault certificate_policies list_rules (now element.entry) }
        ensures exact { Answers policies_in result (certificate_policies_of (now element.entry)) }
    {
        read_certificate_policies(element)
    }

    /// The policies, in their order.
    pub fn iter(self) -> SequenceItems<'a, PolicyInformation<'a>>
        ensures { items_at policy_information_in result.rest ≡ policies_in self.entry }
    {
        self.list.iter()
    }
}

/// The certificatePolicies (RFC 5280 4.2.1.4) that an element's content is, or the first rule that
/// it breaks.
fn read_certificate_policies<'a>(element: Element<'a>) -> Result<CertificatePolicies<'a>, Fault>
    ensures { Answers policies_in result (certificate_policies_of (now element.entry)) }
{
    Ok(CertificatePolicies {
        list: SequenceOf::read(element)?,
    })
}
