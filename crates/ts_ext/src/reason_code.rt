//! Why a certificate was revoked.

ghost use Rattle.std.specs.Prelude.{◌≡◌, Ok, IfOk, option_map};
ghost use Rattle.ts_der.specs.Answer.{Answers, refusal};
ghost use Rattle.ts_der.specs.View.{now};
ghost use Rattle.ts_shape.specs.Fault.{about};
ghost use Rattle.ts_shape.specs.Shape.{plain};
ghost use Rattle.ts_ext.specs.Inner.{inner_fault};

use ts_der::{DerFault, Element, Fault};

/// Why a certificate was revoked (RFC 5280 5.3.1, `CRLReason`).
#[derive(Clone, Copy, Debug, PartialEq, Eq)]
pub enum ReasonCode {
    Unspecified = 0,
    KeyCompromise = 1,
    CaCompromise = 2,
    AffiliationChanged = 3,
    Superseded = 4,
    CessationOfOperation = 5,
    CertificateHold = 6,
    RemoveFromCrl = 8,
    PrivilegeWithdrawn = 9,
    AaCompromise = 10,
}

impl ReasonCode {
    ghost use Rattle.ts_ext.specs.declared.reason_code.ReasonCode.{ReasonCode};
    ghost use Rattle.ts_ext.specs.Encoding.{IsReasonCode, reason_number};
    ghost use Rattle.ts_ext.specs.Table.{reason_code_rules, reason_of_number};
    ghost use Rattle.ts_ext.specs.Reading.{reason_code_of};

    /// The reason that an ENUMERATED's content is.
    ///
    /// # Errors
    ///
    /// `IntegerForm` where the content is not one octet, or is the number of no reason, as 7 and 11
    /// are.
    pub fn read(element: Element<'_>) -> Result<ReasonCode, Fault>
        ensures found { IfOk result (IsReasonCode element.entry.content.now) }
        ensures only { (reason : ReasonCode) → IsReasonCode element.entry.content.now reason
            → result ≡ Ok reason }
        ensures fault { option_map about (refusal result)
            ≡ inner_fault plain reason_code_rules (now element.entry) }
        ensures exact { Answers (λ r. r) result (reason_code_of (now element.entry)) }
    {
        ReasonCode::of_element(element)
    }

    /// The number of the reason.
    pub fn number(self) -> u8
        ensures { result ≡ reason_number self }
    {
        self as u8
    }

    /// The reason that has this number, if one has it.
    #[tactic(auto, unfolding(crate::specs::Table::reason_of_number))]
    pub fn of_number(number: u8) -> Option<ReasonCode>
        ensures { result ≡ reason_of_number number }
    {
        match number {
            0 => Some(ReasonCode::Unspecified),
            1 => Some(ReasonCode::KeyCompromise),
            2 => Some(ReasonCode::CaCompromise),
            3 => Some(ReasonCode::AffiliationChanged),
            4 => Some(ReasonCode::Superseded),
            5 => Some(ReasonCode::CessationOfOperation),
            6 => Some(ReasonCode::CertificateHold),
            8 => Some(ReasonCode::RemoveFromCrl),
            9 => Some(ReasonCode::PrivilegeWithdrawn),
            10 => Some(ReasonCode::AaCompromise),
            _ => None,
        }
    }

    /// The CRLReason (RFC 5280 5.3.1) that an element's content is. It is refused where the content
    /// is not one octet, or is the number of no reason.
    #[tactic(auto, unfolding(crate::specs::Reading::reason_code_of))]
    fn of_element(element: Element<'_>) -> Result<ReasonCode, Fault>
        ensures { Answers (λ r. r) result (reason_code_of (now element.entry)) }
    {
        let [octet] = element.content else {
            return Err(Fault {
                kind: DerFault::IntegerForm,
                at: element.at,
            });
        };
        element.located(ReasonCode::of_number(*octet).ok_or(DerFault::IntegerForm))
    }
}
