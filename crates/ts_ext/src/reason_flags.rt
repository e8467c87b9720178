//! The reasons that a distribution point or a list is for.

ghost use Rattle.std.specs.Prelude.{◌≡◌, ℕ, Bool, List, IfOk, IsOkAnd, option_map};
ghost use Rattle.ts_der.specs.Answer.{Answers, refusal};
ghost use Rattle.ts_der.specs.View.{now};
ghost use Rattle.ts_der.specs.BitsView.{bits_in};
ghost use Rattle.ts_shape.specs.Fault.{about};
ghost use Rattle.ts_shape.specs.Shape.{plain};
ghost use Rattle.ts_ext.specs.Inner.{inner_fault};
ghost use Rattle.ts_ext.specs.declared.reason_flag.ReasonFlag.{ReasonFlag};
ghost use Rattle.ts_ext.specs.NamedBits.{bit, flag_number, holds};
ghost use Rattle.ts_ext.specs.Encoding.{AreReasonFlags};
ghost use Rattle.ts_ext.specs.Table.{reason_flags_rules};
ghost use Rattle.ts_ext.specs.Reading.{reason_flags_of};

use crate::named_bits::has_bit;
use crate::reason_flag::ReasonFlag;
use crate::reason_set::ReasonSet;
use ts_der::{Bits, Element, Fault};

/// The reasons that a distribution point or a list is for (RFC 5280 4.2.1.13, 5.2.5).
#[derive(Clone, Copy, Debug, PartialEq, Eq)]
pub struct ReasonFlags<'a> {
    /// The named bits, of which the last is 1.
    pub bits: Bits<'a>,
}

impl<'a> ReasonFlags<'a> {
    /// The bits that a BIT STRING's content is.
    ///
    /// # Errors
    ///
    /// `BitsForm` where the content is no BIT STRING, then `NamedBits` where its last bit is 0.
    pub fn read(element: Element<'a>) -> Result<ReasonFlags<'a>, Fault>
        ensures found { IfOk result (λ f. AreReasonFlags element.entry.content.now
            (bits_in f.bits)) }
        ensures only { (bits : List Bool) → AreReasonFlags element.entry.content.now bits
            → IsOkAnd result (λ f. bits_in f.bits ≡ bits) }
        ensures fault { option_map about (refusal result)
            ≡ inner_fault plain reason_flags_rules (now element.entry) }
        ensures exact { Answers (λ f. bits_in f.bits) result (reason_flags_of (now element.entry)) }
    {
        read_reason_flags(element)
    }

    /// Whether a reason is among them.
    pub fn contains(self, flag: ReasonFlag) -> bool
        ensures { result ≡ bit (flag_number flag) (bits_in self.entry.bits) }
    {
        has_bit(self.bits, flag.number())
    }

    /// All that are among them. Bits that name no reason are left out.
    pub fn reasons(self) -> ReasonSet
        ensures { (flag : ReasonFlag) → holds flag result
            ≡ bit (flag_number flag) (bits_in self.entry.bits) }
    {
        ReasonSet {
            key_compromise: self.contains(ReasonFlag::KeyCompromise),
            ca_compromise: self.contains(ReasonFlag::CaCompromise),
            affiliation_changed: self.contains(ReasonFlag::AffiliationChanged),
            superseded: self.contains(ReasonFlag::Superseded),
            cessation_of_operation: self.contains(ReasonFlag::CessationOfOperation),
            certificate_hold: self.contains(ReasonFlag::CertificateHold),
            privilege_withdrawn: self.contains(ReasonFlag::PrivilegeWithdrawn),
            aa_compromise: self.contains(ReasonFlag::AaCompromise),
        }
    }
}

/// The ReasonFlags (RFC 5280 4.2.1.13) that an element's content is, or the first rule that it
/// breaks.
#[tactic(auto, unfolding(crate::specs::Reading::reason_flags_of))]
fn read_reason_flags<'a>(element: Element<'a>) -> Result<ReasonFlags<'a>, Fault>
    ensures { Answers (λ f. bits_in f.bits) result (reason_flags_of (now element.entry)) }
{
    Ok(ReasonFlags {
        bits: element.named_bits()?,
    })
}
