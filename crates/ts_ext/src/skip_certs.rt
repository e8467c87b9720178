//! How many certificates may follow.

ghost use Rattle.std.specs.Prelude.{◌≡◌, ℕ, Ok, IfOk, option_map};
ghost use Rattle.ts_der.specs.Answer.{Answers, refusal};
ghost use Rattle.ts_der.specs.View.{now};
ghost use Rattle.ts_shape.specs.Fault.{about};
ghost use Rattle.ts_shape.specs.Shape.{plain};
ghost use Rattle.ts_ext.specs.Inner.{inner_fault};
ghost use Rattle.ts_ext.specs.Encoding.{IsSkipCerts};
ghost use Rattle.ts_ext.specs.Table.{skip_certs_rules};
ghost use Rattle.ts_ext.specs.Reading.{skip_certs_of};

use ts_der::{Element, Fault};

/// A number of certificates that may follow in a path before something holds (RFC 5280 4.2.1.11,
/// 4.2.1.14).
#[derive(Clone, Copy, Debug, PartialEq, Eq)]
pub struct SkipCerts(pub u32);

impl SkipCerts {
    /// The number that an INTEGER's content is, as in inhibitAnyPolicy (RFC 5280 4.2.1.14).
    ///
    /// # Errors
    ///
    /// `IntegerForm` where the content is not in its shortest form, or negative; `TooLarge` above
    /// 4,294,967,295.
    pub fn read(element: Element<'_>) -> Result<SkipCerts, Fault>
        ensures found { IfOk result (λ n. IsSkipCerts element.entry.content.now n.0) }
        ensures only { (n : ℕ) → IsSkipCerts element.entry.content.now n
            → result ≡ Ok (record { 0 = n }) }
        ensures fault { option_map about (refusal result)
            ≡ inner_fault plain skip_certs_rules (now element.entry) }
        ensures exact { Answers (λ n. n.0) result (skip_certs_of (now element.entry)) }
    {
        read_skip_certs(element)
    }
}

/// The SkipCerts of inhibitAnyPolicy (RFC 5280 4.2.1.14) that an element's content is: a number
/// from 0 to 2^32 - 1.
#[tactic(auto, unfolding(crate::specs::Reading::small_of))]
fn read_skip_certs(element: Element<'_>) -> Result<SkipCerts, Fault>
    ensures { Answers (λ n. n.0) result (skip_certs_of (now element.entry)) }
{
    Ok(SkipCerts(element.small()?))
}
