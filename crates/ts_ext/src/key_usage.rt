//! What a key may be used for.

ghost use Rattle.std.specs.Prelude.{◌≡◌, ℕ, Bool, List, IfOk, IsOkAnd, option_map};
ghost use Rattle.ts_der.specs.Answer.{Answers, refusal};
ghost use Rattle.ts_der.specs.View.{now};
ghost use Rattle.ts_der.specs.BitsView.{bits_in};
ghost use Rattle.ts_shape.specs.Fault.{about};
ghost use Rattle.ts_shape.specs.Shape.{plain};
ghost use Rattle.ts_ext.specs.Inner.{inner_fault};
ghost use Rattle.ts_ext.specs.NamedBits.{bit};
ghost use Rattle.ts_ext.specs.Encoding.{IsKeyUsage};
ghost use Rattle.ts_ext.specs.Table.{key_usage_rules};
ghost use Rattle.ts_ext.specs.Reading.{key_usage_of};

use crate::named_bits::has_bit;
use ts_der::{Bits, Element, Fault};

/// What the key of a certificate may be used for (RFC 5280 4.2.1.3).
#[derive(Clone, Copy, Debug, PartialEq, Eq)]
pub struct KeyUsage<'a> {
    /// The named bits, of which the last is 1.
    pub bits: Bits<'a>,
}

impl<'a> KeyUsage<'a> {
    /// The bits that a BIT STRING's content is.
    ///
    /// # Errors
    ///
    /// `BitsForm` where the content is no BIT STRING, then `NamedBits` where its last bit is 0.
    pub fn read(element: Element<'a>) -> Result<KeyUsage<'a>, Fault>
        ensures found { IfOk result (λ u. IsKeyUsage element.entry.content.now (bits_in u.bits)) }
        ensures only { (bits : List Bool) → IsKeyUsage element.entry.content.now bits
            → IsOkAnd result (λ u. bits_in u.bits ≡ bits) }
        ensures fault { option_map about (refusal result)
            ≡ inner_fault plain key_usage_rules (now element.entry) }
        ensures exact { Answers (λ u. bits_in u.bits) result (key_usage_of (now element.entry)) }
    {
        read_key_usage(element)
    }

    /// Whether the key may verify signatures on certificates (keyCertSign).
    pub fn key_cert_sign(self) -> bool
        ensures { result ≡ bit 5 (bits_in self.entry.bits) }
    {
        has_bit(self.bits, 5)
    }

    /// Whether the key may verify signatures on lists (cRLSign).
    pub fn crl_sign(self) -> bool
        ensures { result ≡ bit 6 (bits_in self.entry.bits) }
    {
        has_bit(self.bits, 6)
    }
}

/// The KeyUsage (RFC 5280 4.2.1.3) that an element's content is, or the first rule that it breaks.
#[tactic(auto, unfolding(crate::specs::Reading::key_usage_of))]
fn read_key_usage<'a>(element: Element<'a>) -> Result<KeyUsage<'a>, Fault>
    ensures { Answers (λ u. bits_in u.bits) result (key_usage_of (now element.entry)) }
{
    Ok(KeyUsage {
        bits: element.named_bits()?,
    })
}
