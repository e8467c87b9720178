//! The values of words that say extensions.

ghost use Rattle.std.specs.Prelude.{◌≡◌, ℕ, List, IfOk, IfErr};
ghost use Rattle.ts_der.specs.Octets.{AreOctets};
ghost use Rattle.ts_script.specs.declared.script.LineFault.TheVariants.{Form};
ghost use Rattle.ts_literal.specs.Literals.{IsNumber};
ghost use Rattle.ts_script.specs.Words.{RefusesWord};
ghost use Rattle.ts_script.specs.ExtensionWords.{IsText, IsDotted, IsNumbers};

use crate::script::LineFault;
use crate::words::first_piece;
use std::alloc::Global;
use ts_der::Oid;
use ts_literal::number_of_octets;

/// Stands between two numbers.
const COMMA: u8 = b',';

/// The number that a value writes.
pub fn number_in(value: &[u8]) -> Result<u32, LineFault>
    ensures found { IfOk result (IsNumber value.now) }
    ensures fault { IfErr result (RefusesWord ((number : ℕ) → ¬ (IsNumber value.now number))) }
    ensures form { IfErr result (λ fault. fault ≡ Form) }
{
    number_of_octets(value).ok_or(LineFault::Form)
}

/// The text that a value is.
pub fn text_in(value: &[u8]) -> Result<&str, LineFault>
    ensures found { IfOk result (λ text. IsText value.now text.now) }
    ensures fault { IfErr result (RefusesWord ((text : List ℕ) → ¬ (IsText value.now text))) }
    ensures form { IfErr result (λ fault. fault ≡ Form) }
{
    str::from_utf8(value).map_err(|_| LineFault::Form)
}

/// One or more numbers, joined by commas.
pub fn numbers_in(alloc: Global, value: &[u8]) -> Result<Vec<u32>, LineFault>
    ensures found { IfOk result (λ numbers. IsNumbers value.now numbers.items) }
    ensures fault { IfErr result (RefusesWord
        ((numbers : List ℕ) → ¬ (IsNumbers value.now numbers))) }
{
    let mut numbers = Vec::new(alloc);
    let mut rest = Some(value);
    while let Some(left) = rest {
        let (piece, behind) = first_piece(left, COMMA);
        let Some(number) = number_of_octets(piece) else {
            return Err(LineFault::Form);
        };
        numbers.push(number)?;
        rest = behind;
    }
    Ok(numbers)
}

/// The object identifier of a dotted form.
pub fn oid_in(alloc: Global, value: &[u8]) -> Result<Oid, LineFault>
    ensures found { IfOk result (IsDotted value.now) }
    ensures fault { IfErr result (RefusesWord
        ((content : List ℕ) → ¬ (IsDotted value.now content))) }
{
    let oid = Oid::from_text(alloc, text_in(value)?)?;
    are_octets(oid.as_ref().content);
    Ok(oid)
}

/// Octets are below 256.
fn are_octets(octets: &[u8])
    ensures { AreOctets octets.now }
{}
