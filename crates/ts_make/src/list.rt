//! CRLs.

ghost use Rattle.std.specs.Prelude.{◌≡◌, ℕ, List, Ok, IfOk, IfErr, OnOk};
ghost use Rattle.ts_time.specs.Civil.{IsInYears};
ghost use Rattle.ts_crl.specs.List.{LocatedList, unlocated_list};
ghost use Rattle.ts_crl.specs.Reading.{shape_of};
ghost use Rattle.ts_crl.specs.Table.{crl_of};
ghost use Rattle.ts_make.specs.Times.{IsTimeOf};
ghost use Rattle.ts_make.specs.inside.TimeView.{time_octets};
ghost use Rattle.ts_make.specs.Sayable.{IfWritten};
ghost use Rattle.ts_make.specs.inside.Writing.{Writes};
ghost use Rattle.ts_make.specs.CrlMade.{made_crl};
ghost use Rattle.ts_make.specs.CrlMaking.{IsWhole, IsTaken, AnswersCrl, IsSayableCrl, IsCrlRefusal};
ghost use Rattle.ts_make.specs.CrlDescription.{IsCrlDescribed, IsCrlSignedBy, IsReadAs};

use crate::crl_description::CrlText;
use crate::crl_tbs::write_crl_tbs;
use crate::elements::{append, append_bits, element};
use crate::fault::MakeFault;
use crate::times::TimeText;
use std::alloc::Global;
use ts_crl::{Crl, CrlFault};
use ts_der::tag::SEQUENCE;
use ts_octets::MAX_CRL;
use ts_sig::{STAND_IN_ALGORITHM, digest_signature};

/// What is signed, the algorithm and the signature, as one element (RFC 5280 5.1.1).
#[tactic(auto, unfolding(crate::specs::CrlMade::made_crl))]
fn write_crl(
    alloc: Global,
    text: &CrlText<'_>,
    this: &TimeText,
    next: &TimeText,
) -> Result<Vec<u8>, MakeFault>
    ensures exact { Writes result
        (made_crl (time_octets this.now) (time_octets next.now) text.now) }
    ensures sayable { OnOk result (IsSayableCrl text.now) }
{
    let mut fields = write_crl_tbs(alloc, text, this, next)?;
    let signature = digest_signature(text.signer, &fields);
    append(&mut fields, STAND_IN_ALGORITHM.as_slice())?;
    append_bits(alloc, &mut fields, signature.as_slice())?;
    element(alloc, SEQUENCE, &fields)
}

/// Writes a CRL, and refuses it where it breaks a rule that has a place.
fn write_whole_crl(
    alloc: Global,
    text: &CrlText<'_>,
    this: &TimeText,
    next: &TimeText,
) -> Result<Vec<u8>, MakeFault>
    ensures exact { AnswersCrl IsWhole result
        (made_crl (time_octets this.now) (time_octets next.now) text.now) }
    ensures sayable { IfWritten result (IsSayableCrl text.now) }
{
    let octets = write_crl(alloc, text, this, next)?;
    if octets.len() > MAX_CRL {
        return Err(MakeFault::TooLong);
    }
    match Crl::read(&octets) {
        Err(CrlFault::Broken(fault)) => Err(MakeFault::Unreadable(fault)),
        _ => Ok(octets),
    }
}

/// The DER of the CRL that a description says, signed by the stand-in under the signer's key.
///
/// # Errors
///
/// `TooLong` exactly where the octets would be more than 4,194,304; `Unreadable` exactly where a
/// rule that has a place is broken: a moment lies outside the years 0 to 9999, which no CRL can
/// say, or the extensions are not those that a CRL may have; `Memory` only where memory ran out. A
/// critical extension that is not processed is no error, nor is a base number without a number:
/// what is made is the CRL that says it, which reading refuses.
pub fn make_crl(alloc: Global, text: &CrlText<'_>) -> Result<Vec<u8>, MakeFault>
    // It is the one CRL that says the description, where a CRL may be so long.
    ensures made { (this next : List ℕ) × IsTimeOf this text.now.this_update
        × IsTimeOf next text.now.next_update
        × AnswersCrl IsTaken result (made_crl this next text.now) }
    // It has the shape of the CRL that the description says, and reading gives that CRL, or
    // refuses it for its first critical extension that is not processed, or as a delta without a
    // number.
    ensures described { IfOk result
        (λ v. (l : LocatedList) × (shape_of v.items ≡ Ok l)
        × IsCrlDescribed text.now (unlocated_list l)
        × IsReadAs (crl_of v.items) (unlocated_list l)) }
    // It is signed by the stand-in under the signer's key.
    ensures signed { IfOk result (λ v. (l : LocatedList) × (shape_of v.items ≡ Ok l)
        × IsCrlSignedBy text.now.signer.now (unlocated_list l)) }
    // Moments outside of the years 0 to 9999 have no encoding.
    ensures years { OnOk result (IsInYears 0 9999 text.now.this_update
        × IsInYears 0 9999 text.now.next_update) }
    // A CRL that was written is refused for no other reason.
    ensures refused { IfErr result (IsCrlRefusal text.now) }
{
    write_whole_crl(
        alloc,
        text,
        &TimeText::of(text.this_update),
        &TimeText::of(text.next_update),
    )
}
