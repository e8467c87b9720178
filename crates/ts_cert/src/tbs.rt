//! What is signed.

ghost use Rattle.ts_der.specs.Answer.{Answers};
ghost use Rattle.ts_der.specs.View.{now};
ghost use Rattle.ts_cert.specs.Reading.{tbs_of};
ghost use Rattle.ts_cert.specs.View.{tbs_in};

use crate::fields::next_name_beside;
use crate::key::{SubjectPublicKeyInfo, next_key};
use crate::optional_fields::OptionalFields;
use crate::optional_reading::read_late_fields;
use crate::validity::{Period, next_validity};
use crate::version::{Version, next_version};
use ts_der::{Element, Integer};
use ts_field::{AlgorithmIdentifier, next_algorithm, next_integer, next_name};
use ts_name::Name;
use ts_shape::CertFault;

/// The fields that are signed, in the order of the standard (RFC 5280 4.1.2).
#[derive(Clone, Copy)]
pub(crate) struct TbsCertificate<'a> {
    pub version: Version,
    pub serial_number: Integer<'a>,
    pub signature: AlgorithmIdentifier<'a>,
    pub issuer: Name<'a>,
    pub period: Period,
    pub subject: Name<'a>,
    pub subject_public_key_info: SubjectPublicKeyInfo<'a>,
    pub optional_fields: OptionalFields<'a>,
}

/// The fields that a SEQUENCE holds.
#[tactic(auto, unfolding(crate::specs::Reading::tbs_of))]
pub(crate) fn read_tbs<'a>(element: Element<'a>) -> Result<TbsCertificate<'a>, CertFault>
    ensures { Answers tbs_in result (tbs_of (now element.entry)) }
{
    let mut fields = element.reader();
    let version = next_version(&mut fields)?;
    let serial_number = next_integer(&mut fields)?;
    let signature = next_algorithm(&mut fields)?;
    let issuer = next_name(&mut fields)?;
    let validity = next_validity(&mut fields)?;
    let subject = next_name_beside(&mut fields, issuer)?;
    let subject_public_key_info = next_key(&mut fields)?;
    let optional_fields = read_late_fields(&mut fields)?;
    Ok(TbsCertificate {
        version,
        serial_number,
        signature,
        issuer,
        period: Period::of(validity),
        subject,
        subject_public_key_info,
        optional_fields,
    })
}
