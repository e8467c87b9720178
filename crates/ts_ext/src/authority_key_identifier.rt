//! The key that signs.

ghost use Rattle.std.specs.Prelude.{◌≡◌, IfOk, IsOkAnd, option_map};
ghost use Rattle.ts_der.specs.Answer.{Answers, refusal};
ghost use Rattle.ts_der.specs.View.{now};
ghost use Rattle.ts_shape.specs.Fault.{about};
ghost use Rattle.ts_shape.specs.Fields.{optional_of};
ghost use Rattle.ts_shape.specs.Shape.{no_rules};
ghost use Rattle.ts_shape.specs.Steps.{Takes};
ghost use Rattle.ts_ext.specs.Inner.{inner_fault};
ghost use Rattle.ts_ext.specs.NameViews.{authority_key_in};
ghost use Rattle.ts_ext.specs.AuthorityKey.{content_octets_of, serial_of, authority_key_of};
ghost use Rattle.ts_ext.specs.AuthorityKey.{authority_key_fields, IsAuthorityKey, AuthorityKey};

use crate::fields::next_names_if_any;
use crate::tag::KEY_IDENTIFIER;
use ts_der::{Element, Fault, Integer, Reader};
use ts_name::GeneralNames;

const AUTHORITY_CERT_ISSUER: u8 = 0xA1;

const AUTHORITY_CERT_SERIAL_NUMBER: u8 = 0x82;

/// What tells the key that signs from others of its owner (RFC 5280 4.2.1.1).
#[derive(Clone, Copy)]
pub struct AuthorityKeyIdentifier<'a> {
    /// The subject key identifier of the owner's certificate.
    pub key_identifier: Option<&'a [u8]>,
    /// The issuer of the owner's certificate.
    pub authority_cert_issuer: Option<GeneralNames<'a>>,
    /// The serial number of the owner's certificate.
    pub authority_cert_serial_number: Option<Integer<'a>>,
}

/// The octets of a key identifier, where one is next.
#[tactic(auto, unfolding(ts_shape::specs::Fields::optional_of, ts_der::specs::Reading::optional_at))]
fn next_key<'a>(fields: &mut Reader<'a>) -> Result<Option<&'a [u8]>, Fault>
    ensures { Takes (option_map (λ k. k.now)) fields.new result
        (optional_of 0x80 content_octets_of fields.old) }
{
    match fields.optional(KEY_IDENTIFIER)? {
        Some(element) => Ok(Some(element.content)),
        None => Ok(None),
    }
}

/// A serial number, where one is next.
#[tactic(auto, unfolding(ts_shape::specs::Fields::optional_of, ts_der::specs::Reading::optional_at))]
fn next_serial<'a>(fields: &mut Reader<'a>) -> Result<Option<Integer<'a>>, Fault>
    ensures { Takes (option_map (λ s. s.octets.now)) fields.new result
        (optional_of 0x82 serial_of fields.old) }
{
    match fields.optional(AUTHORITY_CERT_SERIAL_NUMBER)? {
        Some(element) => Ok(Some(element.integer()?)),
        None => Ok(None),
    }
}

impl<'a> AuthorityKeyIdentifier<'a> {
    /// The value that a SEQUENCE's content is.
    ///
    /// # Errors
    ///
    /// The first rule that is broken, with its place: of each field, where it is, its header; of
    /// the issuer those of
    /// `General::read` and `Empty`; of the serial number `IntegerForm`; then `Trailing`.
    pub fn read(element: Element<'a>) -> Result<AuthorityKeyIdentifier<'a>, Fault>
        ensures found { IfOk result (λ a. IsAuthorityKey element.entry.content.now
            (authority_key_in a)) }
        ensures only { (a : AuthorityKey) → IsAuthorityKey element.entry.content.now a
            → IsOkAnd result (λ read. authority_key_in read ≡ a) }
        ensures fault { option_map about (refusal result)
            ≡ inner_fault authority_key_fields no_rules (now element.entry) }
        ensures exact { Answers authority_key_in result (authority_key_of (now element.entry)) }
    {
        read_authority_key(element)
    }
}

/// The AuthorityKeyIdentifier (RFC 5280 4.2.1.1) that an element's content is, or the first rule
/// that it breaks.
#[tactic(auto, unfolding(crate::specs::AuthorityKey::authority_key_of))]
fn read_authority_key<'a>(element: Element<'a>) -> Result<AuthorityKeyIdentifier<'a>, Fault>
    ensures { Answers authority_key_in result (authority_key_of (now element.entry)) }
{
    let mut fields = element.reader();
    let key_identifier = next_key(&mut fields)?;
    let authority_cert_issuer = next_names_if_any(&mut fields, AUTHORITY_CERT_ISSUER)?;
    let authority_cert_serial_number = next_serial(&mut fields)?;
    fields.end()?;
    Ok(AuthorityKeyIdentifier {
        key_identifier,
        authority_cert_issuer,
        authority_cert_serial_number,
    })
}
