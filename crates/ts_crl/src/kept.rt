//! A CRL that was read before. The names, the entries and the extensions in it are not read again.

ghost use Rattle.std.specs.Prelude.{option_map, IsOk};
ghost use Rattle.ts_der.specs.Answer.{Answers};
ghost use Rattle.ts_der.specs.View.{now};
ghost use Rattle.ts_name.specs.Names.{name_at};
ghost use Rattle.ts_name.specs.NameView.{rdns_in};
ghost use Rattle.ts_shape.specs.Fields.{optional_of};
ghost use Rattle.ts_shape.specs.Items.{alone, of_tag, some_of};
ghost use Rattle.ts_shape.specs.Steps.{Takes};
ghost use Rattle.ts_extensions.specs.Extension.{located_in};
ghost use Rattle.ts_crl.specs.EntryView.{located_items_in, placed_in, revoked_in};
ghost use Rattle.ts_crl.specs.inside.Kept.{EntriesRead, TbsRead, SignedRead, WasRead};
ghost use Rattle.ts_crl.specs.ListView.{tbs_in, located_list_in};
ghost use Rattle.ts_crl.specs.Reading.{wrapped_extensions_of, revoked_of, crl_tbs_of};
ghost use Rattle.ts_crl.specs.Reading.{crl_signed_of};
ghost use Rattle.ts_crl.specs.Reading.{crl_whole_of};

use crate::crl::Crl;
use crate::extension_list::ExtensionList;
use crate::findings::Findings;
use crate::placed::PlacedFault;
use crate::revoked::RevokedEntries;
use crate::tbs::{TbsCertList, stamp_if_any};
use crate::update::next_update;
use crate::version::next_version;
use ts_der::tag::SEQUENCE;
use ts_der::{Element, Fault, Reader};
use ts_digest::Message;
use ts_field::{Stamp, next_algorithm, next_bits, next_time, read_algorithm};
use ts_name::Name;
use ts_shape::{CertFault, tagged_as};

/// The tag of a CRL's extensions, which are explicit (RFC 5280 5.1).
const CRL_EXTENSIONS: u8 = 0xA0;

/// A distinguished name.
#[tactic(auto, unfolding(ts_name::specs::Names::name_at, ts_shape::specs::Fields::within))]
fn next_name<'a>(fields: &mut Reader<'a>) -> Result<Name<'a>, Fault>
    requires { IsOk (name_at fields.now) }
    ensures { Takes rdns_in fields.new result (name_at fields.old) }
{
    let element = fields.element(SEQUENCE)?;
    Ok(Name { element })
}

/// The entries, where they are next, of which was found where the first of their extensions are.
#[tactic(auto, unfolding(ts_shape::specs::Fields::optional_of, ts_der::specs::Reading::optional_at))]
fn next_revoked_if_any<'a>(
    fields: &mut Reader<'a>,
    first: Option<CertFault>,
) -> Result<Option<RevokedEntries<'a>>, Fault>
    requires { EntriesRead first fields.now }
    ensures { Takes (option_map revoked_in) fields.new result
        (optional_of 0x30 revoked_of fields.old) }
{
    match fields.optional(SEQUENCE)? {
        Some(element) => {
            let findings = Findings {
                old_version: first,
                ..Findings::none()
            };
            Ok(Some(RevokedEntries {
                element,
                findings,
                endings: None,
            }))
        }
        None => Ok(None),
    }
}

/// The extensions that a SEQUENCE within an element is, and nothing after it.
#[tactic(auto, unfolding(ts_shape::specs::Items::alone, ts_shape::specs::Items::each, ts_shape::specs::Items::of_tag))]
fn alone_in<'a>(element: Element<'a>) -> Result<ExtensionList<'a>, Fault>
    requires { IsOk (alone (of_tag 0x30 (some_of located_in)) (now element)) }
    ensures { Answers located_items_in result
        (alone (of_tag 0x30 (some_of located_in)) (now element.entry)) }
{
    let mut fields = element.reader();
    let element = tagged_as(fields.next()?, SEQUENCE)?;
    fields.end()?;
    Ok(ExtensionList { element })
}

/// The extensions of a CRL, where they are next.
#[tactic(auto, unfolding(ts_shape::specs::Fields::optional_of, ts_der::specs::Reading::optional_at, crate::specs::Reading::wrapped_extensions_of))]
fn next_extensions_if_any<'a>(fields: &mut Reader<'a>) -> Result<Option<PlacedFault<'a>>, Fault>
    requires { IsOk (optional_of 0xA0 wrapped_extensions_of fields.now) }
    ensures { Takes (option_map placed_in) fields.new result
        (optional_of 0xA0 wrapped_extensions_of fields.old) }
{
    match fields.optional(CRL_EXTENSIONS)? {
        Some(explicit) => {
            Ok(Some(PlacedFault {
                at: explicit.at,
                list: alone_in(explicit)?,
            }))
        }
        None => Ok(None),
    }
}

/// The fields that a SEQUENCE holds.
#[tactic(auto, unfolding(crate::specs::Reading::crl_tbs_of))]
fn tbs_in_element<'a>(
    element: Element<'a>,
    first: Option<CertFault>,
) -> Result<TbsCertList<'a>, CertFault>
    requires { TbsRead first (now element) }
    ensures { Answers tbs_in result (crl_tbs_of (now element.entry)) }
{
    let mut fields = element.reader();
    let version = next_version(&mut fields)?;
    let signature = next_algorithm(&mut fields)?;
    let issuer = next_name(&mut fields)?;
    let this_update = next_time(&mut fields)?;
    let next_update = next_update(&mut fields)?;
    let revoked = next_revoked_if_any(&mut fields, first)?;
    let extensions = next_extensions_if_any(&mut fields)?;
    fields.end()?;
    Ok(TbsCertList {
        version,
        signature,
        issuer,
        this_update: Stamp::of(this_update),
        next_update: stamp_if_any(next_update),
        revoked,
        extensions,
    })
}

/// The parts that a SEQUENCE holds.
#[tactic(auto, unfolding(crate::specs::Reading::crl_signed_of))]
fn signed_in<'a>(element: Element<'a>, first: Option<CertFault>) -> Result<Crl<'a>, CertFault>
    requires { SignedRead first (now element) }
    ensures { Answers located_list_in result (crl_signed_of (now element.entry)) }
{
    let mut fields = element.reader();
    let tbs = fields.element(SEQUENCE)?;
    let signed = tbs_in_element(tbs, first)?;
    let identifier = fields.element(SEQUENCE)?;
    let signature_algorithm = read_algorithm(identifier)?;
    let signature_value = next_bits(&mut fields)?;
    fields.end()?;
    Ok(Crl {
        tbs: Message::of(tbs.whole),
        version: signed.version,
        signature: signed.signature,
        issuer: signed.issuer,
        this_update: signed.this_update,
        next_update: signed.next_update,
        revoked: signed.revoked,
        extensions: signed.extensions,
        signature_algorithm,
        signature_value,
        identifier_at: identifier.at,
    })
}

/// The CRL that octets are.
#[tactic(auto, unfolding(crate::specs::Reading::crl_whole_of))]
pub(crate) fn list_in(octets: &[u8], first: Option<CertFault>) -> Result<Crl<'_>, CertFault>
    requires { WasRead first octets.now }
    ensures { Answers located_list_in result (crl_whole_of octets.now) }
{
    let mut reader = Reader::new(octets);
    let crl = signed_in(reader.element(SEQUENCE)?, first)?;
    reader.end()?;
    Ok(crl)
}
