//! Reading a general name, and the length of an IP address.

ghost use Rattle.std.specs.Prelude.{◌≡◌, IfOk, IsOkAnd, option_map};
ghost use Rattle.ts_der.specs.Answer.{Answers, refusal};
ghost use Rattle.ts_der.specs.View.{now};
ghost use Rattle.ts_shape.specs.Fault.{about};
ghost use Rattle.ts_name.specs.General.{GeneralName, IsForm, directory_of, general_of};
ghost use Rattle.ts_name.specs.General.{has_address_length, has_range_length};
ghost use Rattle.ts_name.specs.GeneralTable.{general_name};
ghost use Rattle.ts_name.specs.GeneralView.{general_in};
ghost use Rattle.ts_name.specs.NameView.{rdns_in};
ghost use Rattle.ts_shape.specs.Shape.{row_fault};

use crate::general::General;
use crate::name::Name;
use ts_der::tag::SEQUENCE;
use ts_der::{DerFault, Element, Fault};
use ts_shape::{FromElement, SequenceOf};

/// General names, of which there is one or more (RFC 5280 4.2.1.6, `GeneralNames`).
pub type GeneralNames<'a> = SequenceOf<'a, General<'a>>;

const OTHER_NAME: u8 = 0xA0;

const RFC822_NAME: u8 = 0x81;

const DNS_NAME: u8 = 0x82;

const X400_ADDRESS: u8 = 0xA3;

const DIRECTORY_NAME: u8 = 0xA4;

const EDI_PARTY_NAME: u8 = 0xA5;

const UNIFORM_RESOURCE_IDENTIFIER: u8 = 0x86;

const IP_ADDRESS: u8 = 0x87;

const REGISTERED_ID: u8 = 0x88;

/// The name that a directory name holds, and nothing after it.
#[tactic(auto, unfolding(crate::specs::General::directory_of, crate::specs::Names::name_at, ts_shape::specs::Fields::within))]
fn read_directory<'a>(element: Element<'a>) -> Result<Name<'a>, Fault>
    ensures { Answers rdns_in result (directory_of (now element.entry)) }
{
    let mut fields = element.reader();
    let name = Name::read(fields.element(SEQUENCE)?)?;
    fields.end()?;
    Ok(name)
}

/// The general name that an element is, by its tag.
#[tactic(auto, unfolding(crate::specs::General::general_of))]
#[inline(always)]
fn read_general<'a>(element: Element<'a>) -> Result<General<'a>, Fault>
    ensures { Answers general_in result (general_of (now element.entry)) }
{
    match element.tag {
        OTHER_NAME => Ok(General::OtherName(element.content)),
        RFC822_NAME => Ok(General::Rfc822Name(element.ascii()?)),
        DNS_NAME => Ok(General::DnsName(element.ascii()?)),
        X400_ADDRESS => Ok(General::X400Address(element.content)),
        DIRECTORY_NAME => Ok(General::DirectoryName(read_directory(element)?)),
        EDI_PARTY_NAME => Ok(General::EdiPartyName(element.content)),
        UNIFORM_RESOURCE_IDENTIFIER => Ok(General::UniformResourceIdentifier(element.ascii()?)),
        IP_ADDRESS => Ok(General::IpAddress(element.content)),
        REGISTERED_ID => Ok(General::RegisteredId(element.oid()?)),
        _ => Err(Fault {
            kind: DerFault::WrongTag,
            at: element.at,
        }),
    }
}

impl<'a> General<'a> {
    /// The general name that an element is, or the first rule that is broken, at its place: a tag
    /// of none of the nine forms (`WrongTag`); of a mail address, a host's name and a URI the text
    /// (`TextForm`); of a registered id its form (`OidForm`); of a directory name those of
    /// `Name::read`, and `Trailing`.
    #[inline(always)]
    pub fn read(element: Element<'a>) -> Result<General<'a>, Fault>
        ensures found { IfOk result (λ name. IsForm element.entry.tag element.entry.content.now
            (general_in name)) }
        ensures only { (name : GeneralName)
            → IsForm element.entry.tag element.entry.content.now name
            → IsOkAnd result (λ read. general_in read ≡ name) }
        ensures fault { option_map about (refusal result)
            ≡ row_fault general_name (now element.entry) }
        ensures exact { Answers general_in result (general_of (now element.entry)) }
    {
        read_general(element)
    }

    /// Whether an IP address has 4 octets or 16 (RFC 5280 4.2.1.6). Of the other forms that is
    /// true.
    pub fn has_address_length(self) -> bool
        ensures { result ≡ has_address_length (general_in self.entry) }
    {
        match self {
            General::IpAddress(octets) => matches!(octets.len(), 4 | 16),
            _ => true,
        }
    }

    /// Whether an IP address has the length that it has in a constraint, with its mask: 8 octets or
    /// 32 (RFC 5280 4.2.1.10). Of the other forms that is true.
    pub fn has_range_length(self) -> bool
        ensures { result ≡ has_range_length (general_in self.entry) }
    {
        match self {
            General::IpAddress(octets) => matches!(octets.len(), 8 | 32),
            _ => true,
        }
    }
}

impl<'a> FromElement<'a> for General<'a> {
    ghost use Rattle.std.specs.Prelude.{[]};
    ghost use Rattle.ts_name.specs.General.{GeneralName, general_of};
    ghost use Rattle.ts_name.specs.GeneralView.{general_in};

    ghost Record = { GeneralName };

    ghost record_of = { general_in };

    ghost reading = { general_of };

    ghost key_of = { λ _. [] };

    #[inline(always)]
    fn read(element: Element<'a>) -> Result<General<'a>, Fault> {
        read_general(element)
    }
}
