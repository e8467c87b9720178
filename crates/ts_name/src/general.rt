//! General names.

use crate::name::Name;
use ts_der::OidRef;

/// A general name as it lies in the source (RFC 5280 4.2.1.6).
#[derive(Clone, Copy)]
pub enum General<'a> {
    /// `otherName [0]`: its content octets, which are not looked into.
    OtherName(&'a [u8]),
    /// `rfc822Name [1]`: a mail address, of octets below 80.
    Rfc822Name(&'a [u8]),
    /// `dNSName [2]`: the name of a host, of octets below 80.
    DnsName(&'a [u8]),
    /// `x400Address [3]`: its content octets, which are not looked into.
    X400Address(&'a [u8]),
    /// `directoryName [4]`: a distinguished name.
    DirectoryName(Name<'a>),
    /// `ediPartyName [5]`: its content octets, which are not looked into.
    EdiPartyName(&'a [u8]),
    /// `uniformResourceIdentifier [6]`: a URI, of octets below 80.
    UniformResourceIdentifier(&'a [u8]),
    /// `iPAddress [7]`: octets, however many they are.
    IpAddress(&'a [u8]),
    /// `registeredID [8]`: an object identifier.
    RegisteredId(OidRef<'a>),
}
