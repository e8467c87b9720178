//! Forms of names.

ghost use Rattle.std.specs.Prelude.{◌≡◌};
ghost use Rattle.ts_name.specs.GeneralView.{general_in};
ghost use Rattle.ts_constraint.specs.Names.{form_of, is_processed_form};

use ts_name::General;

/// The nine forms of a general name (RFC 5280 4.2.1.6).
#[derive(Clone, Copy, Debug, PartialEq, Eq)]
pub enum Form {
    OtherName,
    Rfc822Name,
    DnsName,
    X400Address,
    DirectoryName,
    EdiPartyName,
    UniformResourceIdentifier,
    IpAddress,
    RegisteredId,
}

impl Form {
    /// The form of a name.
    pub fn of(name: General<'_>) -> Form
        ensures { result ≡ form_of (general_in name.entry) }
    {
        match name {
            General::OtherName(_) => Form::OtherName,
            General::Rfc822Name(_) => Form::Rfc822Name,
            General::DnsName(_) => Form::DnsName,
            General::X400Address(_) => Form::X400Address,
            General::DirectoryName(_) => Form::DirectoryName,
            General::EdiPartyName(_) => Form::EdiPartyName,
            General::UniformResourceIdentifier(_) => Form::UniformResourceIdentifier,
            General::IpAddress(_) => Form::IpAddress,
            General::RegisteredId(_) => Form::RegisteredId,
        }
    }

    /// Whether this profile processes constraints of this form: directory names, names of hosts and
    /// IP addresses.
    pub fn is_processed(self) -> bool
        ensures { result ≡ is_processed_form self }
    {
        matches!(self, Form::DirectoryName | Form::DnsName | Form::IpAddress)
    }
}
