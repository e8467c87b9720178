//! All sources of constraints above a certificate.

ghost use Rattle.std.specs.Prelude.{◌≡◌, ◌↔◌, ◌++◌, ◌∷◌, [], IsTrue, IfOk, OnOk, OnErr, Ok, List};
ghost use Rattle.std.specs.Prelude.{map};
ghost use Rattle.std.specs.List.{flat_map};
ghost use Rattle.std.specs.Str.{bytes_eq};
ghost use Rattle.ts_name.specs.GeneralView.{general_in};
ghost use Rattle.ts_name.specs.NameView.{rdns_in, attributes_in};
ghost use Rattle.ts_name.specs.View.{attr_of};
ghost use Rattle.ts_ext.specs.NameViews.{alternatives_in};
ghost use Rattle.ts_cert.specs.CertView.{cert_in};
ghost use Rattle.ts_constraint.specs.Conditions.{NameFails, IsFirstForm, IsBoundsAnswer, IsExempt};
ghost use Rattle.ts_constraint.specs.Names.{addresses_of, email_address, subject_names, names_of};
ghost use Rattle.ts_constraint.specs.Source.{source_of};
ghost use Rattle.ts_constraint.specs.inside.Sought.{name_in};
ghost use Rattle.ts_constraint.specs.View.{bases_in};

use crate::condition::Condition;
use crate::fault::NameFault;
use crate::form::Form;
use crate::sought::SoughtName;
use crate::source::Source;
use std::alloc::{AllocError, Global};
use std::marker::Model;
use ts_cert::Cert;
use ts_ext::AlternativeNames;
use ts_name::{Attribute, General, Name, Rdn, Subtree};

/// The sources of constraints above a certificate: those of the question, and those of each
/// certificate above it, in order.
#[derive(Drop)]
pub struct Bounds<'a> {
    alloc: Global,
    sources: Vec<Source<'a>>,
}

impl<'a> Model for Bounds<'a> {
    ghost use Rattle.std.specs.Prelude.{List};
    ghost use Rattle.ts_constraint.specs.Source.{Source};

    ghost Value = { List Source };

    ghost view = { λ b. b.sources.items };
}

impl<'a> Bounds<'a> {
    /// The bounds of a question: its permitted and its excluded subtrees are the one source (RFC
    /// 5280 6.1.1 (h), (i)). The error is that memory ran out.
    pub fn initial(
        alloc: Global,
        permitted: &[Subtree<'a>],
        excluded: &[Subtree<'a>],
    ) -> Result<Self, AllocError>
        ensures { IfOk result (λ b. b ≡ record
            { permitted = bases_in permitted.now; excluded = bases_in excluded.now } ∷ []) }
    {
        let mut sources = Vec::new(alloc);
        sources.push(Source::new(alloc, permitted, excluded)?)?;
        Ok(Bounds { alloc, sources })
    }

    /// Adds the name constraints of a certificate, which bind the names of those that follow it
    /// (RFC 5280 6.1.4 (g)). Where memory runs out, the bounds stay as they were.
    pub fn narrow(&mut self, cert: &Cert<'a>) -> Result<(), AllocError>
        ensures ok { OnOk result (self.new
            ≡ self.old ++ source_of (cert_in cert.now).tbsCertificate ∷ []) }
        ensures err { OnErr result (self.new ≡ self.old) }
    {
        let source = Source::of(self.alloc, cert)?;
        self.sources.push(source)?;
        Ok(())
    }

    /// Whether the names of a certificate, which is the last of its chain or not, meet the
    /// conditions of every source (RFC 5280 6.1.3 (b) and (c)). It takes memory only for the
    /// canonical form of a directory name, for as long as that is looked up; where there is none,
    /// it compares the name with each subtree, which takes longer and answers the same.
    ///
    /// # Errors
    ///
    /// The least condition that a name does not meet, with the form of the first name that does not
    /// meet it: the subject comes first, then the mail addresses in it, which count where there is
    /// no subjectAltName, then the names of that extension. A self-issued certificate that is not
    /// the last is not looked at.
    pub fn check(&self, cert: &Cert<'_>, last: bool) -> Result<(), NameFault>
        ensures exempt { IsExempt (cert_in cert.now).tbsCertificate last → result ≡ Ok tt }
        ensures checked { ¬ (IsExempt (cert_in cert.now).tbsCertificate last)
            → IsBoundsAnswer self.now (names_of (cert_in cert.now).tbsCertificate) result }
    {
        if is_exempt(cert, last) {
            return Ok(());
        }
        if let Some(form) = self.first_failing(Condition::Supported, cert) {
            return Err(NameFault::Unsupported(form));
        }
        if let Some(form) = self.first_failing(Condition::Permitted, cert) {
            return Err(NameFault::NotPermitted(form));
        }
        if let Some(form) = self.first_failing(Condition::NotExcluded, cert) {
            return Err(NameFault::Excluded(form));
        }
        Ok(())
    }

    /// The form of the first name of a certificate that does not meet a condition.
    fn first_failing(&self, condition: Condition, cert: &Cert<'_>) -> Option<Form>
        ensures { IsFirstForm condition self.now
            (names_of (cert_in cert.now).tbsCertificate) result }
    {
        let subject = cert.subject();
        if let Some(form) = self.first_of_subject(condition, subject) {
            return Some(form);
        }
        match cert.subject_alt_name() {
            Some(names) => self.first_of_names(condition, names),
            None => self.first_of_addresses(condition, subject),
        }
    }

    /// Whether a name does not meet a condition of one of the sources.
    fn fails(&self, condition: Condition, name: General<'_>) -> bool
        ensures { IsTrue result ↔ NameFails condition self.now (general_in name.entry) }
    {
        self.fails_sought(condition, &SoughtName::new(self.alloc, name))
    }

    /// Whether a name that is looked up does not meet a condition of one of the sources.
    fn fails_sought(&self, condition: Condition, name: &SoughtName<'_>) -> bool
        ensures { IsTrue result ↔ NameFails condition self.now (name_in name.now) }
    {
        let mut rest = self.sources.as_slice();
        while let [source, others @ ..] = rest {
            if source.fails(condition, name) {
                return true;
            }
            rest = others;
        }
        false
    }

    /// The form of a directory name, if the subject does not meet a condition.
    fn first_of_subject(&self, condition: Condition, subject: Name<'_>) -> Option<Form>
        ensures { IsFirstForm condition self.now (subject_names (rdns_in subject.entry)) result }
    {
        if subject.rdns().next().is_none() {
            return None;
        }
        if self.fails(condition, General::DirectoryName(subject)) {
            return Some(Form::DirectoryName);
        }
        None
    }

    /// The form of the first of these names that does not meet a condition.
    fn first_of_names(&self, condition: Condition, names: AlternativeNames<'_>) -> Option<Form>
        ensures { IsFirstForm condition self.now (alternatives_in names.entry) result }
    {
        for name in names.iter() {
            if self.fails(condition, name) {
                return Some(Form::of(name));
            }
        }
        None
    }

    /// The form of a mail address, if one in the subject does not meet a condition.
    fn first_of_addresses(&self, condition: Condition, subject: Name<'_>) -> Option<Form>
        ensures { IsFirstForm condition self.now
            (addresses_of (flat_map (λ rdn. rdn) (rdns_in subject.entry))) result }
    {
        for rdn in subject.rdns() {
            if let Some(form) = self.first_of_rdn(condition, rdn) {
                return Some(form);
            }
        }
        None
    }

    /// The form of a mail address, if one in a relative distinguished name does not meet a
    /// condition.
    fn first_of_rdn(&self, condition: Condition, rdn: Rdn<'_>) -> Option<Form>
        ensures { IsFirstForm condition self.now (addresses_of (attributes_in rdn.entry)) result }
    {
        for attribute in rdn.attributes() {
            if !is_address(attribute) {
                continue;
            }
            if self.fails(condition, General::Rfc822Name(attribute.value)) {
                return Some(Form::Rfc822Name);
            }
        }
        None
    }
}

/// emailAddress, 1.2.840.113549.1.9.1, as the content of an OBJECT IDENTIFIER (RFC 2985 5.2.1).
const EMAIL_ADDRESS: &[u8] = b"\x2a\x86\x48\x86\xf7\x0d\x01\x09\x01";

/// Whether an attribute is a mail address.
fn is_address(attribute: Attribute<'_>) -> bool
    ensures { result ≡ bytes_eq (attr_of attribute.entry).kind email_address }
{
    attribute.kind == EMAIL_ADDRESS
}

/// Whether constraints do not bear on a certificate.
fn is_exempt(cert: &Cert<'_>, last: bool) -> bool
    ensures { IsTrue result ↔ IsExempt (cert_in cert.now).tbsCertificate last }
{
    if last {
        return false;
    }
    cert.is_self_issued()
}
