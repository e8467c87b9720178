//! What pairs ask for.

ghost use Rattle.std.specs.Prelude.{◌≡◌, Ok, IfOk, IfErr, OnOk, map};
ghost use Rattle.base64.specs.Engines.{standard};
ghost use Rattle.base64.specs.GeneralPurpose.{decode_of};
ghost use Rattle.ts_form.specs.Fields.{Adds, AddsCertificates, Appends, AreRefused, IsNothing};
ghost use Rattle.ts_form.specs.Fields.{IsRefused, IsRefusedIn, IsRefusedInAll, Sets, SetsAll};
ghost use Rattle.ts_form.specs.Fields.{SetsFlag};
ghost use Rattle.ts_form.specs.Pairs.{pair_in};
ghost use Rattle.ts_form.specs.Values.{AreCertificates, AreWritten, IsDotted};
ghost use Rattle.ts_form.specs.inside.Refusals.{IsNoBase64, IsNoFlag, IsNoOid, IsRefusedText};
ghost use Rattle.ts_form.specs.declared.fault.FormFault.TheVariants.{Memory};
ghost use Rattle.ts_form.specs.declared.field.Field.TheVariants as fields;

use crate::fault::FormFault;
use crate::field::Field;
use crate::flags::{is_flag, no_flags, with_flag};
use crate::once::give_once;
use crate::pair::Pair;
use crate::values::{flag_of, moment_of};
use base64::DecodeAllocError;
use base64::engine::general_purpose::STANDARD;
use std::alloc::Global;
use ts_der::{Oid, OidTextError};
use ts_literal::{digest_of, number_in};
use ts_pem::{PemFault, is_pem, read_certificates};
use ts_question::{Flags, MAX_POSITION};

/// What pairs ask for, as far as it is given.
#[derive(Debug, Drop)]
pub struct WantedFields {
    /// The moment of the validation, in seconds from 1970-01-01T00:00:00Z.
    pub at: Option<i64>,
    /// After how many commands the store is looked at.
    pub k: Option<u32>,
    /// The flags that are set.
    pub flags: Flags,
    /// The policies that the user accepts.
    pub policies: Vec<Oid>,
    /// What the last certificate is for.
    pub purpose: Option<Oid>,
    /// The id of the trust anchor.
    pub anchor: Option<[u8; 32]>,
    /// Certificates in DER, the leaf first.
    pub chain: Vec<Vec<u8>>,
}

/// The object identifier of a dotted form.
fn oid_of(alloc: Global, field: Field, text: &str) -> Result<Oid, FormFault>
    ensures found { IfOk result (IsDotted text.now) }
    ensures refused { IfErr result (λ fault. IsNoOid field text.now fault) }
{
    match Oid::from_text(alloc, text) {
        Ok(oid) => Ok(oid),
        Err(OidTextError::Memory) => Err(FormFault::Memory),
        Err(OidTextError::Form) => Err(FormFault::Value(field)),
    }
}

/// The certificates of a text of PEM, or one, in DER.
fn certificates_of(alloc: Global, octets: &[u8]) -> Result<Vec<Vec<u8>>, FormFault>
    ensures found { IfOk result
        (λ found. AreCertificates octets.now (map (λ c. c.items) found.items)) }
    ensures refused { IfErr result (AreRefused octets.now) }
{
    match read_certificates(alloc, octets) {
        Ok(found) => Ok(found),
        Err(PemFault::OutOfMemory) => Err(FormFault::Memory),
        Err(_) => Err(FormFault::Value(Field::Chain)),
    }
}

/// The octets that a text writes in base64.
fn base64_of(alloc: Global, text: &str) -> Result<Vec<u8>, FormFault>
    ensures found { IfOk result (λ octets. decode_of standard text.now ≡ Ok octets.items) }
    ensures refused { IfErr result (IsNoBase64 text.now) }
{
    match STANDARD.decode(alloc, text.as_bytes()) {
        Ok(octets) => Ok(octets),
        Err(DecodeAllocError::OutOfMemory) => Err(FormFault::Memory),
        Err(_) => Err(FormFault::Value(Field::Chain)),
    }
}

/// The certificates that a text writes: of PEM, or one, of DER in base64.
fn written_in(alloc: Global, text: &str) -> Result<Vec<Vec<u8>>, FormFault>
    ensures found { IfOk result
        (λ found. AreWritten text.now (map (λ c. c.items) found.items)) }
    ensures refused { IfErr result (IsRefusedText text.now) }
{
    if is_pem(text.as_bytes()) {
        return certificates_of(alloc, text.as_bytes());
    }
    let mut found = Vec::new(alloc);
    found.push(base64_of(alloc, text)?)?;
    Ok(found)
}

impl WantedFields {
    /// Nothing is given.
    pub fn new(alloc: Global) -> WantedFields
        ensures { IsNothing result }
    {
        WantedFields {
            at: None,
            k: None,
            flags: no_flags(),
            policies: Vec::new(alloc),
            purpose: None,
            anchor: None,
            chain: Vec::new(alloc),
        }
    }

    /// Certificates behind those that are there.
    fn append(&mut self, mut certificates: Vec<Vec<u8>>) -> Result<(), FormFault>
        ensures appends { OnOk result
            (Appends (map (λ c. c.items) certificates.items) self.old self.new) }
        ensures refused { IfErr result (λ fault. fault ≡ Memory) }
    {
        self.chain.append(&mut certificates)?;
        Ok(())
    }

    /// Gives the purpose.
    fn set_purpose(&mut self, alloc: Global, text: &str) -> Result<(), FormFault>
        ensures adds { OnOk result (Adds fields.Purpose text.now self.old self.new) }
        ensures refused { IfErr result (IsRefusedIn fields.Purpose text.now self.old) }
    {
        if self.purpose.is_some() {
            return Err(FormFault::Twice(Field::Purpose));
        }
        self.purpose = Some(oid_of(alloc, Field::Purpose, text)?);
        Ok(())
    }

    /// Gives a flag.
    fn set_flag(&mut self, field: Field, text: &str) -> Result<(), FormFault>
        ensures sets { OnOk result (SetsFlag field text.now self.old self.new) }
        ensures refused { IfErr result (λ fault. IsNoFlag field text.now fault) }
    {
        match flag_of(text) {
            Some(true) => {
                self.flags = with_flag(field, self.flags);
                Ok(())
            }
            Some(false) => Ok(()),
            None => Err(FormFault::Value(field)),
        }
    }

    /// Gives a field that is no flag a text that is not empty.
    fn set_text(&mut self, alloc: Global, field: Field, text: &str) -> Result<(), FormFault>
        ensures adds { OnOk result (Adds field text.now self.old self.new) }
        ensures refused { IfErr result (IsRefusedIn field text.now self.old) }
    {
        match field {
            Field::Chain => self.append(written_in(alloc, text)?),
            Field::At => give_once(field, &mut self.at, moment_of(text)),
            Field::K => give_once(field, &mut self.k, number_in(text, 0, MAX_POSITION)),
            Field::Policies => Ok(self.policies.push(oid_of(alloc, field, text)?)?),
            Field::Purpose => self.set_purpose(alloc, text),
            Field::Anchor => give_once(field, &mut self.anchor, digest_of(text)),
            _ => self.set_flag(field, text),
        }
    }

    /// Adds what a pair says.
    ///
    /// # Errors
    ///
    /// `Name` exactly where no field of a question has this name; `Value` and `Twice` exactly where
    /// the text is not empty or the field a flag, and it is no value of its field, or the field is
    /// given and is given once; `Memory`. What was wanted before may be lost then.
    pub fn add(&mut self, alloc: Global, name: &str, value: &str) -> Result<(), FormFault>
        ensures sets { OnOk result (Sets (name.now, value.now) self.old self.new) }
        ensures refused { IfErr result (IsRefused (name.now, value.now) self.old) }
    {
        let Some(field) = Field::named(name) else {
            return Err(FormFault::Name);
        };
        if value.is_empty() && !is_flag(field) {
            return Ok(());
        }
        self.set_text(alloc, field, value)
    }

    /// Adds what pairs say, one after another.
    ///
    /// # Errors
    ///
    /// That of the first pair that is refused.
    pub fn add_all(&mut self, alloc: Global, pairs: &[Pair]) -> Result<(), FormFault>
        ensures sets { OnOk result (SetsAll (map pair_in pairs.now) self.old self.new) }
        ensures refused { IfErr result (IsRefusedInAll (map pair_in pairs.now) self.old) }
    {
        for pair in pairs {
            self.add(alloc, pair.name.as_str(), pair.value.as_str())?;
        }
        Ok(())
    }

    /// Puts the certificates of a text of PEM, or one, in DER, behind those that are there.
    ///
    /// # Errors
    ///
    /// `Value(Chain)` exactly where the octets are a text with a fault; `Memory`.
    pub fn add_certificates(&mut self, alloc: Global, octets: &[u8]) -> Result<(), FormFault>
        ensures adds { OnOk result (AddsCertificates octets.now self.old self.new) }
        ensures refused { IfErr result (AreRefused octets.now) }
    {
        let found = certificates_of(alloc, octets)?;
        self.append(found)
    }
}
