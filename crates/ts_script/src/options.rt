//! The options of a line that asks about a chain.

ghost use Rattle.std.specs.Prelude.{◌↔◌, IsSome};

use crate::script::LineFault;
use crate::values::oid_in;
use crate::words::{SPACE, first_piece};
use std::alloc::{AllocError, Global};
use ts_der::{Oid, OidRef};
use ts_literal::number_of_octets;

/// The most policies that a user accepts, as a question has it.
pub const MAX_POLICIES: usize = 32;

/// What is asked of a chain. An option may be repeated only where it says another policy.
#[derive(Drop)]
pub struct Options {
    /// Whether a certificate is refused whose status can't be determined (`hard`).
    pub hard: bool,
    /// Whether a policy has to be valid for the chain (`explicit`).
    pub explicit: bool,
    /// Whether policies may not be mapped (`nomap`).
    pub nomap: bool,
    /// Whether anyPolicy does not stand for other policies (`noany`).
    pub noany: bool,
    /// Whether delta CRLs are used (`deltas`).
    pub deltas: bool,
    /// The number of commands after which the store is looked at (`k=`).
    pub k: Option<u32>,
    /// The purpose that the target is to have (`purpose=`).
    pub purpose: Option<Oid>,
    /// The policies that the user accepts (`policy=`).
    pub policies: Vec<Oid>,
}

impl Options {
    /// No option.
    fn new(alloc: Global) -> Options {
        Options {
            hard: false,
            explicit: false,
            nomap: false,
            noany: false,
            deltas: false,
            k: None,
            purpose: None,
            policies: Vec::new(alloc),
        }
    }

    /// Takes an option. What is no option, or may not be repeated, is refused as `Form`.
    fn take(&mut self, alloc: Global, word: &[u8]) -> Result<(), LineFault> {
        if let Some(value) = word.strip_prefix(b"policy=") {
            self.policies.push(oid_in(alloc, value)?)?;
            return Ok(());
        }
        if let Some(value) = word.strip_prefix(b"purpose=") {
            return self.take_purpose(oid_in(alloc, value)?);
        }
        if let Some(value) = word.strip_prefix(b"k=") {
            return self.take_k(value);
        }
        match word {
            b"hard" => set(&mut self.hard),
            b"explicit" => set(&mut self.explicit),
            b"nomap" => set(&mut self.nomap),
            b"noany" => set(&mut self.noany),
            b"deltas" => set(&mut self.deltas),
            _ => Err(LineFault::Form),
        }
    }

    /// Sets the purpose. A second one is refused.
    fn take_purpose(&mut self, purpose: Oid) -> Result<(), LineFault> {
        if self.purpose.is_some() {
            return Err(LineFault::Form);
        }
        self.purpose = Some(purpose);
        Ok(())
    }

    /// Sets k. A second one, and what is no number, are refused.
    fn take_k(&mut self, value: &[u8]) -> Result<(), LineFault> {
        let k = number_of_octets(value).ok_or(LineFault::Form)?;
        if self.k.is_some() {
            return Err(LineFault::Form);
        }
        self.k = Some(k);
        Ok(())
    }

    /// The options up to the keyword before the names, and what follows it.
    ///
    /// # Errors
    ///
    /// `Form` where a word is no option, is one that may not be repeated, or no keyword follows.
    pub fn read<'a>(
        alloc: Global,
        words: Option<&'a [u8]>,
        keyword: &[u8],
    ) -> Result<(Options, Option<&'a [u8]>), LineFault> {
        let mut options = Options::new(alloc);
        let mut rest = words;
        while let Some(left) = rest {
            let (word, behind) = first_piece(left, SPACE);
            if word == keyword {
                return Ok((options, behind));
            }
            options.take(alloc, word)?;
            rest = behind;
        }
        Err(LineFault::Form)
    }

    /// The contents octets of the purpose.
    pub fn purpose_octets(&self) -> Option<&[u8]>
        ensures { IsSome result ↔ IsSome self.now.purpose }
    {
        match &self.purpose {
            Some(purpose) => Some(purpose.as_ref().content),
            None => None,
        }
    }

    /// The policies, borrowed.
    pub fn policies(&self, alloc: Global) -> Result<Vec<OidRef<'_>>, AllocError> {
        let mut policies = Vec::new(alloc);
        for policy in self.policies.iter() {
            policies.push(policy.as_ref())?;
        }
        Ok(policies)
    }
}

/// Sets an option that was not set before.
fn set(option: &mut bool) -> Result<(), LineFault> {
    if *option {
        return Err(LineFault::Form);
    }
    *option = true;
    Ok(())
}
