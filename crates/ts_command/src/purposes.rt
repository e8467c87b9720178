//! The purposes of a trust anchor.

ghost use Rattle.std.specs.Prelude.{◌≡◌, ◌&&◌, ℕ, nat_le, true, false, List, Some, None, length};
ghost use Rattle.std.specs.Prelude.{option_map, MatchOption, IfOk};
ghost use Rattle.std.specs.List.{list_all};
ghost use Rattle.ts_der.specs.ObjectIdentifier.{is_oid};
ghost use Rattle.ts_command.specs.Purposes.{is_ascending, is_listed, ArePurposes};

use std::alloc::{AllocError, Global};
use std::marker::Model;
use ts_der::Oid;

/// How many purposes a trust anchor may have, where they are not any.
pub const MAX_PURPOSES: usize = 16;

/// The purposes for which a trust anchor may be used: any, or those of a strictly ascending list of
/// at most 16. Contracts see the contents octets of each.
#[derive(Debug, Drop)]
pub struct Purposes {
    oids: Option<Vec<Oid>>,
}

impl Model for Purposes {
    ghost use Rattle.std.specs.Prelude.{ℕ, List, Option, option_map};
    ghost use Rattle.ts_command.specs.Purposes.{ArePurposes};

    ghost Value = { Option (List (List ℕ)) };

    ghost view = { λ p. option_map (λ oids. oids.items) p.oids };

    ghost invariant = { λ p. ArePurposes (option_map (λ oids. oids.items) p.oids) };
}

impl Purposes {
    /// Any purpose.
    pub fn any() -> Purposes
        ensures { result ≡ None }
    {
        Purposes { oids: None }
    }

    /// These purposes. `None` exactly where they are more than 16, or not strictly ascending by
    /// their contents octets.
    pub fn new(oids: Vec<Oid>) -> Option<Purposes>
        ensures { MatchOption result (is_listed oids.items ≡ false)
            (λ p. (p ≡ Some oids.items) × (ArePurposes (Some oids.items))) }
    {
        if oids.len() > MAX_PURPOSES || !are_ascending(&oids) {
            return None;
        }
        Some(Purposes { oids: Some(oids) })
    }

    /// A copy. The error is that memory ran out.
    pub fn try_copy(&self, alloc: Global) -> Result<Purposes, AllocError>
        ensures { IfOk result (λ copy. copy ≡ self.now) }
    {
        match self.oids() {
            Some(oids) => {
                let copies = copies(alloc, oids)?;
                Ok(Purposes { oids: Some(copies) })
            }
            None => Ok(Purposes::any()),
        }
    }

    /// The purposes, ascending; `None` for any.
    pub fn oids(&self) -> Option<&[Oid]>
        ensures oids { option_map (λ oids. oids.now) result ≡ self.now }
        ensures limits { ArePurposes self.now }
    {
        match &self.oids {
            Some(oids) => Some(oids.as_slice()),
            None => None,
        }
    }
}

/// Copies of object identifiers.
fn copies(alloc: Global, oids: &[Oid]) -> Result<Vec<Oid>, AllocError>
    ensures { IfOk result (λ copies. copies.items ≡ oids.now) }
{
    let mut copies = Vec::new(alloc);
    for oid in oids {
        copies.push(Oid::from_oid(alloc, oid.as_ref())?)?;
    }
    Ok(copies)
}

/// Whether each is before the next.
fn are_ascending(oids: &[Oid]) -> bool
    ensures ascending { result ≡ is_ascending oids.now }
    ensures identifiers { result ≡ true → list_all is_oid oids.now ≡ true }
{
    let [first, others @ ..] = oids else {
        return true;
    };
    let mut before = first.as_ref();
    for oid in others {
        let next = oid.as_ref();
        if !before.content.cmp(next.content).is_lt() {
            return false;
        }
        before = next;
    }
    true
}
