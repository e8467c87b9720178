//! Ranges of addresses in which an address is looked up.

ghost use Rattle.std.specs.Prelude.{◌≡◌, ◌↔◌, ℕ, false, List, IsTrue, IfOk, map};
ghost use Rattle.ts_name.specs.General.{GeneralName, iPAddress};
ghost use Rattle.ts_name.specs.GeneralView.{general_in};
ghost use Rattle.ts_name.specs.Holds.{Holds};
ghost use Rattle.ts_constraint.specs.Conditions.{Some_of};
ghost use Rattle.ts_constraint.specs.inside.RangeTable.{AreRanges, AreRangesOf, AreOtherRanges};
ghost use Rattle.ts_constraint.specs.inside.RangeTable.{IsOtherLength};
ghost use Rattle.ts_constraint.specs.inside.Quads.{as_masked};
ghost use Rattle.ts_constraint.specs.View.{bases_in};

use crate::masked::{MaskedRange, Quad, is_in_one, is_in_quad, number, range_of};
use std::alloc::{AllocError, Global};
use ts_name::{General, Subtree};

/// The ranges of addresses among the bases of subtrees.
#[derive(Drop)]
pub(crate) struct Ranges<'a> {
    /// Those of addresses of four octets.
    short: Vec<Quad>,
    /// Those of addresses of sixteen octets.
    long: Vec<MaskedRange>,
    /// Those of addresses of other lengths, which no constraint has that was read.
    others: Vec<Subtree<'a>>,
}

impl<'a> Ranges<'a> {
    /// The ranges among the bases of subtrees. The error is that memory ran out.
    pub(crate) fn new(alloc: Global, subtrees: &[Subtree<'a>]) -> Result<Self, AllocError>
        ensures { IfOk result (λ r. AreRanges r (bases_in subtrees.now)) }
    {
        let short = gather_short(alloc, subtrees)?;
        let long = gather_long(alloc, subtrees)?;
        let others = gather_others(alloc, subtrees)?;
        Ok(Ranges {
            short,
            long,
            others,
        })
    }

    /// Whether an address lies in one of the ranges. Each is looked at, since masks may have their
    /// bits anywhere.
    pub(crate) fn has(&self, address: &[u8]) -> bool
        ensures { (bases : List GeneralName) → AreRanges self.now bases
            → IsTrue result ↔ Some_of (λ base. Holds base (iPAddress address.now)) bases }
    {
        if address.len() == 4 {
            return is_in_quad(self.short.as_slice(), number(address) as u32);
        }
        if address.len() == 16 {
            return is_in_one(self.long.as_slice(), number(address));
        }
        hold(self.others.as_slice(), General::IpAddress(address))
    }
}

/// The ranges of addresses of four octets.
fn gather_short(alloc: Global, subtrees: &[Subtree<'_>]) -> Result<Vec<Quad>, AllocError>
    ensures { IfOk result (λ v. AreRangesOf 4 (map as_masked v.items) (bases_in subtrees.now)) }
{
    let mut ranges = Vec::new(alloc);
    for subtree in subtrees {
        let Some(range) = range_of(subtree.base(), 4) else {
            continue;
        };
        ranges.push(range.narrowed())?;
    }
    Ok(ranges)
}

/// The ranges of addresses of sixteen octets.
fn gather_long(alloc: Global, subtrees: &[Subtree<'_>]) -> Result<Vec<MaskedRange>, AllocError>
    ensures { IfOk result (λ v. AreRangesOf 16 v.items (bases_in subtrees.now)) }
{
    let mut ranges = Vec::new(alloc);
    for subtree in subtrees {
        let Some(range) = range_of(subtree.base(), 16) else {
            continue;
        };
        ranges.push(range)?;
    }
    Ok(ranges)
}

/// The ranges of addresses that have neither four octets nor sixteen.
fn gather_others<'a>(
    alloc: Global,
    subtrees: &[Subtree<'a>],
) -> Result<Vec<Subtree<'a>>, AllocError>
    ensures { IfOk result (λ v. AreOtherRanges (bases_in v.items) (bases_in subtrees.now)) }
{
    let mut others: Vec<Subtree<'a>> = Vec::new(alloc);
    for subtree in subtrees {
        if !may_be_other(subtree.base()) {
            continue;
        }
        others.push(*subtree)?;
    }
    Ok(others)
}

/// Whether a base is a range of addresses that have neither four octets nor sixteen.
fn may_be_other(base: General<'_>) -> bool
    ensures { result ≡ false → (address : List ℕ) → IsOtherLength address
        → Holds (general_in base.entry) (iPAddress address) → ⊥ }
{
    match base {
        General::IpAddress(range) => range.len() != 8 && range.len() != 32,
        _ => false,
    }
}

/// Whether a name lies in one of the subtrees.
fn hold(subtrees: &[Subtree<'_>], name: General<'_>) -> bool
    ensures { IsTrue result ↔ Some_of (λ base. Holds base (general_in name.entry))
        (bases_in subtrees.now) }
{
    let mut rest = subtrees;
    while let [subtree, others @ ..] = rest {
        if subtree.holds(name) {
            return true;
        }
        rest = others;
    }
    false
}
