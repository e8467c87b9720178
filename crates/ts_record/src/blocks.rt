//! The blocks of an image are read.

ghost use Rattle.std.specs.Prelude.{◌≡◌, ◌≤◌, ◌<◌, ◌+◌, ◌^◌, ◌⊎◌, ◌++◌, ◌∷◌, ℕ, List, length, drop};
ghost use Rattle.std.specs.Prelude.{IfOk, IfErr, IfSome, IfNone, MatchOption};
ghost use Rattle.std.specs.Int.{to_be_bytes, w32};
ghost use Rattle.ts_synod.specs.declared.message.Fact.{Fact};
ghost use Rattle.ts_record.specs.declared.fault.RecordFault.TheVariants.{Memory, Damaged};
ghost use Rattle.ts_record.specs.Blocks.{IsRead, IsUnreadable, IsLength};

use crate::RecordFault;
use crate::known::KnownFacts;
use crate::layout::Layout;
use crate::reading::{read_facts, u32_at};
use std::alloc::Global;
use ts_synod::{Codec, Fact};

/// The length of an entry that begins here.
fn length_at(layout: Layout, rest: &[u8]) -> Option<usize>
    requires { layout.longest_body < 2 ^ 32 }
    ensures { MatchOption result ((n : ℕ) (after : List ℕ) → IsLength layout n
        → rest.now ≡ to_be_bytes w32 n ++ after → ⊥)
        (λ n. IsLength layout n × (rest.now ≡ to_be_bytes w32 n ++ drop 4 rest.now)
        × (4 ≤ length rest.now)) }
{
    let size = u32_at(rest)? as usize;
    if size < 1 || layout.longest_body < size {
        return None;
    }
    Some(size)
}

/// A list of facts, and the offset of the clear commit byte after it.
#[derive(Drop)]
pub(crate) struct Contents<C> {
    pub facts: Vec<Fact<C>>,
    pub end: usize,
}

/// Reads the blocks from the first commit byte on, up to the clear one after the last.
pub(crate) fn read_blocks<C: Codec>(
    alloc: Global,
    layout: Layout,
    octets: &[u8],
) -> Result<Contents<C>, RecordFault>
    requires long { layout.first_gate ≤ length octets.now }
    requires short { layout.longest_body < 2 ^ 32 }
    ensures read { IfOk result (λ contents. IsRead C.octets layout octets.now contents.facts.items
        contents.end) }
    ensures fault { IfErr result (λ fault. (fault ≡ Memory)
        ⊎ ((at : ℕ) × (fault ≡ Damaged at) × IsUnreadable C.octets layout octets.now at)) }
{
    let mut facts = Vec::new(alloc);
    let mut known = KnownFacts::none();
    let mut at = layout.first_gate;
    while at < octets.len() {
        if octets[at] == 0 {
            return Ok(Contents { facts, end: at });
        }
        let Some(size) = length_at(layout, &octets[at + 1..]) else {
            return Err(RecordFault::Damaged(at + 1));
        };
        let body = at + 5;
        if octets.len() - body < size {
            return Err(RecordFault::Damaged(body));
        }
        if !read_facts(alloc, &octets[body..body + size], &mut facts, &mut known)? {
            return Err(RecordFault::Damaged(body));
        }
        at = body + size;
    }
    Err(RecordFault::Damaged(at))
}
