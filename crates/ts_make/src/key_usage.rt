//! Named bits.

ghost use Rattle.std.specs.Prelude.{◌≡◌, ℕ, ◌+◌, ◌*◌, ◌/◌, ◌<◌, ◌≤◌, Bool, List, [], ◌∷◌, ◌++◌};
ghost use Rattle.std.specs.Prelude.{length, map, slice_index_or, false};
ghost use Rattle.std.specs.List.{flat_map, range_with_len, All};
ghost use Rattle.ts_make.specs.Extensions.{extension_octets, key_usage};
ghost use Rattle.ts_make.specs.KeyUsage.{usage_numbers, is_set, last_set, weight, octet_from};
ghost use Rattle.ts_make.specs.KeyUsage.{usage_content, Collects};
ghost use Rattle.ts_make.specs.inside.Writing.{Appends, Writes};

use crate::description::ExtensionText;
use crate::elements::element;
use crate::fault::MakeFault;
use crate::single::append_extension;
use std::alloc::Global;
use ts_der::tag::BIT_STRING;

/// The numbers of the bits that the parts set.
fn numbers(alloc: Global, parts: &[ExtensionText<'_>]) -> Result<Vec<u32>, MakeFault>
    ensures { Collects result (usage_numbers parts.now) }
{
    let mut numbers = Vec::new(alloc);
    for part in parts {
        if let ExtensionText::KeyUsage(n) = part {
            numbers.push(*n)?;
        }
    }
    Ok(numbers)
}

/// The number of the last bit that is 1.
fn last_of(numbers: &[u32]) -> u32
    ensures exact { result ≡ last_set numbers.now }
    ensures within { (k : ℕ) → k < length numbers.now → slice_index_or numbers.now k 0 ≤ result }
{
    let mut last = 0;
    for n in numbers {
        last = last.max(*n);
    }
    last
}

/// The first bits, as many as asked for.
fn flags(alloc: Global, numbers: &[u32], count: usize) -> Result<Vec<bool>, MakeFault>
    requires { (k : ℕ) → k < length numbers.now → slice_index_or numbers.now k 0 < count }
    ensures { Collects result (map (is_set numbers.now) (range_with_len 0 count)) }
{
    let mut flags = vec![in alloc; false; count]?;
    for n in numbers {
        flags[*n as usize] = true;
    }
    Ok(flags)
}

/// What a bit adds to its octet.
fn weigh(bit: bool, value: u8) -> u8
    ensures exact { result ≡ weight bit value }
    ensures within { result ≤ value }
{
    if bit { value } else { 0 }
}

/// The octet of eight bits, the most significant first (X.690 8.6.2).
fn octet(flags: &[bool], at: usize) -> u8
    requires { at + 8 ≤ length flags.now }
    ensures { result ≡ weight (slice_index_or flags.now at false) 128
        + weight (slice_index_or flags.now (at + 1) false) 64
        + weight (slice_index_or flags.now (at + 2) false) 32
        + weight (slice_index_or flags.now (at + 3) false) 16
        + weight (slice_index_or flags.now (at + 4) false) 8
        + weight (slice_index_or flags.now (at + 5) false) 4
        + weight (slice_index_or flags.now (at + 6) false) 2
        + weight (slice_index_or flags.now (at + 7) false) 1 }
{
    weigh(flags[at], 0x80)
        + weigh(flags[at + 1], 0x40)
        + weigh(flags[at + 2], 0x20)
        + weigh(flags[at + 3], 0x10)
        + weigh(flags[at + 4], 0x08)
        + weigh(flags[at + 5], 0x04)
        + weigh(flags[at + 6], 0x02)
        + weigh(flags[at + 7], 0x01)
}

/// The content of the BIT STRING whose last bit has this number (X.690 8.6.2, 11.2.2).
#[tactic(auto, unfolding(crate::specs::KeyUsage::usage_content))]
fn content(alloc: Global, numbers: &[u32], last: usize) -> Result<Vec<u8>, MakeFault>
    requires exact { last ≡ last_set numbers.now }
    requires within { (k : ℕ) → k < length numbers.now → slice_index_or numbers.now k 0 ≤ last }
    requires low { last < 0x2000000 }
    ensures { Collects result (usage_content numbers.now) }
{
    let count = last / 8 + 1;
    let flags = flags(alloc, numbers, 8 * count)?;
    let mut content = Vec::new(alloc);
    content.push(7 - (last % 8) as u8)?;
    for i in 0..count {
        content.push(octet(&flags, 8 * i))?;
    }
    Ok(content)
}

/// No list has room for the bit of this number.
const TOO_FAR: u32 = 0x2000000;

/// The content of the BIT STRING of the bits of these numbers (X.690 8.6.2, 11.2.2).
pub(crate) fn bits_content(alloc: Global, numbers: &[u32]) -> Result<Vec<u8>, MakeFault>
    ensures { Writes result (usage_content numbers.now) }
{
    let last = last_of(numbers);
    if last >= TOO_FAR {
        return Err(MakeFault::TooLong);
    }
    content(alloc, numbers, last as usize)
}

/// Appends keyUsage, if the parts set a bit (RFC 5280 4.2.1.3).
pub(crate) fn append_key_usage(
    alloc: Global,
    octets: &mut Vec<u8>,
    parts: &[ExtensionText<'_>],
) -> Result<(), MakeFault>
    ensures { Appends result (flat_map extension_octets (key_usage (usage_numbers parts.now)))
        octets.old.items octets.new.items }
{
    let numbers = numbers(alloc, parts)?;
    if numbers.is_empty() {
        return Ok(());
    }
    let content = bits_content(alloc, &numbers)?;
    let value = element(alloc, BIT_STRING, &content)?;
    append_extension(alloc, octets, &[0x55, 0x1d, 15], true, &value)
}
