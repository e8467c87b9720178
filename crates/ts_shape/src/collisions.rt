//! The first item of a list that repeats an earlier one, among those whose keys have a hash that an
//! earlier key has.

ghost use Rattle.std.specs.Prelude.{◌≡◌, ◌<◌, ◌≤◌, [], None, length, take, option_map};
ghost use Rattle.std.specs.Prelude.{IsPermutation};
ghost use Rattle.ts_der.specs.Element.{inside};
ghost use Rattle.ts_der.specs.View.{now};
ghost use Rattle.ts_shape.specs.Items.{items_at};
ghost use Rattle.ts_shape.specs.Repeats.{first_repeated as first_repeated_of, keys_in};
ghost use Rattle.ts_shape.specs.Repeats.{AreAscending};
ghost use Rattle.ts_shape.specs.inside.Collisions.{flag_of as flag_in, AreFlagged, AreCollisions};
ghost use Rattle.ts_shape.specs.inside.Collisions.{place_of as place_in};

use crate::repeats::Keyed;
use crate::sequence_of::SequenceItems;
use arrayvec::ArrayVec;
use ts_der::Element;

/// 2^64 over the golden ratio, an odd number.
const GOLDEN: u64 = 0x9E37_79B9_7F4A_7C15;

/// The first of the items within an element that has the key of an earlier one, up to the first
/// item that can't be read. A first walk sets a flag of `M` for each key, by its hash, and keeps
/// the keys whose flag was set before, the collisions, in a table of `N`; a second one looks the
/// items up in the table, and the first that it meets again is it. Where there are more collisions
/// than the table has room for, both walks are made again for the next of them, with another hash.
#[inline(never)]
pub fn first_repeated_of_collisions<'a, T: Keyed<'a>, const N: usize, const M: usize>(
    list: Element<'a>,
) -> Option<T>
    requires room { 0 < N }
    requires flags { 0 < M }
    requires small { N ≤ 32768 }
    requires few { M ≤ 262144 }
    ensures { option_map T.record_of result
        ≡ first_repeated_of T.key_of [] (items_at T.reading (inside (now list.entry))) }
{
    let mut table = ArrayVec::<&'a [u8], N>::new();
    let mut passed = 0;
    loop {
        table.clear();
        let factor = GOLDEN.wrapping_add((passed as u64).wrapping_mul(2));
        passed = gather::<T, N, M>(&mut table, list, passed, factor);
        sort(&mut table);
        let found = first_met_again::<T, N, M>(table.as_slice(), list, passed, factor);
        if found.is_some() || table.len() < N {
            return found;
        }
    }
}

/// Passes items until an empty table is full of keys that an earlier item may have, and answers how
/// many it passed. The first `known` are known to have keys of their own.
#[inline(never)]
fn gather<'a, T: Keyed<'a>, const N: usize, const M: usize>(
    table: &mut ArrayVec<&'a [u8], N>,
    list: Element<'a>,
    known: usize,
    factor: u64,
) -> usize
    requires flags { 0 < M }
    requires few { M ≤ 262144 }
    requires empty { table.old.items ≡ [] }
    requires distinct { first_repeated_of T.key_of []
        (take known (items_at T.reading (inside (now list)))) ≡ None }
    ensures collisions { AreCollisions T.key_of (keys_in table.new.items) []
        (take result (items_at T.reading (inside (now list.entry)))) }
    ensures all { length table.new.items < N
        → take result (items_at T.reading (inside (now list.entry)))
        ≡ items_at T.reading (inside (now list.entry)) }
    ensures further { 0 < length table.new.items → known < result }
    ensures within { result ≤ length (items_at T.reading (inside (now list.entry))) }
{
    let mut seen = [false; M];
    let mut items = SequenceItems::<T>::within(list);
    let mut passed = 0;
    while table.len() < N {
        let Some(item) = items.next() else {
            return passed;
        };
        let flag = flag_of::<M>(item.key(), factor);
        if known <= passed && seen[flag] {
            table.push(item.key());
        }
        seen[flag] = true;
        passed += 1;
    }
    passed
}

/// The number of a key's flag, of `M`: by a hash that multiplies (Knuth, The Art of Computer
/// Programming, 6.4), another one for each odd factor.
#[inline(always)]
#[tactic(auto, unfolding(crate::specs::inside::Collisions::flag_of))]
fn flag_of<const M: usize>(key: &[u8], factor: u64) -> usize
    requires flags { 0 < M }
    ensures flag { result ≡ flag_in M factor key.now }
    ensures within { result < M }
{
    let mut hash: u64 = 0;
    for &octet in key {
        hash = hash.wrapping_add(u64::from(octet)).wrapping_mul(factor);
    }
    (hash / 0x1_0000_0000) as usize % M
}

/// Puts the keys of a table in order.
fn sort<const N: usize>(table: &mut ArrayVec<&[u8], N>)
    ensures same { IsPermutation table.old.items table.new.items }
    ensures ascending { AreAscending table.new.items }
{
    table.sort_unstable();
}

/// The first of `end` items whose key an earlier one has, where the keys of all that repeat one are
/// in the table.
#[inline(never)]
fn first_met_again<'a, T: Keyed<'a>, const N: usize, const M: usize>(
    table: &[&'a [u8]],
    list: Element<'a>,
    end: usize,
    factor: u64,
) -> Option<T>
    requires flags { 0 < M }
    requires few { M ≤ 262144 }
    requires small { N ≤ 32768 }
    requires room { length table.now ≤ N }
    requires ascending { AreAscending table.now }
    requires collisions { AreCollisions T.key_of (keys_in table.now) []
        (take end (items_at T.reading (inside (now list)))) }
    ensures { option_map T.record_of result
        ≡ first_repeated_of T.key_of [] (take end (items_at T.reading (inside (now list.entry)))) }
{
    if table.is_empty() {
        return None;
    }
    let mut flags = [false; M];
    set_flags(&mut flags, table, factor);
    let mut met = [false; N];
    let mut items = SequenceItems::<T>::within(list);
    let mut before = 0;
    while before < end {
        let mut here = items.fork();
        let Some(item) = items.next() else {
            return None;
        };
        if let Some(place) = place_of(item.key(), table, &flags, factor) {
            if met[place] {
                // Read once more, so that the walk keeps no more of an item than its key.
                return here.next();
            }
            met[place] = true;
        }
        before += 1;
    }
    None
}

/// Sets the flag of each key.
fn set_flags<const M: usize>(flags: &mut [bool; M], table: &[&[u8]], factor: u64)
    requires some { 0 < M }
    ensures { AreFlagged M factor flags.new (keys_in table.now) }
{
    for key in table {
        flags[flag_of::<M>(key, factor)] = true;
    }
}

/// The place of the first key in a table that is equal to this one, where the flags of those in the
/// table are set.
#[inline(always)]
fn place_of<const M: usize>(
    key: &[u8],
    table: &[&[u8]],
    flags: &[bool; M],
    factor: u64,
) -> Option<usize>
    requires some { 0 < M }
    requires ascending { AreAscending table.now }
    requires flagged { AreFlagged M factor flags.now (keys_in table.now) }
    ensures { result ≡ place_in key.now (keys_in table.now) }
{
    if !flags[flag_of::<M>(key, factor)] {
        return None;
    }
    let place = table.partition_point(|other| other.cmp(&key).is_lt());
    if place < table.len() && table[place] == key {
        return Some(place);
    }
    None
}
