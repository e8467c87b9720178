//! The first item of a list that repeats an earlier one, found without allocation.

ghost use Rattle.std.specs.Prelude.{◌≡◌, true, ◌<◌, [], None, option_map};
ghost use Rattle.ts_der.specs.Element.{inside};
ghost use Rattle.ts_der.specs.View.{now};
ghost use Rattle.ts_shape.specs.Items.{items_at};
ghost use Rattle.ts_shape.specs.Repeats.{first_repeated as first_repeated_of, end_of as end_in};

use crate::collisions::first_repeated_of_collisions;
use crate::sequence_of::{FromElement, SequenceItems};
use std::marker::Model;
use ts_der::{Element, OidRef};

/// What is known among others by octets of its own.
pub trait Keyed<'a>: FromElement<'a> {
    ghost use Rattle.std.specs.Prelude.{◌≡◌};

    /// The octets by which it is known.
    fn key(&self) -> &'a [u8]
        ensures { result.now ≡ Self.key_of (Self.record_of self.now) };
}

impl<'a> Keyed<'a> for OidRef<'a> {
    fn key(&self) -> &'a [u8] {
        self.content
    }
}

/// A list of fewer octets is short.
const SHORT: usize = 512;

/// A list of no more octets, and not short, is of middle length.
const MIDDLE: usize = 16_384;

/// A list of no more octets, and of no middle length, is long. No certificate has a longer one.
const LONG: usize = 65_536;

/// The first of the items within an element that has the key of an earlier one, up to the first
/// item that can't be read. It takes no memory but tables on the stack: 140 kB at most for a list
/// of no more than 65,536 octets, 680 kB for a longer one. Most lists need none; others are gone
/// over twice, or more often where many keys have one hash.
pub fn first_repeated<'a, T: Keyed<'a>>(list: Element<'a>) -> Option<T>
    ensures { option_map T.record_of result
        ≡ first_repeated_of T.key_of [] (items_at T.reading (inside (now list.entry))) }
{
    if have_ends_of_their_own::<T>(list) {
        return None;
    }
    match list.content.len() {
        ..SHORT => first_repeated_of_collisions::<T, 16, 256>(list),
        SHORT..=MIDDLE => first_repeated_of_collisions::<T, 256, 8_192>(list),
        ..=LONG => first_repeated_of_collisions::<T, 4_096, 65_536>(list),
        _ => first_repeated_of_collisions::<T, 24_576, 262_144>(list),
    }
}

/// Whether each key ends in an octet in which no other does, so that none occurs twice.
fn have_ends_of_their_own<'a, T: Keyed<'a>>(list: Element<'a>) -> bool
    ensures { result ≡ true → first_repeated_of T.key_of []
        (items_at T.reading (inside (now list.entry))) ≡ None }
{
    let mut ends = LastOctets::new();
    for item in SequenceItems::<T>::within(list) {
        if !ends.is_new(item.key()) {
            return false;
        }
    }
    true
}

/// The last octets of keys. A key that ends in none of them is none of those keys.
#[derive(Drop)]
pub struct LastOctets {
    seen: [bool; 256],
}

impl Model for LastOctets {
    ghost use Rattle.std.specs.Prelude.{◌≡◌, Bool, List, length};

    ghost Value = { List Bool };

    ghost view = { λ ends. ends.seen };

    ghost invariant = { λ ends. length ends.seen ≡ 256 };
}

impl LastOctets {
    ghost use Rattle.std.specs.Prelude.{◌≡◌, ◌∷◌, ℕ, List, not, replicate, true, false};
    ghost use Rattle.ts_shape.specs.Repeats.{is_among, is_end_met, with_end, HaveEnds};

    /// Those of no key.
    pub fn new() -> LastOctets
        ensures { result ≡ replicate 256 false }
    {
        LastOctets { seen: [false; 256] }
    }

    /// Whether a key ends in an octet of its own, which is then one of these. An empty key counts
    /// as one that ends in 0.
    pub fn is_new(&mut self, key: &[u8]) -> bool
        ensures new { result ≡ not (is_end_met self.old key.now) }
        ensures met { self.new ≡ with_end self.old key.now }
        // A key that ends in an octet of its own is none of those whose ends these are.
        ensures none { (keys : List (List ℕ)) → HaveEnds keys self.old → result ≡ true
            → is_among key.now keys ≡ false }
        ensures more { (keys : List (List ℕ)) → HaveEnds keys self.old
            → HaveEnds (key.now ∷ keys) self.new }
    {
        let end = end_of(key);
        let is_new = !self.seen[end];
        self.seen[end] = true;
        is_new
    }
}

/// The last octet of a key, 0 of an empty one.
fn end_of(key: &[u8]) -> usize
    ensures end { result ≡ end_in key.now }
    ensures octet { result < 256 }
{
    match key.last() {
        Some(&octet) => usize::from(octet),
        None => 0,
    }
}
