//! The table.

ghost use Rattle.std.specs.Prelude.{◌≡◌, [], Contains, IfSome};
ghost use Rattle.ts_recent.specs.Recent.{AreAmong, AreAmongOr};

use crate::key::Key;
use lru::LruCache;
use std::alloc::Global;
use std::marker::Model;
use std::num::NonZeroUsize;

/// A value, and the octets under which it is kept.
#[derive(Drop)]
pub(crate) struct Entry<V: Drop> {
    octets: Vec<u8>,
    value: V,
}

/// At most so many values, each under octets, of which those that were used last are kept. Room is
/// taken when the first is kept.
#[derive(Drop)]
pub struct Recent<V: Drop> {
    alloc: Global,
    most: usize,
    table: Option<LruCache<u64, Entry<V>>>,
}

impl<V: Drop> Model for Recent<V> {
    ghost use Rattle.std.specs.Prelude.{ℕ, List};
    ghost use Rattle.ts_recent.specs.Recent.{pairs_in};

    ghost Value = { List (List ℕ × V) };

    ghost view = { λ r. pairs_in r.table };
}

impl<V: Drop> Recent<V> {
    /// A table that keeps at most so many values, and none yet. One for none keeps none.
    pub fn new(alloc: Global, most: usize) -> Recent<V>
        ensures { result ≡ [] }
    {
        Recent {
            alloc,
            most,
            table: None,
        }
    }

    /// The value that is kept under these octets.
    pub fn find(&self, key: &Key) -> Option<&V>
        ensures { IfSome result (λ value. Contains self.now (key.now, value.now)) }
    {
        let Some(table) = &self.table else {
            return None;
        };
        let entry = table.peek(&key.number)?;
        if entry.octets.as_slice() != key.octets.as_slice() {
            return None;
        }
        Some(&entry.value)
    }

    /// Makes the value under these octets the one that was used last.
    pub fn touch(&mut self, key: &Key)
        ensures { AreAmong self.new self.old }
    {
        let Some(table) = &mut self.table else {
            return;
        };
        let _is_there = table.promote(&key.number);
    }

    /// Takes room, if there is none yet.
    fn take_room(&mut self)
        ensures { self.new ≡ self.old }
    {
        if self.table.is_none() {
            let Some(most) = NonZeroUsize::new(self.most) else {
                return;
            };
            self.table = LruCache::sparse(self.alloc, most).ok();
        }
    }

    /// Keeps a value under octets, where memory is given.
    pub fn keep(&mut self, key: Key, value: V)
        ensures { AreAmongOr (key, value) self.new self.old }
    {
        self.take_room();
        let Some(table) = &mut self.table else {
            return;
        };
        let Key { octets, number } = key;
        let _before = table.put(number, Entry { octets, value });
    }
}
