//! Places in a map. A role's call makes an empty place for what its step will change, so that
//! keeping the step takes no memory.

ghost use Rattle.std.specs.Prelude.{◌≡◌, is_some, true, Some};
ghost use Rattle.std.specs.BTreeMap.{get};
ghost use Rattle.ts_synod.specs.Places.{PutsAt};

use std::collections::BTreeMap;

/// Puts a value at a key that the map has, which takes no memory.
pub fn put_at<K: Ord + Drop, V: Drop>(map: &mut BTreeMap<K, V>, key: K, value: V)
    requires { is_some (get K.cmp map.old key) ≡ true }
    ensures { PutsAt K.cmp map.old map.new key value }
{
    let _old = map.insert(key, value);
}

/// Puts a value at a key that the map has, and gives the value that was there.
pub fn replace_at<K: Ord + Drop, V: Drop>(map: &mut BTreeMap<K, V>, key: K, value: V) -> V
    requires { is_some (get K.cmp map.old key) ≡ true }
    ensures put { PutsAt K.cmp map.old map.new key value }
    ensures old { get K.cmp map.old key ≡ Some result }
{
    match map.insert(key, value) {
        Ok(Some(old)) => old,
        _ => unreachable!(),
    }
}
