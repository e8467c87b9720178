//! Pages.

ghost use Rattle.std.specs.Prelude.{◌≡◌, ◌≤◌, ◌+◌, take, drop, length};
ghost use Rattle.ts_listing.specs.Listing.{first_octets, narrow};

/// The most rows of a page.
pub(crate) const MAX_ROWS: usize = 64;

/// The most octets of a name or of a number in a row.
const MAX_CUT: usize = 4_096;

/// A number as four octets hold it: the greatest where they can't.
pub(crate) fn narrow(number: usize) -> u32
    ensures { result ≡ narrow number }
{
    number.min(u32::MAX as usize) as u32
}

/// How many there are in three lists.
#[tactic(auto, using(crate::proofs::Pages::sums))]
pub(crate) fn total_of(anchors: usize, complete: usize, deltas: usize) -> u32
    ensures { result ≡ narrow (anchors + (complete + deltas)) }
{
    let sum = u64::from(narrow(anchors)) + u64::from(narrow(complete)) + u64::from(narrow(deltas));
    sum.min(u64::from(u32::MAX)) as u32
}

/// The items after so many.
#[tactic(auto, using(crate::proofs::Pages::drop_min))]
fn behind<T>(items: &[T], from: usize) -> &[T]
    ensures { result.now ≡ drop from items.now }
{
    items.split_at(from.min(items.len())).1
}

/// At most so many items.
#[tactic(auto, using(crate::proofs::Pages::take_min))]
fn front<T>(items: &[T], most: usize) -> &[T]
    ensures { result.now ≡ take most items.now }
{
    items.split_at(most.min(items.len())).0
}

/// At most so many items, after so many.
pub(crate) fn window<T>(items: &[T], from: usize, most: usize) -> &[T]
    ensures { result.now ≡ take most (drop from items.now) }
{
    front(behind(items, from), most)
}

/// Octets, of which those behind the first 4,096 are left out.
pub(crate) fn cut(octets: &[u8]) -> &[u8]
    ensures front { result.now ≡ first_octets octets.now }
    ensures short { length result.now ≤ 4096 }
{
    front(octets, MAX_CUT)
}
