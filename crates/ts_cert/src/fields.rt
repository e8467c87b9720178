//! The tags of the fields of a certificate, and a name beside another.

ghost use Rattle.ts_shape.specs.Steps.{Takes};
ghost use Rattle.ts_name.specs.NameView.{rdns_in};
ghost use Rattle.ts_name.specs.Names.{name_at};

use ts_der::tag::SEQUENCE;
use ts_der::{Fault, Reader};
use ts_name::Name;

/// The distinguished name that is next, which may have the octets of another. The reader has then
/// passed it.
#[tactic(auto, unfolding(ts_name::specs::Names::name_at, ts_shape::specs::Fields::within))]
#[inline(always)]
pub(crate) fn next_name_beside<'a>(
    fields: &mut Reader<'a>,
    other: Name<'a>,
) -> Result<Name<'a>, Fault>
    ensures { Takes rdns_in fields.new result (name_at fields.old) }
{
    other.read_beside(fields.element(SEQUENCE)?)
}
