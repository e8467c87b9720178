//! Fields that more than one SEQUENCE has. Each reads the element that is next, which the reader
//! has then passed.

ghost use Rattle.ts_shape.specs.Steps.{Takes};
ghost use Rattle.ts_name.specs.NameView.{rdns_in};
ghost use Rattle.ts_shape.specs.Fields.{oid_at, integer_at, bits_at};
ghost use Rattle.ts_name.specs.Names.{name_at};

use ts_der::tag::{BIT_STRING, INTEGER, OBJECT_IDENTIFIER, SEQUENCE};
use ts_der::{Fault, Integer, Reader};
use ts_name::Name;

/// The content octets of an OBJECT IDENTIFIER.
#[tactic(auto, unfolding(ts_shape::specs::Fields::oid_at, ts_shape::specs::Fields::within))]
#[inline(always)]
pub(crate) fn next_oid<'a>(fields: &mut Reader<'a>) -> Result<&'a [u8], Fault>
    ensures { Takes (λ c. c.now) fields.new result (oid_at fields.old) }
{
    Ok(fields.element(OBJECT_IDENTIFIER)?.oid()?.content)
}

/// An INTEGER of any size.
#[tactic(auto, unfolding(ts_shape::specs::Fields::integer_at, ts_shape::specs::Fields::within))]
#[inline(always)]
pub fn next_integer<'a>(fields: &mut Reader<'a>) -> Result<Integer<'a>, Fault>
    ensures { Takes (λ i. i.octets.now) fields.new result (integer_at fields.old) }
{
    fields.element(INTEGER)?.integer()
}

/// The octets of a BIT STRING without unused bits.
#[tactic(auto, unfolding(ts_shape::specs::Fields::bits_at, ts_shape::specs::Fields::within))]
#[inline(always)]
pub fn next_bits<'a>(fields: &mut Reader<'a>) -> Result<&'a [u8], Fault>
    ensures { Takes (λ c. c.now) fields.new result (bits_at fields.old) }
{
    fields.element(BIT_STRING)?.whole_octets()
}

/// A distinguished name.
#[tactic(auto, unfolding(ts_name::specs::Names::name_at, ts_shape::specs::Fields::within))]
#[inline(always)]
pub fn next_name<'a>(fields: &mut Reader<'a>) -> Result<Name<'a>, Fault>
    ensures { Takes rdns_in fields.new result (name_at fields.old) }
{
    Name::read(fields.element(SEQUENCE)?)
}
