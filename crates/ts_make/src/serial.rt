//! Numbers.

ghost use Rattle.std.specs.Prelude.{◌≢◌, ◌%◌};
ghost use Rattle.ts_der.specs.Element.{encode};
ghost use Rattle.ts_make.specs.Serial.{serial_content};
ghost use Rattle.ts_make.specs.inside.Writing.{Appends};

use crate::elements::append_element;
use crate::fault::MakeFault;
use std::alloc::Global;

/// Appends a number as the INTEGER of a tag, in as few octets as can be (RFC 5280 4.1.2.2, X.690
/// 8.3).
#[tactic(auto, unfolding(crate::specs::Serial::serial_content))]
pub(crate) fn append_number(
    alloc: Global,
    octets: &mut Vec<u8>,
    tag: u8,
    n: u32,
) -> Result<(), MakeFault>
    requires { tag % 32 ≢ 31 }
    ensures { Appends result (encode tag (serial_content n)) octets.old.items octets.new.items }
{
    let [a, b, c, d] = n.to_be_bytes();
    match n {
        0..0x80 => append_element(alloc, octets, tag, &[d]),
        0x80..0x8000 => append_element(alloc, octets, tag, &[c, d]),
        0x8000..0x80_0000 => append_element(alloc, octets, tag, &[b, c, d]),
        0x80_0000..0x8000_0000 => append_element(alloc, octets, tag, &[a, b, c, d]),
        _ => append_element(alloc, octets, tag, &[0, a, b, c, d]),
    }
}
