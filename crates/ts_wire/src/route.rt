//! From which node, to which, and about which position a message is.

ghost use Rattle.std.specs.Prelude.{◌≡◌};
ghost use Rattle.ts_codec.specs.Reading.{Gives};
ghost use Rattle.ts_wire.specs.inside.FrameReading.{route_at};

use ts_codec::ReadFault;
use ts_codec::reading::{node, position};

/// From which node, to which, and about which position a message is.
#[derive(Clone, Copy)]
pub(crate) struct Route {
    pub from: u8,
    pub to: u8,
    pub position: u32,
}

/// The first fields of a message.
#[tactic(auto, unfolding(crate::specs::inside::FrameReading::route_at))]
pub(crate) fn head(octets: &[u8]) -> Result<(Route, &[u8]), ReadFault>
    ensures { Gives (λ x. (x.0, x.1.now)) result (route_at octets.now) }
{
    let (from, rest) = node(octets)?;
    let (to, rest) = node(rest)?;
    let (position, rest) = position(rest)?;
    let route = Route { from, to, position };
    Ok((route, rest))
}
