//! The octets of purposes.

ghost use Rattle.std.specs.Prelude.{◌≡◌, IfOk};
ghost use Rattle.ts_command.specs.Commands.{purposes_encoding};

use std::alloc::{AllocError, Global};
use ts_codec::writing::push_oids;
use ts_command::Purposes;

/// The octets of purposes, as a command writes them.
pub(crate) fn purposes_octets(alloc: Global, purposes: &Purposes) -> Result<Vec<u8>, AllocError>
    ensures { IfOk result (λ octets. octets.items ≡ purposes_encoding purposes.now) }
{
    let mut octets = Vec::new(alloc);
    match purposes.oids() {
        None => octets.push(0)?,
        Some(oids) => {
            octets.push(1)?;
            octets.push(oids.len() as u8)?;
            push_oids(&mut octets, oids)?;
        }
    }
    Ok(octets)
}
