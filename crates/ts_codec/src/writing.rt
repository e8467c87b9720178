//! Parts are written after other octets. The error is that memory ran out.

ghost use Rattle.std.specs.Prelude.{◌≡◌, ◌<◌, ◌^◌, ◌++◌, length, OnOk};
ghost use Rattle.std.specs.List.{flat_map};
ghost use Rattle.std.specs.Int.{to_be_bytes, w32, w64};
ghost use Rattle.ts_codec.specs.Parts.{blob8, blob16, blob32};

use std::alloc::AllocError;
use ts_der::Oid;

/// Writes a number as four octets.
pub fn push_number32(out: &mut Vec<u8>, number: u32) -> Result<(), AllocError>
    ensures { OnOk result (out.new.items ≡ out.old.items ++ to_be_bytes w32 number) }
{
    out.extend_from_slice(&number.to_be_bytes())?;
    Ok(())
}

/// Writes a number as eight octets.
pub fn push_number64(out: &mut Vec<u8>, number: u64) -> Result<(), AllocError>
    ensures { OnOk result (out.new.items ≡ out.old.items ++ to_be_bytes w64 number) }
{
    out.extend_from_slice(&number.to_be_bytes())?;
    Ok(())
}

/// Writes octets after two octets of their length.
pub fn push_blob16(out: &mut Vec<u8>, octets: &[u8]) -> Result<(), AllocError>
    requires { length octets.now < 2 ^ 16 }
    ensures { OnOk result (out.new.items ≡ out.old.items ++ blob16 octets.now) }
{
    out.extend_from_slice(&(octets.len() as u16).to_be_bytes())?;
    out.extend_from_slice(octets)?;
    Ok(())
}

/// Writes octets after four octets of their length.
pub fn push_blob32(out: &mut Vec<u8>, octets: &[u8]) -> Result<(), AllocError>
    requires { length octets.now < 2 ^ 32 }
    ensures { OnOk result (out.new.items ≡ out.old.items ++ blob32 octets.now) }
{
    out.extend_from_slice(&(octets.len() as u32).to_be_bytes())?;
    out.extend_from_slice(octets)?;
    Ok(())
}

/// Writes an object identifier after an octet of its length.
pub fn push_oid(out: &mut Vec<u8>, oid: &Oid) -> Result<(), AllocError>
    ensures { OnOk result (out.new.items ≡ out.old.items ++ blob8 oid.now) }
{
    let content = oid.as_ref().content;
    out.push(content.len() as u8)?;
    out.extend_from_slice(content)?;
    Ok(())
}

/// Writes object identifiers, one after another.
pub fn push_oids(out: &mut Vec<u8>, oids: &[Oid]) -> Result<(), AllocError>
    ensures { OnOk result (out.new.items ≡ out.old.items ++ flat_map blob8 oids.now) }
{
    for oid in oids {
        push_oid(out, oid)?;
    }
    Ok(())
}
