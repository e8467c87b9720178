//! Ids.

ghost use Rattle.std.specs.Prelude.{◌≡◌, length};

/// An id of an anchor or of a CRL has 32 octets.
pub(crate) fn is_digest(digest: [u8; 32])
    ensures { length digest ≡ 32 }
{}

/// An id of a command has 16 octets.
pub(crate) fn is_command_id(id: [u8; 16])
    ensures { length id ≡ 16 }
{}
