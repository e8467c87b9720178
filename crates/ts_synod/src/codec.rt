//! How a command is written and read.

ghost use Rattle.std.specs.Prelude.{◌≡◌, ◌≤◌, ◌++◌, ℕ, List, length, IfOk, IfSome, IfNone, OnOk};

use crate::command::Command;
use std::alloc::{AllocError, Global};

/// A command that is kept on disks and sent: it has one encoding, and nothing else is read as it.
pub trait Codec: Command {
    /// The octets of a command, at least one; none where it has no encoding.
    ghost octets: { Self → List ℕ };

    /// Writes the command's octets after those of `out`.
    fn write(&self, out: &mut Vec<u8>) -> Result<(), AllocError>
        ensures { OnOk result (out.new.items ≡ out.old.items ++ octets self.now) };

    /// Reads a command from all of the octets. `None` exactly where they are not the octets of one.
    fn read(alloc: Global, source: &[u8]) -> Result<Option<Self>, AllocError>
        ensures found { IfOk result (λ read. IfSome read
            (λ command. (1 ≤ length (octets command)) × (source.now ≡ octets command))) }
        ensures none { IfOk result (λ read. IfNone read
            ((command : Self) → 1 ≤ length (octets command) → source.now ≡ octets command → ⊥)) };

    /// No two commands have one encoding. It does nothing.
    fn one_encoding()
        ensures { (command other : Self) → 1 ≤ length (octets command)
            → octets command ≡ octets other → command ≡ other };
}
