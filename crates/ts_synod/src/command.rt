//! Commands.

ghost use Rattle.std.specs.Prelude.{◌≡◌, IfOk};

use std::alloc::{AllocError, Global};

/// A command that the nodes choose. The protocol reads nothing of it: it only copies it.
pub trait Command: Drop {
    /// A copy, which equals the command; an error only where there is no memory for it.
    fn try_copy(&self, alloc: Global) -> Result<Self, AllocError>
        ensures copy { IfOk result (λ other. other ≡ self.now) };
}
