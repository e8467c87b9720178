//! A command is copied, and kept in a record by its one encoding.

ghost use Rattle.std.specs.Prelude.{◌≡◌, ◌≤◌, ◌++◌, length, IfOk, IfSome, IfNone, OnOk};
ghost use Rattle.ts_command.specs.Octets.{octets_of};

use crate::command::Command;
use crate::writing::push_encoding;
use std::alloc::{AllocError, Global};
use ts_synod::Codec;

impl ts_synod::Command for Command {
    fn try_copy(&self, alloc: Global) -> Result<Self, AllocError> {
        Command::try_copy(self, alloc)
    }
}

impl Codec for Command {
    ghost octets = { octets_of };

    fn write(&self, out: &mut Vec<u8>) -> Result<(), AllocError> {
        self.has_encoding();
        push_encoding(out, self)
    }

    fn read(alloc: Global, source: &[u8]) -> Result<Option<Self>, AllocError> {
        Command::read(alloc, source)
    }

    fn one_encoding() {}
}
