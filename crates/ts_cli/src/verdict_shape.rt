//! What a command that prints a node's verdict takes besides.

ghost use Rattle.std.specs.Prelude.{◌≡◌, IfOk};
ghost use Rattle.clap.specs.Simple.{Shape};
ghost use Rattle.ts_cli.specs.Shapes as shapes;
ghost use Rattle.ts_cli.specs.Shapes.{IsLocal, IsShape};

use crate::arguments::{flag, with};
use crate::parcel::Making;
use clap::Command;
use std::alloc::Global;

/// A command with what is made of the verdict that it prints.
pub(crate) fn with_verdict<'a>(alloc: Global, own: Making<Command<'a>>) -> Making<Command<'a>>
    ensures shape { (shape : Shape) → IfOk own.entry (IsShape shape)
        → IfOk result (IsShape (shapes.with_verdict shape)) }
    ensures local { IfOk own.entry IsLocal → IfOk result IsLocal }
{
    let help = "End with 1 where no valid chain is answered";
    let all = with(own, flag(alloc, "check", help));
    let help = "Print a second line, which explains the answer";
    with(all, flag(alloc, "explain", help))
}
