//! What the command takes that makes a store hold what files hold.

ghost use Rattle.std.specs.Prelude.{◌≡◌, IfOk};
ghost use Rattle.clap.specs.Simple.{Shape};
ghost use Rattle.ts_cli.specs.Shapes as shapes;
ghost use Rattle.ts_cli.specs.Shapes.{IsLocal, IsShape};

use crate::arguments::{flag, option, options, with};
use crate::parcel::Making;
use crate::program_shape::reaching;
use clap::Command;
use std::alloc::Global;

/// A command with the files of what a store is to hold, and of those who may have signed it.
fn with_material<'a>(alloc: Global, own: Making<Command<'a>>) -> Making<Command<'a>>
    ensures shape { (shape : Shape) → IfOk own.entry (IsShape shape)
        → IfOk result (IsShape (shapes.with_material shape)) }
    ensures local { IfOk own.entry IsLocal → IfOk result IsLocal }
{
    let help = "Hold exactly the anchors of these files and folders; leave them if not given";
    let all = with(own, options(alloc, "anchors", "FILE", help));
    let help = "Pass over each certificate of --anchors that breaks a rule, and say which";
    let all = with(all, flag(alloc, "pass-over", help));
    let help = "Hold exactly the CRLs of these files and folders; leave the CRLs if not given";
    let all = with(all, options(alloc, "crls", "FILE", help));
    let help = "A certificate, beside those of --anchors, that may have signed a CRL";
    let all = with(all, options(alloc, "issuer", "CERT", help));
    let help = "Load CRLs that none of these signed, or that are not current";
    with(all, flag(alloc, "unchecked", help))
}

/// A store is made to hold what files hold.
pub(crate) fn sync<'a>(alloc: Global) -> Making<Command<'a>>
    ensures shape { IfOk result (IsShape shapes.sync) }
    ensures local { IfOk result IsLocal }
{
    let about = "Makes a node's store hold exactly what files hold";
    let command = with_material(alloc, reaching(alloc, "sync", about));
    let help = "Print what would be submitted, and submit nothing";
    let command = with(command, flag(alloc, "dry-run", help));
    let help = "Wait so many seconds for each command, 1 to 3600; 10 if not given";
    with(command, option(alloc, "wait", "SECONDS", help))
}
