//! What the commands take that print what a node's store holds.

ghost use Rattle.std.specs.Prelude.{◌≡◌, IfOk};
ghost use Rattle.clap.specs.Simple.{App, Shape};
ghost use Rattle.ts_cli.specs.Shapes as shapes;
ghost use Rattle.ts_cli.specs.Shapes.{IsApp, IsLocal, IsShape};

use crate::arguments::{among, flag, leaf, option, with, word};
use crate::parcel::Making;
use crate::program_shape::{reaching, with_key};
use clap::Command;
use std::alloc::Global;

/// A command with after how many commands the store is looked at, and whether JSON is printed.
fn with_listing<'a>(alloc: Global, own: Making<Command<'a>>) -> Making<Command<'a>>
    ensures shape { (shape : Shape) → IfOk own.entry (IsShape shape)
        → IfOk result (IsShape (shapes.with_listing shape)) }
    ensures local { IfOk own.entry IsLocal → IfOk result IsLocal }
{
    let help = "After so many commands; after all that the node knows if not given";
    let all = with(own, option(alloc, "k", "K", help));
    let help = "Print one JSON object a line";
    with(all, flag(alloc, "json", help))
}

/// What a store holds.
fn store<'a>(alloc: Global) -> Making<Command<'a>>
    ensures shape { IfOk result (IsShape shapes.store) }
    ensures local { IfOk result IsLocal }
{
    let about = "Prints the anchors and CRLs that a node's store holds";
    with_listing(alloc, reaching(alloc, "store", about))
}

/// The commands that a store took.
fn log<'a>(alloc: Global) -> Making<Command<'a>>
    ensures shape { IfOk result (IsShape shapes.log) }
    ensures local { IfOk result IsLocal }
{
    let about = "Prints the commands that a node's store took, and their outcomes";
    let help = "From this position on; from 1 if not given";
    let from = with(
        reaching(alloc, "log", about),
        option(alloc, "from", "P", help),
    );
    with_listing(alloc, from)
}

/// What changed in a store.
fn diff<'a>(alloc: Global) -> Making<Command<'a>>
    ensures shape { IfOk result (IsShape shapes.diff) }
    ensures local { IfOk result IsLocal }
{
    let about = "Prints what a node's store holds less and more after K2 commands than after K1";
    let address = word(alloc, "address", "ADDR", "HOST:PORT of the node");
    let old = word(alloc, "old", "K1", "The number of commands before");
    let new = word(alloc, "new", "K2", "The number of commands behind");
    let own = with(with(leaf(alloc, "diff", about), address), old);
    with_key(alloc, with(own, new))
}

/// The tasks that print what a store holds, after those that the program has.
pub(crate) fn with_listings<'a>(alloc: Global, program: Making<Command<'a>>) -> Making<Command<'a>>
    ensures { (app : App) → IfOk program.entry (IsApp app)
        → IfOk result (IsApp (shapes.with_listings app)) }
{
    let program = among(program, store(alloc));
    let program = among(program, log(alloc));
    among(program, diff(alloc))
}
