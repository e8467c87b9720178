//! What `trustd command` takes.

ghost use Rattle.std.specs.Prelude.{◌≡◌, IfOk};
ghost use Rattle.clap.specs.Simple.{app_of};
ghost use Rattle.ts_cli.specs.Shapes as shapes;
ghost use Rattle.ts_cli.specs.Shapes.{IsLocal, IsShape};

use crate::arguments::{
    among, choice, command_of, flag, leaf, option, options, reading, with, with_own, word, words,
};
use crate::parcel::Making;
use clap::Command;
use std::alloc::{AllocError, Global};

/// A command with the id of an anchor or a CRL.
fn naming<'a>(
    alloc: Global,
    name: &'a str,
    about: &'a str,
    argument: &'a str,
) -> Making<Command<'a>>
    ensures shape { IfOk result (IsShape (shapes.naming name.entry.now argument.entry.now)) }
    ensures local { IfOk result IsLocal }
{
    let help = "Its id, 64 lower-case hexadecimal digits";
    with(leaf(alloc, name, about), word(alloc, argument, "ID", help))
}

/// A CRL is added, checked where its issuer's certificate is given.
fn load<'a>(alloc: Global) -> Making<Command<'a>>
    ensures shape { IfOk result (IsShape shapes.load) }
    ensures local { IfOk result IsLocal }
{
    let what = "Adds a CRL, complete or delta";
    let command = reading(alloc, "load", what, "CRL", "The CRL, in PEM or DER");
    let help = "Write nothing unless one of these certificates signed the CRL, and it is current";
    let command = with(command, options(alloc, "issuer", "CERT", help));
    let help = "Write the command in spite of --issuer, without a check";
    with(command, flag(alloc, "unchecked", help))
}

/// The purposes of an anchor.
fn purposes<'a>(alloc: Global) -> Making<Command<'a>>
    ensures shape { IfOk result (IsShape shapes.purposes) }
    ensures local { IfOk result IsLocal }
{
    let help = "The id of the anchor, 64 lower-case hexadecimal digits";
    let what = "The purposes, at most 16; none sets any";
    let command = leaf(alloc, "purposes", "Sets the purposes of a trust anchor");
    let command = with(command, word(alloc, "anchor", "ID", help));
    with(command, words(alloc, "purposes", "OID", what))
}

/// The command line of `trustd command`.
pub fn commands<'a>(alloc: Global) -> Result<Command<'a>, AllocError>
    ensures { IfOk result (λ r. app_of r ≡ shapes.commands) }
{
    let about = "Writes an encoded command to standard output";
    let help = "The id of the command, 32 lower-case hexadecimal digits; a drawn one if not given";
    let all = choice(alloc, "command", about, "trustd command");
    let all = with_own(all, option(alloc, "id", "HEX", help));
    let help = "Write the command of a file too that the store will refuse";
    let all = with_own(all, flag(alloc, "force", help));
    let what = "Adds a trust anchor, for any purpose";
    let all = among(
        all,
        reading(alloc, "add", what, "CERT", "The certificate, in PEM or DER"),
    );
    let all = among(
        all,
        naming(alloc, "withdraw", "Removes a trust anchor", "anchor"),
    );
    let all = among(all, load(alloc));
    let what = "Removes a CRL";
    let all = among(all, naming(alloc, "drop", what, "list"));
    let all = among(all, purposes(alloc));
    command_of(among(all, leaf(alloc, "noop", "Changes nothing")))
}
