//! What `trustd verify` takes.

ghost use Rattle.std.specs.Prelude.{◌≡◌, IfOk};
ghost use Rattle.clap.specs.Simple.{Shape};
ghost use Rattle.ts_cli.specs.Shapes as shapes;
ghost use Rattle.ts_cli.specs.Shapes.{IsLocal, IsShape};

use crate::arguments::{flag, leaf, mandatory, option, options, with, words};
use crate::parcel::Making;
use clap::Command;
use std::alloc::Global;

/// A command with what path validation is asked beside the certificates.
fn with_inputs<'a>(alloc: Global, own: Making<Command<'a>>) -> Making<Command<'a>>
    ensures shape { (shape : Shape) → IfOk own.entry (IsShape shape)
        → IfOk result (IsShape (shapes.with_inputs shape)) }
    ensures local { IfOk own.entry IsLocal → IfOk result IsLocal }
{
    let help = "The moment, as 20260101000000Z, or now, which is the default";
    let all = with(own, option(alloc, "at", "TIME", help));
    let help = "The host name or IP address that the leaf is for";
    let all = with(all, option(alloc, "host", "NAME", help));
    let help = "With --crl: accept a certificate whose status no CRL gives";
    let all = with(all, flag(alloc, "soft", help));
    let all = with(all, flag(alloc, "deltas", "Use delta CRLs"));
    let all = with(all, flag(alloc, "explicit", "Want a valid policy"));
    let all = with(all, flag(alloc, "nomap", "Map no policies"));
    let help = "Let anyPolicy stand for no other";
    let all = with(all, flag(alloc, "noany", help));
    let help = "A policy that the user accepts; any if none is given";
    let all = with(all, options(alloc, "policy", "OID", help));
    with(all, option(alloc, "purpose", "OID", "What the leaf is for"))
}

/// A chain is judged without a node.
pub(crate) fn verify<'a>(alloc: Global) -> Making<Command<'a>>
    ensures shape { IfOk result (IsShape shapes.verify) }
    ensures local { IfOk result IsLocal }
{
    let command = leaf(
        alloc,
        "verify",
        "Judges a certificate chain, without a node",
    );
    let help = "Trust anchors, in PEM or DER; several files by several --anchor";
    let command = with(command, mandatory(options(alloc, "anchor", "FILE", help)));
    let help = "CRLs, in PEM or DER; revocation is then checked";
    let command = with(command, options(alloc, "crl", "FILE", help));
    let help = "The leaf and the certificates between, in PEM or DER, in any order";
    let command = with(
        command,
        mandatory(words(alloc, "certificates", "CERT", help)),
    );
    let help = "Print one JSON object on one line";
    let command = with(command, flag(alloc, "json", help));
    with_inputs(alloc, command)
}
