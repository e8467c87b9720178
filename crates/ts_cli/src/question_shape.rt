//! What `trustd question` takes.

ghost use Rattle.std.specs.Prelude.{◌≡◌, IfOk};
ghost use Rattle.clap.specs.Simple.{Shape, app_of};
ghost use Rattle.ts_cli.specs.Shapes as shapes;
ghost use Rattle.ts_cli.specs.Shapes.{IsLocal, IsShape};

use crate::arguments::{
    among, choice, command_of, flag, leaf, mandatory, option, options, with, word, words,
};
use crate::parcel::Making;
use clap::Command;
use std::alloc::{AllocError, Global};

/// A question with the flags that both take.
fn with_flags<'a>(alloc: Global, own: Making<Command<'a>>) -> Making<Command<'a>>
    ensures shape { (shape : Shape) → IfOk own.entry (IsShape shape)
        → IfOk result (IsShape (shapes.with_flags shape)) }
    ensures local { IfOk own.entry IsLocal → IfOk result IsLocal }
{
    let help = "Refuse a certificate of unknown status";
    let all = with(own, flag(alloc, "hard", help));
    let all = with(all, flag(alloc, "deltas", "Use delta CRLs"));
    let all = with(all, flag(alloc, "explicit", "Want a valid policy"));
    let all = with(all, flag(alloc, "nomap", "Map no policies"));
    with(
        all,
        flag(alloc, "noany", "Let anyPolicy stand for no other"),
    )
}

/// A question with the options that both take after its own.
fn with_terms<'a>(alloc: Global, own: Making<Command<'a>>) -> Making<Command<'a>>
    ensures shape { (shape : Shape) → IfOk own.entry (IsShape shape)
        → IfOk result (IsShape (shapes.with_terms shape)) }
    ensures local { IfOk own.entry IsLocal → IfOk result IsLocal }
{
    let at = option(alloc, "at", "TIME", "The moment, as 20260101000000Z");
    let all = with(own, mandatory(at));
    let help = "After how many commands; all if not given";
    let all = with_flags(alloc, with(all, option(alloc, "k", "K", help)));
    let help = "A policy that the user accepts";
    let all = with(all, options(alloc, "policy", "OID", help));
    with(
        all,
        option(alloc, "purpose", "OID", "What the last certificate is for"),
    )
}

/// A chain is judged.
fn chain<'a>(alloc: Global) -> Making<Command<'a>>
    ensures shape { IfOk result (IsShape shapes.chain) }
    ensures local { IfOk result IsLocal }
{
    let command = leaf(alloc, "chain", "Is this chain valid under this anchor?");
    let help = "The id of the anchor, 64 lower-case hexadecimal digits";
    let command = with(command, mandatory(option(alloc, "anchor", "ID", help)));
    let help = "The chain from the anchor's side, 1 to 16, in PEM or DER";
    let command = with(
        command,
        mandatory(words(alloc, "certificates", "CERT", help)),
    );
    with_terms(alloc, command)
}

/// A chain is looked for.
fn search<'a>(alloc: Global) -> Making<Command<'a>>
    ensures shape { IfOk result (IsShape shapes.search) }
    ensures local { IfOk result IsLocal }
{
    let command = leaf(alloc, "search", "Is there a valid chain to this leaf?");
    let command = with(
        command,
        word(alloc, "leaf", "LEAF", "The certificate, in PEM or DER"),
    );
    let help = "Others through which the chain may go, at most 32";
    let command = with(command, words(alloc, "pool", "POOL", help));
    with_terms(alloc, command)
}

/// The command line of `trustd question`.
pub fn questions<'a>(alloc: Global) -> Result<Command<'a>, AllocError>
    ensures { IfOk result (λ r. app_of r ≡ shapes.questions) }
{
    let about = "Writes an encoded question to standard output";
    let all = choice(alloc, "question", about, "trustd question");
    let all = among(all, chain(alloc));
    command_of(among(all, search(alloc)))
}
