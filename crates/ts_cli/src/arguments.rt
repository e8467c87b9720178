//! Arguments of command lines.
//!
//! A command that is still being made is a `Making`, which each call hands on: what a step owns is
//! then let go in the step alone, and a chain of steps has one exit.

ghost use Rattle.std.specs.Prelude.{◌≡◌, [], false, IfOk};
ghost use Rattle.clap.specs.Simple.{App, Shape, with_rule};
ghost use Rattle.clap.specs.Walk.{Rule, rule_of};
ghost use Rattle.ts_cli.specs.Shapes.{option, options, flag, word, words, mandatory, leaf};
ghost use Rattle.ts_cli.specs.Shapes.{with_version};
ghost use Rattle.ts_cli.specs.Shapes.{with_argument, choice, among, reading, IsApp, IsLocal};
ghost use Rattle.ts_cli.specs.Shapes.{IsShape};

use crate::parcel::{Making, pack};
use clap::{Arg, ArgAction, Command};
use std::alloc::{AllocError, Global};

/// A command without arguments.
pub(crate) fn leaf<'a>(alloc: Global, name: &'a str, about: &'a str) -> Making<Command<'a>>
    ensures shape { IfOk result (IsShape (leaf name.entry.now [])) }
    ensures local { IfOk result IsLocal }
{
    pack(alloc, Command::new(alloc, name).about(about))
}

/// A command with one more argument.
pub(crate) fn with<'a>(command: Making<Command<'a>>, arg: Making<Arg<'a>>) -> Making<Command<'a>>
    requires { IfOk arg (λ arg. arg.global ≡ false) }
    ensures shape { (shape : Shape) (rule : Rule) → IfOk arg.entry (λ arg. rule_of arg ≡ rule)
        → IfOk command.entry (IsShape shape) → IfOk result (IsShape (with_argument shape rule)) }
    ensures local { IfOk command.entry IsLocal → IfOk result IsLocal }
{
    let (command, arg) = (command?, arg?);
    let alloc = command.allocator();
    pack(alloc, command.open().arg(arg.open())?)
}

/// A command that wants a subcommand, and has none for help. Its usage names it so.
pub(crate) fn choice<'a>(
    alloc: Global,
    name: &'a str,
    about: &'a str,
    usage: &str,
) -> Making<Command<'a>>
    ensures { IfOk result (IsApp (choice name.entry.now [] [])) }
{
    let command = Command::new(alloc, name)
        .about(about)
        .subcommand_required(true)
        .disable_help_subcommand(true)
        .bin_name(usage)?;
    pack(alloc, command)
}

/// A choice with a version, which `--version` prints.
pub(crate) fn with_version<'a>(
    command: Making<Command<'a>>,
    version: &'a str,
) -> Making<Command<'a>>
    ensures { (app : App) → IfOk command.entry (IsApp app)
        → IfOk result (IsApp (with_version app)) }
{
    let command = command?;
    let alloc = command.allocator();
    pack(alloc, command.open().version(version))
}

/// A choice with one more argument of its own.
pub(crate) fn with_own<'a>(
    command: Making<Command<'a>>,
    arg: Making<Arg<'a>>,
) -> Making<Command<'a>>
    requires { IfOk arg (λ arg. arg.global ≡ false) }
    ensures { (app : App) (rule : Rule) → IfOk arg.entry (λ arg. rule_of arg ≡ rule)
        → IfOk command.entry (IsApp app) → IfOk result (IsApp (with_rule app rule)) }
{
    let (command, arg) = (command?, arg?);
    let alloc = command.allocator();
    pack(alloc, command.open().arg(arg.open())?)
}

/// A command with one more subcommand.
pub(crate) fn among<'a>(
    command: Making<Command<'a>>,
    sub: Making<Command<'a>>,
) -> Making<Command<'a>>
    requires { IfOk sub IsLocal }
    ensures { (app : App) (shape : Shape) → IfOk command.entry (IsApp app)
        → IfOk sub.entry (IsShape shape) → IfOk result (IsApp (among app shape)) }
{
    let (command, sub) = (command?, sub?);
    let alloc = command.allocator();
    pack(alloc, command.open().subcommand(sub.open())?)
}

/// The command that was made.
pub(crate) fn command_of<'a>(making: Making<Command<'a>>) -> Result<Command<'a>, AllocError>
    ensures { (app : App) → IfOk making.entry (IsApp app) → IfOk result (IsApp app) }
{
    Ok(making?.open())
}

/// `--name VALUE`, at most once.
pub(crate) fn option<'a>(
    alloc: Global,
    name: &'a str,
    value: &'a str,
    help: &'a str,
) -> Making<Arg<'a>>
    ensures rule { IfOk result (λ arg. rule_of arg ≡ option name.entry.now) }
    ensures local { IfOk result (λ arg. arg.global ≡ false) }
{
    let arg = Arg::new(alloc, name)
        .long(name)
        .action(ArgAction::Set)
        .value_name(value)
        .help(help);
    pack(alloc, arg)
}

/// `--name VALUE`, any number of times.
pub(crate) fn options<'a>(
    alloc: Global,
    name: &'a str,
    value: &'a str,
    help: &'a str,
) -> Making<Arg<'a>>
    ensures rule { IfOk result (λ arg. rule_of arg ≡ options name.entry.now) }
    ensures local { IfOk result (λ arg. arg.global ≡ false) }
{
    let arg = Arg::new(alloc, name)
        .long(name)
        .action(ArgAction::Append)
        .value_name(value)
        .help(help);
    pack(alloc, arg)
}

/// `--name`, at most once.
pub(crate) fn flag<'a>(alloc: Global, name: &'a str, help: &'a str) -> Making<Arg<'a>>
    ensures rule { IfOk result (λ arg. rule_of arg ≡ flag name.entry.now) }
    ensures local { IfOk result (λ arg. arg.global ≡ false) }
{
    let arg = Arg::new(alloc, name)
        .long(name)
        .action(ArgAction::SetTrue)
        .help(help);
    pack(alloc, arg)
}

/// A word that is where it is.
pub(crate) fn word<'a>(
    alloc: Global,
    name: &'a str,
    value: &'a str,
    help: &'a str,
) -> Making<Arg<'a>>
    ensures rule { IfOk result (λ arg. rule_of arg ≡ word name.entry.now) }
    ensures local { IfOk result (λ arg. arg.global ≡ false) }
{
    let arg = Arg::new(alloc, name)
        .action(ArgAction::Set)
        .value_name(value)
        .help(help)
        .required(true);
    pack(alloc, arg)
}

/// Any number of words to the end.
pub(crate) fn words<'a>(
    alloc: Global,
    name: &'a str,
    value: &'a str,
    help: &'a str,
) -> Making<Arg<'a>>
    ensures rule { IfOk result (λ arg. rule_of arg ≡ words name.entry.now) }
    ensures local { IfOk result (λ arg. arg.global ≡ false) }
{
    let arg = Arg::new(alloc, name)
        .action(ArgAction::Append)
        .value_name(value)
        .help(help);
    pack(alloc, arg)
}

/// What has to be given.
pub(crate) fn mandatory<'a>(arg: Making<Arg<'a>>) -> Making<Arg<'a>>
    ensures rule { (rule : Rule) → IfOk arg.entry (λ arg. rule_of arg ≡ rule)
        → IfOk result (λ arg. rule_of arg ≡ mandatory rule) }
    ensures local { IfOk arg.entry (λ arg. arg.global ≡ false)
        → IfOk result (λ arg. arg.global ≡ false) }
{
    let arg = arg?;
    let alloc = arg.allocator();
    pack(alloc, arg.open().required(true))
}

/// A command with a file.
pub(crate) fn reading<'a>(
    alloc: Global,
    name: &'a str,
    about: &'a str,
    value: &'a str,
    help: &'a str,
) -> Making<Command<'a>>
    ensures shape { IfOk result (IsShape (reading name.entry.now)) }
    ensures local { IfOk result IsLocal }
{
    let file = word(alloc, "file", value, help);
    with(leaf(alloc, name, about), file)
}
