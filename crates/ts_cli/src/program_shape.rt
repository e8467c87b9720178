//! What the program takes.

ghost use Rattle.std.specs.Prelude.{◌≡◌, IfOk};
ghost use Rattle.clap.specs.Simple.{App, Shape, app_of};
ghost use Rattle.ts_cli.specs.Shapes as shapes;
ghost use Rattle.ts_cli.specs.Shapes.{IsApp, IsLocal, IsShape};

use crate::arguments::{
    among, choice, command_of, flag, leaf, mandatory, option, options, reading, with, with_version,
    word, words,
};
use crate::listing_shape::with_listings;
use crate::parcel::Making;
use crate::sync_shape::sync;
use crate::verdict_shape::with_verdict;
use crate::verify_shape::verify;
use clap::Command;
use std::alloc::{AllocError, Global};

/// The version that `trustd --version` prints. Nodes of a group run one version.
pub const VERSION: &str = "0.13.0";

/// The record of a node is made.
fn format<'a>(alloc: Global) -> Making<Command<'a>>
    ensures shape { IfOk result (IsShape shapes.format) }
    ensures local { IfOk result IsLocal }
{
    let about = "Makes the record of a node, FILE and FILE.b";
    let record = "The record, a name without a file";
    let nodes = "How many nodes there are, 1 to 9";
    let command = with(
        leaf(alloc, "format", about),
        word(alloc, "file", "FILE", record),
    );
    let id = mandatory(option(alloc, "id", "I", "Which node it is, 1 to 9"));
    let nodes = mandatory(option(alloc, "nodes", "N", nodes));
    let group = "Of which group, a number below 2^32 that all its nodes have; none if not given";
    with(
        with(with(command, id), nodes),
        option(alloc, "group", "G", group),
    )
}

/// A record of version 1 is written again as one of version 2.
fn migrate<'a>(alloc: Global) -> Making<Command<'a>>
    ensures shape { IfOk result (IsShape shapes.migrate) }
    ensures local { IfOk result IsLocal }
{
    let about = "Makes the record NEW and NEW.b from OLD, a record of version 1";
    let old = word(alloc, "old", "OLD", "The record of version 1, which stays");
    let new = word(alloc, "new", "NEW", "The new record, a name without a file");
    with(with(leaf(alloc, "migrate", about), old), new)
}

/// A command with how long a client is waited for, and how many are served at once.
fn with_limits<'a>(alloc: Global, own: Making<Command<'a>>) -> Making<Command<'a>>
    ensures shape { (shape : Shape) → IfOk own.entry (IsShape shape)
        → IfOk result (IsShape (shapes.with_limits shape)) }
    ensures local { IfOk own.entry IsLocal → IfOk result IsLocal }
{
    let help = "Seconds that a silent client is kept, 1 to 3600; 30 if not given";
    let all = with(own, option(alloc, "idle", "SECONDS", help));
    let help = "Seconds for a whole request, and for an answer to be read; 5 if not given";
    let all = with(all, option(alloc, "request", "SECONDS", help));
    let help = "How many clients are served at once, 1 to 4096; 512 if not given";
    let all = with(all, option(alloc, "connections-at-once", "N", help));
    let help = "End after so many connections, for tests; never if not given";
    with(all, option(alloc, "connections", "C", help))
}

/// A command with whom messages are carried to, and whether standard error is told what happens.
fn with_group<'a>(alloc: Global, own: Making<Command<'a>>) -> Making<Command<'a>>
    ensures shape { (shape : Shape) → IfOk own.entry (IsShape shape)
        → IfOk result (IsShape (shapes.with_group shape)) }
    ensures local { IfOk own.entry IsLocal → IfOk result IsLocal }
{
    let help = "Carry messages to node I at HOST:PORT; once for each other node";
    let all = with(own, options(alloc, "peer", "I=HOST:PORT", help));
    let help = "Don't say on standard error which peers are reached and what is chosen";
    with(all, flag(alloc, "quiet", help))
}

/// A command with whose requests are taken, what the node shows its peers, and where HTTP is
/// spoken.
fn with_access<'a>(alloc: Global, own: Making<Command<'a>>) -> Making<Command<'a>>
    ensures shape { (shape : Shape) → IfOk own.entry (IsShape shape)
        → IfOk result (IsShape (shapes.with_access shape)) }
    ensures local { IfOk own.entry IsLocal → IfOk result IsLocal }
{
    let help = "The keys of those who may ask, a line each; anybody if not given";
    let all = with(own, option(alloc, "keys", "FILE", help));
    let help = "The key of this node, which it shows its peers";
    let all = with(all, option(alloc, "key", "FILE", help));
    let help = "HOST:PORT to answer HTTP at, to whoever reaches it";
    let all = with(all, option(alloc, "http", "ADDR", help));
    let help = "Without --keys, and over HTTP: listen also where other machines reach the address";
    with(all, flag(alloc, "open", help))
}

/// A node is served.
fn serve<'a>(alloc: Global) -> Making<Command<'a>>
    ensures shape { IfOk result (IsShape shapes.serve) }
    ensures local { IfOk result IsLocal }
{
    let about = "Answers clients and other nodes";
    let record = "The record of the node";
    let table = "Signatures that are good besides, a line each";
    let stand_in = "Take the examples' stand-in for signatures: anybody can forge one";
    let command = with(
        leaf(alloc, "serve", about),
        word(alloc, "file", "FILE", record),
    );
    let listen = mandatory(option(alloc, "listen", "ADDR", "HOST:PORT to listen at"));
    let command = with(with(command, listen), option(alloc, "table", "FILE", table));
    let command = with(command, flag(alloc, "stand-in", stand_in));
    with_limits(alloc, with_access(alloc, with_group(alloc, command)))
}

/// A command with the key that a node is shown.
pub(crate) fn with_key<'a>(alloc: Global, own: Making<Command<'a>>) -> Making<Command<'a>>
    ensures shape { (shape : Shape) → IfOk own.entry (IsShape shape)
        → IfOk result (IsShape (shapes.with_key shape)) }
    ensures local { IfOk own.entry IsLocal → IfOk result IsLocal }
{
    let help = "The key to show the node, where it wants one";
    with(own, option(alloc, "key", "FILE", help))
}

/// A command with an address and a file.
fn sending<'a>(alloc: Global, name: &'a str, about: &'a str, help: &'a str) -> Making<Command<'a>>
    ensures shape { IfOk result (IsShape (shapes.sending name.entry.now)) }
    ensures local { IfOk result IsLocal }
{
    let address = word(alloc, "address", "ADDR", "HOST:PORT of the node");
    let file = word(alloc, "file", "FILE", help);
    with_key(alloc, with(with(leaf(alloc, name, about), address), file))
}

/// A command is handed to a node.
fn submit<'a>(alloc: Global) -> Making<Command<'a>>
    ensures shape { IfOk result (IsShape shapes.submit) }
    ensures local { IfOk result IsLocal }
{
    let what = "Hands a command to a node";
    let command = sending(alloc, "submit", what, "An encoded command");
    let help = "Wait so many seconds, 1 to 3600, until it is known to be chosen";
    with(command, option(alloc, "wait", "SECONDS", help))
}

/// The log of a record is brought to another group.
fn replay<'a>(alloc: Global) -> Making<Command<'a>>
    ensures shape { IfOk result (IsShape shapes.replay) }
    ensures local { IfOk result IsLocal }
{
    let about = "Submits the commands of a record to a node of a new group, in order";
    let record = "The record of a node that is not served, or a copy";
    let command = with(
        leaf(alloc, "replay", about),
        word(alloc, "file", "FILE", record),
    );
    let address = word(alloc, "address", "ADDR", "HOST:PORT of the node");
    let command = with_key(alloc, with(command, address));
    let help = "Wait so many seconds for each command, 1 to 3600; 10 if not given";
    with(command, option(alloc, "wait", "SECONDS", help))
}

/// A command with an address.
pub(crate) fn reaching<'a>(alloc: Global, name: &'a str, about: &'a str) -> Making<Command<'a>>
    ensures shape { IfOk result (IsShape (shapes.reaching name.entry.now)) }
    ensures local { IfOk result IsLocal }
{
    let address = word(alloc, "address", "ADDR", "HOST:PORT of the node");
    with_key(alloc, with(leaf(alloc, name, about), address))
}

/// A key is made.
fn keygen<'a>(alloc: Global) -> Making<Command<'a>>
    ensures shape { IfOk result (IsShape shapes.keygen) }
    ensures local { IfOk result IsLocal }
{
    let about = "Prints a line for a file of keys, with a new secret";
    let role = word(alloc, "role", "ROLE", "admin, reader or peer");
    let node = "With peer: which node it is, 1 to 9";
    with(
        with(leaf(alloc, "keygen", about), role),
        option(alloc, "node", "I", node),
    )
}

/// The tasks of a node's upkeep, after those that the program has.
fn with_upkeep<'a>(alloc: Global, program: Making<Command<'a>>) -> Making<Command<'a>>
    ensures { (app : App) → IfOk program.entry (IsApp app)
        → IfOk result (IsApp (shapes.with_upkeep app)) }
{
    let what = "Prints how a node does: prefix, peers, writes";
    let program = among(program, reaching(alloc, "status", what));
    let what = "Prints which node of which group it is";
    let program = among(program, reaching(alloc, "identify", what));
    let what = "Has a node ask others for what it lacks";
    let program = among(program, reaching(alloc, "catchup", what));
    let what = "Has a node make one step of rewriting its record";
    let program = among(program, reaching(alloc, "compact", what));
    among(program, keygen(alloc))
}

/// Messages are carried between nodes.
fn carry<'a>(alloc: Global) -> Making<Command<'a>>
    ensures shape { IfOk result (IsShape shapes.carry) }
    ensures local { IfOk result IsLocal }
{
    let help = "HOST:PORT of each node, one to nine";
    let addresses = mandatory(words(alloc, "addresses", "ADDR", help));
    let rounds = mandatory(option(alloc, "rounds", "R", "How many times, 1 to 1000000"));
    let command = leaf(alloc, "carry", "Carries messages between nodes");
    with(with(command, addresses), rounds)
}

/// The tasks of a node, which are the first of the program.
fn node_tasks<'a>(alloc: Global) -> Making<Command<'a>>
    ensures { IfOk result (IsApp shapes.node_tasks) }
{
    let about = "A replicated trust store for X.509 certificates";
    let program = with_version(choice(alloc, "trustd", about, "trustd"), VERSION);
    let program = among(
        program,
        leaf(alloc, "lab", "Answers the script on standard input"),
    );
    let program = among(program, format(alloc));
    let program = among(program, migrate(alloc));
    let program = among(program, serve(alloc));
    let program = among(program, submit(alloc));
    let what = "Asks a node a question";
    let ask = sending(alloc, "ask", what, "An encoded question");
    let program = among(program, with_verdict(alloc, ask));
    among(program, carry(alloc))
}

/// The command line of the program. The words of `trustd command` and `trustd question` go to
/// command lines of their own.
pub fn program<'a>(alloc: Global) -> Result<Command<'a>, AllocError>
    ensures { IfOk result (λ r. app_of r ≡ shapes.program) }
{
    let program = among(node_tasks(alloc), verify(alloc));
    let what = "Writes an encoded command to standard output";
    let program = among(program, leaf(alloc, "command", what));
    let what = "Writes an encoded question to standard output";
    let program = among(program, leaf(alloc, "question", what));
    let about = "Prints the id of an anchor or CRL";
    let what = "The certificate or CRL, in PEM or DER";
    let program = among(program, reading(alloc, "id", about, "FILE", what));
    let what = "A certificate, CRL, command, question or record";
    let program = among(
        program,
        reading(alloc, "show", "Prints what a file holds", "FILE", what),
    );
    let program = with_listings(alloc, with_upkeep(alloc, program));
    let program = among(program, sync(alloc));
    command_of(among(program, replay(alloc)))
}
