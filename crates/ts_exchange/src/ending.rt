//! How a task that did not fail ended.

ghost use Rattle.std.specs.Prelude.{◌≡◌};
ghost use Rattle.ts_exchange.specs.Endings.{ending_by, ending_of, is_valid};

use ts_command::Outcome;
use ts_question::Reply;

/// How a task that did not fail ended.
#[derive(Clone, Copy, Debug, PartialEq, Eq)]
pub enum Ending {
    /// The program ends with 0.
    Well,
    /// A command was refused, or no valid chain was answered where one is asked for: the program
    /// ends with 1.
    Refused,
}

/// How the submission of a command ends that came to this.
pub fn ending_of(outcome: Outcome) -> Ending
    ensures { result ≡ ending_of outcome }
{
    match outcome {
        Outcome::Applied | Outcome::Repeated(_) => Ending::Well,
        Outcome::Refused(_) => Ending::Refused,
    }
}

/// Whether a valid chain is answered.
fn is_valid(reply: &Reply) -> bool
    ensures { result ≡ is_valid reply.now }
{
    match reply {
        Reply::Valid { .. } | Reply::Found { .. } => true,
        _ => false,
    }
}

/// How a question ends that is replied to so: well, unless a valid chain is asked for and none is
/// answered.
pub fn ending_by(check: bool, reply: &Reply) -> Ending
    ensures { result ≡ ending_by check reply.now }
{
    if check && !is_valid(reply) {
        return Ending::Refused;
    }
    Ending::Well
}
