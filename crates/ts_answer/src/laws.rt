//! Laws about the definitions that the clauses of this crate cite, and the headline.

ghost use Rattle.std.specs.Prelude.{◌≡◌, ◌≤◌, ℕ, List};
ghost use Rattle.ts_node.specs.Run.{AreAllowed, Group, Happening, IsStart};
ghost use Rattle.ts_revoke.specs.Question.{Check};
ghost use Rattle.ts_question.specs.Question.{StoreQuestion, QuestionFits};
ghost use Rattle.ts_question.specs.Reply.{NumberedReply};
ghost use Rattle.ts_command.specs.Octets.{octets_of};
ghost use Rattle.ts_command.specs.declared.command.Command.{Command as Submitted};
ghost use Rattle.ts_command.specs.declared.outcome.Outcome.{Outcome};
ghost use Rattle.ts_answer.specs.Held.{TrustStore};
ghost use Rattle.ts_answer.specs.Laws.{AskTheSame, Headline, trust_store};
ghost use Rattle.ts_answer.specs.Machine.{IsAnswer};

use crate::answers::Answers;
use ts_command::Command;
use ts_disk::Disk;
use ts_sig::SignatureCheck;

/// A question has one answer after a list of commands, and so have two that ask the same.
pub fn one_answer()
    ensures { (good : Check) (commands : List Submitted) (q p : StoreQuestion) (a b : NumberedReply)
        → QuestionFits q
        → AskTheSame q p → IsAnswer good commands q a → IsAnswer good commands p b → a ≡ b }
{}

/// Over every list of deliveries, losses, repeats, reorderings, crashes and restarts, no two nodes
/// hold different commands at one position; and every verdict given at position k is the one that
/// RFC 5280 sections 6.1 and 6.3, in this profile, give for that question over the store made by
/// the first k chosen commands, so equal questions at k get equal verdicts.
///
/// A run is what the contracts of `ts_node::Node::handle` and `Node::open` allow, with rewrites of
/// the record between any two events. The premises: at most nine nodes, each of which was first
/// opened on what `Record::format` left for its own number and the same count of nodes; one check
/// of signatures at all of them; no message that was not sent is delivered; and each disk keeps to
/// the laws of `ts_disk::Disk`.
pub fn headline<D: Disk, S: SignatureCheck + Drop>()
    ensures { (check : S) (n : ℕ) (start : Group D Submitted (TrustStore S) Outcome StoreQuestion
        NumberedReply)
        (run : List (Happening D Submitted (TrustStore S) Outcome StoreQuestion NumberedReply))
        → n ≤ 9
        → IsStart octets_of n start
        → AreAllowed octets_of trust_store (IsAnswer (S.accepts check)) n start run
        → Headline (S.accepts check) n start run }
{
    ts_node::headline::<D, Command, Answers<S>>();
}
