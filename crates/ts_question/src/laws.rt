//! Laws about encodings. Each is the contract of a function that does nothing.

ghost use Rattle.std.specs.Prelude.{◌≡◌, ℕ, List};
ghost use Rattle.ts_question.specs.Question.{StoreQuestion, question_encoding, QuestionFits};
ghost use Rattle.ts_question.specs.Reply.{NumberedReply, answer_encoding};
ghost use Rattle.ts_question.specs.Reply.{AnswerFits};
ghost use Rattle.ts_question.specs.Rows.{AnchorLine, CrlLine, CommandLine};
ghost use Rattle.ts_question.specs.Rows.{AnchorFits, CrlFits, CommandFits};
ghost use Rattle.ts_question.specs.Rows.{anchor_encoding, crl_encoding, command_encoding};

/// No two questions have one encoding, and no two lists of octets are one question's.
pub fn one_question()
    ensures question { (q other : StoreQuestion) → QuestionFits q → QuestionFits other
        → question_encoding q ≡ question_encoding other
        → q ≡ other }
    ensures octets { (octets others : List ℕ) (q : StoreQuestion) → octets ≡ question_encoding q
        → others ≡ question_encoding q → octets ≡ others }
{}

/// No two answers have one encoding, and no two lists of octets are one answer's.
pub fn one_answer()
    ensures answer { (a other : NumberedReply) → AnswerFits a → AnswerFits other
        → answer_encoding a ≡ answer_encoding other → a ≡ other }
    ensures octets { (octets others : List ℕ) (a : NumberedReply) → octets ≡ answer_encoding a
        → others ≡ answer_encoding a → octets ≡ others }
{}

/// No two rows of a page have one encoding.
pub fn one_row()
    ensures anchor { (l other : AnchorLine) → AnchorFits l → AnchorFits other
        → anchor_encoding l ≡ anchor_encoding other → l ≡ other }
    ensures crl { (l other : CrlLine) → CrlFits l → CrlFits other
        → crl_encoding l ≡ crl_encoding other → l ≡ other }
    ensures command { (l other : CommandLine) → CommandFits l → CommandFits other
        → command_encoding l ≡ command_encoding other → l ≡ other }
{}
