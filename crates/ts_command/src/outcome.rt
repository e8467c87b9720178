//! What a command came to.

ghost use Rattle.std.specs.Prelude.{◌≡◌, Some};
ghost use Rattle.ts_command.specs.Outcomes.{outcome_words, refusal_code, refusal_of_code};
ghost use Rattle.ts_command.specs.Outcomes.{refusal_word};

use std::fmt;

/// Why a command changes nothing. Each has its code, in frames and in rows, as its number.
#[derive(Clone, Copy, Debug, PartialEq, Eq)]
pub enum Refusal {
    /// The anchor is there.
    AnchorThere = 1,
    /// No anchor has this id.
    NoAnchor = 2,
    /// The octets are no certificate, or no CRL.
    Malformed = 3,
    /// The CRL is not newer than the one in its slot.
    OlderCrl = 4,
    /// The CRL has a critical extension that is not processed.
    CriticalCrlExtension = 5,
    /// There are 256 anchors, or 1,024 CRLs of this kind.
    StoreFull = 6,
    /// The CRL is a delta CRL without a number.
    DeltaCrl = 7,
    /// No CRL has this id.
    NoCrl = 8,
    /// The CRL's name is relative to that of its issuer.
    RelativeName = 9,
    /// The CRL is for certificates of other issuers.
    Indirect = 10,
}

impl Refusal {
    /// The code of the refusal.
    pub fn code(self) -> u8
        ensures { result ≡ refusal_code self }
    {
        self as u8
    }

    /// The refusal of this code; `None` where no refusal has it.
    pub fn of_code(code: u32) -> Option<Refusal>
        ensures { result ≡ refusal_of_code code }
    {
        Some(match code {
            1 => Refusal::AnchorThere,
            2 => Refusal::NoAnchor,
            3 => Refusal::Malformed,
            4 => Refusal::OlderCrl,
            5 => Refusal::CriticalCrlExtension,
            6 => Refusal::StoreFull,
            7 => Refusal::DeltaCrl,
            8 => Refusal::NoCrl,
            9 => Refusal::RelativeName,
            10 => Refusal::Indirect,
            _ => return None,
        })
    }
}

/// The name of the refusal, as it is spelled here.
impl fmt::Display for Refusal {
    ghost output = { λ refusal. Some (refusal_word refusal) };

    fn fmt<W: fmt::Write>(&self, f: &mut fmt::Formatter<W>) -> fmt::Result {
        let name = match self {
            Refusal::AnchorThere => "AnchorThere",
            Refusal::NoAnchor => "NoAnchor",
            Refusal::Malformed => "Malformed",
            Refusal::OlderCrl => "OlderCrl",
            Refusal::CriticalCrlExtension => "CriticalCrlExtension",
            Refusal::StoreFull => "StoreFull",
            Refusal::DeltaCrl => "DeltaCrl",
            Refusal::NoCrl => "NoCrl",
            Refusal::RelativeName => "RelativeName",
            Refusal::Indirect => "Indirect",
        };
        write!(f, "{name}")
    }
}

/// What a command came to.
#[derive(Clone, Copy, Debug, PartialEq, Eq)]
pub enum Outcome {
    /// It was applied.
    Applied,
    /// The first command of its id is at this position.
    Repeated(u32),
    /// It changed nothing.
    Refused(Refusal),
}

/// `applied`, `repeated` and the position of the first command of its id, or `refused` and why.
impl fmt::Display for Outcome {
    ghost output = { λ outcome. Some (outcome_words outcome) };

    fn fmt<W: fmt::Write>(&self, f: &mut fmt::Formatter<W>) -> fmt::Result {
        match self {
            Outcome::Applied => write!(f, "applied"),
            Outcome::Repeated(position) => write!(f, "repeated {position}"),
            Outcome::Refused(refusal) => write!(f, "refused {refusal}"),
        }
    }
}
