//! The fields of a request.

ghost use Rattle.std.specs.Prelude.{◌≡◌};
ghost use Rattle.ts_form.specs.Names.{field_named, name_of};

/// A field of a request.
#[derive(Clone, Copy, Debug, PartialEq, Eq)]
pub enum Field {
    /// Certificates, the leaf first.
    Chain,
    /// The moment of the validation.
    At,
    /// After how many commands the store is looked at.
    K,
    /// Whether a certificate is refused whose status can't be determined.
    Hard,
    /// Whether delta CRLs are used.
    Deltas,
    /// Whether a valid policy is wanted.
    Explicit,
    /// Whether no policies are mapped.
    NoMap,
    /// Whether anyPolicy stands for no other.
    NoAny,
    /// A policy that the user accepts.
    Policies,
    /// What the last certificate is for.
    Purpose,
    /// The id of the trust anchor.
    Anchor,
    /// How many rows stand before a page. No field of a question.
    From,
    /// The id of a command. No field of a question.
    Id,
}

impl Field {
    /// The name of the field.
    pub fn name(self) -> &'static str
        ensures { result.now ≡ name_of self }
    {
        match self {
            Field::Chain => "chain",
            Field::At => "at",
            Field::K => "k",
            Field::Hard => "hard",
            Field::Deltas => "deltas",
            Field::Explicit => "explicit",
            Field::NoMap => "nomap",
            Field::NoAny => "noany",
            Field::Policies => "policies",
            Field::Purpose => "purpose",
            Field::Anchor => "anchor",
            Field::From => "from",
            Field::Id => "id",
        }
    }

    /// The field of a question that has this name.
    pub(crate) fn named(name: &str) -> Option<Field>
        ensures { result ≡ field_named name.now }
    {
        match name {
            "chain" => Some(Field::Chain),
            "at" => Some(Field::At),
            "k" => Some(Field::K),
            "hard" => Some(Field::Hard),
            "deltas" => Some(Field::Deltas),
            "explicit" => Some(Field::Explicit),
            "nomap" => Some(Field::NoMap),
            "noany" => Some(Field::NoAny),
            "policies" => Some(Field::Policies),
            "purpose" => Some(Field::Purpose),
            "anchor" => Some(Field::Anchor),
            _ => None,
        }
    }
}
