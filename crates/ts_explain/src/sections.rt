//! The section of the standard that a reason is of.

ghost use Rattle.std.specs.Prelude.{◌≡◌};
ghost use Rattle.ts_explain.specs.Sections.{section};

use ts_reason::Reason;

/// The RFC and its section, as `5280 6.1.3 (a)(2)`.
pub fn section<O>(reason: &Reason<O>) -> &'static str
    ensures { result.now ≡ section reason.now }
{
    match reason {
        Reason::AnchorPurpose => "5280 6.1.1 (d)",
        Reason::Signature => "5280 6.1.3 (a)(1)",
        Reason::TooEarly => "5280 6.1.3 (a)(2)",
        Reason::Expired => "5280 6.1.3 (a)(2)",
        Reason::Revoked(_) => "5280 6.1.3 (a)(3)",
        Reason::Undetermined => "5280 6.1.3 (a)(3)",
        Reason::IssuerName => "5280 6.1.3 (a)(4)",
        Reason::UnsupportedConstraint => "5280 4.2.1.10",
        Reason::NotPermitted => "5280 6.1.3 (b)",
        Reason::Excluded => "5280 6.1.3 (c)",
        Reason::PolicyRequired => "5280 6.1.3 (f)",
        Reason::MapsAny => "5280 6.1.4 (a)",
        Reason::NotCa => "5280 6.1.4 (k)",
        Reason::PathLength => "5280 6.1.4 (l)",
        Reason::KeyUsage => "5280 6.1.4 (n)",
        Reason::CriticalExtension(_) => "5280 6.1.4 (o), 6.1.5 (f)",
        Reason::FinalPolicy => "5280 6.1.5 (g)",
        Reason::Purpose => "5280 4.2.1.12",
    }
}
