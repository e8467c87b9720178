//! Why a CRL is not vouched for.

ghost use Rattle.std.specs.Prelude.{Some};
ghost use Rattle.ts_revoke.specs.Printed.{doubt_text};

use std::fmt;

/// What speaks against a CRL, in the order in which it is looked for.
#[derive(Clone, Copy, Debug, PartialEq, Eq)]
pub enum Doubt {
    /// No certificate is one of the CRL's issuer that may sign CRLs.
    NoIssuer,
    /// None of the issuer's certificates has the key that signed the CRL.
    Signature,
    /// The moment is before thisUpdate.
    NotYet,
    /// The moment is after nextUpdate.
    Expired,
}

/// What speaks against the CRL, in plain words, with the section of RFC 5280.
impl fmt::Display for Doubt {
    ghost output = { λ doubt. Some (doubt_text doubt) };

    fn fmt<W: fmt::Write>(&self, f: &mut fmt::Formatter<W>) -> fmt::Result {
        let text = match self {
            Doubt::NoIssuer => "no --issuer has its issuer's name and may sign CRLs (6.3.3 (f))",
            Doubt::Signature => "its signature is not good under the key of --issuer (6.3.3 (g))",
            Doubt::NotYet => "its thisUpdate is yet to come (5.1.2.4)",
            Doubt::Expired => "its nextUpdate is past (5.1.2.5)",
        };
        f.write_str(text)
    }
}
