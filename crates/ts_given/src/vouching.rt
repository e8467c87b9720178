//! A CRL is looked at before it is loaded.

ghost use Rattle.std.specs.Prelude.{◌≡◌, Some, map};
ghost use Rattle.ts_der.specs.Answer.{refusal};
ghost use Rattle.ts_cert.specs.CertView.{cert_in};
ghost use Rattle.ts_crl.specs.Table.{crl_of};
ghost use Rattle.ts_given.specs.Printed.{doubt_text};
ghost use Rattle.ts_given.specs.Vouching.{doubt_about};

use std::fmt;
use ts_cert::Cert;
use ts_check::NativeCheck;
use ts_crl::Crl;
use ts_revoke::{Doubt, vouch};
use ts_time::Moment;

/// What speaks against the octets of a CRL.
#[derive(Clone, Copy, Debug, PartialEq, Eq)]
pub enum CrlDoubt {
    /// They are no CRL that a store takes.
    NoCrl,
    /// They are one, and this speaks against it.
    Against(Doubt),
}

/// What speaks against it, in plain words.
impl fmt::Display for CrlDoubt {
    ghost output = { λ doubt. Some (doubt_text doubt) };

    fn fmt<W: fmt::Write>(&self, f: &mut fmt::Formatter<W>) -> fmt::Result {
        match self {
            CrlDoubt::NoCrl => f.write_str("no CRL that a store takes"),
            CrlDoubt::Against(doubt) => write!(f, "{doubt}"),
        }
    }
}

/// Vouches for the octets of a CRL at a moment, by the certificates of those who may have signed
/// it.
///
/// # Errors
///
/// `NoCrl` exactly where they are no CRL that a store takes; else `Against` with the first doubt
/// about it, where there is one.
pub fn vouch_for(octets: &[u8], issuers: &[Cert<'_>], moment: Moment) -> Result<(), CrlDoubt>
    ensures { refusal result
        ≡ doubt_about (map cert_in issuers.now) moment (crl_of octets.now) }
{
    let Ok(crl) = Crl::read(octets) else {
        return Err(CrlDoubt::NoCrl);
    };
    match vouch(&crl, issuers, moment, &NativeCheck) {
        Ok(()) => Ok(()),
        Err(doubt) => Err(CrlDoubt::Against(doubt)),
    }
}
