//! What an entry of a CRL says of a serial number.

ghost use Rattle.std.specs.Prelude.{◌≡◌};
ghost use Rattle.ts_crl.specs.EntryView.{entry_in};
ghost use Rattle.ts_crl.specs.ListView.{crl_in};
ghost use Rattle.ts_revoke.specs.Decision.{revoking as revoking_of};
ghost use Rattle.ts_revoke.specs.Listed.{entry_reason, reason_in_list as listed_in_list};

use ts_crl::{Crl, Entry};
use ts_der::Integer;

/// The number of the reason that an entry gives, 0 (unspecified) where it gives none.
fn code(entry: &Entry<'_>) -> u8
    ensures { result ≡ entry_reason (entry_in entry.now) }
{
    match entry.reason_code() {
        Some(reason) => reason.number(),
        None => 0,
    }
}

/// The reason of the first entry of a serial number.
pub(crate) fn listed_in(crl: &Crl<'_>, serial: Integer<'_>) -> Option<u8>
    ensures { result ≡ listed_in_list serial.entry.octets.now (crl_in crl.now) }
{
    match crl.entry(serial) {
        Some(entry) => Some(code(&entry)),
        None => None,
    }
}

/// The reason, unless it is 8 (removeFromCRL), which revokes nothing.
pub(crate) fn revoking(listed: Option<u8>) -> Option<u8>
    ensures { result ≡ revoking_of listed }
{
    match listed {
        Some(8) => None,
        other => other,
    }
}
