//! Reading a certificate.

ghost use Rattle.std.specs.Prelude.{◌≡◌, IfOk};
ghost use Rattle.ts_der.specs.Answer.{Answers, refusal};
ghost use Rattle.ts_cert.specs.CertView.{cert_in};
ghost use Rattle.ts_cert.specs.Layout.{AreLaidOut};
ghost use Rattle.ts_cert.specs.Reading.{certificate_of};
ghost use Rattle.ts_cert.specs.Table.{certificate_fault};

use crate::certificate::Cert;
use crate::fast::fast_layout;
use crate::layout::{Layout, layout_of};
use crate::shape::read_parts;
use ts_shape::CertFault;

/// The layout of any octets that are a certificate, or the first rule that they break.
#[cold]
#[inline(never)]
fn full_layout(octets: &[u8]) -> Result<Layout, CertFault>
    ensures laid { IfOk result (AreLaidOut octets.now) }
    ensures fault { refusal result ≡ refusal (certificate_of octets.now) }
{
    let parts = read_parts(octets)?;
    Ok(layout_of(octets, parts.fields.version))
}

/// The layout of octets that are a certificate, or the first rule that they break, with the fast
/// path first.
#[inline(always)]
pub(crate) fn read_layout(octets: &[u8]) -> Result<Layout, CertFault>
    ensures laid { IfOk result (AreLaidOut octets.now) }
    ensures fault { refusal result ≡ refusal (certificate_of octets.now) }
    ensures rule { refusal result ≡ certificate_fault octets.now }
{
    match fast_layout(octets) {
        Some(layout) => Ok(layout),
        None => full_layout(octets),
    }
}

/// The certificate that octets are, or the first rule that they break, without the fast path.
#[cold]
#[inline(never)]
fn full_cert(octets: &[u8]) -> Result<Cert<'_>, CertFault>
    ensures { Answers cert_in result (certificate_of octets.now) }
{
    let layout = full_layout(octets)?;
    Ok(Cert { octets, layout })
}

/// The certificate that octets are, or the first rule that they break, with the fast path first. It
/// is not inlined: for a caller that looks at nothing but `Ok`, the record would not be made, and a
/// measurement would leave out its time.
#[inline(never)]
pub(crate) fn read_cert(octets: &[u8]) -> Result<Cert<'_>, CertFault>
    ensures { Answers cert_in result (certificate_of octets.now) }
{
    match fast_layout(octets) {
        Some(layout) => Ok(Cert { octets, layout }),
        None => full_cert(octets),
    }
}
