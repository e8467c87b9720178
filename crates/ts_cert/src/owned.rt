//! A certificate that is kept.

ghost use Rattle.std.specs.Prelude.{◌≡◌, ◌⊎◌, ℕ, List, Some, None, Ok, Err};
ghost use Rattle.ts_shape.specs.declared.fault.CertFault.{CertFault};
ghost use Rattle.ts_cert.specs.CertView.{cert_in};
ghost use Rattle.ts_cert.specs.Reading.{certificate_of};
ghost use Rattle.ts_cert.specs.Layout.{AreLaidOut};
ghost use Rattle.ts_cert.specs.Encoding.{IsCertificate};
ghost use Rattle.ts_cert.specs.Table.{certificate_fault};
ghost use Rattle.ts_cert.specs.Printed.{owned_text};
ghost use Rattle.ts_cert.specs.declared.owned.OwnedCertFault.TheVariants.{Memory, Unreadable};

use crate::certificate::Cert;
use crate::layout::Layout;
use crate::reading::read_layout;
use std::alloc::{AllocError, Global};
use std::error::Error;
use std::fmt;
use std::marker::Model;
use ts_octets::Octets;
use ts_shape::CertFault;

/// Why a certificate is not kept.
#[derive(Clone, Copy, Debug, PartialEq, Eq)]
pub enum OwnedCertFault {
    /// Memory ran out.
    Memory,
    /// The octets are no certificate: the first rule that they break.
    Unreadable(CertFault),
}

/// The name of the reason, as `Memory` and `Unreadable(Truncated at 4)`.
impl fmt::Display for OwnedCertFault {
    ghost output = { λ fault. Some (owned_text fault) };

    fn fmt<W: fmt::Write>(&self, f: &mut fmt::Formatter<W>) -> fmt::Result {
        match self {
            OwnedCertFault::Memory => write!(f, "Memory"),
            OwnedCertFault::Unreadable(fault) => {
                write!(f, "Unreadable({} at {})", fault.kind, fault.at)
            }
        }
    }
}

impl Error for OwnedCertFault {}

impl From<AllocError> for OwnedCertFault {
    ghost from_gives = { λ _ e. e ≡ Memory };

    fn from(_error: AllocError) -> OwnedCertFault {
        OwnedCertFault::Memory
    }
}

impl From<CertFault> for OwnedCertFault {
    ghost from_gives = { λ f e. e ≡ Unreadable f };

    fn from(fault: CertFault) -> OwnedCertFault {
        OwnedCertFault::Unreadable(fault)
    }
}

/// A certificate with memory of its own. A contract sees it as its octets, which are a certificate.
#[derive(Debug, Drop)]
pub struct OwnedCert {
    octets: Octets,
    layout: Layout,
}

impl Model for OwnedCert {
    ghost Value = { List ℕ };

    ghost view = { λ cert. cert.octets };

    ghost invariant = { λ cert. AreLaidOut cert.octets cert.layout };
}

impl OwnedCert {
    /// A copy of octets that are a certificate.
    ///
    /// # Errors
    ///
    /// `Unreadable` with the first rule that the octets break, as [`Cert::read`] answers it; then
    /// `Memory`, where memory ran out. Nothing is kept then.
    pub fn read(alloc: Global, octets: &[u8]) -> Result<OwnedCert, OwnedCertFault>
        ensures kept { certificate_fault octets.now ≡ None
            → (result ≡ Ok octets.now) ⊎ (result ≡ Err Memory) }
        ensures refused { (f : CertFault) → certificate_fault octets.now ≡ Some f
            → result ≡ Err (Unreadable f) }
    {
        let layout = read_layout(octets)?;
        let octets = Octets::copy_of(alloc, octets)?;
        Ok(OwnedCert { octets, layout })
    }

    /// These octets, which are shared and not copied.
    ///
    /// # Errors
    ///
    /// As [`OwnedCert::read`]; `Memory` only where as many owners share them as can be counted.
    pub fn of(octets: &Octets) -> Result<OwnedCert, OwnedCertFault>
        ensures kept { certificate_fault octets.now ≡ None
            → (result ≡ Ok octets.now) ⊎ (result ≡ Err Memory) }
        ensures refused { (f : CertFault) → certificate_fault octets.now ≡ Some f
            → result ≡ Err (Unreadable f) }
    {
        let layout = read_layout(octets.as_slice())?;
        let octets = octets.share()?;
        Ok(OwnedCert { octets, layout })
    }

    /// The certificate, borrowed from these octets, which are not read again.
    pub fn view(&self) -> Cert<'_>
        ensures found { IsCertificate self.now (cert_in result) }
        ensures exact { certificate_of self.now ≡ Ok (cert_in result) }
    {
        Cert {
            octets: self.octets.as_slice(),
            layout: self.layout,
        }
    }

    /// The octets of the certificate.
    pub fn octets(&self) -> &[u8]
        ensures { result.now ≡ self.now }
    {
        self.octets.as_slice()
    }
}
