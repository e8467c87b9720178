//! A certificate that is kept as its octets.

ghost use Rattle.std.specs.Prelude.{◌≡◌, true, is_ok};
ghost use Rattle.ts_cert.specs.Reading.{certificate_of};

use ts_cert::Cert;

/// The octets of a certificate.
#[derive(Drop)]
pub struct CertOctets {
    pub octets: Vec<u8>,
    ghost reads: { is_ok (certificate_of octets.items) ≡ true },
}

impl CertOctets {
    ghost use Rattle.std.specs.Prelude.{Ok};
    ghost use Rattle.ts_cert.specs.CertView.{cert_in};

    /// The certificate.
    pub fn cert(&self) -> Cert<'_>
        ensures { certificate_of self.now.octets.items ≡ Ok (cert_in result) }
    {
        Cert::read(&self.octets).unwrap()
    }
}
