//! Octets within a limit.

ghost use Rattle.std.specs.Prelude.{◌≡◌, ◌≤◌, ◌<◌, ℕ, List, length, IfOk, MatchResult};

use std::alloc::AllocError;
use std::marker::Model;
use ts_octets::{MAX_CERTIFICATE, MAX_CRL, Octets};

/// More octets than a command may have of this kind.
#[derive(Clone, Copy, Debug, PartialEq, Eq)]
pub struct TooLong;

/// Octets that a command calls a certificate: at most 65,536, which may or may not be one.
#[derive(Debug, Drop)]
pub struct CertificateOctets {
    octets: Octets,
}

impl Model for CertificateOctets {
    ghost Value = { List ℕ };

    ghost view = { λ c. c.octets };

    ghost invariant = { λ c. length c.octets ≤ 65536 };
}

impl CertificateOctets {
    /// The same octets, which are shared and not copied.
    ///
    /// # Errors
    ///
    /// Out of memory, where as many owners share them as can be counted.
    pub fn share(&self) -> Result<CertificateOctets, AllocError>
        ensures { IfOk result (λ again. again ≡ self.now) }
    {
        let octets = self.octets.share()?;
        Ok(CertificateOctets { octets })
    }

    /// These octets.
    ///
    /// # Errors
    ///
    /// `TooLong` exactly where there are more than 65,536.
    pub fn new(octets: Octets) -> Result<CertificateOctets, TooLong>
        ensures { MatchResult result (λ c. (c ≡ octets) × (length octets ≤ 65536))
            (λ _. 65536 < length octets) }
    {
        if octets.as_slice().len() > MAX_CERTIFICATE {
            return Err(TooLong);
        }
        Ok(CertificateOctets { octets })
    }

    /// The octets.
    pub fn as_slice(&self) -> &[u8]
        ensures octets { result.now ≡ self.now }
        ensures limit { length self.now ≤ 65536 }
    {
        self.octets.as_slice()
    }

    /// The octets, to be shared.
    pub fn octets(&self) -> &Octets
        ensures { result.now ≡ self.now }
    {
        &self.octets
    }
}

/// Octets that a command calls a CRL: at most 4,194,304, which may or may
/// not be one.
#[derive(Debug, Drop)]
pub struct CrlOctets {
    octets: Octets,
}

impl Model for CrlOctets {
    ghost Value = { List ℕ };

    ghost view = { λ c. c.octets };

    ghost invariant = { λ c. length c.octets ≤ 4194304 };
}

impl CrlOctets {
    /// The same octets, which are shared and not copied.
    ///
    /// # Errors
    ///
    /// Out of memory, where as many owners share them as can be counted.
    pub fn share(&self) -> Result<CrlOctets, AllocError>
        ensures { IfOk result (λ again. again ≡ self.now) }
    {
        let octets = self.octets.share()?;
        Ok(CrlOctets { octets })
    }

    /// These octets.
    ///
    /// # Errors
    ///
    /// `TooLong` exactly where there are more than 4,194,304.
    pub fn new(octets: Octets) -> Result<CrlOctets, TooLong>
        ensures { MatchResult result (λ c. (c ≡ octets) × (length octets ≤ 4194304))
            (λ _. 4194304 < length octets) }
    {
        if octets.as_slice().len() > MAX_CRL {
            return Err(TooLong);
        }
        Ok(CrlOctets { octets })
    }

    /// The octets.
    pub fn as_slice(&self) -> &[u8]
        ensures octets { result.now ≡ self.now }
        ensures limit { length self.now ≤ 4194304 }
    {
        self.octets.as_slice()
    }

    /// The octets, to be shared.
    pub fn octets(&self) -> &Octets
        ensures { result.now ≡ self.now }
    {
        &self.octets
    }
}
