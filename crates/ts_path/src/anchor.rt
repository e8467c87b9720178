//! Trust anchors.

ghost use Rattle.std.specs.Prelude.{◌≡◌, None};
ghost use Rattle.ts_cert.specs.CertView.{cert_in};
ghost use Rattle.ts_path.specs.View.{anchor_in};

use ts_cert::{Cert, SubjectPublicKeyInfo};
use ts_name::Name;

/// What a chain begins with: the name and the public key of an issuer that is trusted (RFC 5280
/// 6.1.1 (d)).
#[derive(Clone, Copy)]
pub struct Anchor<'a> {
    pub name: Name<'a>,
    pub key: SubjectPublicKeyInfo<'a>,
    /// The purposes for which the anchor is trusted, each as the content octets of its object
    /// identifier; `None` where for any.
    pub purposes: Option<&'a [&'a [u8]]>,
}

impl<'a> Anchor<'a> {
    /// The subject of a certificate as a trust anchor for any purpose. Nothing else of the
    /// certificate counts, its validity, its extensions and its signature neither.
    pub fn of(cert: &Cert<'a>) -> Anchor<'a>
        ensures { anchor_in result ≡ record {
          name = (cert_in cert.now).tbsCertificate.subject;
          key = (cert_in cert.now).tbsCertificate.subjectPublicKeyInfo;
          purposes = None;
        } }
    {
        Anchor {
            name: cert.subject(),
            key: cert.subject_public_key_info(),
            purposes: None,
        }
    }
}
