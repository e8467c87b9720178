//! Trust anchors of a store, as path validation borrows them.

ghost use Rattle.std.specs.Prelude.{◌≡◌, ◌≤◌, Some, None, length, map, take, option_map, IfOk};
ghost use Rattle.ts_store.specs.Contents.{anchor_in as borrowed_in};
ghost use Rattle.ts_path.specs.View.{anchor_in};
ghost use Rattle.ts_answer.specs.Asked.{trust_anchor};

use std::alloc::{AllocError, Global};
use ts_cert::Cert;
use ts_command::MAX_PURPOSES;
use ts_path::Anchor;
use ts_store::BorrowedAnchor;

/// A trust anchor's certificate, and the content octets of its purposes, which are at most 16, if
/// it is not trusted for any.
#[derive(Clone, Copy)]
pub(crate) struct TrustedAnchor<'a> {
    cert: Cert<'a>,
    is_listed: bool,
    count: usize,
    contents: [&'a [u8]; MAX_PURPOSES],
    ghost within: { count ≤ 16 },
}

impl<'a> TrustedAnchor<'a> {
    ghost use Rattle.ts_answer.specs.inside.Trusted.{purposes_in, trusted_in};

    /// An anchor of the store. Its certificate is not read again.
    pub fn of(stored: BorrowedAnchor<'a>) -> TrustedAnchor<'a>
        ensures { trusted_in result ≡ trust_anchor (borrowed_in stored.entry) }
    {
        let cert = stored.certificate.view();
        let mut contents: [&'a [u8]; MAX_PURPOSES] = [&[]; MAX_PURPOSES];
        let Some(oids) = stored.purposes.oids() else {
            return TrustedAnchor {
                cert,
                is_listed: false,
                count: 0,
                contents,
            };
        };
        for number in 0..oids.len() {
            contents[number] = oids[number].as_ref().content;
        }
        TrustedAnchor {
            cert,
            is_listed: true,
            count: oids.len(),
            contents,
        }
    }

    /// The purposes, `None` for any.
    fn purposes(&'a self) -> Option<&'a [&'a [u8]]>
        ensures { option_map (λ ps. map (λ p. p.now) ps.now) result ≡ purposes_in self.now }
    {
        if self.is_listed {
            Some(&self.contents[..self.count])
        } else {
            None
        }
    }

    /// The anchor.
    pub fn anchor(&'a self) -> Anchor<'a>
        ensures { anchor_in result ≡ trusted_in self.now }
    {
        Anchor {
            name: self.cert.subject(),
            key: self.cert.subject_public_key_info(),
            purposes: self.purposes(),
        }
    }
}
