//! The entries of a CRL.

ghost use Rattle.std.specs.Prelude.{◌≡◌, Some, None, map};
ghost use Rattle.std.specs.Borrow.{Bor};
ghost use Rattle.ts_der.specs.Answer.{refusal};
ghost use Rattle.ts_der.specs.Element.{inside};
ghost use Rattle.ts_der.specs.View.{now};
ghost use Rattle.ts_shape.specs.Items.{items_at};
ghost use Rattle.ts_crl.specs.declared.endings.Endings.{Endings as EndingsOf};
ghost use Rattle.ts_crl.specs.Findings.{findings_of};
ghost use Rattle.ts_crl.specs.FindingsView.{findings_in};
ghost use Rattle.ts_crl.specs.inside.Endings.{AreListed};
ghost use Rattle.ts_crl.specs.List.{unlocated_entry};
ghost use Rattle.ts_crl.specs.Reading.{located_entry_of, revoked_of};

use crate::endings::Endings;
use crate::findings::Findings;
use ts_der::Element;

/// The certificates that a CRL says to be revoked, of which there may be none (RFC 5280 5.1.2.6).
#[derive(Clone, Copy)]
pub struct RevokedEntries<'a> {
    pub(crate) element: Element<'a>,
    /// What the rules of a CRL ask of the extensions of the entries.
    pub(crate) findings: Findings<'a>,
    /// The ends of the serial numbers, where they are kept.
    pub(crate) endings: Option<&'a Endings>,
    // The entries were read.
    ghost read: { refusal (revoked_of (now element)) ≡ None },
    // The findings are those of these entries.
    ghost found: { findings_in findings ≡ findings_of
        (items_at located_entry_of (inside (now element))) },
    // No entry has a serial number whose end is not one of them.
    ghost listed: { (e : Bor EndingsOf) → endings ≡ Some e → AreListed e.now.sorted.items
        (map unlocated_entry (items_at located_entry_of (inside (now element)))) },
}
