//! A CRL that is kept.

ghost use Rattle.std.specs.Prelude.{◌≡◌, ◌⊎◌, ℕ, List, [], Some, None, Ok, Err, option_map, IfErr};
ghost use Rattle.std.specs.Prelude.{IsErrAnd, unwrap_or};
ghost use Rattle.ts_crl.specs.Fault.{ListFault};
ghost use Rattle.ts_crl.specs.Kept.{kept_text, unreadable_in, RefusedFor};
ghost use Rattle.ts_crl.specs.inside.Kept.{first_place, WasRead};
ghost use Rattle.ts_crl.specs.inside.Kept.{Checks};
ghost use Rattle.ts_crl.specs.Entries.{entries_of};
ghost use Rattle.ts_crl.specs.EntryView.{entries_in, revoked_in};
ghost use Rattle.ts_crl.specs.inside.Endings.{AreListed};
ghost use Rattle.ts_crl.specs.ListView.{crl_in, located_list_in};
ghost use Rattle.ts_digest.specs.Message.{IsDigestOf};
ghost use Rattle.ts_crl.specs.OwnedView.{list_of};
ghost use Rattle.ts_crl.specs.Encoding.{IsCertificateList};
ghost use Rattle.ts_crl.specs.Table.{crl_fault, crl_of};
ghost use Rattle.ts_crl.specs.declared.owned.OwnedCrlFault.TheVariants.{Memory};

use crate::crl::{Crl, broken_rule};
use crate::endings::Endings;
use crate::entries::endings_of;
use crate::fault::CrlFault;
use crate::kept::list_in;
use crate::revoked::RevokedEntries;
use crate::shape::read_shape;
use std::alloc::{AllocError, Global};
use std::error::Error;
use std::fmt;
use std::marker::Model;
use ts_digest::{Digest, Message, likely_hash};
use ts_octets::Octets;
use ts_shape::CertFault;

/// Why a CRL is not kept.
#[derive(Clone, Copy, Debug, PartialEq, Eq)]
pub enum OwnedCrlFault<'a> {
    /// Memory ran out.
    Memory,
    /// The octets are no CRL that can be used: the first rule that they break.
    Unreadable(CrlFault<'a>),
}

/// The name of the reason, as `Memory` and `Unreadable(Truncated at 4)`.
impl<'a> fmt::Display for OwnedCrlFault<'a> {
    ghost output = { λ fault. Some (kept_text fault) };

    fn fmt<W: fmt::Write>(&self, f: &mut fmt::Formatter<W>) -> fmt::Result {
        match self {
            OwnedCrlFault::Memory => write!(f, "Memory"),
            OwnedCrlFault::Unreadable(fault) => write!(f, "Unreadable({fault})"),
        }
    }
}

impl<'a> Error for OwnedCrlFault<'a> {}

impl<'a> From<AllocError> for OwnedCrlFault<'a> {
    ghost from_gives = { λ _ e. e ≡ Memory };

    fn from(_error: AllocError) -> OwnedCrlFault<'a> {
        OwnedCrlFault::Memory
    }
}

/// A CRL with memory of its own. A contract sees it as its octets, which
/// are a CRL.
#[derive(Debug, Drop)]
pub struct OwnedCrl {
    octets: Octets,
    /// Where the first extensions of its entries are, which is all that has to be known of these.
    first: Option<CertFault>,
    /// The hash of what is signed of it.
    digest: Digest,
    /// The ends of the serial numbers of its entries.
    endings: Endings,
}

impl Model for OwnedCrl {
    ghost use Rattle.std.specs.Prelude.{List, ℕ};
    ghost use Rattle.ts_digest.specs.Message.{IsDigestOf};
    ghost use Rattle.ts_crl.specs.OwnedView.{list_of};
    ghost use Rattle.ts_crl.specs.Entries.{entries_of};
    ghost use Rattle.ts_crl.specs.inside.Endings.{AreListed};
    ghost use Rattle.ts_crl.specs.inside.Kept.{WasRead};

    ghost Value = { List ℕ };

    ghost view = { λ crl. crl.octets };

    ghost invariant = { λ crl. WasRead crl.first crl.octets
        × IsDigestOf crl.digest (list_of crl.octets).tbs
        × AreListed crl.endings.sorted.items (entries_of (list_of crl.octets)) };
}

/// Where the first extensions of the entries of a CRL are.
fn first_extensions<'a>(crl: &Crl<'a>) -> Option<CertFault>
    ensures { result ≡ first_place (option_map revoked_in crl.now.revoked) }
{
    match crl.revoked {
        Some(revoked) => revoked.findings.old_version,
        None => None,
    }
}

/// What has to be known of octets that are a CRL so that `view` need not read it again.
#[derive(Drop)]
struct CheckedParts {
    first: Option<CertFault>,
    digest: Digest,
    endings: Endings,
}

/// The hash of what is signed of a CRL, by the function that its signature is likely to use.
fn digest_of(crl: &Crl<'_>) -> Digest
    ensures { IsDigestOf result (crl_in crl.now).tbs }
{
    Digest::of(
        likely_hash(crl.signature_algorithm.algorithm),
        crl.tbs.octets,
    )
}

/// Checks octets, and gives what has to be known of a CRL so that `view` need not read it again.
#[tactic(auto, unfolding(crate::specs::Table::crl_of))]
fn check<'a>(alloc: Global, octets: &'a [u8]) -> Result<CheckedParts, OwnedCrlFault<'a>>
    ensures { Checks octets.now result }
{
    let crl = match read_shape(octets) {
        Ok(crl) => crl,
        Err(fault) => return Err(OwnedCrlFault::Unreadable(CrlFault::Broken(fault))),
    };
    if let Some(fault) = broken_rule(&crl) {
        return Err(OwnedCrlFault::Unreadable(fault));
    }
    Ok(CheckedParts {
        first: first_extensions(&crl),
        digest: digest_of(&crl),
        endings: endings_of(alloc, crl.revoked)?,
    })
}

/// Checks shared octets, and gives what has to be known of a CRL so that `view` need not read it
/// again.
fn check_shared(alloc: Global, octets: &Octets) -> Result<CheckedParts, OwnedCrlFault<'_>>
    ensures { Checks octets.now result }
{
    check(alloc, octets.as_slice())
}

/// Entries, with the ends of their serial numbers.
fn with_endings<'a>(
    revoked: Option<RevokedEntries<'a>>,
    endings: &'a Endings,
) -> Option<RevokedEntries<'a>>
    requires { AreListed endings.now.sorted.items (unwrap_or (option_map entries_in revoked) []) }
    ensures { option_map revoked_in result ≡ option_map revoked_in revoked.entry }
{
    match revoked {
        Some(revoked) => Some(RevokedEntries {
            element: revoked.element,
            findings: revoked.findings,
            endings: Some(endings),
        }),
        None => None,
    }
}

/// A borrowed CRL, with the hash of the octets that are signed in it, and with the ends of the
/// serial numbers of its entries.
fn with_kept<'a>(crl: Crl<'a>, digest: &'a Digest, endings: &'a Endings) -> Crl<'a>
    requires digest { IsDigestOf digest.now (crl_in crl).tbs }
    requires endings { AreListed endings.now.sorted.items (entries_of (crl_in crl)) }
    ensures { located_list_in result ≡ located_list_in crl.entry }
{
    Crl {
        tbs: Message::with_digest(crl.tbs.octets, digest),
        version: crl.version,
        signature: crl.signature,
        issuer: crl.issuer,
        this_update: crl.this_update,
        next_update: crl.next_update,
        revoked: with_endings(crl.revoked, endings),
        extensions: crl.extensions,
        signature_algorithm: crl.signature_algorithm,
        signature_value: crl.signature_value,
        identifier_at: crl.identifier_at,
    }
}

impl OwnedCrl {
    /// A copy of octets that are a CRL.
    ///
    /// # Errors
    ///
    /// `Unreadable` with the first rule that the octets break, as [`Crl::read`] answers it; then
    /// `Memory`, where memory ran out. Nothing is kept then.
    pub fn read<'a>(alloc: Global, octets: &'a [u8]) -> Result<OwnedCrl, OwnedCrlFault<'a>>
        ensures kept { crl_fault octets.now ≡ None
            → (result ≡ Ok octets.now) ⊎ (result ≡ Err Memory) }
        ensures refused { (f : ListFault) → crl_fault octets.now ≡ Some f
            → IsErrAnd result (λ e. unreadable_in e ≡ Some f) }
        ensures exact { IfErr result (λ e. RefusedFor octets.now e) }
    {
        let checked = check(alloc, octets)?;
        let octets = Octets::copy_of(alloc, octets)?;
        Ok(OwnedCrl {
            octets,
            first: checked.first,
            digest: checked.digest,
            endings: checked.endings,
        })
    }

    /// These octets, which are shared and not copied.
    ///
    /// # Errors
    ///
    /// As [`OwnedCrl::read`].
    pub fn of<'a>(alloc: Global, octets: &'a Octets) -> Result<OwnedCrl, OwnedCrlFault<'a>>
        ensures kept { crl_fault octets.now ≡ None
            → (result ≡ Ok octets.now) ⊎ (result ≡ Err Memory) }
        ensures refused { (f : ListFault) → crl_fault octets.now ≡ Some f
            → IsErrAnd result (λ e. unreadable_in e ≡ Some f) }
        ensures exact { IfErr result (λ e. RefusedFor octets.now e) }
    {
        let checked = check_shared(alloc, octets)?;
        let octets = octets.share()?;
        Ok(OwnedCrl {
            octets,
            first: checked.first,
            digest: checked.digest,
            endings: checked.endings,
        })
    }

    /// The CRL, borrowed from these octets. Its names, its entries and its extensions are not read
    /// again.
    pub fn view(&self) -> Crl<'_>
        ensures found { IsCertificateList self.now (crl_in result) }
        ensures exact { crl_of self.now ≡ Ok (crl_in result) }
        ensures same { crl_in result ≡ list_of self.now }
    {
        match list_in(self.octets.as_slice(), self.first) {
            Ok(crl) => with_kept(crl, &self.digest, &self.endings),
            Err(_) => unreachable!(),
        }
    }

    /// The octets of the CRL.
    pub fn octets(&self) -> &[u8]
        ensures { result.now ≡ self.now }
    {
        self.octets.as_slice()
    }
}
