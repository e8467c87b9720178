//! The row of a CRL.

ghost use Rattle.std.specs.Prelude.{◌≡◌, ◌≤◌, [], length, option_map, unwrap_or, IfOk};
ghost use Rattle.ts_name.specs.NameView.{rdns_in};
ghost use Rattle.ts_crl.specs.EntryView.{entries_in};
ghost use Rattle.ts_crl.specs.ListView.{crl_in};
ghost use Rattle.ts_crl.specs.Values.{list_extensions};
ghost use Rattle.ts_extensions.specs.ExtensionView.{extensions_in};
ghost use Rattle.ts_question.specs.Rows.{CrlFits, crl_encoding};
ghost use Rattle.ts_question.specs.RowView.{crl_line};
ghost use Rattle.ts_listing.specs.Listing.{crl_row, crl_row_of, first_octets, name_content, narrow};
ghost use Rattle.ts_listing.specs.Listing.{next_of, scope_among};

use crate::digests::is_digest;
use crate::page::{cut, narrow};
use std::alloc::{AllocError, Global};
use ts_crl::{Crl, RevokedEntries};
use ts_ext::{CrlNumber, Known};
use ts_extensions::Extensions;
use ts_name::Name;
use ts_question::CrlRow;
use ts_store::StoredCrl;

/// The contents octets of a name, cut.
pub(crate) fn name_octets<'a>(name: Name<'a>) -> &'a [u8]
    ensures front { result.now ≡ first_octets (name_content (rdns_in name.entry)) }
    ensures short { length result.now ≤ 4096 }
{
    cut(name.element.content)
}

/// The contents octets of a number, cut; none where there is none.
fn number_octets<'a>(number: Option<CrlNumber<'a>>) -> &'a [u8]
    ensures front { result.now ≡ first_octets
        (unwrap_or (option_map (λ n. n.octets.now) number.entry) []) }
    ensures short { length result.now ≤ 4096 }
{
    match number {
        Some(number) => cut(number.octets),
        None => &[],
    }
}

/// The octets of the extension that says what a CRL covers, cut; none where there is none.
fn scope_in<'a>(extensions: Extensions<'a>) -> &'a [u8]
    ensures front { result.now
        ≡ first_octets (unwrap_or (scope_among (extensions_in extensions.entry)) []) }
    ensures short { length result.now ≤ 4096 }
{
    match extensions.find(Known::IssuingDistributionPoint) {
        Some(extension) => cut(extension.value.content),
        None => &[],
    }
}

/// The octets of what a CRL says that it covers, cut; none where it says nothing.
fn scope_octets<'a>(crl: Crl<'a>) -> &'a [u8]
    ensures front { result.now
        ≡ first_octets (unwrap_or (scope_among (list_extensions (crl_in crl.entry))) []) }
    ensures short { length result.now ≤ 4096 }
{
    match crl.extensions() {
        Some(extensions) => scope_in(extensions),
        None => &[],
    }
}

/// How many entries there are. Each is passed once.
fn count_of(revoked: RevokedEntries<'_>) -> u32
    ensures { result ≡ narrow (length (entries_in revoked.entry)) }
{
    let mut count: u32 = 0;
    for entry in revoked.iter() {
        let _entry = entry;
        if count == u32::MAX {
            return count;
        }
        count += 1;
    }
    count
}

/// How many entries a CRL has.
fn entries_of(crl: Crl<'_>) -> u32
    ensures { result ≡ narrow (length
        (unwrap_or (crl_in crl.entry).tbsCertList.revokedCertificates [])) }
{
    match crl.revoked() {
        Some(revoked) => count_of(revoked),
        None => 0,
    }
}

/// When a CRL was issued.
fn this_update(crl: Crl<'_>) -> i64
    ensures { result ≡ (crl_in crl.entry).tbsCertList.thisUpdate.moment }
{
    crl.this_update().moment.0
}

/// By when the next one is issued.
fn next_update(crl: Crl<'_>) -> i64
    ensures { result ≡ next_of (crl_in crl.entry).tbsCertList.thisUpdate
        (crl_in crl.entry).tbsCertList.nextUpdate }
{
    match crl.next_update() {
        Some(time) => time.moment.0,
        None => this_update(crl),
    }
}

/// The row of a CRL.
fn row_of<'a>(id: [u8; 32], size: usize, crl: Crl<'a>) -> CrlRow<'a>
    ensures row { crl_line result ≡ crl_row_of id size (crl_in crl.entry) }
    ensures fits { CrlFits (crl_line result) }
{
    is_digest(id);
    CrlRow {
        id,
        issuer: name_octets(crl.issuer()),
        number: number_octets(crl.crl_number()),
        base: number_octets(crl.base_crl_number()),
        scope: scope_octets(crl),
        this_update: this_update(crl),
        next_update: next_update(crl),
        entries: entries_of(crl),
        size: narrow(size),
    }
}

/// The octets of the row of a CRL that is stored.
pub(crate) fn crl_octets(alloc: Global, stored: &StoredCrl) -> Result<Vec<u8>, AllocError>
    ensures { IfOk result (λ octets. octets.items ≡ crl_encoding (crl_row stored.now)) }
{
    let row = row_of(stored.id, stored.crl.octets().len(), stored.crl.view());
    let mut octets = Vec::new(alloc);
    row.write(&mut octets)?;
    Ok(octets)
}
