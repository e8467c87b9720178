//! What a CRL covers (RFC 5280 5.2.5).

ghost use Rattle.std.specs.Prelude.{◌≡◌, ◌++◌, IfOk, List, OnOk, map, option_map, ℕ};
ghost use Rattle.ts_der.specs.BitsView.{bits_in};
ghost use Rattle.ts_ext.specs.NamedBits.{bit, flag_number};
ghost use Rattle.ts_ext.specs.NameViews.{issuing_point_in, names_in, point_name_in};
ghost use Rattle.ts_line.specs.Lines.{hex, printable};
ghost use Rattle.ts_line.specs.Names.{general_text};
ghost use Rattle.ts_line.specs.Scopes.{IsScopeText, behind_commas, first_reasons, last_reasons};
ghost use Rattle.ts_line.specs.Scopes.{listed, point_items, reason_items, scope_items};
ghost use Rattle.ts_line.specs.Scopes.{scope_text, word_if};

use crate::line::Line;
use crate::name::write_general;
use std::alloc::{AllocError, Global};
use ts_der::Reader;
use ts_der::tag::SEQUENCE;
use ts_ext::{IssuingDistributionPoint, PointName, ReasonFlag as Flag, ReasonFlags};
use ts_name::GeneralNames;

/// Writes a comma and a word, where the word is to be written.
fn word_if(items: &mut Line, is_there: bool, word: &str) -> Result<(), AllocError>
    ensures { OnOk result (items.new ≡ items.old
        ++ behind_commas (word_if is_there (printable word.now))) }
{
    if !is_there {
        return Ok(());
    }
    items.text(b",")?;
    items.text(word.as_bytes())
}

/// Writes general names, each behind a comma.
fn write_names(alloc: Global, items: &mut Line, names: GeneralNames<'_>) -> Result<(), AllocError>
    ensures { OnOk result (items.new ≡ items.old
        ++ behind_commas (map general_text (names_in names.entry))) }
{
    for name in names.iter() {
        items.text(b",")?;
        write_general(alloc, items, name)?;
    }
    Ok(())
}

/// Writes the names of a distribution point; of a relative one that it is one.
fn write_point_name(
    alloc: Global,
    items: &mut Line,
    name: Option<PointName<'_>>,
) -> Result<(), AllocError>
    ensures { OnOk result (items.new ≡ items.old
        ++ behind_commas (point_items (option_map point_name_in name.entry))) }
{
    match name {
        Some(PointName::FullName(names)) => write_names(alloc, items, names),
        Some(PointName::RelativeName(_)) => word_if(items, true, "relative"),
        None => Ok(()),
    }
}

/// Writes a comma and the name of a reason, where the reason is among these.
fn reason_if(
    items: &mut Line,
    set: ReasonFlags<'_>,
    flag: Flag,
    name: &str,
) -> Result<(), AllocError>
    ensures { OnOk result (items.new ≡ items.old ++ behind_commas
        (word_if (bit (flag_number flag) (bits_in set.entry.bits)) (printable name.now))) }
{
    word_if(items, set.contains(flag), name)
}

/// Writes the first four reasons that are among these (RFC 5280 4.2.1.13).
fn write_first_reasons(items: &mut Line, set: ReasonFlags<'_>) -> Result<(), AllocError>
    ensures { OnOk result (items.new ≡ items.old
        ++ behind_commas (first_reasons (bits_in set.entry.bits))) }
{
    reason_if(items, set, Flag::KeyCompromise, "keyCompromise")?;
    reason_if(items, set, Flag::CaCompromise, "cACompromise")?;
    reason_if(items, set, Flag::AffiliationChanged, "affiliationChanged")?;
    reason_if(items, set, Flag::Superseded, "superseded")
}

/// Writes the other four.
fn write_last_reasons(items: &mut Line, set: ReasonFlags<'_>) -> Result<(), AllocError>
    ensures { OnOk result (items.new ≡ items.old
        ++ behind_commas (last_reasons (bits_in set.entry.bits))) }
{
    let name = "cessationOfOperation";
    reason_if(items, set, Flag::CessationOfOperation, name)?;
    reason_if(items, set, Flag::CertificateHold, "certificateHold")?;
    reason_if(items, set, Flag::PrivilegeWithdrawn, "privilegeWithdrawn")?;
    reason_if(items, set, Flag::AaCompromise, "aACompromise")
}

/// Writes reasons by their names, where there are any.
fn write_reasons(items: &mut Line, reasons: Option<ReasonFlags<'_>>) -> Result<(), AllocError>
    ensures { OnOk result (items.new ≡ items.old
        ++ behind_commas (reason_items (option_map (λ r. bits_in r.bits) reasons.entry))) }
{
    let Some(set) = reasons else {
        return Ok(());
    };
    write_first_reasons(items, set)?;
    write_last_reasons(items, set)
}

/// What a CRL covers, each item behind a comma.
fn items_of(alloc: Global, point: IssuingDistributionPoint<'_>) -> Result<Line, AllocError>
    ensures { IfOk result (λ items. items
        ≡ behind_commas (scope_items (issuing_point_in point.entry))) }
{
    let mut items = Line::new(alloc);
    write_point_name(alloc, &mut items, point.name)?;
    word_if(&mut items, point.only_user_certs, "users")?;
    word_if(&mut items, point.only_ca_certs, "authorities")?;
    word_if(&mut items, point.only_attribute_certs, "attributes")?;
    word_if(&mut items, point.indirect_crl, "indirect")?;
    write_reasons(&mut items, point.only_some_reasons)?;
    Ok(items)
}

/// Writes items that stand behind a comma each with a comma between each two; a hyphen where there
/// are none.
fn write_items(line: &mut Line, items: &Line) -> Result<(), AllocError>
    ensures { OnOk result ((list : List (List ℕ)) → items.now ≡ behind_commas list
        → line.new ≡ line.old ++ listed list) }
{
    match items.as_slice() {
        [_, rest @ ..] => line.shown(rest),
        [] => line.text(b"-"),
    }
}

/// Writes what a CRL covers: the names of the list, `users`, `authorities`, `attributes` where it
/// has their certificates alone, `indirect`, and the reasons that it is for, a comma between each
/// two; of one that says none of these a hyphen.
pub fn write_point(
    alloc: Global,
    line: &mut Line,
    point: IssuingDistributionPoint<'_>,
) -> Result<(), AllocError>
    ensures { OnOk result (line.new ≡ line.old ++ scope_text (issuing_point_in point.entry)) }
{
    let items = items_of(alloc, point)?;
    write_items(line, &items)
}

/// Octets in hexadecimal digits.
fn hex_line(alloc: Global, octets: &[u8]) -> Result<Line, AllocError>
    ensures { IfOk result (λ line. line ≡ hex octets.now) }
{
    let mut line = Line::new(alloc);
    line.hex(octets)?;
    Ok(line)
}

/// What a CRL covers, of which the octets are the value of its issuingDistributionPoint; of other
/// octets their hexadecimal digits.
///
/// # Errors
///
/// Out of memory.
pub fn scope_line(alloc: Global, octets: &[u8]) -> Result<Line, AllocError>
    ensures { IfOk result (IsScopeText octets.now) }
{
    let mut reader = Reader::new(octets);
    let Ok(element) = reader.element(SEQUENCE) else {
        return hex_line(alloc, octets);
    };
    let Ok(point) = IssuingDistributionPoint::read(element) else {
        return hex_line(alloc, octets);
    };
    let mut line = Line::new(alloc);
    write_point(alloc, &mut line, point)?;
    Ok(line)
}
