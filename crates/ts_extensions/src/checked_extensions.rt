//! Extensions that are read and checked in one walk.

ghost use Rattle.std.specs.Prelude.{◌≡◌, List, [], true, None, IfOk, IsOkAnd, option_map};
ghost use Rattle.ts_der.specs.Answer.{Answers, refusal};
ghost use Rattle.ts_der.specs.Element.{inside};
ghost use Rattle.ts_der.specs.View.{now};
ghost use Rattle.ts_shape.specs.Fault.{about};
ghost use Rattle.ts_shape.specs.Items.{items_at};
ghost use Rattle.ts_shape.specs.Repeats.{first_repeated as first_repeated_of};
ghost use Rattle.ts_shape.specs.Shape.{no_rules};
ghost use Rattle.ts_ext.specs.Inner.{inner_fault};
ghost use Rattle.ts_extensions.specs.Extension.{Extension as Stated, AreExplicit, located_in};
ghost use Rattle.ts_extensions.specs.Extension.{all_located_of, explicit_all_located_of};
ghost use Rattle.ts_extensions.specs.Extension.{explicit_extensions};
ghost use Rattle.ts_extensions.specs.ExtensionView.{all_located_in, extensions_in};
ghost use Rattle.ts_extensions.specs.ValueRules.{values_fault, extension_list_fault};

use crate::extension::{Extension, read_extension};
use crate::extensions::Extensions;
use crate::fast::fast_arc;
use crate::fast_list::have_ends_of_their_own;
use ts_der::tag::SEQUENCE;
use ts_der::{DerFault, Element, Fault};
use ts_ext::Holder;
use ts_shape::{CertFault, CertRule, Keyed, LastOctets, first_repeated, tagged_as};

/// Extensions that were read, and the first rule that they break.
#[derive(Clone, Copy)]
pub struct CheckedExtensions<'a> {
    pub extensions: Extensions<'a>,
    /// `DuplicateExtension` at the first extension that occurs twice, else the first rule that a
    /// value breaks, as `Extensions::broken_rule` finds it.
    pub fault: Option<CertFault>,
}

impl<'a> CheckedExtensions<'a> {
    /// The list that the one SEQUENCE within an explicit tag is, and the first rule that it breaks
    /// in a holder. A list is walked once, if its object identifiers end in octets of their own;
    /// else it is then searched for one that stands twice.
    ///
    /// # Errors
    ///
    /// The first rule of the shape that is broken, with its place: the header and the tag of the
    /// SEQUENCE, the rules of `Extensions::read`, and `Trailing`.
    pub fn read_explicit(
        element: Element<'a>,
        holder: Holder,
    ) -> Result<CheckedExtensions<'a>, Fault>
        ensures found { IfOk result (λ j. AreExplicit element.entry.content.now
            (extensions_in j.extensions)) }
        ensures only { (xs : List Stated) → AreExplicit element.entry.content.now xs
            → IsOkAnd result (λ j. extensions_in j.extensions ≡ xs) }
        ensures fault { option_map about (refusal result)
            ≡ inner_fault explicit_extensions no_rules (now element.entry) }
        // The same with the place of each.
        ensures placed { Answers (λ j. all_located_in j.extensions) result
            (explicit_all_located_of (now element.entry)) }
        ensures judged { IfOk result (λ j. j.fault
            ≡ extension_list_fault holder (all_located_in j.extensions)) }
    {
        judge_explicit(element, holder)
    }
}

/// The extensions in the one SEQUENCE that an explicit tag holds, with the first rule that they
/// break in a holder. It is refused where the shape is wrong or something follows the SEQUENCE.
#[tactic(auto, unfolding(ts_shape::specs::Items::alone, ts_shape::specs::Items::each, ts_shape::specs::Items::of_tag))]
#[inline(always)]
fn judge_explicit<'a>(element: Element<'a>, holder: Holder) -> Result<CheckedExtensions<'a>, Fault>
    ensures placed { Answers (λ j. all_located_in j.extensions) result
        (explicit_all_located_of (now element.entry)) }
    ensures judged { IfOk result (λ j. j.fault ≡ extension_list_fault
        holder (all_located_in j.extensions)) }
{
    let mut rest = element.reader();
    let judged = judge(tagged_as(rest.next()?, SEQUENCE)?, holder)?;
    rest.end()?;
    Ok(judged)
}

/// The list that a SEQUENCE's content is, and the first rule that it breaks. Most lists of
/// certificates break none, which the fast path sees.
#[inline(always)]
fn judge<'a>(element: Element<'a>, holder: Holder) -> Result<CheckedExtensions<'a>, Fault>
    ensures placed { Answers (λ j. all_located_in j.extensions) result
        (all_located_of (now element.entry)) }
    ensures judged { IfOk result (λ j. j.fault ≡ extension_list_fault
        holder (all_located_in j.extensions)) }
{
    match holder {
        Holder::Certificate if have_ends_of_their_own(element.content) => Ok(CheckedExtensions {
            extensions: Extensions::within(element),
            fault: None,
        }),
        _ => judge_each(element, holder),
    }
}

/// The list that a SEQUENCE's content is, and the first rule that it breaks, without the fast path.
#[inline(always)]
pub(crate) fn judge_each<'a>(
    element: Element<'a>,
    holder: Holder,
) -> Result<CheckedExtensions<'a>, Fault>
    ensures placed { Answers (λ j. all_located_in j.extensions) result
        (all_located_of (now element.entry)) }
    ensures judged { IfOk result (λ j. j.fault ≡ extension_list_fault
        holder (all_located_in j.extensions)) }
{
    let fault = fault_of_list(element, holder)?;
    Ok(CheckedExtensions {
        extensions: Extensions::within(element),
        fault,
    })
}

/// The first rule that the extensions of a list break, where they can be read. Only a list of which
/// two object identifiers end alike is searched for one that occurs twice.
fn fault_of_list(element: Element<'_>, holder: Holder) -> Result<Option<CertFault>, Fault>
    ensures shape { refusal result ≡ refusal (all_located_of (now element.entry)) }
    ensures fault { IfOk result (λ fault. fault
        ≡ extension_list_fault holder (items_at located_in (inside (now element.entry)))) }
{
    let findings = walk(element, holder)?;
    if findings.have_ends_of_their_own {
        return Ok(findings.fault);
    }
    match first_repeated::<Extension<'_>>(element) {
        Some(extension) => Ok(Some(CertFault {
            kind: CertRule::DuplicateExtension,
            at: extension.at,
        })),
        None => Ok(findings.fault),
    }
}

/// What a walk over the extensions of a list finds.
#[derive(Clone, Copy)]
struct Findings {
    /// The first rule that a value breaks.
    fault: Option<CertFault>,
    /// Whether no two object identifiers end in one octet, so that none occurs twice.
    have_ends_of_their_own: bool,
}

/// Walks the extensions of a list.
fn walk(list: Element<'_>, holder: Holder) -> Result<Findings, Fault>
    ensures shape { refusal result ≡ refusal (all_located_of (now list.entry)) }
    ensures fault { IfOk result (λ found. found.fault
        ≡ values_fault holder (items_at located_in (inside (now list.entry)))) }
    ensures ends { IfOk result (λ found. found.have_ends_of_their_own ≡ true
        → first_repeated_of (λ x. x.extnID) [] (items_at located_in (inside (now list.entry)))
        ≡ None) }
{
    let mut rest = list.reader();
    let mut ends = LastOctets::new();
    let mut found = Findings {
        fault: None,
        have_ends_of_their_own: true,
    };
    while !rest.is_at_end() {
        let element = rest.element(SEQUENCE)?;
        found = match fast_arc(element, holder) {
            Some(arc) => found.with_key(&mut ends, &[0x55, 0x1D, arc]),
            None => {
                let extension = read_extension(element)?;
                found.with(&mut ends, holder, extension)
            }
        };
    }
    if list.content.is_empty() {
        return Err(Fault {
            kind: DerFault::Empty,
            at: list.at,
        });
    }
    Ok(found)
}

impl Findings {
    ghost use Rattle.std.specs.Prelude.{◌≡◌, ◌∷◌, ℕ, List, true, false};
    ghost use Rattle.ts_shape.specs.Repeats.{HaveEnds, is_among};
    ghost use Rattle.ts_shape.specs.Shape.{◌or_else◌};
    ghost use Rattle.ts_extensions.specs.ExtensionView.{located_as};
    ghost use Rattle.ts_extensions.specs.ValueRules.{value_fault};

    /// What is found with one extension more, of this object identifier, whose value breaks no
    /// rule.
    #[inline(always)]
    fn with_key(self, ends: &mut LastOctets, key: &[u8]) -> Findings
        ensures fault { result.fault ≡ self.fault }
        ensures before { result.have_ends_of_their_own ≡ true → self.have_ends_of_their_own ≡ true }
        ensures new { (keys : List (List ℕ)) → HaveEnds keys ends.old
            → result.have_ends_of_their_own ≡ true → is_among key.now keys ≡ false }
        ensures met { (keys : List (List ℕ)) → HaveEnds keys ends.old
            → HaveEnds (key.now ∷ keys) ends.new }
    {
        let is_new = ends.is_new(key);
        Findings {
            have_ends_of_their_own: is_new && self.have_ends_of_their_own,
            ..self
        }
    }

    /// What is found with one extension more.
    #[inline(always)]
    fn with(self, ends: &mut LastOctets, holder: Holder, extension: Extension<'_>) -> Findings
        ensures fault { result.fault ≡
            (self.fault or_else value_fault holder (located_as extension.entry)) }
        ensures before { result.have_ends_of_their_own ≡ true → self.have_ends_of_their_own ≡ true }
        ensures new { (keys : List (List ℕ)) → HaveEnds keys ends.old
            → result.have_ends_of_their_own ≡ true
            → is_among (located_as extension.entry).extnID keys ≡ false }
        ensures met { (keys : List (List ℕ)) → HaveEnds keys ends.old
            → HaveEnds ((located_as extension.entry).extnID ∷ keys) ends.new }
    {
        let found = self.with_key(ends, extension.key());
        Findings {
            fault: match found.fault {
                Some(fault) => Some(fault),
                None => extension.first_fault(holder),
            },
            ..found
        }
    }
}
