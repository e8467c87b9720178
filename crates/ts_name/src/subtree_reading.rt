//! Reading a general subtree, and the rules of a constraint.

ghost use Rattle.std.specs.Prelude.{◌≡◌, IfOk, IsOkAnd, option_map};
ghost use Rattle.ts_der.specs.Answer.{Answers, refusal};
ghost use Rattle.ts_der.specs.Element.{inside};
ghost use Rattle.ts_der.specs.View.{now};
ghost use Rattle.ts_shape.specs.Fault.{about};
ghost use Rattle.ts_shape.specs.Fields.{optional_of};
ghost use Rattle.ts_name.specs.General.{has_range_length};
ghost use Rattle.ts_name.specs.GeneralView.{general_in};
ghost use Rattle.ts_shape.specs.Shape.{judge};
ghost use Rattle.ts_shape.specs.Steps.{Takes};
ghost use Rattle.ts_name.specs.Subtree.{GeneralSubtree, is_unbounded, IsSubtree, IsConstraint};
ghost use Rattle.ts_name.specs.Subtree.{minimum_of, maximum_of, subtree_of, constraint_by_rules};
ghost use Rattle.ts_name.specs.Subtree.{constraint_of};
ghost use Rattle.ts_name.specs.SubtreeTable.{subtree_fields, constraint_fault};
ghost use Rattle.ts_name.specs.SubtreeView.{subtree_in};

use crate::general::General;
use crate::subtree::Subtree;
use ts_der::tag::SEQUENCE;
use ts_der::{DerFault, Element, Fault, Integer, Reader};
use ts_shape::{CertFault, CertRule, FromElement, tagged_as};

const MINIMUM: u8 = 0x80;

const MAXIMUM: u8 = 0x81;

/// A minimum that is encoded, and so is not the default 0.
#[inline(always)]
fn read_minimum<'a>(element: Element<'a>) -> Result<Integer<'a>, Fault>
    ensures { Answers (λ i. i.octets.now) result (minimum_of (now element.entry)) }
{
    let minimum = element.integer()?;
    match minimum.octets {
        [0] => Err(Fault {
            kind: DerFault::DefaultEncoded,
            at: element.at,
        }),
        _ => Ok(minimum),
    }
}

/// The minimum, if one is next, which the reader has then passed.
#[tactic(auto, using(ts_shape::proofs::OptionalReads::optional_fails, ts_shape::proofs::OptionalReads::optional_is_absent, ts_shape::proofs::OptionalReads::optional_reads, ts_shape::proofs::OptionalReads::optional_refuses))]
#[inline(always)]
fn next_minimum<'a>(fields: &mut Reader<'a>) -> Result<Option<Integer<'a>>, Fault>
    ensures { Takes (λ m. option_map (λ i. i.octets.now) m) fields.new result
        (optional_of 0x80 minimum_of fields.old) }
{
    match fields.optional(MINIMUM)? {
        Some(element) => Ok(Some(read_minimum(element)?)),
        None => Ok(None),
    }
}

/// The maximum, if one is next, which the reader has then passed.
#[tactic(auto, using(ts_shape::proofs::OptionalReads::optional_fails, ts_shape::proofs::OptionalReads::optional_is_absent, ts_shape::proofs::OptionalReads::optional_reads, ts_shape::proofs::OptionalReads::optional_refuses))]
#[inline(always)]
fn next_maximum<'a>(fields: &mut Reader<'a>) -> Result<Option<Integer<'a>>, Fault>
    ensures { Takes (λ m. option_map (λ i. i.octets.now) m) fields.new result
        (optional_of 0x81 maximum_of fields.old) }
{
    match fields.optional(MAXIMUM)? {
        Some(element) => Ok(Some(element.integer()?)),
        None => Ok(None),
    }
}

/// The subtree that a SEQUENCE is.
#[tactic(auto, unfolding(crate::specs::Subtree::subtree_of, ts_shape::specs::Items::each))]
#[inline(always)]
fn read_subtree<'a>(element: Element<'a>) -> Result<Subtree<'a>, Fault>
    ensures { Answers subtree_in result (subtree_of (now element.entry)) }
{
    let mut fields = element.reader();
    let base = General::read(fields.next()?)?;
    let minimum = next_minimum(&mut fields)?;
    let maximum = next_maximum(&mut fields)?;
    fields.end()?;
    Ok(Subtree {
        base,
        minimum,
        maximum,
    })
}

/// Nothing, where a subtree has no bounds and its IP address a mask (RFC 5280 4.2.1.10).
#[tactic(auto, unfolding(crate::specs::Subtree::constraint_by_rules))]
fn check_constraint(subtree: Subtree<'_>) -> Result<(), CertFault>
    ensures { refusal result ≡ refusal (constraint_by_rules (subtree_in subtree.entry)) }
{
    if !subtree.is_unbounded() {
        return Err(CertFault {
            kind: CertRule::SubtreeBounds,
            at: 0,
        });
    }
    if !subtree.has_address_length() {
        return Err(CertFault {
            kind: CertRule::AddressLength,
            at: 0,
        });
    }
    Ok(())
}

/// The subtree of a constraint that octets are, with nothing after it.
#[tactic(auto, unfolding(crate::specs::Subtree::constraint_of, crate::specs::Subtree::constraint_by_rules))]
fn read_constraint(octets: &[u8]) -> Result<Subtree<'_>, CertFault>
    ensures { Answers subtree_in result (constraint_of octets.now) }
{
    let mut reader = Reader::new(octets);
    let subtree = read_subtree(reader.element(SEQUENCE)?)?;
    reader.end()?;
    check_constraint(subtree)?;
    Ok(subtree)
}

impl<'a> Subtree<'a> {
    /// The subtree that a SEQUENCE is, or the first rule that is broken, at its place: those of
    /// `General::read`, of minimum and maximum `IntegerForm`, a minimum 0 that is encoded
    /// (`DefaultEncoded`), and `Trailing`. The tag is not looked at.
    pub fn read_element(element: Element<'a>) -> Result<Subtree<'a>, Fault>
        ensures found { IfOk result (λ subtree. IsSubtree element.entry.content.now
            (subtree_in subtree)) }
        ensures only { (subtree : GeneralSubtree) → IsSubtree element.entry.content.now subtree
            → IsOkAnd result (λ read. subtree_in read ≡ subtree) }
        ensures fault { option_map about (refusal result)
            ≡ judge subtree_fields (inside (now element.entry)) }
        ensures exact { Answers subtree_in result (subtree_of (now element.entry)) }
    {
        read_subtree(element)
    }

    /// The subtree of a constraint that octets are, or the first rule that is broken: those of
    /// `read_element`, with `Trailing`; then `SubtreeBounds` where it has a minimum other than 0 or
    /// a maximum, then `AddressLength`, both with place 0.
    pub fn read(octets: &'a [u8]) -> Result<Subtree<'a>, CertFault>
        ensures found { IfOk result (λ subtree. IsConstraint octets.now (subtree_in subtree)) }
        ensures only { (subtree : GeneralSubtree) → IsConstraint octets.now subtree
            → IsOkAnd result (λ read. subtree_in read ≡ subtree) }
        ensures fault { refusal result ≡ constraint_fault octets.now }
    {
        read_constraint(octets)
    }

    /// The name at which the subtree begins.
    pub fn base(self) -> General<'a>
        ensures { general_in result ≡ (subtree_in self.entry).base }
    {
        self.base
    }

    /// Whether the minimum is zero and there is no maximum, as RFC 5280 4.2.1.10 wants; else the
    /// rule `SubtreeBounds` is broken.
    pub fn is_unbounded(self) -> bool
        ensures { result ≡ is_unbounded (subtree_in self.entry) }
    {
        let from_base = match self.minimum {
            Some(minimum) => matches!(minimum.octets, [0]),
            None => true,
        };
        from_base && self.maximum.is_none()
    }

    /// Whether an IP address in a constraint has 8 octets or 32 (RFC 5280 4.2.1.10); else the rule
    /// `AddressLength` is broken. Of the other forms of a name that is true.
    pub fn has_address_length(self) -> bool
        ensures { result ≡ has_range_length (subtree_in self.entry).base }
    {
        self.base.has_range_length()
    }
}

impl<'a> FromElement<'a> for Subtree<'a> {
    ghost use Rattle.std.specs.Prelude.{[]};
    ghost use Rattle.ts_shape.specs.Items.{of_tag};
    ghost use Rattle.ts_name.specs.Subtree.{GeneralSubtree, subtree_of};
    ghost use Rattle.ts_name.specs.SubtreeView.{subtree_in};

    ghost Record = { GeneralSubtree };

    ghost record_of = { subtree_in };

    ghost reading = { of_tag 0x30 subtree_of };

    ghost key_of = { λ _. [] };

    #[tactic(auto, unfolding(ts_shape::specs::Items::of_tag))]
    #[inline(always)]
    fn read(element: Element<'a>) -> Result<Subtree<'a>, Fault> {
        read_subtree(tagged_as(element, SEQUENCE)?)
    }
}
