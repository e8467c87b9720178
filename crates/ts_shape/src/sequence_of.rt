//! SEQUENCE OF and SET OF with one item or more, checked once and then walked.

ghost use Rattle.std.specs.Prelude.{◌≡◌};
ghost use Rattle.std.specs.Iterator.{YieldsFirstBy, item_count};
ghost use Rattle.ts_der.specs.Answer.{Answers, refusal};
ghost use Rattle.ts_der.specs.Element.{inside};
ghost use Rattle.ts_der.specs.View.{now};
ghost use Rattle.ts_shape.specs.Items.{tagged_as as tagged_as_of, each, some_of, items_at};
ghost use Rattle.ts_shape.specs.Steps.{Takes};

use std::marker::PhantomData;
use ts_der::tag::OBJECT_IDENTIFIER;
use ts_der::{DerFault, Element, Fault, OidRef, Reader};

/// What an element can be read as, by its tag and its content.
pub trait FromElement<'a>: Sized + Drop {
    ghost use Rattle.std.specs.Prelude.{ℕ, List, Result};
    ghost use Rattle.ts_der.specs.declared.fault.Fault.{Fault};
    ghost use Rattle.ts_der.specs.Answer.{Answers};
    ghost use Rattle.ts_der.specs.Element.{Tlv};
    ghost use Rattle.ts_der.specs.View.{now};

    /// What contracts see of a value.
    ghost Record: { Type 0 };

    ghost record_of: { Self → Record };

    /// What an element is read as.
    ghost reading: { Tlv → Result Record Fault };

    /// The octets by which a value is known among others, none unless it is `Keyed`.
    ghost key_of: { Record → List ℕ };

    /// The value that an element is, or the first rule that is broken.
    fn read(element: Element<'a>) -> Result<Self, Fault>
        ensures { Answers record_of result (reading (now element.entry)) };
}

/// An element, if it has this tag; else `WrongTag`.
#[tactic(auto, unfolding(crate::specs::Items::tagged_as))]
pub fn tagged_as<'a>(element: Element<'a>, tag: u8) -> Result<Element<'a>, Fault>
    ensures { Answers now result (tagged_as_of tag (now element.entry)) }
{
    if element.tag != tag {
        return Err(Fault {
            kind: DerFault::WrongTag,
            at: element.at,
        });
    }
    Ok(element)
}

impl<'a> FromElement<'a> for OidRef<'a> {
    ghost use Rattle.std.specs.Prelude.{ℕ, List};
    ghost use Rattle.ts_der.specs.ObjectIdentifier.{oid_rules};
    ghost use Rattle.ts_der.specs.Reading.{value_at};
    ghost use Rattle.ts_shape.specs.Items.{of_tag};

    ghost Record = { List ℕ };

    ghost record_of = { λ oid. oid.content.now };

    ghost reading = { of_tag 6 (value_at oid_rules (λ c. c)) };

    ghost key_of = { λ c. c };

    #[tactic(auto, unfolding(crate::specs::Items::of_tag))]
    fn read(element: Element<'a>) -> Result<OidRef<'a>, Fault> {
        tagged_as(element, OBJECT_IDENTIFIER)?.oid()
    }
}

/// The items within an element, of which there is one or more (X.680 26).
#[derive(Clone, Copy)]
pub struct SequenceOf<'a, T> {
    /// The element whose content the items are.
    pub element: Element<'a>,
    item: PhantomData<T>,
}

/// The items of a SEQUENCE OF that are left, in their order.
#[derive(Drop)]
pub struct SequenceItems<'a, T> {
    /// Where they stand.
    pub rest: Reader<'a>,
    item: PhantomData<T>,
}

impl<'a, T> SequenceItems<'a, T> {
    /// The items within an element, up to the first that can't be read.
    pub fn within(element: Element<'a>) -> SequenceItems<'a, T>
        ensures { result.rest ≡ inside (now element.entry) }
    {
        SequenceItems {
            rest: element.reader(),
            item: PhantomData,
        }
    }

    /// The same items once more.
    pub fn fork(&self) -> SequenceItems<'a, T>
        ensures { result.rest ≡ self.now.rest }
    {
        SequenceItems {
            rest: self.rest.fork(),
            item: PhantomData,
        }
    }
}

impl<'a, T: FromElement<'a>> Iterator for SequenceItems<'a, T> {
    type Item = T;

    ghost next_gives = { YieldsFirstBy T.record_of (λ items. items_at T.reading items.rest) };

    ghost remaining = { item_count (λ items. items_at T.reading items.rest) };

    #[inline(always)]
    fn next(&mut self) -> Option<T> {
        if self.rest.is_at_end() {
            return None;
        }
        match next_item(&mut self.rest) {
            Ok(item) => Some(item),
            Err(_) => {
                self.rest = Reader::new(&[]);
                None
            }
        }
    }
}

impl<'a, T> SequenceOf<'a, T> {
    /// The items within an element that `read` has accepted before. Of another element they are
    /// those up to the first that can't be read.
    pub fn within(element: Element<'a>) -> SequenceOf<'a, T>
        ensures { result.element ≡ element.entry }
    {
        SequenceOf {
            element,
            item: PhantomData,
        }
    }
}

impl<'a, T: FromElement<'a>> SequenceOf<'a, T> {
    /// The items that an element's content is, or the first rule that is broken: of each item in
    /// turn, and then
    /// `Empty` at the element where there is none. The element's tag is not looked at.
    pub fn read(element: Element<'a>) -> Result<SequenceOf<'a, T>, Fault>
        ensures { Answers (λ x. items_at T.reading (inside (now x.element))) result
            (some_of T.reading (now element.entry)) }
    {
        check_items::<T>(element)?;
        Ok(SequenceOf {
            element,
            item: PhantomData,
        })
    }

    /// The items, in their order.
    pub fn iter(self) -> SequenceItems<'a, T>
        ensures { result.rest ≡ inside (now self.entry.element) }
    {
        SequenceItems::within(self.element)
    }
}

/// The items of an element, one after another, and that there is one.
fn check_items<'a, T: FromElement<'a>>(element: Element<'a>) -> Result<(), Fault>
    ensures { refusal result ≡ refusal (some_of T.reading (now element.entry)) }
{
    let mut rest = element.reader();
    while !rest.is_at_end() {
        next_item::<T>(&mut rest)?;
    }
    if element.content.is_empty() {
        return Err(Fault {
            kind: DerFault::Empty,
            at: element.at,
        });
    }
    Ok(())
}

/// The item that the next element is, which the reader has then passed.
#[tactic(auto, unfolding(crate::specs::Items::each))]
#[inline(always)]
pub fn next_item<'a, T: FromElement<'a>>(rest: &mut Reader<'a>) -> Result<T, Fault>
    ensures { Takes T.record_of rest.new result (each T.reading rest.old) }
{
    T::read(rest.next()?)
}
