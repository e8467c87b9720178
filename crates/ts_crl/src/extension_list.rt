//! Extensions whose shape was checked.

ghost use Rattle.std.specs.Prelude.{◌≡◌};
ghost use Rattle.ts_der.specs.Answer.{Answers};
ghost use Rattle.ts_der.specs.View.{now};
ghost use Rattle.ts_shape.specs.Items.{some_of};
ghost use Rattle.ts_extensions.specs.Extension.{located_in};
ghost use Rattle.ts_extensions.specs.ExtensionView.{all_located_in};
ghost use Rattle.ts_crl.specs.EntryView.{located_items_in};

use ts_der::{Element, Fault};
use ts_extensions::{Extension, Extensions};
use ts_shape::SequenceOf;

/// One extension or more. The language's borrow checker can't hand on a struct that holds
/// `Extensions`, so that this keeps the SEQUENCE alone.
#[derive(Clone, Copy)]
pub(crate) struct ExtensionList<'a> {
    pub element: Element<'a>,
}

impl<'a> ExtensionList<'a> {
    /// The extensions that a SEQUENCE's content is, whatever their values say.
    pub(crate) fn read(element: Element<'a>) -> Result<ExtensionList<'a>, Fault>
        ensures { Answers located_items_in result (some_of located_in (now element.entry)) }
    {
        SequenceOf::<Extension<'a>>::read(element)?;
        Ok(ExtensionList { element })
    }

    /// The extensions.
    pub(crate) fn extensions(self) -> Extensions<'a>
        ensures { all_located_in result ≡ located_items_in self.entry }
    {
        Extensions::within(self.element)
    }
}
