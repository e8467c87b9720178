//! Entries by their serial numbers alone.

ghost use Rattle.ts_der.specs.Answer.{Answers};
ghost use Rattle.ts_der.specs.View.{now};
ghost use Rattle.ts_crl.specs.inside.Marks.{mark_of};
ghost use Rattle.ts_crl.specs.inside.MarkView.{mark_as};

use ts_der::tag::INTEGER;
use ts_der::{Element, Fault};
use ts_shape::FromElement;

/// An entry of a CRL that was read before, of which no more is read again than its serial number.
#[derive(Clone, Copy)]
pub(crate) struct Mark<'a> {
    /// The content octets of the serial number.
    pub serial_number: &'a [u8],
    /// The entry.
    pub entry: Element<'a>,
}

impl<'a> FromElement<'a> for Mark<'a> {
    ghost use Rattle.ts_crl.specs.inside.Marks.{Mark as Stated, mark_of as reading_of};

    ghost Record = { Stated };

    ghost record_of = { mark_as };

    ghost reading = { reading_of };

    ghost key_of = { λ m. m.userCertificate };

    fn read(element: Element<'a>) -> Result<Mark<'a>, Fault> {
        read_mark(element)
    }
}

/// The serial number of the entry that an element is. It is refused where its content does not
/// begin with an INTEGER; what follows that is not read.
#[tactic(auto, unfolding(crate::specs::inside::Marks::mark_of))]
fn read_mark<'a>(element: Element<'a>) -> Result<Mark<'a>, Fault>
    ensures { Answers mark_as result (mark_of (now element.entry)) }
{
    let mut fields = element.reader();
    let serial = fields.element(INTEGER)?;
    Ok(Mark {
        serial_number: serial.content,
        entry: element,
    })
}
