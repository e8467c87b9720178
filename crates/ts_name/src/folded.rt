//! Text in canonical form (RFC 5280 7.1), without allocation.

ghost use Rattle.std.specs.Prelude.{◌≡◌, ◌↔◌, IsTrue};
ghost use Rattle.ts_name.specs.Canon.{canonical_text};
ghost use Rattle.ts_name.specs.inside.Gaps.{at_word};

/// Whether a text begins with an octet other than 20.
fn begins_word(text: &[u8]) -> bool
    ensures { result ≡ at_word text.now }
{
    text.first().is_some_and(|octet| *octet != b' ')
}

/// The octets of a text in canonical form, from front to back.
#[derive(Clone, Copy, Debug)]
pub(crate) struct FoldedText<'a> {
    rest: &'a [u8],
}

impl<'a> FoldedText<'a> {
    ghost use Rattle.ts_name.specs.inside.Folding.{octets_left};

    /// The canonical form of a text, from its first octet on; spaces at the front are skipped.
    pub(crate) fn new(text: &'a [u8]) -> Self
        ensures { octets_left result ≡ canonical_text text.now }
    {
        let mut rest = text;
        while let [b' ', after @ ..] = rest {
            rest = after;
        }
        FoldedText { rest }
    }
}

impl Iterator for FoldedText<'_> {
    ghost use Rattle.std.specs.Iterator.{YieldsFirst, item_count};
    ghost use Rattle.ts_name.specs.inside.Folding.{octets_left};

    type Item = u8;

    ghost next_gives = { YieldsFirst octets_left };

    ghost remaining = { item_count octets_left };

    fn next(&mut self) -> Option<u8> {
        while let [octet, rest @ ..] = self.rest {
            self.rest = rest;
            if *octet != b' ' || begins_word(rest) {
                return Some(octet.to_ascii_lowercase());
            }
        }
        None
    }
}

/// Whether two texts are one in canonical form: they have the same words, the letters A to Z
/// counting as a to z.
pub fn same_text(a: &[u8], b: &[u8]) -> bool
    ensures { IsTrue result ↔ (canonical_text a.now ≡ canonical_text b.now) }
{
    FoldedText::new(a).eq(FoldedText::new(b))
}
