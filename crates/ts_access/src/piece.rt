//! Texts in pieces.

ghost use Rattle.std.specs.Prelude.{◌≡◌, ◌∷◌, ◌<◌, [], IfSome, MatchOption, length, option_map};
ghost use Rattle.ts_access.specs.Pieces.{is_mark, pieces_behind, pieces_of, words_behind};

/// Where a text is cut.
#[derive(Clone, Copy, Debug, PartialEq, Eq)]
pub(crate) enum Mark {
    /// Between lines.
    LineFeed,
    /// Between words: a space or a tab.
    Blank,
}

impl Mark {
    /// Whether an octet is this mark.
    fn is_at(self, octet: u8) -> bool
        ensures { result ≡ is_mark self octet }
    {
        match self {
            Mark::LineFeed => octet == b'\n',
            Mark::Blank => octet == b' ' || octet == b'\t',
        }
    }
}

/// The octets up to the first mark, and those after it where there is one.
pub(crate) fn first_piece(octets: &[u8], mark: Mark) -> (&[u8], Option<&[u8]>)
    ensures pieces { pieces_of mark octets.now
        ≡ result.0.now ∷ pieces_behind mark (option_map (λ rest. rest.now) result.1) }
    ensures fewer { IfSome result.1 (λ rest. length rest.now < length octets.now) }
{
    for at in 0..octets.len() {
        if mark.is_at(octets[at]) {
            return (&octets[..at], Some(&octets[at + 1..]));
        }
    }
    (octets, None)
}

/// The first word, and what follows it where there is more.
pub(crate) fn first_word(octets: Option<&[u8]>) -> Option<(&[u8], Option<&[u8]>)>
    ensures { MatchOption result (words_behind (option_map (λ rest. rest.now) octets.entry) ≡ [])
        (λ found. words_behind (option_map (λ rest. rest.now) octets.entry)
        ≡ found.0.now ∷ words_behind (option_map (λ rest. rest.now) found.1)) }
{
    let mut rest = octets;
    while let Some(left) = rest {
        let (piece, behind) = first_piece(left, Mark::Blank);
        if !piece.is_empty() {
            return Some((piece, behind));
        }
        rest = behind;
    }
    None
}
