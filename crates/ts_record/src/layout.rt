//! Where the blocks of an image begin, and how long they may be.

/// The offset of the first commit byte of an image, and how many octets an entry may have, by the
/// record's version.
#[derive(Clone, Copy)]
pub(crate) struct Layout {
    pub first_gate: usize,
    pub longest_body: usize,
}

/// On one disk, after a header of 16 octets.
pub(crate) const VERSION_1: Layout = Layout {
    first_gate: 16,
    longest_body: 1_048_700,
};

/// After a header of 24 octets and a live byte.
pub(crate) const VERSION_2: Layout = Layout {
    first_gate: 25,
    longest_body: 4_194_500,
};
