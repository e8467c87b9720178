//! The ranges of the numbers that several formats have.

ghost use Rattle.std.specs.Prelude.{◌≡◌};
ghost use Rattle.ts_codec.specs.Ranges.{is_node_number, is_position, is_prefix, is_ballot};

/// The last position of a log, and the most commands that a store has taken.
pub const MAX_POSITION: u32 = 1_000_000;

/// Whether a number is that of a node: 1 to 9.
pub(crate) fn is_node(number: u8) -> bool
    ensures { result ≡ is_node_number number }
{
    1 <= number && number <= 9
}

/// Whether a number is a position of the log: 1 to `MAX_POSITION`.
pub(crate) fn is_position(number: u32) -> bool
    ensures { result ≡ is_position number }
{
    1 <= number && number <= MAX_POSITION
}

/// Whether a number is the length of a prefix of the log: 0 to `MAX_POSITION`.
pub(crate) fn is_prefix(number: u32) -> bool
    ensures { result ≡ is_prefix number }
{
    number <= MAX_POSITION
}

/// Whether a number is a ballot: at least 16 and below 2^36, with the number of a node (1 to 9) in
/// its last four bits.
pub(crate) fn is_ballot(number: u64) -> bool
    ensures { result ≡ is_ballot number }
{
    16 <= number && number < 1 << 36 && 1 <= number % 16 && number % 16 <= 9
}
