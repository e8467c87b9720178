//! The ends of the serial numbers of a CRL's entries, in order: that no entry has a serial number
//! is nearly always seen by a search among them, without a walk over the entries.

ghost use Rattle.std.specs.Prelude.{◌≡◌};
ghost use Rattle.std.specs.List.Sorted.{IsSorted};
ghost use Rattle.std.specs.Ordering.{nat_cmp};
ghost use Rattle.ts_crl.specs.inside.Endings.{ending_of, has_ending};

/// How many octets of a serial number are kept.
const OCTETS: usize = 4;

/// The end of a serial number: its last four octets, as a number.
pub(crate) fn ending(serial: &[u8]) -> u32
    ensures { result ≡ ending_of serial.now }
{
    let start = serial.len().saturating_sub(OCTETS);
    let mut ending: u32 = 0;
    for &octet in &serial[start..] {
        ending = ending.wrapping_mul(256).wrapping_add(u32::from(octet));
    }
    ending
}

/// The ends of the serial numbers of a CRL's entries, ascending.
#[derive(Debug, Drop)]
pub(crate) struct Endings {
    pub sorted: Vec<u32>,
    ghost ascending: { IsSorted nat_cmp sorted.items },
}

impl Endings {
    /// Whether the end of a serial number is one of them.
    pub(crate) fn contains(&self, serial: &[u8]) -> bool
        ensures { result ≡ has_ending self.now.sorted.items serial.now }
    {
        self.sorted.binary_search(&ending(serial)).is_ok()
    }
}
