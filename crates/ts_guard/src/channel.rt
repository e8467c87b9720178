//! Both directions of a connection, as one side has them.

use crate::opener::Opener;
use crate::sealer::Sealer;

/// A connection on which the two hellos were said: what the other side sends is opened, what this
/// side sends is sealed.
#[derive(Drop)]
pub struct Channel {
    pub opener: Opener,
    pub sealer: Sealer,
}
