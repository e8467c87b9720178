//! What a server was told of itself.

use std::marker::Model;
use ts_octets::Octets;

/// A text about the server, if it was given one. Contracts see nothing of it.
#[derive(Drop)]
pub(crate) struct Notes {
    pub text: Option<Octets>,
}

impl Model for Notes {
    ghost Value = { Unit {0} };

    ghost view = { λ _. tt };
}
