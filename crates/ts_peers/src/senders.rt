//! Which client sent which command, for the lines on standard error.

use std::alloc::Global;
use std::collections::VecDeque;
use std::net::SocketAddr;

/// How many commands' clients are remembered.
const MOST: usize = 256;

/// Where the command's id stands in a frame that submits it: behind the frame's head of six octets
/// and the command's length.
const ID: usize = 10;

/// From where a command came.
#[derive(Clone, Copy, Debug, PartialEq, Eq)]
pub(crate) enum Sender {
    /// On a connection of frames from this address.
    At(SocketAddr),
    /// Over HTTP.
    Http,
}

/// From where the last commands came that clients submitted.
#[derive(Drop)]
pub(crate) struct Senders {
    known: VecDeque<([u8; 16], Sender)>,
}

impl Senders {
    /// No command has come.
    pub fn new(alloc: Global) -> Senders {
        Senders {
            known: VecDeque::new(alloc),
        }
    }

    /// A command has come by this frame. Where memory is refused it is not remembered.
    pub fn see(&mut self, frame: &[u8], sender: Sender) {
        let Some(rest) = frame.get(ID..) else {
            return;
        };
        let Some((id, _)) = rest.split_first_chunk::<16>() else {
            return;
        };
        if self.known.len() >= MOST {
            let _oldest = self.known.pop_front();
        }
        let _pushed = self.known.push_back((*id, sender));
    }

    /// From where the command of this id came last, if it is remembered.
    pub fn of(&self, id: &[u8; 16]) -> Option<Sender> {
        let mut last = None;
        for (known, sender) in self.known.iter() {
            if known == id {
                last = Some(*sender);
            }
        }
        last
    }
}
