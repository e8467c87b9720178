//! Who may ask a node, and what it shows its peers.

ghost use Rattle.std.specs.Prelude.{◌≡◌, is_some};

use std::alloc::Global;
use std::rt::Files;
use ts_access::Key;
use ts_keyring::Keyring;
use ts_meter::Meter;

/// Who may ask a node, and the key that it shows its peers.
#[derive(Drop)]
pub struct Access<'m> {
    /// The number of the node.
    pub node: u8,
    /// The keys of those who may ask. `None`: whoever reaches the address may ask anything.
    pub keyring: Option<Keyring>,
    /// The key that the node shows its peers.
    pub own: Option<Key>,
    /// Whether an address may be listened at without keys that other machines reach.
    pub open: bool,
    /// Where questions are asked over HTTP, by whoever reaches it.
    pub http: Option<String>,
    /// What counts how often the node's disks are written and synced.
    pub meter: Option<&'m Meter>,
    /// The version of the program that serves the node.
    pub version: Option<&'static str>,
    /// Lines that begin each report: what serves the node, and by which check of signatures.
    pub about: Option<String>,
    /// Lines that standard error is told once the node listens.
    pub greeting: Option<String>,
}

impl<'m> Access<'m> {
    /// Whoever reaches the node may ask anything: for tests.
    pub fn open(node: u8) -> Access<'m> {
        Access {
            node,
            keyring: None,
            own: None,
            open: true,
            http: None,
            meter: None,
            version: None,
            about: None,
            greeting: None,
        }
    }

    /// The keys of those who may ask.
    pub fn keys(&self) -> &[Key] {
        match &self.keyring {
            Some(keyring) => keyring.keys(),
            None => &[],
        }
    }

    /// Whether keys are wanted.
    pub fn is_locked(&self) -> bool
        ensures { result ≡ is_some self.now.keyring }
    {
        self.keyring.is_some()
    }

    /// Reads the file of keys again, where it has changed.
    pub fn refresh<R: Files + Eprint>(&mut self, rt: &R, alloc: Global, now: u64) {
        if let Some(keyring) = &mut self.keyring {
            keyring.refresh(rt, alloc, now);
        }
    }
}
