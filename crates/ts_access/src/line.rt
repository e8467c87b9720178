//! A connection whose key was found, as a server has it.

ghost use Rattle.std.specs.Prelude.{◌≡◌, ◌+◌, ◌-◌, ◌^◌, length, min, IfErr, IfOk};
ghost use Rattle.ts_access.specs.Lines.{EndsBy, GoesOn, SealsOn};

use crate::fault::EntranceFault;
use crate::sieve::Sieve;
use ts_guard::{Channel, GuardFault};

/// What comes is opened and sifted, what leaves is sealed.
#[derive(Drop)]
pub(crate) struct Line {
    pub(crate) channel: Channel,
    pub(crate) sieve: Sieve,
}

impl Line {
    /// How many octets that came are held.
    pub(crate) fn held_count(&self) -> usize
        ensures { result ≡ min (2 ^ 64 - 1)
            (length self.now.channel.opener.held + length self.now.sieve.held) }
    {
        let held = self.channel.opener.held_count();
        held.saturating_add(self.sieve.held_count())
    }

    /// Goes on by one step: the next octets to hand on; or none, where a record was opened; `None`
    /// where no whole record is there.
    pub(crate) fn take(&mut self) -> Result<Option<Vec<u8>>, EntranceFault>
        ensures goes { IfOk result (λ octets. GoesOn self.old octets self.new) }
        ensures ends { IfErr result (EndsBy self.old) }
    {
        if let Some(octets) = self.sieve.take()? {
            return Ok(Some(octets));
        }
        let Some(mut content) = self.channel.opener.take()? else {
            return Ok(None);
        };
        self.sieve.push(&content)?;
        content.truncate(0);
        Ok(Some(content))
    }

    /// Seals octets into one record, behind other octets.
    pub(crate) fn seal(&mut self, octets: &[u8], out: &mut Vec<u8>) -> Result<bool, GuardFault>
        ensures { SealsOn self.old octets.now out.old.items result self.new out.new.items }
    {
        match self.channel.sealer.seal(octets, out) {
            Ok(()) => Ok(true),
            Err(fault) => Err(fault),
        }
    }
}
