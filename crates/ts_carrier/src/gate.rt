//! The command of a client that is under way, and when it is proposed.

ghost use Rattle.std.specs.Prelude.{◌≡◌, Some, OnOk, OnErr, option_map};
ghost use Rattle.ts_carrier.specs.Gate.{IsNew, Sees, after_end, after_growth, after_refusal};
ghost use Rattle.ts_carrier.specs.Gate.{after_try, again_after, due, is_held_back, is_submit};
ghost use Rattle.ts_carrier.specs.Gate.{new_command, next_turn, renewed, time_to_wait};

use crate::event::{FrameEvent, event_of, whole_frame};
use crate::rotation::Rotation;
use std::alloc::{AllocError, Global};

/// For how many milliseconds a command is proposed again, before it is given up.
pub const LONGEST_WAY: u64 = 10_000;

/// How many milliseconds pass, and by chance as many more, before a command is proposed again the
/// first time; each time twice as many.
const PATIENCE: u64 = 250;

/// A command that was submitted and is not known to be chosen.
#[derive(Drop)]
pub struct WantedCommand {
    /// The frame that submits it.
    pub frame: Vec<u8>,
    /// When it was submitted.
    pub since: u64,
    /// How often it was proposed.
    pub tries: u32,
    /// When it is proposed again.
    pub again: u64,
}

/// The command that is under way, if one is: while it is, and until the node's turn, no other is
/// taken. What the node was seen to learn and other nodes to do says when it is proposed.
#[derive(Drop)]
pub struct Gate {
    wanted: Option<WantedCommand>,
    /// Until when none is taken.
    rests: u64,
    rotation: Rotation,
    /// How many commands the node knows.
    prefix: u32,
    /// When it learned one last.
    grown: u64,
}

/// Whether a whole frame that submits a command begins here.
fn is_submit(held: &[u8]) -> bool
    ensures { result ≡ is_submit held.now }
{
    match whole_frame(held) {
        Some(frame) => event_of(frame) == FrameEvent::Submits,
        None => false,
    }
}

/// When a command is proposed again that was proposed so often.
fn again_after(tries: u32, now: u64, chance: u64) -> u64
    ensures { result ≡ again_after tries now chance }
{
    let patience = match tries {
        1 => PATIENCE,
        2 => 2 * PATIENCE,
        3 => 4 * PATIENCE,
        _ => 8 * PATIENCE,
    };
    now.saturating_add(patience)
        .saturating_add(chance % patience)
}

impl Gate {
    /// Of the node `own` in a group of `nodes`: no command is under way, and it knows none.
    pub fn new(alloc: Global, own: u8, nodes: u8) -> Gate
        ensures { IsNew own nodes result }
    {
        Gate {
            wanted: None,
            rests: 0,
            rotation: Rotation::new(alloc, own, nodes),
            prefix: 0,
            grown: 0,
        }
    }

    /// The command that is under way.
    pub fn wanted(&self) -> Option<&WantedCommand>
        ensures { option_map (λ wanted. wanted.now) result ≡ self.now.wanted }
    {
        self.wanted.as_ref()
    }

    /// How many commands the node knows.
    pub fn prefix(&self) -> u32
        ensures { result ≡ self.now.prefix }
    {
        self.prefix
    }

    /// When the node learned a command last.
    pub fn grown(&self) -> u64
        ensures { result ≡ self.now.grown }
    {
        self.grown
    }

    /// Whether the frame that begins here has to wait: it submits a command, and one is under way,
    /// or it is not the node's turn yet. At a node that is alone in its group none waits.
    pub fn holds_back(&self, held: &[u8], now: u64) -> bool
        ensures { result ≡ is_held_back self.now held.now now }
    {
        self.rotation.is_shared() && (self.wanted.is_some() || now < self.rests) && is_submit(held)
    }

    /// A command was submitted by this frame.
    pub fn begin(&mut self, frame: Vec<u8>, now: u64, chance: u64)
        ensures { self.new ≡ record self.old { wanted = Some (new_command frame now chance) } }
    {
        self.wanted = Some(WantedCommand {
            frame,
            since: now,
            tries: 1,
            again: again_after(1, now, chance),
        });
    }

    /// The frame of the command, where it is time to propose it again.
    pub fn due(&self, now: u64) -> Option<&[u8]>
        ensures { option_map (λ frame. frame.now) result ≡ due self.now.wanted now }
    {
        match &self.wanted {
            Some(wanted) if wanted.again <= now => Some(&wanted.frame),
            _ => None,
        }
    }

    /// The command was proposed again: it is given more time, or given up after [`LONGEST_WAY`].
    pub fn tried(&mut self, now: u64, chance: u64)
        ensures { self.new ≡ record self.old { wanted = after_try self.old.wanted now chance } }
    {
        let Some(wanted) = self.wanted.take() else {
            return;
        };
        if now.saturating_sub(wanted.since) >= LONGEST_WAY {
            return;
        }
        let tries = wanted.tries.saturating_add(1);
        self.wanted = Some(WantedCommand {
            frame: wanted.frame,
            since: wanted.since,
            tries,
            again: again_after(tries, now, chance),
        });
    }

    /// Another node was seen to propose.
    ///
    /// # Errors
    ///
    /// Memory that is refused. Nothing changes then.
    pub fn see_rival(&mut self, alloc: Global, node: u8, now: u64) -> Result<(), AllocError>
        ensures seen { OnOk result (Sees node now self.old self.new) }
        ensures unchanged { OnErr result (self.new ≡ self.old) }
    {
        self.rotation.see(alloc, node, now)
    }

    /// A round of the command was refused: another node has begun one, whose command is likely to
    /// be chosen first.
    pub fn refuse(&mut self, now: u64, chance: u64)
        ensures { self.new
            ≡ record self.old { wanted = after_refusal self.old self.old.wanted now chance } }
    {
        let Some(wanted) = self.wanted.take() else {
            return;
        };
        let retry = self
            .rotation
            .retry_at(self.prefix, now, wanted.tries, chance);
        self.wanted = Some(WantedCommand {
            frame: wanted.frame,
            since: wanted.since,
            tries: wanted.tries,
            again: wanted.again.min(retry),
        });
    }

    /// When it is the node's turn.
    fn next_turn(&self, now: u64) -> u64
        ensures { result ≡ next_turn self.now now }
    {
        self.rotation.turn_at(self.prefix, now)
    }

    /// Gives the command as much time again, as others are chosen meanwhile, so that a majority
    /// runs. It is proposed at the node's turn.
    fn renew(&mut self, now: u64)
        ensures { self.new
            ≡ record self.old { wanted = renewed self.old self.old.wanted now } }
    {
        let Some(wanted) = self.wanted.take() else {
            return;
        };
        let turn = self.next_turn(now);
        self.wanted = Some(WantedCommand {
            frame: wanted.frame,
            since: now,
            tries: wanted.tries,
            again: wanted.again.min(turn),
        });
    }

    /// The node knows so many commands.
    pub fn learn(&mut self, prefix: u32, now: u64)
        ensures { self.new ≡ after_growth self.old prefix now }
    {
        if prefix <= self.prefix {
            return;
        }
        self.rotation.learn(now.saturating_sub(self.grown));
        self.prefix = prefix;
        self.grown = now;
        self.renew(now);
    }

    /// No command is under way any more. The next one is taken at the node's turn.
    pub fn end(&mut self, now: u64)
        ensures { self.new ≡ after_end self.old now }
    {
        self.rests = self.next_turn(now);
        self.wanted = None;
    }

    /// How many milliseconds pass, and at most `longest`, until the command is proposed again, or
    /// until the next one is taken.
    pub fn patience(&self, now: u64, longest: u64) -> u64
        ensures { result ≡ time_to_wait self.now self.now.wanted now longest }
    {
        let at = match &self.wanted {
            Some(wanted) => wanted.again,
            None if now < self.rests => self.rests,
            None => return longest,
        };
        at.saturating_sub(now).min(longest)
    }
}
