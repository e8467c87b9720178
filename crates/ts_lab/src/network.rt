//! The nodes of a script, each on two disks in memory, and the messages that they have sent.

ghost use Rattle.ts_lab.specs.inside.Member.{InputIsFit};

use crate::commands::id_of;
use crate::member::{Member, NodeInput, NodeReply};
use crate::sent::SentMessage;
use crate::trouble::Trouble;
use std::alloc::{AllocError, Global};
use ts_command::{Command, Outcome};
use ts_node::{Input, Reply};
use ts_script::LineFault;
use ts_synod::Message;

/// The most nodes.
const MAX_NODES: u8 = 9;

/// The most deliveries of a `settle` line.
const MAX_DELIVERIES: u32 = 100_000;

/// The nodes 1 to n, and the messages that they have sent, in their order.
#[derive(Drop)]
pub struct Network {
    alloc: Global,
    members: Vec<Member>,
    sent: Vec<SentMessage>,
    /// Each message before this place was delivered.
    settled: usize,
    /// The last octets of the ids that were submitted.
    submitted: Vec<u8>,
}

impl Network {
    /// So many nodes, each on two disks that were formatted for it.
    ///
    /// # Errors
    ///
    /// `Limit` where they are not 1 to 9; `Memory`.
    pub fn new(alloc: Global, nodes: u32) -> Result<Network, LineFault> {
        let Ok(nodes) = u8::try_from(nodes) else {
            return Err(LineFault::Limit);
        };
        if nodes < 1 || MAX_NODES < nodes {
            return Err(LineFault::Limit);
        }
        let mut members = Vec::new(alloc);
        for node in 1..=nodes {
            members.push(Member::format(alloc, node, nodes)?)?;
        }
        Ok(Network {
            alloc,
            members,
            sent: Vec::new(alloc),
            settled: 0,
            submitted: Vec::new(alloc),
        })
    }

    /// How many nodes there are.
    pub fn len(&self) -> usize {
        self.members.len()
    }

    /// Whether there is a node of this number.
    ///
    /// # Errors
    ///
    /// `Limit` where there is none.
    pub fn check(&self, node: u32) -> Result<usize, LineFault> {
        match usize::try_from(node) {
            Ok(number) if 1 <= number && number <= self.members.len() => Ok(number - 1),
            _ => Err(LineFault::Limit),
        }
    }

    /// The last octets of the ids that were submitted, each once.
    pub fn submitted_ids(&self) -> &[u8] {
        &self.submitted
    }

    /// Lets the node at a place take an input, and keeps the messages that it sends.
    pub fn handle(&mut self, place: usize, input: &NodeInput) -> Result<NodeReply, Trouble>
        requires { InputIsFit input.now }
    {
        let Some(member) = self.members.get_mut(place) else {
            return Err(Trouble::Wrong(LineFault::Limit));
        };
        let output = member.handle(input)?;
        self.post(output.messages)?;
        Ok(output.reply)
    }

    /// Keeps messages that were sent.
    fn post(&mut self, messages: Vec<Message<Command>>) -> Result<(), AllocError> {
        for message in messages {
            if let Some(sent) = SentMessage::new(message) {
                self.sent.push(sent)?;
            }
        }
        Ok(())
    }

    /// Delivers the message of a number, counted from 1.
    pub fn deliver(&mut self, number: u32) -> Result<(), Trouble> {
        match usize::try_from(number) {
            Ok(number) if 1 <= number && number <= self.sent.len() => {
                self.deliver_at(number - 1)
            }
            _ => Err(Trouble::Wrong(LineFault::Message)),
        }
    }

    /// Delivers the message at a place.
    fn deliver_at(&mut self, place: usize) -> Result<(), Trouble> {
        let Some(sent) = self.sent.get_mut(place) else {
            return Err(Trouble::Wrong(LineFault::Message));
        };
        sent.is_delivered = true;
        let Some(member) = self.members.get_mut(usize::from(sent.to.saturating_sub(1))) else {
            return Ok(());
        };
        let output = member.handle(sent.message.input())?;
        self.post(output.messages)?;
        Ok(())
    }

    /// The place of the first message that was not delivered.
    fn undelivered(&mut self) -> Option<usize> {
        for place in self.settled..self.sent.len() {
            if let Some(
                SentMessage {
                    is_delivered: false,
                    ..
                },
            ) = self.sent.get(place)
            {
                self.settled = place;
                return Some(place);
            }
        }
        None
    }

    /// Delivers the first message that was not delivered, again and again, until there is none, and
    /// says how many there were.
    ///
    /// # Errors
    ///
    /// `Limit` where they are more than 100,000, or the fault of a node.
    pub fn settle(&mut self) -> Result<u32, Trouble> {
        for count in 0..MAX_DELIVERIES {
            match self.undelivered() {
                Some(place) => self.deliver_at(place)?,
                None => return Ok(count),
            }
        }
        match self.undelivered() {
            Some(_) => Err(Trouble::Wrong(LineFault::Limit)),
            None => Ok(MAX_DELIVERIES),
        }
    }

    /// Opens a node again from its disks.
    pub fn restart(&mut self, place: usize) -> Result<(), LineFault> {
        if place >= self.members.len() {
            return Err(LineFault::Limit);
        }
        let member = self.members.remove(place).open_again(self.alloc)?;
        self.members.insert(place, member)?;
        Ok(())
    }

    /// Submits a command with an id of this last octet.
    pub fn submit(&mut self, place: usize, id: u8, command: Command) -> Result<NodeReply, Trouble> {
        if !self.submitted.contains(&id) {
            self.submitted.push(id)?;
        }
        self.handle(place, &Input::Submit(command))
    }

    /// How many commands the node at a place knows without a gap.
    pub fn prefix(&mut self, place: usize) -> Result<u32, Trouble> {
        let reply = self.handle(place, &Input::Status)?;
        Ok(prefix_in(reply))
    }

    /// The first position of the commands with this id that the node at a place knows, and what it
    /// came to.
    pub fn settled(&mut self, place: usize, id: u8) -> Result<Option<(u32, Outcome)>, Trouble> {
        let input = Input::Outcome(id_of(id));
        let reply = self.handle(place, &input)?;
        Ok(settled_in(reply))
    }
}

/// The number of commands that a reply says.
fn prefix_in(reply: NodeReply) -> u32 {
    match reply {
        Reply::Prefix(prefix) => prefix,
        _ => 0,
    }
}

/// The position and the outcome that a reply says.
fn settled_in(reply: NodeReply) -> Option<(u32, Outcome)> {
    match reply {
        Reply::Settled { position, outcome } => Some((position, outcome)),
        _ => None,
    }
}
