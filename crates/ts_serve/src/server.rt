//! A node that is served.

ghost use Rattle.std.specs.Prelude.{◌≡◌, ◌∷◌, ◌++◌, [], false, true, map, OnOk, OnErr};
ghost use Rattle.std.specs.Prelude.{IfOk, MatchResult};
ghost use Rattle.std.specs.Io.KnownBytes.{Appends};
ghost use Rattle.ts_question.specs.Question.{StoreQuestion};
ghost use Rattle.ts_node.specs.Machine.{store_of};
ghost use Rattle.ts_node.specs.Inputs.{InputFits};
ghost use Rattle.ts_node.specs.Ahead.{IsAhead};
ghost use Rattle.ts_node.specs.Node.{IsSound};
ghost use Rattle.ts_command.specs.Octets.{octets_of};
ghost use Rattle.ts_wire.specs.Frames.{FrameFits};
ghost use Rattle.ts_wire.specs.declared.frame.Frame.TheVariants.{Take};
ghost use Rattle.ts_serve.specs.Replies.{IsWithin};
ghost use Rattle.ts_serve.specs.Turn.{GivesMessages, HandlesInput, Hands, HasKept, HasReported};
ghost use Rattle.ts_serve.specs.Turn.{Identifies};
ghost use Rattle.ts_serve.specs.Turn.{IsReady, IsReport, IsSettled, TurnBy};
ghost use Rattle.ts_serve.specs.inside.Steps.{Answers, Refuses, Says};

use crate::fault::ServeFault;
use crate::notes::Notes;
use crate::outbox::Outbox;
use crate::replies::{answer_of, failed_then};
use crate::sending::{refuse, send, send_all};
use std::alloc::{AllocError, Global};
use std::cell::RefCell;
use std::io::Write;
use ts_command::{Command, Outcome};
use ts_disk::Disk;
use ts_node::{Identity, Input, Machine, Node, Output, StagedFacts};
use ts_octets::Octets;
use ts_question::{Answer, Question};
use ts_synod::NodeFault;
use ts_wire::{Feed, Frame, FrameFault};

/// A node, and the messages of it that wait to be taken, at most 256.
#[derive(Drop)]
pub struct Server<D: Disk, M> {
    alloc: Global,
    node: Node<D, Command, M>,
    /// What the node has taken in memory, and is not kept yet.
    staged: StagedFacts<Command>,
    outbox: Outbox,
    /// Whether the node broke.
    failed: bool,
    /// How the server does, as whoever runs it has said. Contracts see nothing of it.
    notes: RefCell<Notes>,
}

/// A question, as an input of a node: over as many commands as it names.
fn ask(question: Question) -> Input<Command, Question>
    ensures asked { result ≡ Input.Ask question.terms.k question }
    ensures within { IsWithin result }
{
    let k = question.terms().k;
    let _ = question.target();
    Input::Ask { k, question }
}

/// Hands an input to a node. Where it is staged the node takes it in memory, with the messages to
/// itself that follow from it, and what it keeps waits.
fn call<D, M>(
    node: &mut Node<D, Command, M>,
    waiting: &mut StagedFacts<Command>,
    staged: bool,
    input: &Input<Command, Question>,
) -> Result<Output<Command, Outcome, Answer>, NodeFault>
where
    D: Disk,
    M: Machine<Command, Outcome = Outcome, Question = Question, Answer = Answer>,
    requires ready { IsReady D.state M.commands staged node.old waiting.old }
    requires fits { InputFits octets_of input.now }
    ensures hands { Hands D.state (store_of StoreQuestion M.client_id M.outcome) M.basis M.is_answer
        staged node.old waiting.old input.now result node.new waiting.new }
    ensures ready { IsReady D.state M.commands staged node.new waiting.new }
{
    if staged {
        return node.stage(input, waiting);
    }
    node.handle(input)
}

impl<D: Disk, M: Machine<Command, Outcome = Outcome, Question = Question, Answer = Answer>> Server<
    D,
    M,
> {
    /// A server of a node, which has sent nothing.
    ///
    /// # Errors
    ///
    /// Out of memory. The node is given back.
    pub fn new(
        alloc: Global,
        node: Node<D, Command, M>,
    ) -> Result<Server<D, M>, Node<D, Command, M>>
        ensures new { MatchResult result (λ server. (server.node ≡ node) × (server.outbox ≡ [])
            × (server.failed ≡ false) × (server.staged.facts.items ≡ []))
            (λ refused. refused ≡ node) }
        ensures ahead { IfOk result (λ server. IsSound D.state octets_of M.commands node
            → IsAhead D.state octets_of M.commands server.node server.staged) }
    {
        match Outbox::new(alloc) {
            Ok(outbox) => Ok(Server {
                alloc,
                node,
                staged: StagedFacts::empty(alloc),
                outbox,
                failed: false,
                notes: RefCell::new(Notes { text: None }),
            }),
            Err(_) => Err(node),
        }
    }

    /// Gives the node back. The messages that wait are lost, and so is what was not kept yet.
    pub fn close(self) -> Node<D, Command, M>
        ensures { result ≡ self.node }
    {
        let Server {
            alloc: _alloc,
            node,
            staged: _staged,
            outbox: _outbox,
            failed: _failed,
            notes: _notes,
        } = self;
        node
    }

    /// Whether the node broke in a turn, since a device failed or memory was refused when its roles
    /// were ahead of its record. It answers nothing more until it is opened again.
    pub fn has_failed(&self) -> bool
        ensures { result ≡ self.now.failed }
    {
        self.failed
    }

    /// Keeps, by one append, what the node has taken in memory: what was answered since the last
    /// time may leave then. `false` where the node broke, and nothing of that may leave.
    pub fn keep_staged(&mut self) -> bool
        requires ahead { IsAhead D.state octets_of M.commands self.old.node self.old.staged }
        ensures kept { HasKept D.state self.old self.new }
        ensures settled { result ≡ true → IsSettled self.new }
        ensures ahead { IsAhead D.state octets_of M.commands self.new.node self.new.staged }
    {
        let kept = self.node.keep_staged(&mut self.staged);
        self.failed = failed_then(self.failed, &kept);
        kept.is_ok()
    }

    /// Which node of which group the server's is.
    pub fn identity(&self) -> Identity
        ensures node { result.node ≡ self.now.node.kept.node }
        ensures nodes { result.nodes ≡ self.now.node.kept.nodes }
        ensures group { result.group ≡ self.now.node.kept.group }
    {
        self.node.identity()
    }

    /// Keeps a text about the server, which a request for a report is answered with from now on.
    /// Where memory is refused the text before stays.
    pub fn note(&self, text: &[u8]) {
        let Ok(text) = Octets::copy_of(self.alloc, text) else {
            return;
        };
        if let Ok(mut notes) = self.notes.try_borrow_mut() {
            notes.text = Some(text);
        }
    }

    /// The text about the server: an empty one where it was given none.
    fn report_text(&self) -> Result<Octets, AllocError> {
        // Nobody else borrows it while this call runs.
        if let Ok(notes) = self.notes.try_borrow() {
            if let Some(text) = &notes.text {
                return text.share();
            }
        }
        Octets::copy_of(self.alloc, b"")
    }

    /// The answer to a request for a report.
    fn report_frame(&self) -> Frame
        ensures { IsReport result }
    {
        match self.report_text() {
            Ok(text) => Frame::Reported { text },
            Err(_) => Frame::NodeFault {
                fault: NodeFault::Memory,
            },
        }
    }

    /// What the server allocates with.
    pub(crate) fn allocator(&self) -> Global {
        self.alloc
    }

    /// A stream of which no octet has come.
    pub(crate) fn feed(&self) -> Feed
        ensures { result ≡ [] }
    {
        Feed::new(self.alloc)
    }

    /// Answers a wrong frame, and gives the fault that ends the stream.
    pub(crate) fn refuse<W: Write>(&self, fault: FrameFault, writer: &mut W) -> ServeFault
        ensures { Refuses fault (W.contents writer.old) result (W.contents writer.new) }
    {
        refuse(self.alloc, writer, fault)
    }

    /// Hands an input to the node, and puts its messages into the outbox.
    fn handle(&mut self, staged: bool, input: &Input<Command, Question>) -> Frame
        requires ready { IsReady D.state M.commands staged self.old.node self.old.staged }
        requires fits { InputFits octets_of input.now }
        requires within { IsWithin input.now }
        ensures handled { HandlesInput D.state
            (store_of StoreQuestion M.client_id M.outcome) M.basis M.is_answer staged self.old
            input.now
            (result ∷ []) self.new }
        ensures ready { IsReady D.state M.commands staged self.new.node self.new.staged }
        ensures alloc { self.new.alloc ≡ self.old.alloc }
    {
        let called = call(&mut self.node, &mut self.staged, staged, input);
        self.failed = failed_then(self.failed, &called);
        let (frame, messages) = answer_of(self.alloc, called);
        self.outbox.put(messages);
        frame
    }

    /// Hands an input to the node, and writes its reply.
    fn respond<W: Write>(
        &mut self,
        staged: bool,
        input: Input<Command, Question>,
        writer: &mut W,
    ) -> Result<(), ServeFault>
        requires ready { IsReady D.state M.commands staged self.old.node self.old.staged }
        requires fits { InputFits octets_of input }
        requires within { IsWithin input }
        ensures said { Says (HandlesInput D.state
            (store_of StoreQuestion M.client_id M.outcome) M.basis M.is_answer staged self.old
            input)
            (W.contents writer.old) result self.new (W.contents writer.new) }
        ensures ready { IsReady D.state M.commands staged self.new.node self.new.staged }
    {
        let frame = self.handle(staged, &input);
        drop(input);
        send(self.alloc, writer, frame)
    }

    /// Writes the messages that wait, and their count. None waits then.
    fn give<W: Write>(&mut self, writer: &mut W) -> Result<(), ServeFault>
        ensures said { Says (GivesMessages self.old) (W.contents writer.old) result self.new
            (W.contents writer.new) }
        ensures node { self.new.node ≡ self.old.node }
        ensures staged { self.new.staged ≡ self.old.staged }
    {
        let frames = self.outbox.frames();
        let count = frames.len() as u32;
        let given = send_all(self.alloc, writer, frames);
        self.outbox.clear();
        given?;
        send(self.alloc, writer, Frame::Done { count })
    }

    /// Writes which node of which group it is.
    fn identify<W: Write>(&self, writer: &mut W) -> Result<(), ServeFault>
        ensures said { Says (Identifies self.now) (W.contents writer.old) result self.now
            (W.contents writer.new) }
    {
        let identity = self.identity();
        let frame = Frame::Identity {
            node: identity.node,
            nodes: identity.nodes,
            group: identity.group,
        };
        send(self.alloc, writer, frame)
    }

    /// Writes the text about the server that it was given last, or that memory was refused.
    fn report<W: Write>(&self, writer: &mut W) -> Result<(), ServeFault>
        ensures said { Says (HasReported self.now) (W.contents writer.old) result self.now
            (W.contents writer.new) }
    {
        let frame = self.report_frame();
        send(self.alloc, writer, frame)
    }

    /// Answers a frame. Where it is staged, what the node keeps waits, and the answer with it.
    pub(crate) fn answer<W: Write>(
        &mut self,
        staged: bool,
        frame: Frame,
        writer: &mut W,
    ) -> Result<(), ServeFault>
        requires ready { IsReady D.state M.commands staged self.old.node self.old.staged }
        requires fits { FrameFits frame }
        ensures answers { Answers (TurnBy D.state
            (store_of StoreQuestion M.client_id M.outcome) M.basis M.is_answer staged) self.old
            frame
            (W.contents writer.old) result self.new (W.contents writer.new) }
        ensures ready { IsReady D.state M.commands staged self.new.node self.new.staged }
    {
        match frame {
            Frame::Peer(message) => self.respond(staged, Input::Deliver(message), writer),
            Frame::Submit { command } => self.respond(staged, Input::Submit(command), writer),
            Frame::Question { question } => self.respond(staged, ask(question), writer),
            Frame::Take => self.give(writer),
            Frame::Outcome { id } => self.respond(staged, Input::Outcome(id), writer),
            Frame::CatchUp => self.respond(staged, Input::CatchUp, writer),
            Frame::Status => self.respond(staged, Input::Status, writer),
            Frame::Compact => self.respond(staged, Input::Compact, writer),
            Frame::Identify => self.identify(writer),
            Frame::Report => self.report(writer),
            _ => Err(self.refuse(FrameFault::Kind, writer)),
        }
    }
}
