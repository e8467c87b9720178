//! A node of a script.

ghost use Rattle.std.specs.Prelude.{◌≤◌};
ghost use Rattle.ts_lab.specs.inside.Member.{InputIsFit};

use std::alloc::Global;
use std::marker::Model;
use ts_answer::Answers;
use ts_command::{Command, Outcome};
use ts_disk::MemDisk;
use ts_node::{Input, Node, Output, Reply};
use ts_question::{Answer, Question};
use ts_record::Record;
use ts_script::LineFault;
use ts_sig::DigestCheck;
use ts_synod::NodeFault;

pub(crate) type NodeInput = Input<Command, Question>;

pub(crate) type NodeReply = Reply<Outcome, Answer>;

/// A node on two disks in memory, with the stand-in check.
#[derive(Drop)]
pub(crate) struct Member {
    node: Node<MemDisk, Command, Answers<DigestCheck>>,
}

impl Model for Member {
    ghost use Rattle.std.specs.Prelude.{ℕ};
    ghost use Rattle.ts_lab.specs.inside.Member.{IsSoundNode};

    // No contract speaks of its content.
    ghost Value = { ℕ };

    ghost view = { λ _. 0 };

    ghost invariant = { λ m. IsSoundNode m.node };
}

impl Member {
    /// A node on two disks that are formatted for it.
    ///
    /// # Errors
    ///
    /// `Memory`.
    pub fn format(alloc: Global, node: u8, nodes: u8) -> Result<Member, LineFault>
        requires from { 1 ≤ node }
        requires to { node ≤ nodes }
        requires nine { nodes ≤ 9 }
    {
        let mut a = MemDisk::new(alloc, Vec::new(alloc))?;
        let mut b = MemDisk::new(alloc, Vec::new(alloc))?;
        if Record::<MemDisk, Command>::format(&mut a, &mut b, node, nodes, 0).is_err() {
            return Err(LineFault::Memory);
        }
        Member::open(alloc, a, b)
    }

    /// The node whose record is on two disks.
    fn open(alloc: Global, a: MemDisk, b: MemDisk) -> Result<Member, LineFault> {
        match Node::open(alloc, a, b, Answers::new(alloc, DigestCheck)) {
            Ok(node) => Ok(Member { node }),
            Err(_) => Err(LineFault::Memory),
        }
    }

    /// The node, opened again from its disks.
    ///
    /// # Errors
    ///
    /// `Memory`.
    pub fn open_again(self, alloc: Global) -> Result<Member, LineFault> {
        let Member { node } = self;
        let (a, b, _machine) = node.close();
        Member::open(alloc, a, b)
    }

    /// Takes an input.
    pub fn handle(
        &mut self,
        input: &NodeInput,
    ) -> Result<Output<Command, Outcome, Answer>, NodeFault>
        requires { InputIsFit input.now }
    {
        self.node.handle(input)
    }
}
