//! What the program is to do.

use crate::command_words::CommandWords;
use crate::question_words::QuestionWords;
use crate::reach::Reach;
use crate::serve_words::ServeWords;
use crate::sync_words::SyncWords;
use crate::verify_words::VerifyWords;
use ts_access::Role;

/// What the program is to do.
#[derive(Debug, Drop)]
pub enum Task {
    /// Answer the script on standard input.
    Lab,
    /// Make the record of a node.
    Format {
        /// The record.
        file: String,
        /// Which node it is.
        id: u8,
        /// How many nodes there are.
        nodes: u8,
        /// The number of the group; 0 is none.
        group: u32,
    },
    /// Make a record from one of version 1.
    Migrate {
        /// The record of version 1.
        old: String,
        /// The record that is made.
        new: String,
    },
    /// Answer clients and other nodes.
    Serve(ServeWords),
    /// Judge a chain without a node.
    Verify(VerifyWords),
    /// Hand a command to a node.
    Submit {
        /// The node, and the key that it is shown.
        reach: Reach,
        /// The encoded command.
        file: String,
        /// For how many seconds to wait until it is chosen; 0 to wait for nothing.
        wait: u32,
    },
    /// Ask a node a question.
    Ask {
        /// The node, and the key that it is shown.
        reach: Reach,
        /// The encoded question.
        file: String,
        /// Whether an answer that is no valid chain gives another status.
        check: bool,
        /// Whether a second line explains the answer.
        explain: bool,
    },
    /// Carry messages between nodes.
    Carry {
        /// The address of each.
        addresses: Vec<String>,
        /// How many times.
        rounds: u32,
    },
    /// Print how a node does: its prefix, its peers, its appends and syncs.
    Status {
        /// The node, and the key that it is shown.
        reach: Reach,
    },
    /// Print which node of which group it is.
    Identify {
        /// The node, and the key that it is shown.
        reach: Reach,
    },
    /// Have a node ask others for what it lacks.
    CatchUp {
        /// The node, and the key that it is shown.
        reach: Reach,
    },
    /// Have a node make one step of rewriting its record.
    Compact {
        /// The node, and the key that it is shown.
        reach: Reach,
    },
    /// Print what a node's store holds.
    Store {
        /// The node, and the key that it is shown.
        reach: Reach,
        /// After how many commands, if it is given.
        k: Option<u32>,
        /// Whether as JSON.
        json: bool,
    },
    /// Print the commands that a node's store took.
    Log {
        /// The node, and the key that it is shown.
        reach: Reach,
        /// From which position on.
        from: u32,
        /// Up to which, if it is given.
        k: Option<u32>,
        /// Whether as JSON.
        json: bool,
    },
    /// Print what changed in a node's store.
    Diff {
        /// The node, and the key that it is shown.
        reach: Reach,
        /// The number of commands before.
        old: u32,
        /// The number of commands behind.
        new: u32,
    },
    /// Make a store hold exactly what files hold.
    Sync(SyncWords),
    /// Submit the commands of a record to a node of another group, each at its position.
    Replay {
        /// The record.
        file: String,
        /// The node, and the key that it is shown.
        reach: Reach,
        /// For how many seconds to wait until each command is chosen.
        wait: u32,
    },
    /// Print a line of a file of keys, with a new secret.
    Keygen {
        /// What its holder is to a node.
        role: Role,
    },
    /// Write an encoded command.
    Command(CommandWords),
    /// Write an encoded question.
    Question(QuestionWords),
    /// Print the id of an anchor or a CRL.
    Id {
        /// The certificate or list.
        file: String,
    },
    /// Print what a file holds.
    Show {
        /// The file.
        file: String,
    },
}
