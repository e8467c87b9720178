//! What a key's role says of the frames that are handed on. It is the contract of a function that
//! does nothing.

ghost use Rattle.std.specs.Prelude.{◌≡◌, ℕ, true, false};
ghost use Rattle.ts_synod.specs.declared.message.Message.{Message};
ghost use Rattle.ts_command.specs.declared.command.Command.{Command as Change};
ghost use Rattle.ts_wire.specs.Frames.{frame_encoding};
ghost use Rattle.ts_wire.specs.declared.frame.Frame.TheVariants as frames;
ghost use Rattle.ts_access.specs.Roles.{may};
ghost use Rattle.ts_access.specs.declared.key.Role.{Role};
ghost use Rattle.ts_access.specs.declared.key.Role.TheVariants as roles;

/// A peer's key brings messages of that peer to this node alone; nobody else's brings any; and only
/// an admin's brings a command.
pub fn each_speaks_for_itself()
    ensures peer { (peer node : ℕ) (message : Message Change)
        → may (roles.Peer peer) node (frame_encoding (frames.Peer message)) ≡ true
        → (message.from ≡ peer) × (message.to ≡ node) }
    ensures admin { (node : ℕ) (message : Message Change)
        → may roles.Admin node (frame_encoding (frames.Peer message)) ≡ false }
    ensures reader { (node : ℕ) (message : Message Change)
        → may roles.Reader node (frame_encoding (frames.Peer message)) ≡ false }
    ensures command { (role : Role) (node : ℕ) (command : Change)
        → may role node (frame_encoding (frames.Submit command)) ≡ true → role ≡ roles.Admin }
{}
