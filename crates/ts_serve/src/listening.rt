//! Connections are served, one after the other.

ghost use Rattle.std.specs.Prelude.{◌≡◌, List, IfErr};
ghost use Rattle.ts_question.specs.Question.{StoreQuestion};
ghost use Rattle.ts_node.specs.Machine.{store_of};
ghost use Rattle.ts_node.specs.Node.{IsSound};
ghost use Rattle.ts_command.specs.Octets.{octets_of};
ghost use Rattle.ts_wire.specs.declared.frame.Frame.{Frame as Request};
ghost use Rattle.ts_serve.specs.Turn.{ServerTurn};
ghost use Rattle.ts_serve.specs.Stream.{Run};

use crate::connection::set_up;
use crate::fault::ServeFault;
use crate::server::Server;
use crate::serving::serve;
use std::io::BufWriter;
use std::net::{TcpListener, TcpStream};
use ts_command::{Command, Outcome};
use ts_disk::Disk;
use ts_node::Machine;
use ts_question::{Answer, Question};

/// Serves one connection, whatever becomes of it. A client that neither sends nor reads for
/// [`LONGEST_WAIT`](crate::LONGEST_WAIT) seconds loses it, so that it does not keep others out.
fn serve_connection<D, M>(server: &mut Server<D, M>, stream: &TcpStream)
where
    D: Disk,
    M: Machine<Command, Outcome = Outcome, Question = Question, Answer = Answer>,
    requires { IsSound D.state octets_of M.commands server.old.node }
    ensures run { (requests answers : List Request)
        × Run (ServerTurn D.state (store_of StoreQuestion M.client_id M.outcome) M.basis
        M.is_answer) server.old
        requests answers server.new }
    ensures sound { IsSound D.state octets_of M.commands server.new.node }
{
    if set_up(stream).is_err() {
        return;
    }
    let Ok(mut writer) = BufWriter::new(server.allocator(), stream) else {
        return;
    };
    let mut reader = stream;
    let _ = serve(server, &mut reader, &mut writer);
}

/// Accepts this many connections, and serves them one after the other. A fault of a connection ends
/// its own stream alone, and so does a client that is waited for longer than
/// [`LONGEST_WAIT`](crate::LONGEST_WAIT) seconds.
///
/// # Errors
///
/// `Read` where a connection can't be accepted, and no other.
pub fn listen<D, M>(
    server: &mut Server<D, M>,
    listener: &TcpListener,
    connections: u32,
) -> Result<(), ServeFault>
where
    D: Disk,
    M: Machine<Command, Outcome = Outcome, Question = Question, Answer = Answer>,
    requires { IsSound D.state octets_of M.commands server.old.node }
    ensures fault { IfErr result (λ fault. fault ≡ ServeFault.Read) }
    // Whatever comes, the server has answered some requests, one after another.
    ensures run { (requests answers : List Request)
        × Run (ServerTurn D.state (store_of StoreQuestion M.client_id M.outcome) M.basis
        M.is_answer) server.old
        requests answers server.new }
    ensures sound { IsSound D.state octets_of M.commands server.new.node }
{
    for _connection in 0..connections {
        match listener.accept() {
            Ok((stream, _)) => serve_connection(server, &stream),
            Err(_) => return Err(ServeFault::Read),
        }
    }
    Ok(())
}
