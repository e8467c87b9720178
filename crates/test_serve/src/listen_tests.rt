//! A connection over a socket.

use std::alloc::{AllocError, Global};
use std::io::Read;
use std::net::TcpListener;
use std::test::Fail;
use ts_answer::Answers;
use ts_command::Command;
use ts_disk::MemDisk;
use ts_node::Node;
use ts_record::Record;
use ts_serve::{ServeFault, Server, TimedStream, listen, write_octets};
use ts_sig::DigestCheck;

/// The request Status, and the answer Prefix 0.
const STATUS: &[u8] = b"\x00\x00\x00\x02\x02\x15";

const PREFIX_0: &[u8] = b"\x00\x00\x00\x06\x02\x27\x00\x00\x00\x00";

/// The record of a new node that is alone in its group.
fn record(alloc: Global) -> Result<(MemDisk, MemDisk), AllocError> {
    let mut a = MemDisk::new(alloc, Vec::new(alloc))?;
    let mut b = MemDisk::new(alloc, Vec::new(alloc))?;
    match Record::<MemDisk, Command>::format(&mut a, &mut b, 1, 1, 0) {
        Ok(()) => Ok((a, b)),
        Err(_) => Err(AllocError),
    }
}

/// How the server of such a node ends that serves one connection.
fn listen_once(alloc: Global, listener: &TcpListener) -> Result<(), ServeFault> {
    let (a, b) = record(alloc)?;
    let node = match Node::open(alloc, a, b, Answers::new(alloc, DigestCheck)) {
        Ok(node) => node,
        Err(refused) => {
            drop(refused);
            return Err(ServeFault::Memory);
        }
    };
    let mut server = match Server::new(alloc, node) {
        Ok(server) => server,
        Err(node) => {
            drop(node);
            return Err(ServeFault::Memory);
        }
    };
    let end = listen(&mut server, listener, 1);
    drop(server);
    end
}

#[test]
fn a_connection_is_served(rt: HostRuntime) -> Result<(), Fail> {
    let alloc = rt.alloc();
    let listener = TcpListener::bind(&rt, "127.0.0.1:0")?;
    let address = listener.local_addr()?;
    let address = format!(in alloc; "{address}")?;
    let Some(mut stream) = TimedStream::connect(&rt, address.as_str(), u64::MAX) else {
        panic!(&rt; "no connection");
    };
    write_octets(&mut stream, STATUS)?;
    stream.end_writing()?;
    assert_eq!(rt; listen_once(alloc, &listener), Ok(()));
    let mut answer = Vec::new(alloc);
    let _count = stream.read_to_end(&mut answer)?;
    assert_eq!(rt; answer.as_slice(), PREFIX_0);
    Ok(())
}
