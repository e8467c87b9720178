//! The programs of a node: its record is made, and it is served.

ghost use Rattle.std.specs.Prelude.{◌≤◌};

use crate::grouping::setting_of;
use std::alloc::Global;
use std::fs::File;
use std::io::Print;
use std::net::{Net, TcpListener, TcpStream};
use std::random::RandomSource;
use std::rt::{Clock, Files};
use ts_answer::Answers;
use ts_cli::ServeWords;
use ts_disk::Disk;
use ts_files::{
    MAX_TABLE, RecordLock, TaskFault, format_files, migrate_files, open_disks, output_fault,
    read_within,
};
use ts_loop::{LoopFault, serve_all};
use ts_memo::{MemoCheck, ServedCheck};
use ts_meter::{Meter, MeteredDisk};
use ts_node::Node;
use ts_serve::Server;
use ts_sig::TableCheck;
use ts_sockets::Limits;
use ts_synod::NodeFault;

/// Makes the record of a node of a group, and says so.
///
/// # Errors
///
/// Those of the record's files; `Write`.
pub fn format_record(
    rt: &(impl AllocGlobal + Files<File = File> + Print + Eprint),
    file: &str,
    node: u8,
    nodes: u8,
    group: u32,
) -> Result<(), TaskFault>
    requires from { 1 ≤ node }
    requires to { node ≤ nodes }
    requires few { nodes ≤ 9 }
{
    format_files(rt, rt.alloc(), file, node, nodes, group)?;
    println!(rt; "formatted").map_err(output_fault)
}

/// Makes a record from one of version 1, and says how many facts it holds.
///
/// # Errors
///
/// Those of the two records' files; `Write`.
pub fn migrate_record(
    rt: &(impl AllocGlobal + Files<File = File> + Print + Eprint),
    old: &str,
    new: &str,
) -> Result<(), TaskFault> {
    let facts = migrate_files(rt, rt.alloc(), old, new)?;
    println!(rt; "migrated {facts}").map_err(output_fault)
}

/// The table of signatures in a file.
fn table_of<R: Files + Eprint>(rt: &R, alloc: Global, path: &str) -> Result<TableCheck, TaskFault> {
    let text = read_within(rt, alloc, path, MAX_TABLE)?;
    Ok(TableCheck::read(alloc, &text)?)
}

/// The check of signatures that the words choose.
fn check_of<R: Files + Eprint>(
    rt: &R,
    alloc: Global,
    words: &ServeWords,
) -> Result<ServedCheck, TaskFault> {
    if words.stand_in {
        return Ok(ServedCheck::StandIn);
    }
    let Some(path) = &words.table else {
        return Ok(ServedCheck::Native(MemoCheck::new(alloc)));
    };
    let table = table_of(rt, alloc, path.as_str())?;
    Ok(ServedCheck::NativeOrTable(MemoCheck::new(alloc), table))
}

/// How many connections stand for no end.
const ENDLESS: u32 = 1_000_000;

/// The limits that the words give.
fn limits_of(words: &ServeWords) -> Limits {
    let connections = match words.connections {
        ENDLESS => u64::MAX,
        connections => connections as u64,
    };
    Limits {
        idle_ms: words.idle as u64 * 1000,
        request_ms: words.request as u64 * 1000,
        connections_at_once: words.at_once as usize,
        connections,
    }
}

/// The address of HTTP.
fn http_of(words: &ServeWords) -> &str {
    match &words.http {
        Some(address) => address.as_str(),
        None => "",
    }
}

/// Why a loop ended, as the program's fault; standard error says what the system did not give.
fn fault_of_loop(rt: &impl Eprint, words: &ServeWords, fault: LoopFault) -> TaskFault {
    match fault {
        LoopFault::Listen => {
            let address = words.listen.as_str();
            let _ = eprintln!(rt; "trustd: {address}: can't be listened at; is it in use?");
            TaskFault::Read
        }
        LoopFault::Unprotected => {
            let address = words.listen.as_str();
            let _ = eprintln!(rt;
                "trustd: {address}: other machines reach it: give --keys FILE, or --open"
            );
            TaskFault::Unprotected
        }
        LoopFault::ListenHttp => {
            let address = http_of(words);
            let _ = eprintln!(rt; "trustd: {address}: can't be listened at; is it in use?");
            TaskFault::Read
        }
        LoopFault::UnprotectedHttp => {
            let address = http_of(words);
            let _ = eprintln!(rt;
                "trustd: {address}: other machines reach it, and HTTP has no keys: give --open"
            );
            TaskFault::Unprotected
        }
        LoopFault::Peer(node) => {
            let _ = eprintln!(rt; "trustd: the address of peer {node} can't be found");
            TaskFault::Read
        }
        LoopFault::Poll => TaskFault::Read,
        LoopFault::Clock => TaskFault::Clock,
        LoopFault::Memory => TaskFault::Memory,
        LoopFault::NodeFailed => TaskFault::Node(NodeFault::DiskFailed),
    }
}

/// Serves the node on two disks, whose signatures this check decides, as the words say. What owns a
/// node is let go by `drop`, which keeps the proof short.
fn serve_node<
    D: Disk + Drop,
    R: Net<Listener = TcpListener, Stream = TcpStream> + Files + Clock + RandomSource + Eprint,
>(
    rt: &R,
    alloc: Global,
    disks: (D, D),
    check: ServedCheck,
    words: &ServeWords,
    meter: &Meter,
) -> Result<(), TaskFault> {
    let (a, b) = disks;
    let node = match Node::open(alloc, a, b, Answers::new(alloc, check)) {
        Ok(node) => node,
        Err(refused) => {
            let fault = refused.fault;
            drop(refused);
            return Err(TaskFault::from(fault));
        }
    };
    let (group, mut access) = match setting_of(rt, alloc, words, node.identity(), meter) {
        Ok(setting) => setting,
        Err(fault) => {
            drop(node);
            return Err(fault);
        }
    };
    let mut server = match Server::new(alloc, node) {
        Ok(server) => server,
        Err(node) => {
            drop((node, group, access));
            return Err(TaskFault::Memory);
        }
    };
    let (listen, limits) = (words.listen.as_str(), limits_of(words));
    let served = serve_all(rt, alloc, &mut server, listen, &limits, &group, &mut access);
    drop((server, group, access));
    match served {
        Ok(_) => Ok(()),
        Err(fault) => Err(fault_of_loop(rt, words, fault)),
    }
}

/// Serves the node whose record is locked.
fn serve_locked<
    R: Net<Listener = TcpListener, Stream = TcpStream>
        + Files<File = File>
        + Clock
        + RandomSource
        + Eprint,
>(rt: &R, alloc: Global, words: &ServeWords) -> Result<(), TaskFault> {
    let meter = Meter::new();
    let (a, b) = open_disks(rt, alloc, words.file.as_str())?;
    let check = match check_of(rt, alloc, words) {
        Ok(check) => check,
        Err(fault) => {
            drop((a, b));
            return Err(fault);
        }
    };
    if words.stand_in {
        let _ = eprintln!(rt; "signatures are the examples' stand-in: anybody can forge them");
    }
    let disks = (MeteredDisk::new(a, &meter), MeteredDisk::new(b, &meter));
    serve_node(rt, alloc, disks, check, words, &meter)
}

/// Serves the node whose record lies in a file and the one beside it, as the words say. Signatures
/// are computed; a table adds those that it lists; the stand-in, which is no security, takes their
/// place. Where peers are named, and in a group of one node, messages are carried.
///
/// # Errors
///
/// `Busy` where another process serves the record; those of files, table, record, keys and address,
/// in this order; `Field` where a peer is no other node of the group, or the node's own key is not
/// one of its number; `Unprotected` where there are no keys and other machines reach the address;
/// `DiskFailed` where a device of the node failed meanwhile.
pub fn serve_record<
    R: AllocGlobal
        + Files<File = File>
        + Net<Listener = TcpListener, Stream = TcpStream>
        + Clock
        + RandomSource
        + Eprint,
>(rt: &R, words: &ServeWords) -> Result<(), TaskFault> {
    let alloc = rt.alloc();
    let lock = RecordLock::of_record(rt, alloc, words.file.as_str())?;
    let served = serve_locked(rt, alloc, words);
    drop(lock);
    served
}
