//! The program `trustd`: reads the command line, and runs what it asks for. The tasks of a node are
//! in `ts_daemon`, those of clients in `ts_client`, those of files alone in `ts_offline`.
#![tactic(auto)]

ghost use Rattle.std.specs.Prelude.{◌≡◌, ◌≤◌, OnErr, Ok, true, false};
ghost use Rattle.ts_cli.specs.Says.{IsInRange};
ghost use Rattle.ts_exchange.specs.declared.ending.Ending.TheVariants.{Well, Refused};

mod running;

use crate::running::run;
use std::io;
use std::io::Input;
use std::process::ExitCode;
use ts_cli::{Task, report, task_of_process};
use ts_exchange::Ending;
use ts_files::TaskFault;
use ts_lab::lab;
use ts_offline::verify_files;

/// Ends with the status of the task that the command line asks for, and with 2 for a wrong command
/// line. What owns the words is let go by `drop`, which keeps the proof short.
fn main(rt: HostRuntime) -> ExitCode {
    let status = match task_of_process(&rt) {
        Ok(task) => {
            let status = status_of_task(&rt, &task);
            drop(task);
            status
        }
        Err(fault) => {
            let status = report(&rt, &fault);
            drop(fault);
            status
        }
    };
    ExitCode::from(status)
}

/// Runs a task, and returns the status to end with.
fn status_of_task(rt: &HostRuntime, task: &Task) -> u8
    requires { IsInRange task.now }
{
    match task {
        Task::Lab => run_lab(rt),
        Task::Verify(words) => status_of_verdict(rt, verify_files(rt, words)),
        other => status_of(rt, run(rt, other)),
    }
}

/// The lab on the standard streams.
fn run_lab(rt: &(impl AllocGlobal + Input + Print)) -> u8
    ensures { result ≤ 2 }
{
    lab(rt.alloc(), &mut rt.reader(), &mut io::writer(rt))
}

/// Prints the name of a fault on standard error, unless nobody reads standard output any more, as
/// where `head` has what it wants.
fn print_fault(rt: &impl Eprint, fault: TaskFault) {
    if fault != TaskFault::Closed {
        let _printed = eprintln!(rt; "fault: {fault}");
    }
}

/// The status that a task ends with: 0; 1 where a command is refused or a chain is not valid; and 1
/// for a fault, whose name is printed on standard error.
fn status_of(rt: &impl Eprint, ended: Result<Ending, TaskFault>) -> u8
    ensures done { ended ≡ Ok Well → result ≡ 0 }
    ensures refused { ended ≡ Ok Refused → result ≡ 1 }
    ensures failed { OnErr ended (result ≡ 1) }
{
    match ended {
        Ok(Ending::Well) => 0,
        Ok(Ending::Refused) => 1,
        Err(fault) => {
            print_fault(rt, fault);
            1
        }
    }
}

/// The status that a verdict ends with: 0 where the chain is valid, 1 where it is not, and 2 for a
/// fault, whose name is printed on standard error.
fn status_of_verdict(rt: &impl Eprint, ended: Result<bool, TaskFault>) -> u8
    ensures valid { ended ≡ Ok true → result ≡ 0 }
    ensures invalid { ended ≡ Ok false → result ≡ 1 }
    ensures failed { OnErr ended (result ≡ 2) }
{
    match ended {
        Ok(true) => 0,
        Ok(false) => 1,
        Err(fault) => {
            print_fault(rt, fault);
            2
        }
    }
}
