//! Time passes.

use mio::{Events, Poll};
use std::alloc::Global;
use std::net::Net;
use std::time::Duration;
use ts_files::TaskFault;

/// Waits so many milliseconds.
///
/// # Errors
///
/// `Clock` where the system can't wait; `Memory`.
pub(crate) fn pause<R: Net>(rt: &R, alloc: Global, millis: u64) -> Result<(), TaskFault> {
    let Ok(mut poll) = Poll::new(rt) else {
        return Err(TaskFault::Clock);
    };
    let mut events = Events::with_capacity(alloc, 1)?;
    match poll.poll(&mut events, Some(Duration::from_millis(millis))) {
        Ok(()) => Ok(()),
        Err(_) => Err(TaskFault::Clock),
    }
}
