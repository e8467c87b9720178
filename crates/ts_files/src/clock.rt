//! The clock.

use crate::fault::TaskFault;
use std::rt::Clock;
use std::time::{SystemTime, UNIX_EPOCH};
use ts_time::Moment;

/// The moment of the clock.
///
/// # Errors
///
/// `Clock` where it gives none after 1970.
pub fn now<R: Clock>(rt: &R) -> Result<Moment, TaskFault> {
    let Ok(now) = SystemTime::now(rt) else {
        return Err(TaskFault::Clock);
    };
    match now.duration_since(UNIX_EPOCH) {
        Ok(past) if past.as_secs() <= i64::MAX as u64 => Ok(Moment(past.as_secs() as i64)),
        _ => Err(TaskFault::Clock),
    }
}
