//! A row whose threads wait for one another in vain ends within seconds.

use std::process::Abort;
use std::thread;
use std::time::{Clock, Duration};

/// How many seconds a row may take, also if the machine has other work.
const SECONDS: u64 = 30;

/// Ends the program after that time, in a thread that nobody joins: a row that is done ends it before.
pub(crate) fn end_late(rt: &(impl Clock + Abort)) {
    thread::sleep(rt, Duration::from_secs(SECONDS));
    rt.abort()
}
