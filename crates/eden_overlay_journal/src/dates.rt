// When files were changed, in nanoseconds since 1970; 0 is no time.
use crate::log::left_open;
use eden_plain_files::FolderFault;
use std::fs::{FileTimes, OpenFile};
use std::path::PathBuf;
use std::rt::{Clock, Files};
use std::time::{Duration, SystemTime};

// What the clock says; no time where it fails.
pub(crate) fn now<C: Clock>(clock: &C) -> u64 {
    match clock.since_1970() {
        Ok(since) => {
            let seconds = since.as_secs().saturating_mul(1_000_000_000);
            seconds.saturating_add(u64::from(since.subsec_nanos()))
        }
        Err(_) => 0,
    }
}

// Gives the plain file at the path that time, if it is one.
pub(crate) fn date<R: Files>(files: &R, path: &PathBuf, when: u64) -> Result<(), FolderFault> {
    if when == 0 {
        return Ok(());
    }
    let Some(time) = SystemTime::UNIX_EPOCH.checked_add(Duration::from_nanos(when)) else {
        return Ok(());
    };
    if let Some(file) = left_open(files, path)? {
        file.set_times(FileTimes::new().set_modified(time))?;
    }
    Ok(())
}
