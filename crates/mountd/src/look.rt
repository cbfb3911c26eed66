//! How a folder looks: whose it is, what is reported of its disk, and when what it shows was changed.
use eden_fuse_format::{StatFsOut, Time};
use eden_fuse_life::Look;
use eden_fuse_meaning::Owner;
use eden_fuse_shown::{Manner, Times};
use eden_model::{MAX_NAME, Outside};
use eden_overlay::Files;
use eden_overlay_format::Identifier;
use itoa::Buffer;
use std::fs;
use std::os::unix::fs::MetadataExt;
use std::path::{Path, PathBuf};
use std::time::{SystemTime, UNIX_EPOCH};

/// For how many seconds the kernel may keep what it was told, since nobody else changes it.
const KEEP: u64 = 60;

/// What is reported of the disk: 4 TiB, half of them free. What changes need of room is the overlay's.
const SPACE: StatFsOut = StatFsOut {
    blocks: 1 << 30,
    bfree: 1 << 29,
    bavail: 1 << 29,
    files: 1 << 30,
    ffree: 1 << 29,
    bsize: 4_096,
    namelen: MAX_NAME as u32,
    frsize: 4_096,
};

/// Who runs this program, to whom all that is shown belongs; root if that can't be told.
fn owner(rt: &HostRuntime) -> Owner {
    match fs::metadata(rt, Path::new("/proc/self")) {
        Err(_) => Owner { uid: 0, gid: 0 },
        Ok(told) => Owner {
            uid: told.uid(),
            gid: told.gid(),
        },
    }
}

/// What the clock says; 1970 if it says nothing.
fn now(rt: &HostRuntime) -> Time {
    let none = Time {
        seconds: 0,
        nanoseconds: 0,
    };
    match SystemTime::now(rt) {
        Err(_) => none,
        Ok(time) => match time.duration_since(UNIX_EPOCH) {
            Err(_) => none,
            Ok(since) => Time {
                seconds: since.as_secs(),
                nanoseconds: since.subsec_nanos(),
            },
        },
    }
}

/// How a folder looks of which nothing was changed since that second; 0 stands for now.
pub fn look(rt: &HostRuntime, since: u64) -> Look {
    let since = match since {
        0 => now(rt),
        seconds => Time {
            seconds,
            nanoseconds: 0,
        },
    };
    Look {
        manner: Manner {
            owner: owner(rt),
            keep: KEEP,
            space: SPACE,
        },
        times: Times::new(rt.alloc(), since),
    }
}

/// Notes when the contents and directories were changed that these files of a directory have: as each was stored. What
/// can't be looked at has no time of its own.
pub fn note_changes<F: Files<Outside>>(
    rt: &HostRuntime,
    folder: &PathBuf,
    files: &mut F,
    look: &mut Look,
) {
    let Ok(numbers) = files.list(rt.alloc()) else {
        return;
    };
    for number in &numbers {
        if let Some(time) = changed(rt, folder, files, *number) {
            look.times.note_inode(*number, time);
        }
    }
}

/// When the file of that number was stored, from 1970 on, if it has a content or a directory's entries.
fn changed<F: Files<Outside>>(
    rt: &HostRuntime,
    folder: &PathBuf,
    files: &mut F,
    number: u64,
) -> Option<Time> {
    let head = files.head(number).ok()??;
    if &head.first[..4] == Identifier::Numbers.bytes().as_slice() {
        return None;
    }
    let mut name = Buffer::new();
    let path = folder.join(rt.alloc(), name.format(number)).ok()?;
    let told = fs::symlink_metadata(rt, path.as_path()).ok()?;
    Some(Time {
        seconds: u64::try_from(told.mtime()).ok()?,
        nanoseconds: u32::try_from(told.mtime_nsec()).ok()?,
    })
}
