//! What one program has at a time: the directory that keeps the changes, and the path that it listens at.
ghost use Rattle.std.specs.Prelude.{◌≡◌, IfOk, IsErr, IsTrue, option_map, string_bytes};
ghost use Rattle.std.specs.Option.{is_some};
ghost use Rattle.std.specs.Path.{path_buf_bytes};
ghost use Rattle.eden_sockets.specs.Addresses.{is_socket};
ghost use Rattle.mountd.specs.Endings.{hold_name};
ghost use Rattle.mountd.specs.Holding.{IsDeviceFault, IsLockFault, of_files};
ghost use Rattle.mountd.specs.Serving.{opening_of};
ghost use Rattle.mountd.specs.declared.hold.HoldFault.TheVariants as fault;

use eden_checkout::Opening;
use eden_overlay::FilesFault;
use eden_sockets::{Address, remove_left};
use std::alloc::{AllocError, Global};
use std::fs::{self, File, OpenOptions, TryLockError};
use std::io::{self, ErrorKind};
use std::net::Net;
use std::os::unix::fs::OpenOptionsExt;
use std::path::{Path, PathBuf};
use std::rt::Files;

/// Whoever may come to the directory may hold it.
const FOR_ALL: u32 = 0o666;

/// Nobody else may hold a path that this user listens at.
const FOR_ONE: u32 = 0o600;

/// Why a directory, or an address, can't be held.
#[derive(Clone, Copy, Debug, PartialEq, Eq)]
pub enum HoldFault {
    /// Another program holds it.
    Locked,
    /// The device failed, or the machine doesn't let the address be listened at.
    Device,
    /// No memory, or no thread.
    Memory,
}

impl HoldFault {
    /// The fault's name.
    pub fn name(self) -> &'static str
        ensures { result.now ≡ hold_name self }
    {
        match self {
            HoldFault::Locked => "Locked",
            HoldFault::Device => "Device",
            HoldFault::Memory => "Memory",
        }
    }
}

impl From<AllocError> for HoldFault {
    ghost from_gives = { λ _ f. f ≡ fault.Memory };

    fn from(_error: AllocError) -> HoldFault {
        HoldFault::Memory
    }
}

impl From<io::Error> for HoldFault {
    ghost from_gives = { IsDeviceFault };

    fn from(error: io::Error) -> HoldFault {
        match error.kind() {
            ErrorKind::OutOfMemory => HoldFault::Memory,
            _ => HoldFault::Device,
        }
    }
}

impl From<FilesFault> for HoldFault {
    ghost from_gives = { λ e f. f ≡ of_files e };

    fn from(fault: FilesFault) -> HoldFault {
        match fault {
            FilesFault::Device => HoldFault::Device,
            FilesFault::Memory => HoldFault::Memory,
        }
    }
}

impl From<TryLockError> for HoldFault {
    ghost from_gives = { IsLockFault };

    fn from(error: TryLockError) -> HoldFault {
        match error {
            TryLockError::WouldBlock => HoldFault::Locked,
            TryLockError::Error(error) => HoldFault::from(error),
        }
    }
}

/// Makes the directory if it isn't there, and locks the file `lock` in it. The directory is held for as long as the
/// answer is there; if the program is killed, the system lets it go.
///
/// `Locked`, if another program holds it; `Device` and `Memory`, if those failed, or the directory or its lock can't be
/// made.
fn hold<R: Files<File = File>>(
    files: &R,
    alloc: Global,
    folder: &PathBuf,
) -> Result<File, HoldFault> {
    fs::create_dir_all(files, folder.as_path())?;
    let path = folder.join(alloc, "lock")?;
    locked(files, path.as_path(), FOR_ALL)
}

/// Makes the file if it isn't there, with this mode, and locks it.
fn locked<R: Files<File = File>>(files: &R, path: Path<'_>, mode: u32) -> Result<File, HoldFault> {
    // Opening for reading and writing doesn't wait, should there be a pipe of that name.
    let lock = OpenOptions::new()
        .read(true)
        .write(true)
        .create(true)
        .mode(mode)
        .open(files, path)?;
    lock.try_lock()?;
    Ok(lock)
}

/// Holds the directory, if there is one. It comes back with its lock.
///
/// Errors: those of `hold`.
pub fn hold_overlay<R: Files<File = File>>(
    files: &R,
    alloc: Global,
    folder: Option<String>,
) -> Result<Option<(PathBuf, File)>, HoldFault>
    ensures { IfOk result (λ held. option_map (λ h. path_buf_bytes h.0) held ≡ option_map string_bytes folder) }
{
    let Some(folder) = folder else {
        return Ok(None);
    };
    let folder = PathBuf::from(folder);
    let lock = hold(files, alloc, &folder)?;
    Ok(Some((folder, lock)))
}

/// Holds a directory that is there. It comes back with its lock.
///
/// Errors: those of `hold`, and `Device` if there is no such directory.
pub fn hold_existing<R: Files<File = File>>(
    files: &R,
    alloc: Global,
    folder: String,
) -> Result<(PathBuf, File), HoldFault>
    ensures { IfOk result (λ held. path_buf_bytes held.0 ≡ string_bytes folder) }
{
    let folder = PathBuf::from(folder);
    fs::metadata(files, folder.as_path())?;
    let lock = hold(files, alloc, &folder)?;
    Ok((folder, lock))
}

/// A path that is held for its server.
#[derive(Drop)]
pub struct HeldPath {
    path: String,
    lock: File,
}

/// Holds the path that is to be listened at, if it is one and no port: locks the file beside it that is named as it
/// with `.lock` appended, and removes the socket of a program that left one there.
///
/// `Locked`, if another program listens there; `Device` and `Memory`, if those failed, or the lock can't be made. None
/// of them for a port.
pub fn hold_address<R: Files<File = File> + Net>(
    rt: &R,
    alloc: Global,
    address: &Address,
) -> Result<Option<HeldPath>, HoldFault>
    ensures held { IfOk result (λ held. is_some held ≡ is_socket address.now) }
    ensures port { IsErr result → IsTrue (is_socket address.now) }
{
    let Address::Socket(path) = address else {
        return Ok(None);
    };
    let path = String::from_str(alloc, path.as_str())?;
    let mut beside = String::from_str(alloc, path.as_str())?;
    beside.push_str(".lock")?;
    let lock = locked(rt, Path::new(beside.as_str()), FOR_ONE)?;
    if remove_left(rt, path.as_str())? {
        return Err(HoldFault::Locked);
    }
    Ok(Some(HeldPath { path, lock }))
}

/// Lets a path go, and removes its socket, at which nobody listens any more.
pub fn let_go<R: Files + Net>(rt: &R, held: Option<HeldPath>) {
    let Some(HeldPath { path, lock }) = held else {
        return;
    };
    // What can't be removed is left for the next, as after a kill.
    let _ = remove_left(rt, path.as_str());
    drop(lock);
}

/// How what a directory keeps is opened.
pub fn opening(rescan: bool) -> Opening
    ensures { result ≡ opening_of rescan }
{
    if rescan {
        Opening::Rescan
    } else {
        Opening::Closed
    }
}
