//! How a run ends: with status 0, or with a line on standard error and another.
//!
//! If standard error can't be written, there is only the status.
ghost use Rattle.std.specs.Prelude.{◌≡◌};
ghost use Rattle.std.specs.Process.{exit_status};
ghost use Rattle.mountd.specs.Endings.{close_name, dematerialise_name, dematerialised_status, folder_status};
ghost use Rattle.mountd.specs.Endings.{import_status, open_name, repaired_status, repository_name, server_status};
ghost use Rattle.mountd.specs.Endings.{session_name, shared_status, status_of, store_name, tidied_status};
ghost use Rattle.mountd.specs.Endings.{told_status};

use crate::server::ServerFault;
use eden_checkout::{OpenFault, TidyFault};
use eden_dematerialise::DematerialiseFault;
use eden_fuse_life::FolderFault;
use eden_fuse_session::SessionFault;
use eden_git::GitFault;
use eden_object_writer::ImportFault;
use eden_overlay::{FilesFault, RescanFault};
use eden_serve_life::SharedLifeFault;
use eden_stdio_life::LifeFault;
use mountd_options::OptionsError;
use std::io;
use std::process::ExitCode;

const REFUSED: u8 = 2;

const UNOPENED: u8 = 3;

const FAULT: u8 = 4;

const UNIMPORTED: u8 = 5;

const EIO: u32 = 5;

const ENOMEM: u32 = 12;

const EFBIG: u32 = 27;

const ENOSPC: u32 = 28;

const EROFS: u32 = 30;

const ENAMETOOLONG: u32 = 36;

const ESTALE: u32 = 116;

const EDQUOT: u32 = 122;

/// Reports why the arguments can't be read, as when they are not UTF-8. Status 2.
pub fn arguments<R: Eprint>(rt: &R, error: &io::Error) -> ExitCode
    ensures { exit_status result ≡ 2 }
{
    let _ = eprintln!(rt; "mountd: arguments: {error}");
    ExitCode::from(REFUSED)
}

/// Reports why the command line is refused. Status 2.
pub fn command_line<R: Eprint>(rt: &R, error: &OptionsError) -> ExitCode
    ensures { exit_status result ≡ 2 }
{
    // `clap` ends its own lines.
    let _ = match error {
        OptionsError::Refused(error) => eprint!(rt; "{error}"),
        error => eprintln!(rt; "{error}"),
    };
    ExitCode::from(REFUSED)
}

/// Reports by which fault, called `name`, the overlay or the repository of its objects wasn't opened. Status 3.
pub fn unopened<R: Eprint>(rt: &R, name: &str) -> ExitCode
    ensures { exit_status result ≡ 3 }
{
    let _ = eprintln!(rt; "mountd: open {name}");
    ExitCode::from(UNOPENED)
}

/// Reports by which fault, called `name`, nobody listens. Status 4.
pub fn unheard<R: Eprint>(rt: &R, name: &str) -> ExitCode
    ensures { exit_status result ≡ 4 }
{
    ended(rt, "listen", name)
}

/// Reports how a mount's life ended, if it didn't end well: by which fault, without the fault's values.
///
/// Status 0; 3, if the overlay wasn't opened; 4, if the session or the close ended in a fault.
pub fn ending<R: Eprint>(rt: &R, outcome: Result<(), LifeFault>) -> ExitCode
    ensures { exit_status result ≡ status_of outcome }
{
    match outcome {
        Ok(()) => ExitCode::SUCCESS,
        Err(LifeFault::Open(fault)) => unopened(rt, open_name(fault)),
        Err(LifeFault::Session(fault)) => ended(rt, "session", fault.name()),
        Err(LifeFault::Close(fault)) => ended(rt, "close", close_name(fault)),
    }
}

/// Reports how a shared mount's life ended, if it didn't end well: by which fault, without the fault's values.
///
/// Status 0; 3, if the overlay wasn't opened; 4, if listening, a session or the close ended in a fault.
pub fn shared_ending<R: Eprint>(rt: &R, outcome: Result<(), SharedLifeFault>) -> ExitCode
    ensures { exit_status result ≡ shared_status outcome }
{
    match outcome {
        Ok(()) => ExitCode::SUCCESS,
        Err(SharedLifeFault::Open(fault)) => unopened(rt, open_name(fault)),
        Err(SharedLifeFault::Listen) => unheard(rt, "Device"),
        Err(SharedLifeFault::Session(fault)) => ended(rt, "session", fault.name()),
        Err(SharedLifeFault::Close(fault)) => ended(rt, "close", close_name(fault)),
    }
}

/// Reports how a folder's life ended, if it didn't end well: by which fault, without the fault's values. That what was
/// written last wasn't all stored is reported beside the session's fault too.
///
/// Status 0; 3, if the overlay wasn't opened; 4, if the session, the last stores or the close ended in a fault.
pub fn folder_ending<R: Eprint>(
    rt: &R,
    outcome: Result<(), FolderFault>,
    unstored: Option<u32>,
) -> ExitCode
    ensures { exit_status result ≡ folder_status outcome }
{
    match outcome {
        Ok(()) => ExitCode::SUCCESS,
        Err(FolderFault::Open(fault)) => unopened(rt, open_name(fault)),
        Err(FolderFault::Session(fault)) => session_ended(rt, fault, unstored),
        Err(FolderFault::Unstored(errno)) => ended(rt, "store", store_name(errno)),
        Err(FolderFault::Close(fault)) => ended(rt, "close", close_name(fault)),
    }
}

// Reports by which fault a session with the kernel ended, and upon which error what waited then wasn't stored, if it
// wasn't. Status 4.
fn session_ended<R: Eprint>(rt: &R, fault: SessionFault, unstored: Option<u32>) -> ExitCode
    ensures { exit_status result ≡ 4 }
{
    let status = ended(rt, "session", session_name(fault));
    match unstored {
        None => status,
        Some(errno) => ended(rt, "store", store_name(errno)),
    }
}

// The name of the error upon which what was written last wasn't stored, if it is one of a device that didn't store, or
// of a mount that lacked memory or a path; else that it was refused.
fn store_name(errno: u32) -> &'static str
    ensures { result.now ≡ store_name errno }
{
    match errno {
        EIO => "EIO",
        ENOMEM => "ENOMEM",
        EFBIG => "EFBIG",
        ENOSPC => "ENOSPC",
        EROFS => "EROFS",
        ENAMETOOLONG => "ENAMETOOLONG",
        ESTALE => "ESTALE",
        EDQUOT => "EDQUOT",
        _ => "Refused",
    }
}

// The name of why a session with the kernel ended early.
fn session_name(fault: SessionFault) -> &'static str
    ensures { result.now ≡ session_name fault }
{
    match fault {
        SessionFault::Receive => "Receive",
        SessionFault::Memory => "Memory",
    }
}

/// Reports how a server of objects ended, if it didn't end well.
///
/// Status 0; 3, if the repository wasn't opened; 4, if listening or a session ended in a fault.
pub fn server<R: Eprint>(rt: &R, outcome: Result<(), ServerFault>) -> ExitCode
    ensures { exit_status result ≡ server_status outcome }
{
    match outcome {
        Ok(()) => ExitCode::SUCCESS,
        Err(ServerFault::Open(fault)) => unopened(rt, repository_name(fault)),
        Err(ServerFault::Listen(fault)) => unheard(rt, fault.name()),
        Err(ServerFault::Session(fault)) => ended(rt, "session", fault.name()),
    }
}

/// Reports by which fault nothing was imported, if there was one. Status 0, or 5.
pub fn import<R: Eprint>(rt: &R, outcome: Result<(), ImportFault>) -> ExitCode
    ensures { exit_status result ≡ import_status outcome }
{
    match outcome {
        Ok(()) => ExitCode::SUCCESS,
        Err(fault) => {
            let _ = eprintln!(rt; "mountd: import {}", fault.name());
            ExitCode::from(UNIMPORTED)
        }
    }
}

/// Reports by which fault an overlay wasn't tidied, or that how much was removed couldn't be written, if that is so.
///
/// Status 0; 3, if the overlay isn't one that was closed; 4, if a removal failed, or the line can't be written.
pub fn tidied<R: Eprint>(rt: &R, outcome: Result<io::Result<()>, TidyFault>) -> ExitCode
    ensures { exit_status result ≡ tidied_status outcome }
{
    match outcome {
        Ok(written) => told(rt, "tidy", written),
        Err(TidyFault::Open(fault)) => unopened(rt, open_name(fault)),
        Err(TidyFault::Remove(fault)) => ended(rt, "tidy", close_name(fault)),
    }
}

/// Reports how the repair of an overlay ended, once what was found was written, or could not be.
///
/// Status 0; 3, if a rescan refuses the overlay still; 4, if the device or memory failed, or a line can't be written.
pub fn repaired<R: Eprint>(
    rt: &R,
    outcome: Result<u64, RescanFault>,
    stored: Result<(), FilesFault>,
    written: io::Result<()>,
) -> ExitCode
    ensures { exit_status result ≡ repaired_status outcome stored written }
{
    match (outcome, stored) {
        (Ok(_), Ok(())) => told(rt, "repair", written),
        (Ok(_), Err(fault)) => ended(rt, "repair", close_name(fault)),
        (Err(RescanFault::Dangling(_)), _) => unopened(rt, "Dangling"),
        (Err(RescanFault::Twice(_)), _) => unopened(rt, "Twice"),
        (Err(RescanFault::Damaged(_, _)), _) => unopened(rt, "Damaged"),
        (Err(RescanFault::Device), _) => ended(rt, "repair", "Device"),
        (Err(RescanFault::Memory), _) => ended(rt, "repair", "Memory"),
    }
}

/// Reports by which fault an overlay doesn't stand on another tree, or may not stay there, if that is so.
///
/// Status 0; 4, if a file or an object failed, or the disk.
pub fn dematerialised<R: Eprint>(
    rt: &R,
    outcome: Result<(), DematerialiseFault>,
    stored: Result<(), FilesFault>,
) -> ExitCode
    ensures { exit_status result ≡ dematerialised_status outcome stored }
{
    match (outcome, stored) {
        (Ok(()), Ok(())) => ExitCode::SUCCESS,
        (Ok(()), Err(fault)) => ended(rt, "dematerialise", close_name(fault)),
        (Err(fault), _) => ended(rt, "dematerialise", dematerialise_name(fault)),
    }
}

/// Reports by which fault `what` couldn't be written, if it couldn't be. Status 0, or 4.
pub fn told<R: Eprint>(rt: &R, what: &str, written: io::Result<()>) -> ExitCode
    ensures { exit_status result ≡ told_status written }
{
    match written {
        Ok(()) => ExitCode::SUCCESS,
        Err(_) => ended(rt, what, "Write"),
    }
}

/// Tells what ended by which fault. Status 4.
pub fn ended<R: Eprint>(rt: &R, what: &str, name: &str) -> ExitCode
    ensures { exit_status result ≡ 4 }
{
    let _ = eprintln!(rt; "mountd: {what} {name}");
    ExitCode::from(FAULT)
}

// The name of a fault of the opening.
fn open_name(fault: OpenFault) -> &'static str
    ensures { result.now ≡ open_name fault }
{
    match fault {
        OpenFault::NotClean => "NotClean",
        OpenFault::OtherRoot(_) => "OtherRoot",
        OpenFault::Damaged(_, _) => "Damaged",
        OpenFault::Device => "Device",
        OpenFault::Memory => "Memory",
        OpenFault::Dangling(_) => "Dangling",
        OpenFault::Twice(_) => "Twice",
    }
}

/// The name of why a repository wasn't opened.
pub fn repository_name(fault: GitFault) -> &'static str
    ensures { result.now ≡ repository_name fault }
{
    match fault {
        GitFault::Missing => "Missing",
        GitFault::Format => "Format",
        GitFault::Device => "Device",
        GitFault::Memory => "Memory",
    }
}

// The name of a fault of the close.
fn close_name(fault: FilesFault) -> &'static str
    ensures { result.now ≡ close_name fault }
{
    match fault {
        FilesFault::Device => "Device",
        FilesFault::Memory => "Memory",
    }
}

// The name of why an overlay doesn't stand on another tree.
fn dematerialise_name(fault: DematerialiseFault) -> &'static str
    ensures { result.now ≡ dematerialise_name fault }
{
    match fault {
        DematerialiseFault::NotClean => "NotClean",
        DematerialiseFault::TooDeep(_) => "TooDeep",
        DematerialiseFault::Object(_) => "Object",
        DematerialiseFault::Device => "Device",
        DematerialiseFault::Memory => "Memory",
    }
}
