//! The files of an overlay's directory.
use crate::hold::HoldFault;
use eden_model::Outside;
use eden_overlay::FolderFiles;
use eden_overlay_journal::{FolderJournal, Journaled, taken_in};
use std::fs;
use std::path::PathBuf;

/// Files in a directory, with a journal over them.
pub type OverlayFiles = Journaled<FolderFiles<HostRuntime>, FolderJournal<HostRuntime>>;

/// The files of a directory that is held, once what a killed program left in its journal has gone into them.
///
/// `Device` and `Memory`, if those failed.
pub fn overlay_files(rt: &HostRuntime, folder: PathBuf) -> Result<OverlayFiles, HoldFault> {
    let alloc = rt.alloc();
    let journal = FolderJournal::open(*rt, alloc, &folder)?;
    let files = FolderFiles::new(*rt, folder);
    Ok(taken_in::<Outside, _, _>(alloc, files, journal)?)
}

/// The files of a directory over which a mount runs, with what its journal says by now. None of them is changed.
///
/// `Device`, also if there is no such directory, and `Memory`, if those failed.
pub fn running_files(rt: &HostRuntime, folder: String) -> Result<OverlayFiles, HoldFault> {
    let folder = PathBuf::from(folder);
    fs::metadata(rt, folder.as_path())?;
    let journal = FolderJournal::open(*rt, rt.alloc(), &folder)?;
    Ok(Journaled::new(FolderFiles::new(*rt, folder), journal))
}
