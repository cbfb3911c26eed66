//! A closed overlay without what nobody reads.
use crate::hold::hold_existing;
use crate::overlay_files::overlay_files;
use crate::report;
use eden_checkout::TidyFault;
use eden_model::Outside;
use eden_overlay::{FolderFiles, Overlay, Removed};
use mountd_options::TidyOptions;
use std::alloc::{Alloc, Global};
use std::io;
use std::process::ExitCode;
use std::rt::Files;

/// Removes the orphans of a closed overlay and what its interrupted stores left, and prints on standard output how much
/// that was.
pub fn tidy(rt: &HostRuntime, options: TidyOptions) -> ExitCode {
    match hold_existing(rt, rt.alloc(), options.overlay) {
        Err(fault) => report::unopened(rt, fault.name()),
        Ok((folder, lock)) => {
            let status = match overlay_files(rt, folder) {
                Err(fault) => report::unopened(rt, fault.name()),
                Ok(files) => report::tidied(rt, tidy_told(rt, files.into_files())),
            };
            drop(lock);
            status
        }
    }
}

/// Whether the line could be written, once they are removed.
fn tidy_told(
    rt: &HostRuntime,
    files: FolderFiles<HostRuntime>,
) -> Result<io::Result<()>, TidyFault> {
    let Removed { files, bytes } = tidy_files(rt.alloc(), files)?;
    Ok(println!(rt; "removed {files} files, {bytes} bytes"))
}

/// Removes them, the orphans first.
fn tidy_files<R: Files + Alloc + Clone + Drop>(
    alloc: Global,
    files: FolderFiles<R>,
) -> Result<Removed, TidyFault> {
    let mut overlay = Overlay::<Outside, _>::new(alloc, files);
    let orphans = eden_checkout::tidy(alloc, &mut overlay)?;
    let mut files = overlay.into_files();
    match files.remove_unfinished(alloc) {
        Ok(unfinished) => Ok(orphans.and(unfinished)),
        Err(fault) => Err(TidyFault::Remove(fault)),
    }
}
