//! An overlay without what is unavailable.
use crate::hold::hold_existing;
use crate::overlay_files::overlay_files;
use crate::path_text::path_text;
use crate::report;
use eden_model::{Id, Outside};
use eden_overlay::{Files, FolderFiles};
use eden_repair::{Finding, Repaired};
use mountd_options::RepairOptions;
use std::alloc::{AllocError, Global};
use std::io::{self, BufWriter, Write};
use std::process::ExitCode;

/// Takes out of an overlay what is unavailable, so that a rescan takes it, and prints a line for each place.
pub fn repair(rt: &HostRuntime, options: RepairOptions) -> ExitCode {
    let RepairOptions { root, overlay } = options;
    match hold_existing(rt, rt.alloc(), overlay) {
        Err(fault) => report::unopened(rt, fault.name()),
        Ok((folder, lock)) => {
            let status = match overlay_files(rt, folder) {
                Err(fault) => report::unopened(rt, fault.name()),
                Ok(files) => repair_files(rt, files.into_files(), root),
            };
            drop(lock);
            status
        }
    }
}

/// Repairs them, waits until the disk has them, and reports what was found.
fn repair_files(rt: &HostRuntime, files: FolderFiles<HostRuntime>, root: Id) -> ExitCode {
    let alloc = rt.alloc();
    let repaired = eden_repair::repair::<Outside, _>(alloc, files, root);
    let Repaired {
        mut files,
        found,
        outcome,
    } = repaired;
    let stored = files.sync(alloc);
    let written = tell(rt, alloc, &found);
    report::repaired(rt, outcome, stored, written)
}

/// Prints a line for each.
fn tell(rt: &HostRuntime, alloc: Global, found: &[Finding]) -> io::Result<()> {
    let mut writer = BufWriter::new(alloc, rt.stdout())?;
    for finding in found {
        let line = line_of(alloc, finding)?;
        writer.write_all(line.as_bytes())?;
    }
    writer.flush()
}

/// The line of a place: what was done, its path, and what is wrong there.
fn line_of(alloc: Global, finding: &Finding) -> Result<String, AllocError> {
    let done = if finding.is_numbers { "numbers" } else { "cut" };
    let root = if finding.path.is_empty() { "/" } else { "" };
    let path = path_text(alloc, &finding.path)?;
    let damage = finding.damage;
    format!(in alloc; "{done} {root}{path}: {damage}\n")
}
