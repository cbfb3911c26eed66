//! The files that a mount's changes are kept in: in memory, or in an overlay's directory.
use crate::overlay_files::OverlayFiles;
use eden_model::{Obstacle, Outside, World};
use eden_overlay::{Files, FilesFault, MemoryFiles};
use eden_overlay_format::{Head, Identifier};
use std::alloc::Global;

/// Files of one sort or of another. They are one type, so that a mount is compiled once and not for each.
#[derive(Drop)]
pub enum EitherFiles<M, O> {
    /// They go with the program.
    Memory(M),
    /// They stay.
    Overlay(O),
}

/// The files of a mount.
pub type MountFiles = EitherFiles<MemoryFiles<Outside>, OverlayFiles>;

impl<W: World, M: Files<W>, O: Files<W>> Files<W> for EitherFiles<M, O> {
    ghost use Rattle.mountd.specs.MountFiles.{failures_by, stored_by};

    ghost stored = { stored_by M.stored O.stored };

    ghost failures = { failures_by M.failures O.failures };

    fn failures(&self) -> u64 {
        match self {
            EitherFiles::Memory(files) => files.failures(),
            EitherFiles::Overlay(files) => files.failures(),
        }
    }

    fn obstacle(&self) -> Option<Obstacle> {
        match self {
            EitherFiles::Memory(files) => files.obstacle(),
            EitherFiles::Overlay(files) => files.obstacle(),
        }
    }

    fn read(&mut self, alloc: Global, number: u64) -> Result<Option<Vec<u8>>, FilesFault> {
        match self {
            EitherFiles::Memory(files) => files.read(alloc, number),
            EitherFiles::Overlay(files) => files.read(alloc, number),
        }
    }

    fn head(&mut self, number: u64) -> Result<Option<Head>, FilesFault> {
        match self {
            EitherFiles::Memory(files) => files.head(number),
            EitherFiles::Overlay(files) => files.head(number),
        }
    }

    fn read_part(
        &mut self,
        alloc: Global,
        number: u64,
        from: u64,
        most: u64,
    ) -> Result<Option<Vec<u8>>, FilesFault> {
        match self {
            EitherFiles::Memory(files) => files.read_part(alloc, number, from, most),
            EitherFiles::Overlay(files) => files.read_part(alloc, number, from, most),
        }
    }

    fn replace(&mut self, alloc: Global, number: u64, bytes: &[u8]) -> Result<(), FilesFault> {
        match self {
            EitherFiles::Memory(files) => files.replace(alloc, number, bytes),
            EitherFiles::Overlay(files) => files.replace(alloc, number, bytes),
        }
    }

    fn replace_joined(
        &mut self,
        alloc: Global,
        number: u64,
        front: &[u8],
        behind: &[u8],
    ) -> Result<(), FilesFault> {
        match self {
            EitherFiles::Memory(files) => files.replace_joined(alloc, number, front, behind),
            EitherFiles::Overlay(files) => files.replace_joined(alloc, number, front, behind),
        }
    }

    fn replace_body(
        &mut self,
        alloc: Global,
        number: u64,
        identifier: Identifier,
        body: &[u8],
    ) -> Result<(), FilesFault> {
        match self {
            EitherFiles::Memory(files) => files.replace_body(alloc, number, identifier, body),
            EitherFiles::Overlay(files) => files.replace_body(alloc, number, identifier, body),
        }
    }

    fn remove(&mut self, number: u64) -> Result<(), FilesFault> {
        match self {
            EitherFiles::Memory(files) => files.remove(number),
            EitherFiles::Overlay(files) => files.remove(number),
        }
    }

    fn sync(&mut self, alloc: Global) -> Result<(), FilesFault> {
        match self {
            EitherFiles::Memory(files) => files.sync(alloc),
            EitherFiles::Overlay(files) => files.sync(alloc),
        }
    }

    fn list(&mut self, alloc: Global) -> Result<Vec<u64>, FilesFault> {
        match self {
            EitherFiles::Memory(files) => files.list(alloc),
            EitherFiles::Overlay(files) => files.list(alloc),
        }
    }
}
