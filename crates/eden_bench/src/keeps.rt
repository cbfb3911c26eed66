// What keeps the files of a workload: memory, or a directory.
use eden_model::Outside;
use eden_overlay::{Files, FolderFiles, MemoryFiles};
use std::alloc::{AllocError, Global};
use std::path::PathBuf;

/// Where files are kept.
pub trait Keeps<F: Files<Outside>> {
    /// About how many entries are loaded if each change is stored there: a store in a directory waits for the device.
    fn entries(&self) -> u32;

    /// The files that are kept there.
    fn files(&self, alloc: Global) -> Result<F, AllocError>;
}

/// No files at first, each time anew.
#[derive(Drop)]
pub struct InMemory;

/// One directory, which has to be there and empty.
#[derive(Drop)]
pub struct InFolder<'a> {
    pub rt: &'a HostRuntime,
    pub folder: &'a PathBuf,
}

impl Keeps<MemoryFiles<Outside>> for InMemory {
    fn entries(&self) -> u32 {
        1_000_000
    }

    fn files(&self, alloc: Global) -> Result<MemoryFiles<Outside>, AllocError> {
        Ok(MemoryFiles::new(alloc))
    }
}

impl<'a> Keeps<FolderFiles<&'a HostRuntime>> for InFolder<'a> {
    fn entries(&self) -> u32 {
        10_000
    }

    fn files(&self, _alloc: Global) -> Result<FolderFiles<&'a HostRuntime>, AllocError> {
        Ok(FolderFiles::new(self.rt, self.folder.clone()?))
    }
}
