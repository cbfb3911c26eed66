use std::path::PathBuf;
use std::{env, fs, io, process};

/// The path of a directory of that name and the process's number, below the system's directory for temporary files.
fn folder_path(rt: &HostRuntime, name: &str) -> io::Result<PathBuf> {
    let name = format!(in rt.alloc(); "eden-{name}-{}", process::id(rt.process()))?;
    Ok(env::temp_dir(rt)?.join(rt.alloc(), name.as_str())?)
}

/// Makes an empty directory of that name and the process's number, below the system's directory for temporary files.
pub fn empty_folder(rt: &HostRuntime, name: &str) -> io::Result<PathBuf> {
    let folder = folder_path(rt, name)?;
    let _ = fs::remove_dir_all(rt, folder.as_path());
    fs::create_dir(rt, folder.as_path())?;
    Ok(folder)
}
