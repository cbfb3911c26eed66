//! Where the objects of a mount come from: a directory, a server of this machine, a Git repository, or that and a
//! server.
ghost use Rattle.std.specs.Prelude.{◌≡◌, IfOk, length, string_bytes};
ghost use Rattle.mountd.specs.Sources.{IsSourceOf};

use eden_fallback::Fallback;
use eden_git::{GitFault, GitSource};
use eden_model::{Cause, Id, Outside};
use eden_remote::SocketSource;
use eden_sockets::Address;
use eden_source::{FolderSource, Source};
use mountd_options::Objects;
use std::alloc::{AllocError, Global};
use std::path::PathBuf;
use std::time::Duration;

/// How long a server of objects may keep an answer, in seconds.
const PATIENCE: u64 = 30;

/// The source that the options of a mount name. It is one type, so that a mount is compiled once and not for each.
#[derive(Drop)]
pub enum ObjectSource {
    Folder(FolderSource<HostRuntime>),
    Server(SocketSource<HostRuntime>),
    Repository(GitSource<HostRuntime>),
    /// For what the repository lacks the server is asked.
    RepositoryAndServer(Fallback<GitSource<HostRuntime>, SocketSource<HostRuntime>>),
}

impl Source<Outside> for ObjectSource {
    ghost use Rattle.mountd.specs.Sources.{FetchedFromSource, failures_of};

    ghost fetched = { FetchedFromSource };

    ghost failures = { failures_of };

    fn failures(&self) -> u64 {
        match self {
            ObjectSource::Folder(source) => Source::<Outside>::failures(source),
            ObjectSource::Server(source) => Source::<Outside>::failures(source),
            ObjectSource::Repository(source) => Source::<Outside>::failures(source),
            ObjectSource::RepositoryAndServer(source) => Source::<Outside>::failures(source),
        }
    }

    fn fetch(&mut self, alloc: Global, id: Id) -> Result<Vec<u8>, Cause> {
        match self {
            ObjectSource::Folder(source) => Source::<Outside>::fetch(source, alloc, id),
            ObjectSource::Server(source) => Source::<Outside>::fetch(source, alloc, id),
            ObjectSource::Repository(source) => Source::<Outside>::fetch(source, alloc, id),
            ObjectSource::RepositoryAndServer(source) => {
                Source::<Outside>::fetch(source, alloc, id)
            }
        }
    }
}

/// A source over a directory.
pub fn folder_source(rt: &HostRuntime, folder: String) -> FolderSource<HostRuntime>
    ensures { result ≡ record { path = string_bytes folder; failures = 0 } }
{
    FolderSource::new(*rt, PathBuf::from(folder))
}

/// A source over the server at this address.
fn socket_source(rt: &HostRuntime, server: Address) -> SocketSource<HostRuntime>
    ensures address { result.address ≡ server }
    ensures failures { result.failures ≡ 0 }
{
    SocketSource::new(rt.alloc(), *rt, server, Duration::from_secs(PATIENCE))
}

/// A source over the Git repository that is there, or why there is none.
pub fn git_source(rt: &HostRuntime, repository: String) -> Result<GitSource<HostRuntime>, GitFault>
    ensures { IfOk result (λ source. source ≡ record { path = string_bytes repository; failures = 0 }) }
{
    GitSource::open(rt.alloc(), *rt, PathBuf::from(repository))
}

/// The source that these options name, or why there is no such repository.
pub fn object_source(rt: &HostRuntime, objects: Objects) -> Result<ObjectSource, GitFault>
    ensures { IfOk result (IsSourceOf objects) }
{
    match objects {
        Objects::Folder(folder) => Ok(ObjectSource::Folder(folder_source(rt, folder))),
        Objects::Server(server) => Ok(ObjectSource::Server(socket_source(rt, server))),
        Objects::Repository(repository) => {
            let source = git_source(rt, repository)?;
            Ok(ObjectSource::Repository(source))
        }
        Objects::RepositoryAndServer(repository, server) => {
            let first = git_source(rt, repository)?;
            let source = Fallback::new(first, socket_source(rt, server));
            Ok(ObjectSource::RepositoryAndServer(source))
        }
    }
}

/// The same options once more.
fn copied(alloc: Global, objects: &Objects) -> Result<Objects, AllocError> {
    match objects {
        Objects::Folder(folder) => Ok(Objects::Folder(String::from_str(alloc, folder.as_str())?)),
        Objects::Server(server) => Ok(Objects::Server(server.copy(alloc)?)),
        Objects::Repository(folder) => {
            Ok(Objects::Repository(String::from_str(alloc, folder.as_str())?))
        }
        Objects::RepositoryAndServer(folder, server) => {
            let server = server.copy(alloc)?;
            let folder = String::from_str(alloc, folder.as_str())?;
            Ok(Objects::RepositoryAndServer(folder, server))
        }
    }
}

/// This many sources, each the one that these options name, with files or a connection of its own. `Memory` also if
/// there is none for a directory's or a server's.
pub fn object_sources(
    rt: &HostRuntime,
    objects: &Objects,
    count: u32,
) -> Result<Vec<ObjectSource>, GitFault>
    ensures count { IfOk result (λ sources. length sources.items ≡ count) }
{
    let mut sources = Vec::new(rt.alloc());
    for _made in 0..count {
        let copy = copied(rt.alloc(), objects).map_err(|_| GitFault::Memory)?;
        let source = object_source(rt, copy)?;
        sources.push(source).map_err(|_| GitFault::Memory)?;
    }
    Ok(sources)
}
