use std::alloc::{Alloc, Allocator};
use std::fs::{Metadata, OpenFile, OpenOptions, Permissions};
use std::io::{self, ErrorKind, PipeReader, PipeWriter, Read, Seek, SeekFrom, Write};
use std::os::fd::BorrowedFd;
use std::os::unix::net::SocketAddr;
use std::path::PathBuf;
use std::rt::{Clock, Files};
use std::time::Duration;

/// Which calls of a file system fail.
#[derive(Clone, Copy, PartialEq, Eq)]
pub enum Call {
    /// None does.
    None,
    /// Looking at what a path leads to.
    Look,
    /// Opening a file.
    Open,
    /// Opening a file for writing too.
    OpenToWrite,
    /// Looking at an open file.
    LookAtOpen,
    /// Reading an open file.
    Read,
    /// Writing to an open file.
    Write,
    /// Waiting until the disk has an open file, or a directory's names.
    Sync,
    Rename,
    Remove,
    /// Reading a directory, once its names have been given.
    List,
}

/// A file system before another one, for tests: all calls of one kind fail, each file may be opened in another's place,
/// and each directory has a name first that isn't UTF-8.
#[derive(Clone, Drop)]
pub struct FaultySystem<'a, R> {
    pub files: R,
    /// The calls that fail.
    pub call: Call,
    /// Their error.
    pub kind: ErrorKind,
    /// What is opened in the place of any file: as when it took that place after somebody looked.
    pub instead: Option<&'a str>,
}

impl<'a, R> FaultySystem<'a, R> {
    fn check(&self, call: Call) -> io::Result<()> {
        check(self.call, call, self.kind)
    }
}

fn check(fails: Call, call: Call, kind: ErrorKind) -> io::Result<()> {
    if fails == call {
        Err(io::Error::from(kind))
    } else {
        Ok(())
    }
}

impl<'a, R: Alloc> Alloc for FaultySystem<'a, R> {
    type A = R::A;

    fn alloc(&self) -> R::A {
        self.files.alloc()
    }
}

impl<'a, R: Clock> Clock for FaultySystem<'a, R> {
    fn monotonic(&self) -> io::Result<Duration> {
        self.files.monotonic()
    }

    fn since_1970(&self) -> io::Result<Duration> {
        self.files.since_1970()
    }
}

impl<'a, R: Files> Files for FaultySystem<'a, R> {
    type File = FaultyFile<R::File>;

    type Dir = FaultyDir<R::Dir>;

    fn open_file(&self, how: &OpenOptions, path: &str) -> io::Result<FaultyFile<R::File>> {
        self.check(Call::Open)?;
        if how.asks_write() {
            self.check(Call::OpenToWrite)?;
        }
        Ok(FaultyFile {
            file: self.files.open_file(how, self.instead.unwrap_or(path))?,
            call: self.call,
            kind: self.kind,
        })
    }

    fn open_dir(&self, path: &str) -> io::Result<FaultyDir<R::Dir>> {
        Ok(FaultyDir {
            dir: self.files.open_dir(path)?,
            has_begun: false,
            call: self.call,
            kind: self.kind,
        })
    }

    fn metadata(&self, path: &str) -> io::Result<Metadata> {
        self.check(Call::Look)?;
        self.files.metadata(path)
    }

    fn symlink_metadata(&self, path: &str) -> io::Result<Metadata> {
        self.check(Call::Look)?;
        self.files.symlink_metadata(path)
    }

    fn copy(&self, from: &str, to: &str) -> io::Result<u64> {
        self.files.copy(from, to)
    }

    fn rename(&self, from: &str, to: &str) -> io::Result<()> {
        self.check(Call::Rename)?;
        self.files.rename(from, to)
    }

    fn remove_file(&self, path: &str) -> io::Result<()> {
        self.check(Call::Remove)?;
        self.files.remove_file(path)
    }

    fn create_dir(&self, path: &str) -> io::Result<()> {
        self.files.create_dir(path)
    }

    fn remove_dir(&self, path: &str) -> io::Result<()> {
        self.files.remove_dir(path)
    }

    fn remove_dir_all<B: Allocator>(&self, alloc: B, path: &str) -> io::Result<()> {
        self.files.remove_dir_all(alloc, path)
    }

    // No test calls what follows. It is passed on, since the trait's own bodies, which refuse, take longer to prove
    // here.
    fn canonicalize<B: Allocator>(&self, alloc: B, path: &str) -> io::Result<PathBuf<B>> {
        self.files.canonicalize(alloc, path)
    }

    fn read_link<B: Allocator>(&self, alloc: B, path: &str) -> io::Result<PathBuf<B>> {
        self.files.read_link(alloc, path)
    }

    fn hard_link(&self, original: &str, link: &str) -> io::Result<()> {
        self.files.hard_link(original, link)
    }

    fn set_permissions(&self, path: &str, perm: Permissions) -> io::Result<()> {
        self.files.set_permissions(path, perm)
    }

    fn symlink(&self, original: &str, link: &str) -> io::Result<()> {
        self.files.symlink(original, link)
    }

    fn pipe(&self) -> io::Result<(PipeReader, PipeWriter)> {
        self.files.pipe()
    }

    fn chown(&self, path: &str, uid: Option<u32>, gid: Option<u32>) -> io::Result<()> {
        self.files.chown(path, uid, gid)
    }

    fn lchown(&self, path: &str, uid: Option<u32>, gid: Option<u32>) -> io::Result<()> {
        self.files.lchown(path, uid, gid)
    }

    fn create_dir_with_mode(&self, path: &str, mode: u32) -> io::Result<()> {
        self.files.create_dir_with_mode(path, mode)
    }

    fn bind_unix(&self, socket: BorrowedFd<'_>, addr: &SocketAddr) -> io::Result<()> {
        self.files.bind_unix(socket, addr)
    }
}

/// An open file of `FaultySystem`.
#[derive(Drop)]
pub struct FaultyFile<F> {
    file: F,
    call: Call,
    kind: ErrorKind,
}

impl<F: Read> Read for FaultyFile<F> {
    fn read(&mut self, buf: &mut [u8]) -> io::Result<usize> {
        check(self.call, Call::Read, self.kind)?;
        self.file.read(buf)
    }
}

impl<F: Write> Write for FaultyFile<F> {
    fn write(&mut self, buf: &[u8]) -> io::Result<usize> {
        check(self.call, Call::Write, self.kind)?;
        self.file.write(buf)
    }

    fn flush(&mut self) -> io::Result<()> {
        self.file.flush()
    }
}

impl<F: Seek> Seek for FaultyFile<F> {
    fn seek(&mut self, to: SeekFrom) -> io::Result<u64> {
        self.file.seek(to)
    }
}

impl<F: OpenFile> OpenFile for FaultyFile<F> {
    fn metadata(&self) -> io::Result<Metadata> {
        check(self.call, Call::LookAtOpen, self.kind)?;
        self.file.metadata()
    }

    fn set_len(&self, size: u64) -> io::Result<()> {
        self.file.set_len(size)
    }

    fn sync_all(&self) -> io::Result<()> {
        check(self.call, Call::Sync, self.kind)?;
        self.file.sync_all()
    }

    fn sync_data(&self) -> io::Result<()> {
        check(self.call, Call::Sync, self.kind)?;
        self.file.sync_data()
    }
}

// A name that isn't UTF-8, and its end.
const ODD_NAME: [u8; 3] = [0xff, 0xfe, 0];

/// The names of a directory of `FaultySystem`.
#[derive(Drop)]
pub struct FaultyDir<D> {
    dir: D,
    has_begun: bool,
    call: Call,
    kind: ErrorKind,
}

impl<D: Read> Read for FaultyDir<D> {
    fn read(&mut self, buf: &mut [u8]) -> io::Result<usize> {
        if !self.has_begun && buf.len() >= ODD_NAME.len() {
            self.has_begun = true;
            buf[..ODD_NAME.len()].copy_from_slice(&ODD_NAME);
            return Ok(ODD_NAME.len());
        }
        let count = self.dir.read(buf)?;
        if count == 0 {
            check(self.call, Call::List, self.kind)?;
        }
        Ok(count)
    }
}
