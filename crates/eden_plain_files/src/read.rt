ghost use Rattle.std.specs.Prelude.{◌≡◌, ◌≢◌, ◌⊎◌, ◌≤◌, ◌<◌, ◌-◌, ◌^◌, IfErr, IfOk, IfSome, Ok, Err, length};
ghost use Rattle.std.specs.Io.KnownBytes.{Consumes};
ghost use Rattle.std.specs.Fs.{metadata_len, file_type, IsFile};
ghost use Rattle.eden_plain_files.specs.declared.fault.FolderFault.TheVariants as fault;

use crate::fault::{FolderFault, not_found};
use std::alloc::Global;
use std::fs::{self, File, Metadata, OpenFile, OpenOptions};
use std::io::{Read, Seek, SeekFrom};
use std::rt;

/// Whether a link that stands in a file's place leads to it.
#[derive(Clone, Copy, Debug, PartialEq, Eq)]
pub enum Links {
    /// A link stands for the file that it leads to; one that leads nowhere is no plain file.
    Followed,
    /// A link is no plain file.
    Refused,
}

/// The bytes of the plain file at the path, at most `longest` of them.
///
/// `Missing`, where there is nothing; `NotPlain`, where there is no plain file; `TooLong`, where it has more bytes;
/// `Device` and `Memory`, where those failed.
pub fn read_file<R: rt::Files>(
    files: &R,
    alloc: Global,
    path: &str,
    links: Links,
    longest: u64,
) -> Result<Vec<u8>, FolderFault>
    requires { longest < 2 ^ 64 - 1 }
    ensures { IfOk result (λ v. length v.items ≤ longest) }
{
    let file = open_plain(files, path, links)?;
    let len = plain_len(&file.metadata()?, longest)?;
    read_within(alloc, file, len, longest)
}

/// The first `N` bytes of the plain file at the path, and how many it has: the bytes behind them aren't read. A file of
/// fewer bytes than `N` isn't read at all: zeros stand for them. It takes no memory of the program's own.
///
/// The errors are those of `read_file`; `Device` too where the file ends before the length that it was said to have.
pub fn read_front<R: rt::Files, const N: usize>(
    files: &R,
    path: &str,
    links: Links,
    longest: u64,
) -> Result<([u8; N], u64), FolderFault>
    ensures { IfOk result (λ x. x.1 ≤ longest) }
{
    let mut file = open_plain(files, path, links)?;
    let len = plain_len(&file.metadata()?, longest)?;
    if len < N as u64 {
        return Ok(([0; N], len));
    }
    Ok((front_of(&mut file)?, len))
}

/// The bytes of the plain file at the path from `at` on, at most `most` of them: none where it ends before. No others
/// are read.
///
/// The errors are those of `read_file`; `Device` too where the file ends before the length that it was said to have.
pub fn read_part<R: rt::Files>(
    files: &R,
    alloc: Global,
    path: &str,
    links: Links,
    longest: u64,
    at: u64,
    most: u64,
) -> Result<Vec<u8>, FolderFault>
    ensures { IfOk result (λ v. length v.items ≤ most) }
{
    let mut file = open_plain(files, path, links)?;
    let len = plain_len(&file.metadata()?, longest)?;
    let count = len.saturating_sub(at).min(most);
    let mut bytes = Vec::new(alloc);
    // No system goes to a place behind 2^63.
    if count > 0 {
        bytes.resize(count as usize, 0)?;
        file.seek(SeekFrom::Start(at))?;
        file.read_exact(bytes.as_mut_slice())?;
    }
    Ok(bytes)
}

/// The first `N` bytes that the reader gives; `Device` too where it gives fewer.
pub fn front_of<R: Read, const N: usize>(reader: &mut R) -> Result<[u8; N], FolderFault>
    ensures first { IfOk result (λ first. Consumes (R.remaining reader.old) (R.remaining reader.new) first) }
    ensures fault { IfErr result (λ f. (f ≡ fault.Device) ⊎ (f ≡ fault.Memory)) }
{
    let mut first = [0; N];
    reader.read_exact(&mut first)?;
    Ok(first)
}

/// All that the reader gives, in room for `expected` bytes and one more, by which the end is seen without growing.
///
/// `TooLong`, where it gives more than `longest` bytes: no more than one of them is read. `Device` and `Memory`, where
/// those failed.
pub fn read_within<R: Read + Drop>(
    alloc: Global,
    reader: R,
    expected: u64,
    longest: u64,
) -> Result<Vec<u8>, FolderFault>
    requires expected { expected ≤ longest }
    requires longest { longest < 2 ^ 64 - 1 }
    ensures whole { IfOk result (λ v. IfSome (R.remaining reader) (λ bytes. v.items ≡ bytes)) }
    ensures bounded { IfOk result (λ v. length v.items ≤ longest) }
    ensures long { result ≡ Err fault.TooLong → IfSome (R.remaining reader) (λ bytes. longest < length bytes) }
    ensures fault { IfErr result (λ f. (f ≢ fault.Missing) × (f ≢ fault.NotPlain)) }
{
    let mut bytes = Vec::with_capacity(alloc, expected as usize + 1)?;
    let mut reader = reader.take(longest + 1);
    reader.read_to_end(&mut bytes)?;
    if bytes.len() as u64 > longest {
        return Err(FolderFault::TooLong);
    }
    Ok(bytes)
}

// Opening for reading and writing doesn't wait for a pipe's other end, should one have come after the look.
pub(crate) fn open_plain<R: rt::Files>(
    files: &R,
    path: &str,
    links: Links,
) -> Result<R::File, FolderFault> {
    look(files, path, links)?;
    match OpenOptions::new().read(true).write(true).open(files, path) {
        Ok(file) => Ok(file),
        Err(_) => {
            look(files, path, links)?;
            File::open(files, path).map_err(not_found)
        }
    }
}

// Whether a plain file is at the path.
fn look<R: rt::Files>(files: &R, path: &str, links: Links) -> Result<(), FolderFault> {
    let here = fs::symlink_metadata(files, path).map_err(not_found)?;
    let is_file = match links {
        Links::Followed if here.is_symlink() => leads_to_file(files, path)?,
        _ => here.is_file(),
    };
    if is_file {
        Ok(())
    } else {
        Err(FolderFault::NotPlain)
    }
}

// Whether the link leads to a plain file.
fn leads_to_file<R: rt::Files>(files: &R, path: &str) -> Result<bool, FolderFault> {
    match fs::metadata(files, path).map_err(not_found) {
        Ok(metadata) => Ok(metadata.is_file()),
        Err(FolderFault::Missing) => Ok(false),
        Err(fault) => Err(fault),
    }
}

// The length of a plain file that is short enough.
fn plain_len(metadata: &Metadata, longest: u64) -> Result<u64, FolderFault>
    ensures short { IsFile (file_type metadata.now) → metadata_len metadata.now ≤ longest
        → result ≡ Ok (metadata_len metadata.now) }
    ensures long { IsFile (file_type metadata.now) → longest < metadata_len metadata.now → result ≡ Err fault.TooLong }
    ensures other { ¬ IsFile (file_type metadata.now) → result ≡ Err fault.NotPlain }
    ensures bounded { IfOk result (λ n. n ≤ longest) }
{
    if !metadata.is_file() {
        Err(FolderFault::NotPlain)
    } else if metadata.len() > longest {
        Err(FolderFault::TooLong)
    } else {
        Ok(metadata.len())
    }
}
