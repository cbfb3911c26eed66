// The names of a folder's files.
ghost use Rattle.std.specs.Prelude.{◌≡◌, ◌<◌, ◌≤◌, ◌+◌, ◌^◌, ◌++◌, ◌∷◌, [], if◌then◌else◌, ℕ, Some, IfOk, IfErr};
ghost use Rattle.std.specs.Prelude.{IfSome, IsOk, OnOk, codes, decimal, length};
ghost use Rattle.std.specs.Path.{path_buf_bytes, with_separator};
ghost use Rattle.std.specs.Ordering.{nat_cmp};
ghost use Rattle.std.specs.List.Sorted.{IsStrictlySortedBy};
ghost use Rattle.eden_model.specs.Bytes.{slash_byte};
ghost use Rattle.eden_overlay.specs.InFolder as folder_spec;
ghost use Rattle.eden_overlay.specs.declared.files.FilesFault.TheVariants as fault;

use crate::files::FilesFault;
use arrayvec::ArrayString;
use itoa::Buffer;
use std::alloc::{AllocError, Global};
use std::collections::BTreeSet;
use std::path::PathBuf;

/// The system takes no longer path, in bytes.
const LONGEST_PATH: usize = 4096;

// A path on the stack, which takes no memory.
pub(crate) type FilePath = ArrayString<LONGEST_PATH>;

// Where the file of that number lies; `Device` where that is longer than any path that the system takes.
pub(crate) fn file_path(folder: &PathBuf, number: u64) -> Result<FilePath, FilesFault>
    ensures ok { IfOk result (λ p. p.bytes ≡ folder_spec.file_path (path_buf_bytes folder.now) number) }
    ensures fits { length (folder_spec.file_path (path_buf_bytes folder.now) number) ≤ LONGEST_PATH → IsOk result }
    ensures fault { IfErr result (λ f. f ≡ fault.Device) }
{
    path_of(folder, Buffer::new().format(number))
}

// Where what has that name lies; `Device` where that is longer than any path that the system takes.
pub(crate) fn path_of(folder: &PathBuf, name: &str) -> Result<FilePath, FilesFault>
    ensures ok { IfOk result (λ p. p.bytes ≡ with_separator (path_buf_bytes folder.now) ++ name.now) }
    ensures fits { length (with_separator (path_buf_bytes folder.now) ++ name.now) ≤ LONGEST_PATH → IsOk result }
    ensures fault { IfErr result (λ f. f ≡ fault.Device) }
{
    let mut path = FilePath::new();
    append(&mut path, folder.as_str())?;
    if !ends_in_slash(folder.as_str()) {
        append(&mut path, "/")?;
    }
    append(&mut path, name)?;
    Ok(path)
}

// Where the file of that number is written before it takes its place.
pub(crate) fn unfinished_path(folder: &PathBuf, number: u64) -> Result<FilePath, FilesFault>
    ensures ok { IfOk result (λ p.
        p.bytes ≡ folder_spec.file_path (path_buf_bytes folder.now) number ++ codes ".new") }
    ensures fault { IfErr result (λ f. f ≡ fault.Device) }
{
    let mut path = file_path(folder, number)?;
    append(&mut path, ".new")?;
    Ok(path)
}

// Whether a name may follow a path at once: it ends in a slash, or is empty.
fn ends_in_slash(path: &str) -> bool
    ensures { with_separator path.now ≡ (if result then path.now else path.now ++ slash_byte ∷ []) }
{
    let bytes = path.as_bytes();
    bytes.is_empty() || bytes[bytes.len() - 1] == b'/'
}

// The path with that text behind it, where it isn't too long then.
fn append(path: &mut FilePath, text: &str) -> Result<(), FilesFault>
    ensures ok { OnOk result (path.new.bytes ≡ path.old.bytes ++ text.now) }
    ensures fits { length path.old.bytes + length text.now ≤ LONGEST_PATH → IsOk result }
    ensures fault { IfErr result (λ f. f ≡ fault.Device) }
{
    match path.try_push_str(text) {
        Ok(()) => Ok(()),
        Err(_) => Err(FilesFault::Device),
    }
}

// The number whose file has that name.
pub(crate) fn number_named(name: &str) -> Option<u64>
    ensures named { IfSome result (λ n. name.now ≡ decimal n) }
    ensures found { (n : ℕ) → n < 2 ^ 64 → name.now ≡ decimal n → result ≡ Some n }
{
    match name.parse::<u64>() {
        Ok(number) if Buffer::new().format(number) == name => Some(number),
        _ => None,
    }
}

// The number whose file is stored by way of that name: its digits, and `.new`.
pub(crate) fn unfinished_named(name: &str) -> Option<u64>
    ensures named { IfSome result (λ n. name.now ≡ decimal n ++ codes ".new") }
    ensures found { (n : ℕ) → n < 2 ^ 64 → name.now ≡ decimal n ++ codes ".new" → result ≡ Some n }
{
    match name.strip_suffix(".new") {
        Some(digits) => number_named(digits),
        None => None,
    }
}

/// Which of a folder's names are looked for: those of files, or those of stores that were interrupted.
#[derive(Clone, Copy)]
pub(crate) enum Sought {
    Files,
    Unfinished,
}

// The number that such a name stands for.
pub(crate) fn number_sought(name: &str, sought: Sought) -> Option<u64> {
    match sought {
        Sought::Files => number_named(name),
        Sought::Unfinished => unfinished_named(name),
    }
}

// The numbers, rising.
pub(crate) fn rising(alloc: Global, numbers: &BTreeSet<u64>) -> Result<Vec<u64>, AllocError>
    ensures items { IfOk result (λ v. v.items ≡ numbers.now.keys) }
    ensures rising { IfOk result (λ v. IsStrictlySortedBy nat_cmp v.items) }
{
    numbers.iter().copied().collect(alloc)
}
