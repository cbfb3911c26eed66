// Writing blobs and trees.
ghost use Rattle.std.specs.Prelude.{◌≡◌, ◌↔◌, ◌≤◌, ◌++◌, length, map, IsTrue, IfOk, OnOk};
ghost use Rattle.std.specs.List.Sorted.{IsPermutation, IsSortedBy};
ghost use Rattle.std.specs.Cmp.Lexicographic.{slice_cmp};
ghost use Rattle.std.specs.Ordering.{is_lt, nat_cmp};
ghost use Rattle.eden_object.specs.declared.word.Word.TheVariants as word;
ghost use Rattle.eden_object.specs.Encoding as spec;
ghost use Rattle.eden_object.specs.Encoding.{entry_text, tree_text, IsEncoded};
ghost use Rattle.eden_object.specs.Frames.{frame, most_body, word_text};
ghost use Rattle.eden_object.specs.Order.{key_of, IsOrdered};
ghost use Rattle.eden_object.specs.Trees.{AreEntries, IsEntryText, NamesDiffer};

use crate::frame::BODY_LIMIT;
use crate::names::differ_sorted;
use crate::order::compare;
use crate::word::Word;
use eden_model::{Mode, TreeEntry};
use itoa::Buffer;
use std::alloc::{AllocError, Global};

fn word_text(word: Word) -> &'static [u8]
    ensures { result.now ≡ word_text word }
{
    match word {
        Word::Blob => b"blob",
        Word::Tree => b"tree",
        Word::Commit => b"commit",
        Word::Tag => b"tag",
    }
}

fn mode_text(mode: Mode) -> &'static [u8]
    ensures { result.now ≡ spec.mode_text mode }
{
    match mode {
        Mode::Dir => b"40000",
        Mode::File => b"100644",
        Mode::Exec => b"100755",
        Mode::Link => b"120000",
        Mode::Gitlink => b"160000",
    }
}

fn framed(alloc: Global, word: Word, body: &[u8]) -> Result<Vec<u8>, AllocError>
    ensures { IfOk result (λ framed. framed.items ≡ frame word body.now) }
{
    let mut framed = Vec::from_slice(alloc, word_text(word))?;
    framed.push(b' ')?;
    framed.extend_from_slice(Buffer::new().format(body.len()).as_bytes())?;
    framed.push(0)?;
    framed.extend_from_slice(body)?;
    Ok(framed)
}

fn entry_len(entry: &TreeEntry) -> usize
    ensures { result ≡ length (entry_text entry.now) }
{
    mode_text(entry.mode).len() + 1 + entry.name.len() + 1 + entry.id.bytes.as_slice().len()
}

fn push_entry(body: &mut Vec<u8>, entry: &TreeEntry) -> Result<(), AllocError>
    ensures text { OnOk result (body.new.items ≡ body.old.items ++ entry_text entry.now) }
    ensures grammar { OnOk result (IsEntryText entry.now (entry_text entry.now)) }
{
    body.extend_from_slice(mode_text(entry.mode))?;
    body.push(b' ')?;
    body.extend_from_slice(entry.name.as_slice())?;
    body.push(0)?;
    body.extend_from_slice(&entry.id.bytes)?;
    Ok(())
}

fn lent(alloc: Global, entries: &[TreeEntry]) -> Result<Vec<&TreeEntry>, AllocError>
    ensures { IfOk result (λ lent. map (λ e. e.now) lent.items ≡ entries.now) }
{
    let mut lent = Vec::new(alloc);
    'entries: for entry in entries {
        lent.push(entry)?;
    }
    Ok(lent)
}

fn sort(entries: &mut Vec<&TreeEntry>)
    ensures same { IsPermutation entries.old.items entries.new.items }
    ensures ordered { IsSortedBy (λ a b. is_lt (slice_cmp nat_cmp (key_of a.now) (key_of b.now))) entries.new.items }
{
    entries.sort_unstable_by(|a, b| compare(a, b));
}

fn tree_body(alloc: Global, entries: &[&TreeEntry]) -> Result<Vec<u8>, AllocError>
    ensures text { IfOk result (λ body. body.items ≡ tree_text (map (λ e. e.now) entries.now)) }
    ensures grammar { IfOk result (λ body. AreEntries (map (λ e. e.now) entries.now) body.items) }
{
    let mut body = Vec::new(alloc);
    'entries: for entry in entries {
        push_entry(&mut body, entry)?;
    }
    Ok(body)
}

/// The framed blob of the content, whose id `id_of` tells. The only error is want of memory.
pub fn encode_blob(alloc: Global, content: &[u8]) -> Result<Vec<u8>, AllocError>
    requires { length content.now ≤ most_body }
    ensures { IfOk result (λ framed. framed.items ≡ frame word.Blob content.now) }
{
    framed(alloc, Word::Blob, content)
}

/// Whether the entries are a tree that can be written: their names differ, and its body has at most 2^30 bytes. The
/// only error is want of memory.
pub fn is_encodable(alloc: Global, entries: &[TreeEntry]) -> Result<bool, AllocError>
    ensures { IfOk result (λ is. IsTrue is ↔ (NamesDiffer entries.now × (length (tree_text entries.now) ≤ most_body))) }
{
    let mut names = Vec::new(alloc);
    let mut room = BODY_LIMIT;
    'entries: for entry in entries {
        let size = entry_len(entry);
        if size > room {
            return Ok(false);
        }
        room -= size;
        names.push(entry.name.as_slice())?;
    }
    Ok(differ_sorted(names))
}

/// The framed tree of the entries, whose id `id_of` tells. They are written in Git's order: by the bytes of their
/// names, a directory's name as if it ended with `/`. `is_encodable` tells what it takes. The only error is want of
/// memory.
pub fn encode_tree(alloc: Global, entries: &[TreeEntry]) -> Result<Vec<u8>, AllocError>
    requires differ { NamesDiffer entries.now }
    requires short { length (tree_text entries.now) ≤ most_body }
    ensures written { IfOk result (λ framed. IsEncoded entries.now framed.items) }
    ensures kept { IsOrdered entries.now
        → IfOk result (λ framed. framed.items ≡ frame word.Tree (tree_text entries.now)) }
{
    let mut sorted = lent(alloc, entries)?;
    sort(&mut sorted);
    let body = tree_body(alloc, sorted.as_slice())?;
    framed(alloc, Word::Tree, body.as_slice())
}
