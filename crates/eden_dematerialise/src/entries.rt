//! The entries of one own directory: which of them stand on the commit's objects.

ghost use Rattle.std.specs.Prelude.{◌≡◌, ◌≢◌, ◌≤◌, Some, None, false, length, IfOk, IfSome, IsTrue};
ghost use Rattle.eden_model.specs.declared.id.Id.{Id};
ghost use Rattle.eden_model.specs.declared.kind.Kind.TheVariants as kind;
ghost use Rattle.eden_model.specs.declared.kind.Origin.TheVariants as origin;
ghost use Rattle.eden_object.specs.declared.word.Word.TheVariants as word;
ghost use Rattle.eden_object.specs.Frames.{frame};
ghost use Rattle.eden_overlay_format.specs.Content.{content_most};
ghost use Rattle.eden_snapshot.specs.Commits.{place_named};
ghost use Rattle.eden_snapshot.specs.Written.{IsIdOf, mode_of};
ghost use Rattle.eden_dematerialise.specs.Dematerialising.{IsAmong, IsHad};

use crate::fault::DematerialiseFault;
use eden_model::{Id, Key, Kind, Mode, ObjKind, Origin, TreeEntry, World};
use eden_object::{Object, encode_blob, id_of};
use eden_overlay::{Files, FilesFault};
use eden_overlay_format::{StoredEntry, decode_file};
use eden_snapshot::place_named;
use eden_source::Source;
use std::alloc::Global;

/// The commit's object that has the content of the entry's own file, if the commit has such a file at its path. A
/// content that can't be read is none that the commit has.
pub(crate) fn object_for<W: World, F: Files<W>, S: Source<W>>(
    alloc: Global,
    files: &mut F,
    source: &mut S,
    entry: &StoredEntry,
    commit: &[TreeEntry],
) -> Result<Option<Id>, DematerialiseFault>
    ensures had { W.honest
        → IfOk result (λ o. IfSome o (IsHad W.repository (F.stored files.old) entry.now)) }
    ensures place { IfOk result (λ o. IfSome o
        (λ id. place_named entry.now.name commit.now ≡ Some (mode_of entry.now.kind, id))) }
    ensures none { W.honest → IfOk result
        (λ o. o ≡ None → ¬ IsAmong W.repository (F.stored files.old) commit.now entry.now) }
    ensures unchanged { W.honest → F.stored files.new ≡ F.stored files.old }
{
    let Some(id) = named_blob(entry, commit) else {
        return Ok(None);
    };
    let Some(file) = files.read(alloc, entry.number)? else {
        return Ok(None);
    };
    match decode_file(&file) {
        Ok(content) => Ok(if has_content::<W, S>(alloc, source, id, content)? {
            Some(id)
        } else {
            None
        }),
        Err(_) => Ok(None),
    }
}

// The blob that the commit has under the entry's name, where that is an own file or link, and the commit's is of its
// kind.
fn named_blob(entry: &StoredEntry, commit: &[TreeEntry]) -> Option<Id>
    ensures own { IfSome result (λ _. entry.now.origin ≡ origin.Own) }
    ensures closed { IfSome result (λ _. entry.now.kind ≢ kind.Dir) }
    ensures place { IfSome result (λ id. place_named entry.now.name commit.now ≡ Some (mode_of entry.now.kind, id)) }
    ensures none { result ≡ None → entry.now.origin ≡ origin.Own → entry.now.kind ≢ kind.Dir → (id : Id)
        → place_named entry.now.name commit.now ≢ Some (mode_of entry.now.kind, id) }
{
    let Origin::Own = entry.origin else {
        return None;
    };
    let Some(place) = place_named(commit, &entry.name) else {
        return None;
    };
    match (entry.kind, place.0) {
        (Kind::File, Mode::File) | (Kind::Exec, Mode::Exec) | (Kind::Link, Mode::Link) => {
            Some(place.1)
        }
        _ => None,
    }
}

// Whether the blob of that id has that content. It is asked for only if the content has the id, and is compared then.
fn has_content<W: World, S: Source<W>>(
    alloc: Global,
    source: &mut S,
    id: Id,
    content: &[u8],
) -> Result<bool, DematerialiseFault>
    requires { length content.now ≤ content_most }
    ensures has { W.honest → IfOk result (λ b. IsTrue b → W.repository.blob id ≡ Some content.now) }
    ensures none { W.honest → IfOk result (λ b. b ≡ false → IsIdOf id (frame word.Blob content.now)
        → W.repository.blob id ≢ Some content.now) }
{
    if id_of(encode_blob(alloc, content)?.as_slice()) != id {
        return Ok(false);
    }
    let kind = ObjKind::Blob;
    let framed = source.fetch(alloc, id)?;
    let object = Object::checked(alloc, Key { id, kind }, framed)?;
    Ok(object.body() == content)
}
