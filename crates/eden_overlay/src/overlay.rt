//! The files of an overlay, stored and got as what they hold.

ghost use Rattle.std.specs.Prelude.{◌≡◌, ◌≢◌, ◌≤◌, Err, Ok, Some, true, length, OnOk, OnErr, IfOk, IfErr};
ghost use Rattle.std.specs.Prelude.{IfSome, IsSome};
ghost use Rattle.std.specs.Ordering.{nat_cmp};
ghost use Rattle.std.specs.List.Sorted.{IsStrictlySortedBy};
ghost use Rattle.eden_model.specs.Limits.{number_least, number_end};
ghost use Rattle.eden_model.specs.Failures.{Counted};
ghost use Rattle.eden_overlay_format.specs.declared.header.Identifier.TheVariants as identifier;
ghost use Rattle.eden_overlay_format.specs.Content.{content_most};
ghost use Rattle.eden_overlay_format.specs.Changing.{entries_with, entry_as};
ghost use Rattle.eden_overlay_format.specs.Directory.{AreStorable, IsStorable};
ghost use Rattle.eden_overlay_format.specs.State.{IsGoodState};
ghost use Rattle.eden_overlay_format.specs.Values.{content_in, state_in, entries_in};
ghost use Rattle.eden_overlay.specs.Files.{ListsNumbers};
ghost use Rattle.eden_overlay.specs.Held.{HoldsContent, HoldsEntries, HoldsPart, HoldsState, TellsLength};
ghost use Rattle.eden_overlay.specs.Held.{content_at, root_file, saved_at};
ghost use Rattle.eden_overlay.specs.Held.{with_content, with_entries, with_numbers, with_state, without};
ghost use Rattle.eden_overlay.specs.Soundness.{AreSound};
ghost use Rattle.eden_overlay.specs.Tidying.{bytes_at};
ghost use Rattle.eden_overlay.specs.Getting.{Explains, ExplainsLength, ExplainsNumbers, length_of, of_numbers};
ghost use Rattle.std.specs.Option.{is_some, option_map};
ghost use Rattle.eden_overlay_format.specs.Numbers.{none_is_own};
ghost use Rattle.eden_overlay.specs.Changing.{HasEntries, IsChanged, MayChange, entry_renamed};
ghost use Rattle.eden_overlay.specs.Keeping.{AreBodiesKept, AreKnownOf};
ghost use Rattle.eden_overlay.specs.Files.{part};
ghost use Rattle.eden_overlay.specs.declared.files.FilesFault.TheVariants as files;
ghost use Rattle.eden_overlay.specs.declared.fault.GetFault.TheVariants as get;

use crate::content::Content;
use crate::fault::GetFault;
use crate::files::{Files, FilesFault};
use crate::part::part_of;
use crate::recent::Recent;
use crate::recent_bodies::RecentBodies;
use eden_model::{Id, Name, Obstacle, World};
use eden_overlay_format::{
    DecodeFault, DirectoryBody, HEADER_LEN, Head, Identifier, Listing, Refusal, RowFacts, Spliced,
    State, StoredEntry, content_len, decode_dir, decode_numbers, decode_state, encode_state,
    encode_unsealed_in, has_numbers,
};
use std::alloc::{AllocError, Global};
use std::marker::{Model, PhantomData};

/// The number of the state's file.
pub const STATE_NUMBER: u64 = 0;

/// The number of the root's file.
pub const ROOT_NUMBER: u64 = 1;

/// A content of more bytes, 8 MiB, is stored without a copy where it is lent in one piece.
const LONG: usize = 8 << 20;

/// A content of more bytes, 1 MiB, that was only read stays in the files: its parts are read there.
const LARGE: usize = 1 << 20;

/// The stored files of a mount, in which no name dangles: whoever stores or removes a file shows first that it will be
/// so. Contracts see the files.
///
/// The contents that were last stored, or of which parts were got, stay in memory, as many as `keeping` says. One of
/// over 8 MiB that is stored in one piece doesn't, since that would be a copy, nor one of over 1 MiB that was read:
/// that its file holds a content is known then, so that its parts are read there. Under an honest outside each content
/// is what its file holds.
///
/// The bodies of the two directories that were stored last stay in memory too, of those that have from 256 bytes to
/// 4 MiB, each in room of up to 10 MiB, so that `store_entry` and `store_renamed` needn't write their other entries
/// anew. A shorter one or a longer one isn't kept, and those of other directories stay then. A body goes once something
/// else is stored as its file. Under an honest outside its entries are what its file holds.
///
/// The room that a file was written in stays too, at most 1 MiB of it for contents and 4 MiB for directories: a store
/// that needs no more takes no memory for its file, but for `store_renamed`, which makes two.
#[derive(Drop)]
pub struct Overlay<W: World, F: Files<W>> {
    files: F,
    recent: Recent,
    bodies: RecentBodies,
    world: PhantomData<W>,
}

impl<W: World, F: Files<W>> Model for Overlay<W, F> {
    ghost Value = { F };

    ghost view = { λ o. o.files };

    ghost invariant = { λ o. W.honest → AreKnownOf (F.stored o.files) o.recent.kept.items o.recent.whole.items
        × AreBodiesKept (F.stored o.files) o.bodies.kept };
}

impl<W: World, F: Files<W>> Overlay<W, F> {
    /// An overlay over those files, which keeps the content in memory that was used last. It takes no memory itself.
    pub fn new(alloc: Global, files: F) -> Self
        ensures { result ≡ files }
    {
        Overlay {
            files,
            recent: Recent::new(alloc, 0),
            bodies: RecentBodies::new(),
            world: PhantomData,
        }
    }

    /// The same overlay, which from now on keeps in memory the contents that were used last: at most eight, of at most
    /// so many bytes together, or the last one alone if it is longer.
    pub fn keeping(mut self, most: u64) -> Self
        ensures { result ≡ self }
    {
        self.recent.most = most;
        self
    }

    /// The files.
    pub fn into_files(self) -> F
        ensures { result ≡ self }
    {
        self.files
    }

    /// How often the device failed so far; it stays at 2^64 - 1.
    pub fn failures(&self) -> u64
        ensures { result ≡ F.failures self.now }
    {
        self.files.failures()
    }

    /// What kept the device from storing when it was to store last; None where it stored, or didn't say.
    pub fn obstacle(&self) -> Option<Obstacle> {
        self.files.obstacle()
    }

    /// Stores a content of at most 2^30 bytes as the file of that number, in place of any that was there. After an
    /// error nothing has changed.
    pub fn put_file(
        &mut self,
        alloc: Global,
        number: u64,
        content: Spliced<'_>,
    ) -> Result<(), FilesFault>
        requires short { length content ≤ content_most }
        requires sound { W.honest → AreSound (with_content (F.stored self.old) number content) }
        ensures ok { W.honest
            → OnOk result (F.stored self.new ≡ with_content (F.stored self.old) number content.entry) }
        ensures err { W.honest → OnErr result (F.stored self.new ≡ F.stored self.old) }
        ensures counted { Counted (result ≡ Err files.Device) (F.failures self.old) (F.failures self.new) }
    {
        if let Some(bytes) = content.as_slice() {
            if bytes.len() > LONG {
                return self.put_long(alloc, number, bytes);
            }
        }
        self.bodies.release(number);
        // First, so that memory never holds what is kept of the file beside the new one.
        let room = self.recent.room(alloc, number);
        let stored = Content::of_unsealed(encode_unsealed_in(room, content)?);
        let body = stored.as_slice();
        self.files
            .replace_body(alloc, number, Identifier::File, body)?;
        let _kept = self.recent.keep(number, stored);
        Ok(())
    }

    /// Stores a content in one piece, of which no copy is made: so it isn't kept in memory.
    fn put_long(&mut self, alloc: Global, number: u64, content: &[u8]) -> Result<(), FilesFault>
        requires short { length content.now ≤ content_most }
        requires sound { W.honest → AreSound (with_content (F.stored self.old) number content.now) }
        ensures ok { W.honest
            → OnOk result (F.stored self.new ≡ with_content (F.stored self.old) number content.now) }
        ensures err { W.honest → OnErr result (F.stored self.new ≡ F.stored self.old) }
        ensures counted { Counted (result ≡ Err files.Device) (F.failures self.old) (F.failures self.new) }
    {
        self.recent.forget(number);
        self.bodies.release(number);
        self.files
            .replace_body(alloc, number, Identifier::File, content)?;
        self.recent.note_whole(number);
        Ok(())
    }

    /// Stores a directory as the file of that number, in place of any that was there: the root's is 1. After an error
    /// nothing has changed.
    pub fn put_dir(
        &mut self,
        alloc: Global,
        number: u64,
        entries: &[StoredEntry],
    ) -> Result<(), FilesFault>
        requires entries { AreStorable entries.now }
        requires sound { W.honest → AreSound (with_entries (F.stored self.old) number entries.now) }
        ensures ok { W.honest → OnOk result (F.stored self.new ≡ with_entries (F.stored self.old) number entries.now) }
        ensures err { W.honest → OnErr result (F.stored self.new ≡ F.stored self.old) }
        ensures counted { Counted (result ≡ Err files.Device) (F.failures self.old) (F.failures self.new) }
    {
        let listing = Listing::of(self.bodies.room(alloc), entries)?;
        self.put_listing(alloc, number, listing)
    }

    /// The room for the next directory's file, to begin a `Listing` in. `put_listing` gives it back.
    pub fn room(&mut self, alloc: Global) -> Vec<u8>
        ensures { self.new ≡ self.old }
    {
        self.bodies.room(alloc)
    }

    /// Stores a directory, whose entries are written already, as the file of that number, in place of any that was
    /// there: the root's is 1. After an error nothing has changed.
    pub fn put_listing(
        &mut self,
        alloc: Global,
        number: u64,
        listing: Listing,
    ) -> Result<(), FilesFault>
        requires entries { AreStorable listing }
        requires sound { W.honest → AreSound (with_entries (F.stored self.old) number listing) }
        ensures ok { W.honest → OnOk result (F.stored self.new ≡ with_entries (F.stored self.old) number listing) }
        ensures err { W.honest → OnErr result (F.stored self.new ≡ F.stored self.old) }
        ensures counted { Counted (result ≡ Err files.Device) (F.failures self.old) (F.failures self.new) }
    {
        self.put_body(alloc, number, DirectoryBody::of(listing))
    }

    /// Stores a directory anew with this as its entry of that name, or without one of it, of the body that is kept in
    /// memory: true then. False where its body isn't kept: nothing has changed. After an error nothing has changed.
    pub fn store_entry(
        &mut self,
        alloc: Global,
        number: u64,
        name: &Name,
        facts: Option<RowFacts>,
    ) -> Result<bool, FilesFault>
        requires storable { IfSome facts (λ f. IsStorable (entry_as name.now f)) }
        requires sound { W.honest → MayChange (F.stored self.old) number
            (entries_with name.now (option_map (entry_as name.now) facts)) }
        ensures stored { W.honest → result ≡ Ok true → IsChanged (F.stored self.old) number
            (entries_with name.now (option_map (entry_as name.now) facts)) (F.stored self.new) }
        ensures held { W.honest → result ≡ Ok true → HasEntries (F.stored self.old) number }
        ensures kept { W.honest → result ≢ Ok true → F.stored self.new ≡ F.stored self.old }
        ensures counted { Counted (result ≡ Err files.Device) (F.failures self.old) (F.failures self.new) }
    {
        let Some(body) = self.bodies.changed(alloc, number, name, facts)? else {
            return Ok(false);
        };
        self.put_body(alloc, number, body)?;
        Ok(true)
    }

    /// Stores a directory anew with its entry of that name under another one, as the facts say, in place of any that
    /// has it, of the body that is kept in memory: true then. It is one store. If both names are one the entry goes.
    /// False where its body isn't kept: nothing has changed. After an error nothing has changed.
    pub fn store_renamed(
        &mut self,
        alloc: Global,
        number: u64,
        name: &Name,
        new_name: &Name,
        facts: RowFacts,
    ) -> Result<bool, FilesFault>
        requires storable { IsStorable (entry_as new_name.now facts) }
        requires sound { W.honest → MayChange (F.stored self.old) number
            (entry_renamed name.now (entry_as new_name.now facts)) }
        ensures stored { W.honest → result ≡ Ok true → IsChanged (F.stored self.old) number
            (entry_renamed name.now (entry_as new_name.now facts)) (F.stored self.new) }
        ensures held { W.honest → result ≡ Ok true → HasEntries (F.stored self.old) number }
        ensures kept { W.honest → result ≢ Ok true → F.stored self.new ≡ F.stored self.old }
        ensures counted { Counted (result ≡ Err files.Device) (F.failures self.old) (F.failures self.new) }
    {
        let Some(body) = self.bodies.renamed(alloc, number, name, new_name, facts)? else {
            return Ok(false);
        };
        self.put_body(alloc, number, body)?;
        Ok(true)
    }

    // Stores a directory's body, and keeps it. What is kept of another body of the directory stays where that fails.
    fn put_body(
        &mut self,
        alloc: Global,
        number: u64,
        body: DirectoryBody,
    ) -> Result<(), FilesFault>
        requires entries { W.honest → AreStorable body }
        requires sound { W.honest → AreSound (with_entries (F.stored self.old) number body) }
        ensures ok { W.honest → OnOk result (F.stored self.new ≡ with_entries (F.stored self.old) number body) }
        ensures err { W.honest → OnErr result (F.stored self.new ≡ F.stored self.old) }
        ensures counted { Counted (result ≡ Err files.Device) (F.failures self.old) (F.failures self.new) }
    {
        self.recent.forget(number);
        let answer = self
            .files
            .replace_body(alloc, number, Identifier::Directory, body.bytes());
        match answer {
            Ok(()) => {
                self.bodies.keep(number, body);
                Ok(())
            }
            Err(fault) => {
                self.bodies.spare(body);
                Err(fault)
            }
        }
    }

    /// The content of the file of that number, or why there is none. The files aren't asked for a content that is kept.
    pub fn get_file(&mut self, alloc: Global, number: u64) -> Result<Content, GetFault>
        ensures found { W.honest → IfOk result (λ content. HoldsContent (F.stored self.old) number content) }
        ensures refused { W.honest → IfErr result (Explains identifier.File content_in (F.stored self.old number)) }
        ensures unchanged { W.honest → F.stored self.new ≡ F.stored self.old }
        ensures counted { Counted (result ≡ Err get.Device) (F.failures self.old) (F.failures self.new) }
    {
        if let Some(content) = self.recent.take(number) {
            return Ok(content);
        }
        match self.files.read(alloc, number)? {
            Some(file) => Content::of_file(file).map_err(GetFault::Damaged),
            None => Err(GetFault::Absent),
        }
    }

    /// Bytes of the content of the file of that number, from a place on and at most so many, or why there are none.
    ///
    /// The files aren't asked for a content that is kept. One of at most 1 MiB that is read is kept. A longer one is
    /// read whole once, for its digest, unless it was stored here whole; from then on its parts alone are read, until
    /// it changes.
    pub fn get_part(
        &mut self,
        alloc: Global,
        number: u64,
        from: u64,
        most: u64,
    ) -> Result<Vec<u8>, GetFault>
        ensures found { W.honest → IfOk result (λ v. HoldsPart (F.stored self.old) number from most v.items) }
        ensures bounded { IfOk result (λ v. length v.items ≤ most) }
        ensures refused { W.honest → IfErr result (Explains identifier.File content_in (F.stored self.old number)) }
        ensures unchanged { W.honest → F.stored self.new ≡ F.stored self.old }
        ensures counted { Counted (result ≡ Err get.Device) (F.failures self.old) (F.failures self.new) }
    {
        if let Some(content) = self.recent.take(number) {
            return Ok(self.part_kept(alloc, number, content, from, most)?);
        }
        if self.recent.is_whole(number) {
            return self.part_stored(alloc, number, from, most);
        }
        let content = self.get_file(alloc, number)?;
        if content.as_slice().len() <= LARGE {
            return Ok(self.part_kept(alloc, number, content, from, most)?);
        }
        let part = part_of(alloc, content.as_slice(), from, most)?;
        self.recent.note_whole(number);
        Ok(part)
    }

    // Bytes of a content, which is kept as the one that was used last: others go where it needs their room.
    fn part_kept(
        &mut self,
        alloc: Global,
        number: u64,
        content: Content,
        from: u64,
        most: u64,
    ) -> Result<Vec<u8>, AllocError>
        requires { W.honest → HoldsContent (F.stored self.old) number content }
        ensures part { IfOk result (λ v. v.items ≡ part from most content) }
        ensures same { self.new ≡ self.old }
    {
        let part = part_of(alloc, content.as_slice(), from, most);
        let _kept = self.recent.keep(number, content);
        part
    }

    // Bytes of a content that the file is known to hold, from there.
    fn part_stored(
        &mut self,
        alloc: Global,
        number: u64,
        from: u64,
        most: u64,
    ) -> Result<Vec<u8>, GetFault>
        requires { W.honest → IsSome (content_at (F.stored self.old) number) }
        ensures found { W.honest → IfOk result (λ v. HoldsPart (F.stored self.old) number from most v.items) }
        ensures bounded { IfOk result (λ v. length v.items ≤ most) }
        ensures refused { W.honest → IfErr result (Explains identifier.File content_in (F.stored self.old number)) }
        ensures unchanged { W.honest → F.stored self.new ≡ F.stored self.old }
        ensures counted { Counted (result ≡ Err get.Device) (F.failures self.old) (F.failures self.new) }
    {
        let Some(from) = from.checked_add(HEADER_LEN as u64) else {
            return Ok(Vec::new(alloc));
        };
        match self.files.read_part(alloc, number, from, most)? {
            Some(bytes) => Ok(bytes),
            None => Err(GetFault::Absent),
        }
    }

    /// The length of the content of the file of that number, or why it tells none: by its first 64 bytes and its
    /// length. The content isn't read: that it has another digest than its header says is told by `get_file`. The files
    /// aren't asked where the content is kept. Want of memory is never told.
    pub fn get_len(&mut self, number: u64) -> Result<u64, GetFault>
        ensures told { W.honest → IfOk result (TellsLength (F.stored self.old) number) }
        ensures refused { W.honest → IfErr result (ExplainsLength (F.stored self.old number)) }
        ensures memory { result ≢ Err get.Memory }
        ensures unchanged { W.honest → F.stored self.new ≡ F.stored self.old }
        ensures counted { Counted (result ≡ Err get.Device) (F.failures self.old) (F.failures self.new) }
    {
        if let Some(len) = self.recent.len_of(number) {
            return Ok(len);
        }
        let head = self.files.head(number)?;
        len_told(head)
    }

    /// Takes back a content that was got and is wanted no more: its room is there for the next one that is stored.
    pub fn spare(&mut self, content: Content)
        ensures { self.new ≡ self.old }
    {
        self.recent.spare(content);
    }

    /// The entries of the directory of that number, or why there are none.
    pub fn get_dir(&mut self, alloc: Global, number: u64) -> Result<Vec<StoredEntry>, GetFault>
        ensures found { W.honest → IfOk result (λ v. HoldsEntries (F.stored self.old) number v.items) }
        ensures refused { W.honest
            → IfErr result (Explains identifier.Directory entries_in (F.stored self.old number)) }
        ensures unchanged { W.honest → F.stored self.new ≡ F.stored self.old }
        ensures storable { IfOk result (λ v. AreStorable v.items) }
        ensures counted { Counted (result ≡ Err get.Device) (F.failures self.old) (F.failures self.new) }
    {
        match self.files.read(alloc, number)? {
            Some(directory) => decode_dir(alloc, &directory).map_err(GetFault::from),
            None => Err(GetFault::Absent),
        }
    }

    /// Whether the root is the mount's own: file 1 is stored, and doesn't have the numbers of a tree object's directory
    /// alone. Its first 64 bytes are read. Its one error is the device's.
    pub fn is_rooted(&mut self) -> Result<bool, FilesFault>
        ensures told { W.honest → IfOk result (λ b. b ≡ is_some (root_file (F.stored self.old))) }
        ensures fault { IfErr result (λ f. f ≡ files.Device) }
        ensures unchanged { W.honest → F.stored self.new ≡ F.stored self.old }
        ensures counted { Counted (result ≡ Err files.Device) (F.failures self.old) (F.failures self.new) }
    {
        match self.files.head(ROOT_NUMBER)? {
            None => Ok(false),
            Some(head) => Ok(!has_numbers(&head)),
        }
    }

    /// Stores the numbers of a directory on that tree object, whose entries are written already, as the file of that
    /// number, in place of any that was there: the root's is 1. None of the entries has its contents in the overlay.
    /// After an error nothing has changed.
    pub fn put_numbers(
        &mut self,
        alloc: Global,
        number: u64,
        tree: Id,
        listing: Listing,
    ) -> Result<(), FilesFault>
        requires entries { AreStorable listing }
        requires others { none_is_own listing ≡ true }
        requires sound { W.honest → AreSound (with_numbers (F.stored self.old) number tree listing) }
        ensures ok { W.honest → OnOk result (F.stored self.new ≡ with_numbers (F.stored self.old) number tree listing) }
        ensures err { W.honest → OnErr result (F.stored self.new ≡ F.stored self.old) }
        ensures counted { Counted (result ≡ Err files.Device) (F.failures self.old) (F.failures self.new) }
    {
        self.recent.forget(number);
        self.bodies.release(number);
        let bytes = listing.into_numbers(tree)?;
        let answer = self.files.replace(alloc, number, &bytes);
        self.bodies.room.keep(bytes);
        answer
    }

    /// The entries of a directory on that tree object, with the numbers that were stored for it as the file of that
    /// number, or why there are none: `Absent` also where the file is none of numbers (so one of under 64 bytes), or
    /// has those of another tree object.
    pub fn get_numbers(
        &mut self,
        alloc: Global,
        number: u64,
        tree: Id,
    ) -> Result<Vec<StoredEntry>, GetFault>
        ensures found { W.honest → IfOk result (λ v. saved_at (F.stored self.old) number tree ≡ Some v.items) }
        ensures refused { W.honest → IfErr result (ExplainsNumbers tree (F.stored self.old number)) }
        ensures unchanged { W.honest → F.stored self.new ≡ F.stored self.old }
        ensures storable { IfOk result (λ v. AreStorable v.items) }
        ensures others { IfOk result (λ v. none_is_own v.items ≡ true) }
        ensures counted { Counted (result ≡ Err get.Device) (F.failures self.old) (F.failures self.new) }
    {
        let Some(file) = self.files.read(alloc, number)? else {
            return Err(GetFault::Absent);
        };
        match decode_numbers(alloc, &file) {
            Ok(stored) => {
                if stored.tree == tree {
                    Ok(stored.entries)
                } else {
                    Err(GetFault::Absent)
                }
            }
            Err(fault) => Err(no_numbers(fault)),
        }
    }

    /// Removes the file of that number; Ok too where there is none. It takes no memory: its one error is the device's,
    /// and nothing has changed then.
    pub fn remove(&mut self, number: u64) -> Result<(), FilesFault>
        requires sound { W.honest → AreSound (without (F.stored self.old) number) }
        ensures ok { W.honest → OnOk result (F.stored self.new ≡ without (F.stored self.old) number) }
        ensures err { W.honest → OnErr result (F.stored self.new ≡ F.stored self.old) }
        ensures fault { IfErr result (λ f. f ≡ files.Device) }
        ensures counted { Counted (result ≡ Err files.Device) (F.failures self.old) (F.failures self.new) }
    {
        self.recent.forget(number);
        self.bodies.release(number);
        self.files.remove(number)
    }

    /// Stores the state as file 0, in place of any that was there. After an error nothing has changed. Soundness stays
    /// what it was: no entry has the number 0.
    pub fn put_state(&mut self, alloc: Global, state: State) -> Result<(), FilesFault>
        requires least { number_least ≤ state.next }
        requires most { state.next ≤ number_end }
        ensures ok { W.honest → OnOk result (F.stored self.new ≡ with_state (F.stored self.old) state) }
        ensures err { W.honest → OnErr result (F.stored self.new ≡ F.stored self.old) }
        ensures counted { Counted (result ≡ Err files.Device) (F.failures self.old) (F.failures self.new) }
    {
        self.recent.forget(STATE_NUMBER);
        self.bodies.release(STATE_NUMBER);
        let bytes = encode_state(alloc, state)?;
        self.files.replace(alloc, STATE_NUMBER, &bytes)
    }

    /// The state in file 0, or why there is none.
    pub fn get_state(&mut self, alloc: Global) -> Result<State, GetFault>
        ensures found { W.honest → IfOk result (λ state. HoldsState (F.stored self.old) state) }
        ensures refused { W.honest → IfErr result (Explains identifier.File state_in (F.stored self.old 0)) }
        ensures unchanged { W.honest → F.stored self.new ≡ F.stored self.old }
        ensures good { IfOk result IsGoodState }
        ensures counted { Counted (result ≡ Err get.Device) (F.failures self.old) (F.failures self.new) }
    {
        match self.files.read(alloc, STATE_NUMBER)? {
            Some(state) => decode_state(&state).map_err(GetFault::Damaged),
            None => Err(GetFault::Absent),
        }
    }

    /// Removes file 0; Ok too where there is none. It takes no memory: its one error is the device's, and nothing has
    /// changed then.
    pub fn remove_state(&mut self) -> Result<(), FilesFault>
        ensures ok { W.honest → OnOk result (F.stored self.new ≡ without (F.stored self.old) 0) }
        ensures err { W.honest → OnErr result (F.stored self.new ≡ F.stored self.old) }
        ensures fault { IfErr result (λ f. f ≡ files.Device) }
        ensures counted { Counted (result ≡ Err files.Device) (F.failures self.old) (F.failures self.new) }
    {
        self.recent.forget(STATE_NUMBER);
        self.bodies.release(STATE_NUMBER);
        self.files.remove(STATE_NUMBER)
    }

    /// The numbers of all files, rising.
    pub fn list(&mut self, alloc: Global) -> Result<Vec<u64>, FilesFault>
        ensures rising { IfOk result (λ v. IsStrictlySortedBy nat_cmp v.items) }
        ensures all { W.honest → IfOk result (λ v. ListsNumbers v.items (F.stored self.old)) }
        ensures unchanged { W.honest → F.stored self.new ≡ F.stored self.old }
        ensures counted { Counted (result ≡ Err files.Device) (F.failures self.old) (F.failures self.new) }
    {
        self.files.list(alloc)
    }

    /// Waits until a loss of power would take nothing of what is stored, as far as the files can. After an error that
    /// isn't known, and nothing has changed.
    pub fn sync(&mut self, alloc: Global) -> Result<(), FilesFault>
        ensures unchanged { W.honest → F.stored self.new ≡ F.stored self.old }
        ensures counted { Counted (result ≡ Err files.Device) (F.failures self.old) (F.failures self.new) }
    {
        self.files.sync(alloc)
    }

    /// How many bytes the file of that number has; 0 where there is none. Its one error is the device's.
    pub fn bytes_at(&mut self, number: u64) -> Result<u64, FilesFault>
        ensures told { W.honest → IfOk result (λ bytes. bytes ≡ bytes_at (F.stored self.old number)) }
        ensures fault { IfErr result (λ f. f ≡ files.Device) }
        ensures unchanged { W.honest → F.stored self.new ≡ F.stored self.old }
        ensures counted { Counted (result ≡ Err files.Device) (F.failures self.old) (F.failures self.new) }
    {
        match self.files.head(number)? {
            None => Ok(0),
            Some(head) => Ok(head.len),
        }
    }
}

// Why a file that has no good numbers gives none: it is none of numbers, or they are bad.
fn no_numbers(fault: DecodeFault) -> GetFault
    ensures { result ≡ of_numbers fault }
{
    match fault {
        DecodeFault::Memory => GetFault::Memory,
        DecodeFault::Refused(refusal) => match refusal {
            Refusal::Short | Refusal::BadIdentifier => GetFault::Absent,
            Refusal::BadVersion | Refusal::BadLength | Refusal::BadDigest | Refusal::BadBody => {
                GetFault::Damaged(refusal)
            }
        },
    }
}

// The length of the content that a file with that head stores, or why it has none.
fn len_told(head: Option<Head>) -> Result<u64, GetFault>
    ensures told { result ≡ length_of head }
    ensures memory { result ≢ Err get.Memory }
    ensures device { result ≢ Err get.Device }
{
    match head {
        None => Err(GetFault::Absent),
        Some(head) => match content_len(&head) {
            Ok(len) => Ok(len),
            Err(refusal) => Err(GetFault::Damaged(refusal)),
        },
    }
}
