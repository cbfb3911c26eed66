//! The directories that were stored last, whose bodies stay in memory.

ghost use Rattle.std.specs.Prelude.{◌≡◌, None, Some, length, IfOk, IfSome};
ghost use Rattle.std.specs.Option.{option_map};
ghost use Rattle.eden_overlay_format.specs.Changing.{entries_with, entry_as};
ghost use Rattle.eden_overlay_format.specs.Directory.{IsStorable, directory_body};
ghost use Rattle.eden_overlay.specs.Changing.{entry_renamed};
ghost use Rattle.eden_overlay.specs.Keeping.{IsKeptLong, body_but, body_entries};
ghost use Rattle.eden_overlay.specs.Keeping.{kept_but, kept_entries, kept_with};

use crate::room::Room;
use eden_model::Name;
use eden_overlay_format::{DirectoryBody, RowFacts};
use std::alloc::{AllocError, Global};

/// A body of fewer bytes isn't kept: its entries are soon written anew.
const BODY_LEAST: usize = 1 << 8;

/// A body of more bytes, 4 MiB, isn't kept, nor is more room for the next one: so a huge directory doesn't hold memory
/// for good.
const BODY_MOST: usize = 4 << 20;

/// A directory's body in memory, and the number of the file that holds it.
#[derive(Drop)]
pub(crate) struct KeptBody {
    pub(crate) number: u64,
    pub(crate) body: DirectoryBody,
}

impl KeptBody {
    // The body, if it is that directory's.
    fn of(kept: &Option<KeptBody>, number: u64) -> Option<&DirectoryBody>
        ensures { option_map (λ body. body.now) result ≡ body_entries number kept.now }
    {
        match kept {
            Some(kept) if kept.number == number => Some(&kept.body),
            _ => None,
        }
    }

    // Takes the body out, if it is that directory's.
    fn take(kept: &mut Option<KeptBody>, number: u64) -> Option<DirectoryBody>
        ensures { kept.new ≡ body_but number kept.old }
    {
        match kept.take() {
            Some(own) if own.number == number => Some(own.body),
            other => {
                *kept = other;
                None
            }
        }
    }
}

/// The bodies of two directories, as far as they are kept: who stores now in one and now in the other has both.
#[derive(Drop)]
pub(crate) struct TwoBodies {
    /// That of the directory that was stored last.
    pub(crate) latest: Option<KeptBody>,
    pub(crate) earlier: Option<KeptBody>,
}

impl TwoBodies {
    // The body of that directory, if it is kept.
    fn body_of(&self, number: u64) -> Option<&DirectoryBody>
        ensures { option_map (λ body. body.now) result ≡ kept_entries number self.now }
    {
        match KeptBody::of(&self.latest, number) {
            Some(body) => Some(body),
            None => KeptBody::of(&self.earlier, number),
        }
    }

    // Puts that one in as the latest. The one before the latest goes for it.
    fn put(&mut self, kept: KeptBody) -> Option<KeptBody>
        ensures { self.new ≡ kept_with kept self.old }
    {
        match self.latest.replace(kept) {
            Some(before) => self.earlier.replace(before),
            None => None,
        }
    }
}

/// The bodies of the directories that were stored last.
#[derive(Drop)]
pub(crate) struct RecentBodies {
    pub(crate) kept: TwoBodies,
    /// The room that a directory's file was written in before.
    pub(crate) room: Room,
}

impl RecentBodies {
    /// None yet. It takes no memory.
    pub(crate) fn new() -> RecentBodies
        ensures latest { result.kept.latest ≡ None }
        ensures earlier { result.kept.earlier ≡ None }
    {
        RecentBodies {
            kept: TwoBodies {
                latest: None,
                earlier: None,
            },
            room: Room::new(BODY_MOST),
        }
    }

    /// The room for the next directory's file.
    pub(crate) fn room(&mut self, alloc: Global) -> Vec<u8>
        ensures { self.new.kept ≡ self.old.kept }
    {
        self.room.take(alloc)
    }

    /// The body of that directory with this as its entry of that name, or without one of it; None where its body isn't
    /// kept. What is kept stays. The only error is want of memory.
    pub(crate) fn changed(
        &mut self,
        alloc: Global,
        number: u64,
        name: &Name,
        facts: Option<RowFacts>,
    ) -> Result<Option<DirectoryBody>, AllocError>
        requires storable { IfSome facts (λ f. IsStorable (entry_as name.now f)) }
        ensures made { IfOk result (λ made. made ≡ option_map
            (entries_with name.now (option_map (entry_as name.now) facts)) (kept_entries number self.old.kept)) }
        ensures same { self.new.kept ≡ self.old.kept }
    {
        let Some(body) = self.kept.body_of(number) else {
            return Ok(None);
        };
        let room = self.room.take(alloc);
        Ok(Some(body.changed(room, name, facts)?))
    }

    /// The body of that directory with its entry of that name under another one, as the facts say, in place of any that
    /// has it; None where its body isn't kept. What is kept stays. The only error is want of memory.
    pub(crate) fn renamed(
        &mut self,
        alloc: Global,
        number: u64,
        name: &Name,
        new_name: &Name,
        facts: RowFacts,
    ) -> Result<Option<DirectoryBody>, AllocError>
        requires storable { IsStorable (entry_as new_name.now facts) }
        ensures made { IfOk result (λ made. made ≡ option_map
            (entry_renamed name.now (entry_as new_name.now facts)) (kept_entries number self.old.kept)) }
        ensures same { self.new.kept ≡ self.old.kept }
    {
        let Some(both) = self.changed(alloc, number, new_name, Some(facts))? else {
            return Ok(None);
        };
        let room = self.room.take(alloc);
        let body = both.changed(room, name, None)?;
        self.spare(both);
        Ok(Some(body))
    }

    /// Keeps the body as that directory's, which is the latest then: beside it one body of another directory stays, the
    /// later one. One that is too short or too long isn't kept: then none of the directory is, and others stay.
    pub(crate) fn keep(&mut self, number: u64, body: DirectoryBody)
        ensures kept { IsKeptLong (length (directory_body body))
            → self.new.kept ≡ kept_with (record { number = number; body = body }) (kept_but number self.old.kept) }
        ensures other { ¬ IsKeptLong (length (directory_body body)) → self.new.kept ≡ kept_but number self.old.kept }
    {
        self.release(number);
        let len = body.bytes().len();
        if len < BODY_LEAST || len > BODY_MOST {
            return self.spare(body);
        }
        if let Some(gone) = self.kept.put(KeptBody { number, body }) {
            self.spare(gone.body);
        }
    }

    /// Drops the body of that directory, if it is kept; those of others stay.
    pub(crate) fn release(&mut self, number: u64)
        ensures { self.new.kept ≡ kept_but number self.old.kept }
    {
        if let Some(body) = KeptBody::take(&mut self.kept.latest, number) {
            self.spare(body);
        }
        if let Some(body) = KeptBody::take(&mut self.kept.earlier, number) {
            self.spare(body);
        }
    }

    /// Keeps the room of a body that is wanted no more.
    pub(crate) fn spare(&mut self, body: DirectoryBody)
        ensures { self.new.kept ≡ self.old.kept }
    {
        self.room.keep(body.into_room());
    }
}
