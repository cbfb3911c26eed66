// Directories of objects, each with packs and loose objects.
ghost use Rattle.std.specs.Prelude.{◌≡◌, ◌≤◌, length, false, Ok, Err, IfOk, IfErr};
ghost use Rattle.std.specs.List.{All};
ghost use Rattle.eden_model.specs.declared.fault.Cause.TheVariants as cause;
ghost use Rattle.eden_object.specs.Frames.{longest_framed};
ghost use Rattle.eden_source.specs.Fetching.{IsSourceCause};
ghost use Rattle.eden_pack_format.specs.Causes.{IsReadingCause};
ghost use Rattle.eden_git.specs.Framing.{IsFramedObject};

use crate::alternates::directories;
use crate::fault::GitFault;
use crate::look::look_again;
use crate::loose::read_loose;
use crate::pack::Tools;
use crate::packs::Packs;
use eden_model::{Cause, Id};
use eden_source::{FolderSource, Source};
use std::alloc::{Alloc, Global};
use std::path::PathBuf;
use std::rt::Files;

/// A directory of objects.
#[derive(Drop)]
pub(crate) struct Store<R: Files> {
    packs: Packs<R::File>,
    streams: FolderSource<R>,
}

impl<R: Files + Alloc + Clone + Drop> Store<R> {
    // The object of that id, packed or loose, as the directory was seen. `Missing`, where it has neither, and each of
    // its packs that is there could be opened.
    fn framed(&mut self, tools: &mut Tools, id: Id) -> Result<Vec<u8>, Cause>
        ensures framed { IfOk result (λ v. IsFramedObject v.items) }
        ensures bounded { IfOk result (λ v. length v.items ≤ longest_framed) }
        ensures damaged { result ≡ Err cause.Missing → self.new.packs.is_damaged ≡ false }
        ensures causes { IfErr result IsSourceCause }
    {
        match self.packs.framed(tools, id) {
            Ok(Some(framed)) => Ok(framed),
            Ok(None) => self.loose(tools, id),
            Err(cause) => match self.loose(tools, id) {
                Ok(framed) => Ok(framed),
                Err(_) => Err(cause),
            },
        }
    }

    fn loose(&mut self, tools: &mut Tools, id: Id) -> Result<Vec<u8>, Cause>
        ensures packs { self.new.packs ≡ self.old.packs }
        ensures framed { IfOk result (λ v. IsFramedObject v.items) }
        ensures bounded { IfOk result (λ v. length v.items ≤ longest_framed) }
        ensures causes { IfErr result IsSourceCause }
    {
        let stream = self.streams.fetch(tools.alloc, id)?;
        read_loose(&mut tools.decoder, tools.alloc, &stream)
    }
}

/// The object of that id, in one of the directories. If it is found in none, or what might have it can't be read, their
/// packs are listed again, those that weren't open are tried again, and it is looked for in what is new.
///
/// `Missing`, where no directory has it, and each pack that is there could be opened.
pub(crate) fn find<R: Files + Alloc + Clone + Drop>(
    files: &R,
    stores: &mut Vec<Store<R>>,
    tools: &mut Tools,
    id: Id,
    numbers: &mut u64,
) -> Result<Vec<u8>, Cause>
    ensures framed { IfOk result (λ v. IsFramedObject v.items) }
    ensures bounded { IfOk result (λ v. length v.items ≤ longest_framed) }
    ensures damaged { result ≡ Err cause.Missing → All (λ store. store.packs.is_damaged ≡ false) stores.new.items }
    ensures causes { IfErr result IsSourceCause }
{
    let failed = match framed_in(stores, tools, id) {
        Err(cause) if cause == Cause::Missing || cause == Cause::Device => cause,
        answer => return answer,
    };
    match look_at_all(files, tools.alloc, stores, numbers) {
        Ok(true) => framed_in(stores, tools, id),
        Ok(false) => Err(failed),
        Err(cause) => framed_in(stores, tools, id).map_err(|_| cause),
    }
}

// The object of that id, in one of the directories as they were seen. A directory that can't be read is passed over
// where another one has the object.
fn framed_in<R: Files + Alloc + Clone + Drop>(
    stores: &mut Vec<Store<R>>,
    tools: &mut Tools,
    id: Id,
) -> Result<Vec<u8>, Cause>
    ensures framed { IfOk result (λ v. IsFramedObject v.items) }
    ensures bounded { IfOk result (λ v. length v.items ≤ longest_framed) }
    ensures damaged { result ≡ Err cause.Missing → All (λ store. store.packs.is_damaged ≡ false) stores.new.items }
    ensures causes { IfErr result IsSourceCause }
{
    let mut failed = Cause::Missing;
    for index in 0..stores.len() {
        match stores[index].framed(tools, id) {
            Ok(framed) => return Ok(framed),
            Err(Cause::Missing) => {}
            Err(cause) => failed = cause,
        }
    }
    Err(failed)
}

// Lists the packs of the directories again, also of those after one that can't be listed. Whether of one of them more
// is known than before.
fn look_at_all<R: Files + Alloc + Clone + Drop>(
    files: &R,
    alloc: Global,
    stores: &mut Vec<Store<R>>,
    numbers: &mut u64,
) -> Result<bool, Cause>
    ensures kept { result ≡ Ok false → All (λ store. store.packs.is_damaged ≡ false) stores.old.items
        → All (λ store. store.packs.is_damaged ≡ false) stores.new.items }
    ensures causes { IfErr result IsReadingCause }
{
    let mut is_other = false;
    let mut failed = None;
    for index in 0..stores.len() {
        match look_again(files, alloc, &mut stores[index].packs, numbers) {
            Ok(true) => is_other = true,
            Ok(false) => {}
            Err(cause) => failed = Some(cause),
        }
    }
    match failed {
        Some(cause) => Err(cause),
        None => Ok(is_other),
    }
}

/// The directory of objects and its alternates, each with the packs that are there.
pub(crate) fn open_stores<R: Files + Alloc + Clone + Drop>(
    files: &R,
    alloc: Global,
    objects: PathBuf,
    numbers: &mut u64,
) -> Result<Vec<Store<R>>, GitFault> {
    let mut stores = Vec::new(alloc);
    for directory in directories(files, alloc, objects)? {
        let store = open_store(files, alloc, directory, numbers).map_err(fault_of)?;
        stores.push(store).map_err(|_| GitFault::Memory)?;
    }
    Ok(stores)
}

fn open_store<R: Files + Alloc + Clone + Drop>(
    files: &R,
    alloc: Global,
    directory: PathBuf,
    numbers: &mut u64,
) -> Result<Store<R>, Cause> {
    let mut packs = Packs::new(alloc, &directory)?;
    look_again(files, alloc, &mut packs, numbers)?;
    let files = files.clone()?;
    Ok(Store {
        packs,
        streams: FolderSource::new(files, directory),
    })
}

// Why a directory isn't opened.
fn fault_of(cause: Cause) -> GitFault {
    match cause {
        Cause::Memory => GitFault::Memory,
        _ => GitFault::Device,
    }
}
