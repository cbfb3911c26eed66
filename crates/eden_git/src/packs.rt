// The packs of a directory of objects.
ghost use Rattle.std.specs.Prelude.{◌≡◌, ◌≤◌, length, true, false, Ok, None, IsErrAnd, IfOk, IfErr, IfSome};
ghost use Rattle.eden_object.specs.Frames.{longest_framed};
ghost use Rattle.eden_pack_format.specs.Causes.{IsReadingCause};
ghost use Rattle.eden_git.specs.Framing.{IsFramedObject};
ghost use Rattle.eden_git.specs.Opening.{IsDamage};

use crate::multi_index::MultiIndex;
use crate::pack::{Pack, Tools};
use eden_model::{Cause, Id};
use eden_plain_files::FolderFault;
use std::alloc::Global;
use std::io::{Read, Seek};
use std::path::PathBuf;

/// The packs of a directory of objects, as they were when it was last looked at.
#[derive(Drop)]
pub(crate) struct Packs<F> {
    pub(crate) folder: PathBuf,
    /// The names of their files and of their indexes, in order.
    pub(crate) seen: Vec<String>,
    /// For each of these names, which of the open packs was opened by it: by that of its own index, or without one by
    /// that of the pack, as a multi-pack index names it.
    pub(crate) opened: Vec<Option<usize>>,
    pub(crate) open: Vec<Pack<F>>,
    pub(crate) multi: Option<Multi<F>>,
    /// Whether one of them was there and couldn't be opened, when it was last tried.
    pub(crate) is_damaged: bool,
}

/// A multi-pack index, and for each of its packs which of the open ones it is.
#[derive(Drop)]
pub(crate) struct Multi<F> {
    pub(crate) index: MultiIndex<F>,
    pub(crate) packs: Vec<Option<usize>>,
}

/// Where an object lies: in which of the open packs, and where it begins there.
#[derive(Clone, Copy)]
pub(crate) struct Spot {
    pub(crate) pack: usize,
    pub(crate) at: u64,
}

/// What a multi-pack index says of an object.
#[derive(Clone, Copy)]
pub(crate) enum Told {
    There(Spot),
    /// None of its packs has it.
    Absent,
    /// There is no such index, or the pack that it names isn't open.
    Nothing,
}

impl<F: Read + Seek + Drop> Packs<F> {
    /// Those of the directory of objects, none of them seen yet.
    pub(crate) fn new(alloc: Global, objects: &PathBuf) -> Result<Self, Cause>
        ensures causes { IfErr result IsReadingCause }
    {
        let folder = objects.join(alloc, "pack")?;
        Ok(Packs {
            folder,
            seen: Vec::new(alloc),
            opened: Vec::new(alloc),
            open: Vec::new(alloc),
            multi: None,
            is_damaged: false,
        })
    }

    /// Those of these names, none of them open yet. Where there is no memory for that, they stay as they were.
    pub(crate) fn see(&mut self, alloc: Global, names: Vec<String>) -> Result<(), Cause>
        ensures causes { IfErr result IsReadingCause }
    {
        let mut opened = Vec::new(alloc);
        opened.resize(names.len(), None)?;
        self.seen = names;
        self.opened = opened;
        self.open = Vec::new(alloc);
        self.multi = None;
        self.is_damaged = false;
        Ok(())
    }

    /// Takes in what came of opening a pack by the name of that number. One that is gone by now is passed over, and
    /// what is there and can't be opened is damaged.
    pub(crate) fn add(
        &mut self,
        name: usize,
        opened: Result<Pack<F>, FolderFault>,
    ) -> Result<(), Cause>
        ensures kept { self.old.is_damaged ≡ true → self.new.is_damaged ≡ true }
        ensures damaged { IsErrAnd opened IsDamage → self.new.is_damaged ≡ true }
        ensures causes { IfErr result IsReadingCause }
    {
        match opened {
            Ok(pack) => {
                self.open.push(pack)?;
                if let Some(place) = self.opened.get_mut(name) {
                    *place = self.open.len().checked_sub(1);
                }
            }
            Err(FolderFault::Missing) => {}
            Err(FolderFault::Memory) => return Err(Cause::Memory),
            Err(_) => self.is_damaged = true,
        }
        Ok(())
    }

    /// Which name that one is among those that were seen.
    pub(crate) fn name_of(&self, name: &String) -> Option<usize> {
        self.seen.binary_search(name).ok()
    }

    /// Which of the open packs was opened by the name of that number.
    pub(crate) fn opened_by(&self, name: usize) -> Option<usize> {
        self.opened.get(name).copied().flatten()
    }

    /// Has that multi-pack index in the place of the one before.
    pub(crate) fn put_multi(&mut self, multi: Multi<F>)
        ensures kept { self.new.is_damaged ≡ self.old.is_damaged }
    {
        mark(&mut self.open, &multi.packs);
        self.multi = Some(multi);
    }

    /// The framed object of that id, if it is in one of the packs that were seen. The multi-pack index is asked first,
    /// then the packs' own indexes: all of them, if it couldn't answer, or else those of the packs that it isn't of.
    /// What can't be read is passed over where another one has the object; if none has it, it is no reason to say so.
    pub(crate) fn framed(&mut self, tools: &mut Tools, id: Id) -> Result<Option<Vec<u8>>, Cause>
        ensures framed { IfOk result (λ found. IfSome found (λ v. IsFramedObject v.items)) }
        ensures bounded { IfOk result (λ found. IfSome found (λ v. length v.items ≤ longest_framed)) }
        ensures damaged { result ≡ Ok None → self.new.is_damaged ≡ false }
        ensures causes { IfErr result IsReadingCause }
    {
        match self.framed_in_open(tools, id) {
            Ok(None) if self.is_damaged => Err(Cause::Device),
            answer => answer,
        }
    }

    // The framed object of that id, if it is in one of the open packs.
    fn framed_in_open(&mut self, tools: &mut Tools, id: Id) -> Result<Option<Vec<u8>>, Cause>
        ensures framed { IfOk result (λ found. IfSome found (λ v. IsFramedObject v.items)) }
        ensures bounded { IfOk result (λ found. IfSome found (λ v. length v.items ≤ longest_framed)) }
        ensures causes { IfErr result IsReadingCause }
    {
        match self.told_by_multi(id) {
            Ok(Told::There(spot)) => match self.framed_at(tools, spot) {
                Ok(framed) => Ok(Some(framed)),
                Err(cause) => self.framed_by_own(tools, id, false, Some(cause)),
            },
            Ok(Told::Absent) => self.framed_by_own(tools, id, true, None),
            Ok(Told::Nothing) => self.framed_by_own(tools, id, false, None),
            Err(cause) => self.framed_by_own(tools, id, false, Some(cause)),
        }
    }

    // The framed object of that id by the packs' own indexes; whether those are passed over of which there is a
    // multi-pack index, and what failed before.
    fn framed_by_own(
        &mut self,
        tools: &mut Tools,
        id: Id,
        is_multi_over: bool,
        failed: Option<Cause>,
    ) -> Result<Option<Vec<u8>>, Cause>
        requires { IfSome failed IsReadingCause }
        ensures framed { IfOk result (λ found. IfSome found (λ v. IsFramedObject v.items)) }
        ensures bounded { IfOk result (λ found. IfSome found (λ v. length v.items ≤ longest_framed)) }
        ensures causes { IfErr result IsReadingCause }
    {
        let mut failed = failed;
        for pack in 0..self.open.len() {
            if is_multi_over && self.is_in_multi(pack) {
                continue;
            }
            match self.framed_in(tools, pack, id) {
                Ok(Some(framed)) => return Ok(Some(framed)),
                Ok(None) => {}
                Err(cause) => failed = Some(cause),
            }
        }
        match failed {
            Some(cause) => Err(cause),
            None => Ok(None),
        }
    }

    // Whether the multi-pack index is of the open pack of that number.
    fn is_in_multi(&self, pack: usize) -> bool {
        match self.open.get(pack) {
            Some(pack) => pack.is_in_multi(),
            None => false,
        }
    }

    // The framed object of that id, if it is in that pack by its own index.
    fn framed_in(
        &mut self,
        tools: &mut Tools,
        pack: usize,
        id: Id,
    ) -> Result<Option<Vec<u8>>, Cause>
        ensures framed { IfOk result (λ found. IfSome found (λ v. IsFramedObject v.items)) }
        ensures bounded { IfOk result (λ found. IfSome found (λ v. length v.items ≤ longest_framed)) }
        ensures causes { IfErr result IsReadingCause }
    {
        match self.find_in(pack, id)? {
            Some(at) => Ok(Some(self.framed_at(tools, Spot { pack, at })?)),
            None => Ok(None),
        }
    }

    /// Where the object of that id begins in the open pack of that number, by its own index.
    pub(crate) fn find_in(&mut self, pack: usize, id: Id) -> Result<Option<u64>, Cause>
        ensures causes { IfErr result IsReadingCause }
    {
        match self.open.get_mut(pack) {
            Some(pack) => pack.find(id),
            None => Ok(None),
        }
    }

    /// What the multi-pack index says of the object of that id. `Device`, where it names a pack that it isn't of.
    pub(crate) fn told_by_multi(&mut self, id: Id) -> Result<Told, Cause>
        ensures causes { IfErr result IsReadingCause }
    {
        let Some(multi) = &mut self.multi else {
            return Ok(Told::Nothing);
        };
        let Some(found) = multi.index.find(id)? else {
            return Ok(Told::Absent);
        };
        match multi.packs.get(found.pack as usize) {
            Some(Some(pack)) => Ok(Told::There(Spot {
                pack: *pack,
                at: found.at,
            })),
            Some(None) => Ok(Told::Nothing),
            None => Err(Cause::Device),
        }
    }
}

// Marks the open packs that a multi-pack index is of, and no others.
fn mark<F: Read + Seek + Drop>(open: &mut Vec<Pack<F>>, packs: &Vec<Option<usize>>) {
    for number in 0..open.len() {
        if let Some(pack) = open.get_mut(number) {
            pack.set_in_multi(false);
        }
    }
    for pack in packs {
        let Some(number) = *pack else {
            continue;
        };
        if let Some(pack) = open.get_mut(number) {
            pack.set_in_multi(true);
        }
    }
}
