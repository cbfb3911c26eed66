// Objects of packs, through the deltas that they are made of.
ghost use Rattle.std.specs.Prelude.{◌≡◌, ◌≤◌, length, IfOk, IfErr};
ghost use Rattle.eden_object.specs.Frames.{longest_framed};
ghost use Rattle.eden_pack_format.specs.Causes.{IsReadingCause};
ghost use Rattle.eden_git.specs.Framing.{IsFramedObject};

use crate::bases::Base;
use crate::framing::frame;
use crate::pack::{Stream, Tools};
use crate::packs::{Packs, Spot, Told};
use eden_model::{Cause, Id};
use eden_pack_format::EntryKind;
use std::io::{Read, Seek};
use std::mem;

/// The longest chain of deltas, Git's own bound. A longer one, or one that comes back to itself, is refused.
const DEEPEST: usize = 4095;

/// An entry that is a delta: where it begins, and its stream.
#[derive(Clone, Copy)]
pub(crate) struct Step {
    spot: Spot,
    delta: Stream,
}

impl<F: Read + Seek + Drop> Packs<F> {
    /// The framed object whose entry begins there.
    pub(crate) fn framed_at(&mut self, tools: &mut Tools, spot: Spot) -> Result<Vec<u8>, Cause>
        ensures framed { IfOk result (λ v. IsFramedObject v.items) }
        ensures bounded { IfOk result (λ v. length v.items ≤ longest_framed) }
        ensures causes { IfErr result IsReadingCause }
    {
        let mut steps = Vec::new(tools.alloc);
        let root = self.root_of(tools, spot, &mut steps)?;
        let base = self.built(tools, &mut steps, root)?;
        let framed = frame(tools.alloc, base.word, &base.body);
        if base.is_base {
            tools.bases.keep(base);
        }
        framed
    }

    // The object that stands whole or is kept, to which the deltas from there lead, which are put on the row of steps.
    fn root_of(
        &mut self,
        tools: &mut Tools,
        start: Spot,
        steps: &mut Vec<Step>,
    ) -> Result<Base, Cause>
        ensures causes { IfErr result IsReadingCause }
    {
        let mut spot = start;
        for _ in 0..=DEEPEST {
            let Some(pack) = self.open.get_mut(spot.pack) else {
                return Err(Cause::Device);
            };
            if let Some(base) = tools.bases.take(pack.number(), spot.at) {
                return Ok(base);
            }
            let (kind, stream) = pack.entry_at(tools.alloc, spot.at)?;
            if let EntryKind::Whole(word) = kind {
                return pack.whole_at(tools, spot.at, word, stream);
            }
            steps.push(Step {
                spot,
                delta: stream,
            })?;
            spot = self.base_of(kind, spot)?;
        }
        Err(Cause::Device)
    }

    // Where the base of the delta there begins.
    fn base_of(&mut self, kind: EntryKind, spot: Spot) -> Result<Spot, Cause>
        ensures causes { IfErr result IsReadingCause }
    {
        match kind {
            EntryKind::Back(back) => Ok(Spot {
                pack: spot.pack,
                at: spot.at.checked_sub(back).ok_or(Cause::Device)?,
            }),
            EntryKind::Named(id) => self.base_named(id, spot.pack),
            EntryKind::Whole(_) => Err(Cause::Device),
        }
    }

    // Where the base of that id begins: in the same pack, or, if its own index doesn't say where, in the pack that the
    // multi-pack index names.
    fn base_named(&mut self, id: Id, pack: usize) -> Result<Spot, Cause>
        ensures causes { IfErr result IsReadingCause }
    {
        if let Some(at) = self.find_in(pack, id)? {
            return Ok(Spot { pack, at });
        }
        match self.told_by_multi(id)? {
            Told::There(spot) => Ok(spot),
            Told::Absent | Told::Nothing => Err(Cause::Device),
        }
    }

    // What the deltas make of the object, the last of them first. Each object that one is applied to is kept.
    fn built(&mut self, tools: &mut Tools, steps: &mut Vec<Step>, root: Base) -> Result<Base, Cause>
        ensures causes { IfErr result IsReadingCause }
    {
        let mut base = root;
        for _ in 0..=DEEPEST {
            let Some(step) = steps.pop() else {
                return Ok(base);
            };
            let Some(pack) = self.open.get_mut(step.spot.pack) else {
                return Err(Cause::Device);
            };
            let next = pack.next_of(tools, &base, step.spot.at, step.delta)?;
            tools.bases.keep(mem::replace(&mut base, next));
        }
        Err(Cause::Device)
    }
}
