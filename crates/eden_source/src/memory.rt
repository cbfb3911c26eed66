ghost use Rattle.std.specs.Prelude.{◌≡◌, [], OnOk, OnErr};
ghost use Rattle.std.specs.Option.{option_copied, option_map};
ghost use Rattle.eden_object.specs.Objects.{IsHonest};
ghost use Rattle.eden_source.specs.Fetching.{answer_of};
ghost use Rattle.eden_source.specs.InMemory.{AnswersWith, Puts};

use crate::source::Source;
use eden_model::{Cause, Id, World};
use std::alloc::{AllocError, Global};
use std::collections::BTreeMap;
use std::marker::{Model, PhantomData};

/// Framed objects in memory, by their ids.
///
/// Contracts see the list of ids and bytes, in the ids' order. Where the World isn't honest, any bytes may stand under
/// any id: so a test has a source that lies.
#[derive(Drop)]
pub struct MemorySource<W: World> {
    objects: BTreeMap<Id, Vec<u8>>,
    world: PhantomData<W>,
}

impl<W: World> Model for MemorySource<W> {
    ghost use Rattle.std.specs.Prelude.{ℕ, List};
    ghost use Rattle.eden_model.specs.declared.id.Id.{Id};
    ghost use Rattle.eden_source.specs.InMemory.{objects_of, HoldsHonest};

    ghost Value = { List (Id × List ℕ) };

    ghost view = { λ s. objects_of s.objects.entries };

    ghost invariant = { λ s. W.honest → HoldsHonest W.repository (objects_of s.objects.entries) };
}

impl<W: World> MemorySource<W> {
    /// No objects.
    pub fn new(alloc: Global) -> Self
        ensures { result ≡ [] }
    {
        MemorySource {
            objects: BTreeMap::new(alloc),
            world: PhantomData,
        }
    }

    /// Puts the framed bytes under the id, in place of any that were there. After the only error, want of memory,
    /// nothing has changed.
    pub fn insert(&mut self, id: Id, framed: Vec<u8>) -> Result<(), AllocError>
        requires { W.honest → IsHonest W.repository id framed.items }
        ensures ok { OnOk result (Puts self.old self.new id framed.items) }
        ensures err { OnErr result (self.new ≡ self.old) }
    {
        self.objects.insert(id, framed)?;
        Ok(())
    }
}

impl<W: World> Source<W> for MemorySource<W> {
    ghost use Rattle.eden_source.specs.InMemory.{FetchedFromMemory};

    ghost fetched = { FetchedFromMemory };

    ghost failures = { λ _. 0 };

    fn failures(&self) -> u64 {
        0
    }

    fn fetch(&mut self, alloc: Global, id: Id) -> Result<Vec<u8>, Cause> {
        copied(alloc, self.objects.get(&id))
    }
}

// A copy of the bytes, if there are any.
fn copied(alloc: Global, framed: Option<&Vec<u8>>) -> Result<Vec<u8>, Cause>
    ensures { AnswersWith (option_map (λ v. v.items) (option_copied framed.entry)) (answer_of result) }
{
    let framed = framed.ok_or(Cause::Missing)?;
    Vec::from_slice(alloc, framed.as_slice()).map_err(|_| Cause::Memory)
}
