ghost use Rattle.std.specs.Prelude.{◌≡◌, IfOk};

use crate::left_out::LeftOut;
use crate::sink::Sink;
use eden_model::{Name, World};
use eden_overlay::FilesFault;
use std::alloc::{AllocError, Global};
use std::marker::Model;

/// Objects and omissions in memory. Its one error is want of memory. Contracts see both, in the order in which they
/// came.
#[derive(Drop)]
pub struct MemorySink {
    objects: Vec<Vec<u8>>,
    omissions: Vec<(Vec<Name>, LeftOut)>,
}

impl Model for MemorySink {
    ghost use Rattle.std.specs.Prelude.{map};
    ghost use Rattle.eden_snapshot.specs.Sinks.{Filled};

    ghost Value = { Filled };

    ghost view = { λ s. record {
      kept = map (λ v. v.items) s.objects.items;
      told = map (λ o. (o.0.items, o.1)) s.omissions.items;
    } };
}

impl MemorySink {
    ghost use Rattle.std.specs.Prelude.{◌≡◌, [], map};

    /// Nothing yet.
    pub fn new(alloc: Global) -> MemorySink
        ensures { result ≡ record { kept = []; told = [] } }
    {
        MemorySink {
            objects: Vec::new(alloc),
            omissions: Vec::new(alloc),
        }
    }

    /// The framed objects.
    pub fn objects(&self) -> &[Vec<u8>]
        ensures { map (λ v. v.items) result.now ≡ self.now.kept }
    {
        self.objects.as_slice()
    }

    /// The paths of the directories that were left out, and why.
    pub fn omissions(&self) -> &[(Vec<Name>, LeftOut)]
        ensures { map (λ o. (o.0.items, o.1)) result.now ≡ self.now.told }
    {
        self.omissions.as_slice()
    }
}

impl<W: World> Sink<W> for MemorySink {
    ghost filled = { λ s. s };

    ghost failures = { λ _. 0 };

    fn put(&mut self, alloc: Global, framed: &[u8]) -> Result<(), FilesFault> {
        let framed = Vec::from_slice(alloc, framed)?;
        self.objects.push(framed)?;
        Ok(())
    }

    fn leave_out(&mut self, alloc: Global, path: &[Name], why: LeftOut) -> Result<(), FilesFault> {
        let path = copied(alloc, path)?;
        self.omissions.push((path, why))?;
        Ok(())
    }
}

// A copy of the names.
fn copied(alloc: Global, path: &[Name]) -> Result<Vec<Name>, AllocError>
    ensures { IfOk result (λ names. names.items ≡ path.now) }
{
    let mut names = Vec::new(alloc);
    'names: for name in path {
        names.push(name.copy(alloc)?)?;
    }
    Ok(names)
}
