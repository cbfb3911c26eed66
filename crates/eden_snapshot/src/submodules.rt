use eden_model::{Cause, Id, Name, World};
use std::alloc::Global;

/// The submodules of a commit.
pub trait Submodules<W: World> {
    ghost use Rattle.std.specs.Prelude.{◌≡◌, Option, IfOk};
    ghost use Rattle.eden_model.specs.declared.id.Id.{Id};
    ghost use Rattle.eden_model.specs.Trees.{Path};

    /// The ids of the submodules' commits, by their paths.
    ghost known: { Self → Path → Option Id };

    /// The id of the commit of the submodule at that path, or None where the commit has none there. The cause is that
    /// of an object that was asked for and didn't come.
    ///
    /// What is found is promised where the World is honest.
    fn at(&mut self, alloc: Global, path: &[Name]) -> Result<Option<Id>, Cause>
        ensures found { W.honest → IfOk result (λ id. id ≡ known self.old path.now) }
        ensures same { W.honest → known self.new ≡ known self.old };
}

/// No submodules: each that is shown is left out.
#[derive(Drop)]
pub struct NoSubmodules;

impl<W: World> Submodules<W> for NoSubmodules {
    ghost use Rattle.std.specs.Prelude.{None};

    ghost known = { λ _ path. None };

    fn at(&mut self, _alloc: Global, _path: &[Name]) -> Result<Option<Id>, Cause> {
        Ok(None)
    }
}
