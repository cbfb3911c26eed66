ghost use Rattle.std.specs.Prelude.{◌≡◌, ◌∷◌, ◌++◌, [], ℕ, List, OnOk};

use eden_model::Name;
use std::alloc::{AllocError, Global};
use std::marker::Model;

/// The names from the root down to a directory. Contracts see the list of names.
#[derive(Drop)]
pub(crate) struct Trail {
    names: Vec<Name>,
}

impl Model for Trail {
    ghost use Rattle.std.specs.Prelude.{List, ℕ};

    ghost Value = { List (List ℕ) };

    ghost view = { λ t. t.names.items };
}

impl Trail {
    /// At the root.
    pub(crate) fn new(alloc: Global) -> Trail
        ensures { result ≡ [] }
    {
        Trail {
            names: Vec::new(alloc),
        }
    }

    /// The names.
    pub(crate) fn as_slice(&self) -> &[Name]
        ensures { result.now ≡ self.now }
    {
        self.names.as_slice()
    }

    /// One directory further down. After the only error, want of memory, it is where it was.
    pub(crate) fn enter(&mut self, alloc: Global, name: &Name) -> Result<(), AllocError>
        ensures { OnOk result (self.new ≡ self.old ++ name.now ∷ []) }
    {
        let name = name.copy(alloc)?;
        self.names.push(name)?;
        Ok(())
    }

    /// Back in the directory above.
    pub(crate) fn leave(&mut self)
        ensures { (front : List (List ℕ)) (name : List ℕ) → self.old ≡ front ++ name ∷ [] → self.new ≡ front }
    {
        self.names.pop();
    }
}
