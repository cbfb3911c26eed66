use eden_model::{Reply, Request};
use std::alloc::{AllocError, Global};

/// The entries of a mount in order, whether or not they are there when the program runs.
pub trait History: Drop {
    ghost use Rattle.std.specs.Prelude.{◌≡◌, ◌+◌, ◌<◌, ◌≤◌, ◌++◌, ◌∷◌, [], ℕ, Bool, List, length, OnOk};
    ghost use Rattle.eden_model.specs.declared.entry.Entry.{Entry};
    ghost use Rattle.eden_model.specs.Histories.{entry};
    ghost use Rattle.eden_history.specs.Telling.{Tells};

    /// The entries.
    ghost entries: { Self → List Entry };

    /// How many there may be.
    ghost limit: { Self → ℕ };

    /// How many there may be without more memory.
    ghost room: { Self → ℕ };

    /// Whether a reply is copied to be kept, for which there may be no memory.
    ghost copies: { Bool };

    /// How many entries there are.
    fn len(&self) -> u64
        ensures { result ≡ length (entries self.now) };

    /// How many there may be.
    fn limit(&self) -> u64
        ensures { result ≡ limit self.now };

    /// Makes room for so many more. The only error is want of memory.
    fn reserve(&mut self, more: usize) -> Result<(), AllocError>
        requires { length (entries self.old) + more ≤ limit self.old }
        ensures entries { entries self.new ≡ entries self.old }
        ensures limit { limit self.new ≡ limit self.old }
        ensures room { room self.old ≤ room self.new }
        ensures ok { OnOk result (length (entries self.old) + more ≤ room self.new) };

    /// A pass is told what was found for its request, and the entry is the last. The reply that it is told comes back.
    fn tell(&mut self, alloc: Global, pass: u32, request: Request, found: Reply) -> Reply
        requires { length (entries self.old) < room self.old }
        ensures entries { entries self.new ≡ entries self.old ++ entry pass request result ∷ [] }
        ensures limit { limit self.new ≡ limit self.old }
        ensures room { room self.new ≡ room self.old }
        ensures told { Tells copies found result };
}
