use eden_model::{Cause, Id, World};
use std::alloc::Global;

/// Framed objects by their ids.
pub trait Source<W: World> {
    ghost use Rattle.std.specs.Prelude.{◌≡◌, ℕ, List, Result, Err, IfOk, IfErr};
    ghost use Rattle.eden_model.specs.declared.id.Id.{Id};
    ghost use Rattle.eden_model.specs.declared.fault.Cause.{Cause};
    ghost use Rattle.eden_object.specs.Objects.{IsHonest};
    ghost use Rattle.eden_model.specs.Failures.{Counted};
    ghost use Rattle.eden_source.specs.Fetching.{answer_of, IsSourceCause};

    /// The source was as the first says, was asked for the id and answered so, which left it as the last says.
    ghost fetched: { Self → Id → Result (List ℕ) Cause → Self → Type 0 };

    /// How often the device failed.
    ghost failures: { Self → ℕ };

    /// How often the device failed, up to 2^64 - 1.
    fn failures(&self) -> u64
        ensures { result ≡ failures self.now };

    /// The framed bytes of the object with that id, or why there are none: `Missing`, where the source has no such
    /// object; `Device`, where it failed, which is counted; `TooLarge`, over 2^30 + 16 bytes; `Memory`, where the bytes
    /// find none.
    ///
    /// Where the World is honest, bytes whose SHA-1 is the id are the repository's object; any other bytes may come.
    fn fetch(&mut self, alloc: Global, id: Id) -> Result<Vec<u8>, Cause>
        ensures asked { fetched self.old id (answer_of result) self.new }
        ensures honest { W.honest → IfOk result (λ v. IsHonest W.repository id v.items) }
        ensures counted { Counted (result ≡ Err Cause.Device) (failures self.old) (failures self.new) }
        ensures causes { IfErr result IsSourceCause };
}
