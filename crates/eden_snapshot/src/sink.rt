use crate::left_out::LeftOut;
use eden_model::{Name, World};
use eden_overlay::FilesFault;
use std::alloc::Global;

/// Where framed objects go, and what is left out is told.
///
/// That it has what it was given is promised where the World is honest. Each answer `Device` raises the count of
/// failures, and no other answer touches it.
pub trait Sink<W: World> {
    ghost use Rattle.std.specs.Prelude.{◌≡◌, ℕ, Err, OnOk, OnErr};
    ghost use Rattle.eden_model.specs.Failures.{Counted};
    ghost use Rattle.eden_snapshot.specs.Sinks.{Filled, with_object, with_omission};
    ghost use Rattle.eden_overlay.specs.declared.files.FilesFault.TheVariants.{Device};

    /// The objects that it kept and the omissions that it was told, in the order in which they came.
    ghost filled: { Self → Filled };

    /// How often its device failed.
    ghost failures: { Self → ℕ };

    /// Takes a framed object.
    fn put(&mut self, alloc: Global, framed: &[u8]) -> Result<(), FilesFault>
        ensures ok { W.honest → OnOk result (filled self.new ≡ with_object (filled self.old) framed.now) }
        ensures err { W.honest → OnErr result (filled self.new ≡ filled self.old) }
        ensures counted { Counted (result ≡ Err Device) (failures self.old) (failures self.new) };

    /// Is told that the tree has no entry of the directory at that path, and why.
    fn leave_out(&mut self, alloc: Global, path: &[Name], why: LeftOut) -> Result<(), FilesFault>
        ensures ok { W.honest → OnOk result (filled self.new ≡ with_omission (filled self.old) path.now why) }
        ensures err { W.honest → OnErr result (filled self.new ≡ filled self.old) }
        ensures counted { Counted (result ≡ Err Device) (failures self.old) (failures self.new) };
}
