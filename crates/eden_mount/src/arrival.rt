// What becomes of the bytes that came for a key.
ghost use Rattle.std.specs.Prelude.{◌≡◌, ℕ, List, OnOk, IfErr};
ghost use Rattle.eden_object.specs.Objects.{IsHonest, IsBodyOf};
ghost use Rattle.eden_mount.specs.Places.{LeadStill};
ghost use Rattle.eden_mount.specs.Steps.{IsUseless};
ghost use Rattle.eden_mount.specs.Tables.{KeepsBytes};

use crate::attempts::Attempts;
use eden_model::{Cause, Key, World};
use eden_object::Object;
use std::alloc::Global;

/// Keeps the object that came for a key, if the bytes are it. Else the cause that `check` names, or `Memory`.
pub(crate) fn keep<W: World, T: Attempts<W>>(
    alloc: Global,
    table: &mut T,
    key: Key,
    framed: Vec<u8>,
) -> Result<(), Cause>
    requires { W.honest → IsHonest W.repository key.id framed.items }
    ensures ok { OnOk result (KeepsBytes T.table table.old key framed.items table.new) }
    ensures err { IfErr result (λ x. IsUseless key framed.items x × (table.new ≡ table.old)) }
    ensures places { LeadStill T.leads table.old table.new }
{
    match Object::checked(alloc, key, framed) {
        Err(cause) => Err(cause),
        Ok(object) => match table.put(key, object) {
            Err(_) => Err(Cause::Memory),
            Ok(()) => Ok(()),
        },
    }
}
