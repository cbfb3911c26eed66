//! What an entry is that was met.
ghost use Rattle.std.specs.Prelude.{◌≡◌, ◌≢◌, ◌⊎◌, true, false};
ghost use Rattle.eden_model.specs.declared.kind.Kind.TheVariants as kind;

use eden_inode::Seen;
use eden_model::Kind;

/// What the entry is: one that holds a loaded directory is a directory.
pub(crate) fn what(seen: Seen) -> Kind
    ensures dir { result ≡ kind.Dir → (seen.loaded ≡ true) ⊎ (seen.kind ≡ kind.Dir) }
    ensures other { result ≢ kind.Dir → (seen.loaded ≡ false) × (seen.kind ≡ result) }
{
    if seen.loaded {
        return Kind::Dir;
    }
    seen.kind
}
