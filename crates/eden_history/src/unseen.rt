// A value that contracts alone see, and how it changes.
ghost use Rattle.std.specs.Prelude.{◌≡◌};

use std::snapshot::Snapshot;

/// What the value is after a change, by what its holder shows and what it was.
pub(crate) trait Changes<X, V> {
    ghost after: { X → V → V };
}

/// The value is the next one. It has no bytes, so nothing is done: what is shown is for the contract.
pub(crate) fn change<X, V, M: Changes<X, V>>(unseen: &mut Snapshot<V>, about: &X)
    ensures { unseen.new.value ≡ M.after about.now unseen.old.value }
{}
