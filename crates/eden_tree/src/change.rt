ghost use Rattle.std.specs.Prelude.{◌≡◌, IfSome, IfNone, None, Some};
ghost use Rattle.eden_tree.specs.Directory.{Row};
ghost use Rattle.eden_tree.specs.Paths.{row_at};
ghost use Rattle.eden_tree.specs.Changes.{IsChanged};

use crate::dir::Entry;
use eden_model::Name;
use std::alloc::Allocator;

/// What is done to the entry at the end of a path, and to a state beside the tree.
pub trait Change<A: Allocator, S> {
    type Output;

    /// It may be done to a state and an entry.
    ghost may: { Self → S → Row → Type 0 };

    /// It makes of a state and an entry these, with this answer.
    ghost does: { Self → S → Row → S → Row → Self.Output → Type 0 };

    fn change(self, state: &mut S, entry: &mut Entry<A>) -> Self::Output
        requires { may self state.old entry.old }
        ensures { does self state.old entry.old state.new entry.new result };
}

impl<A: Allocator> Entry<A> {
    /// Changes the entry at a path from this one on, through loaded directories: one look-up for each name.
    ///
    /// None where no entry is there; nothing has changed then.
    pub fn change_at<S, C: Change<A, S> + Drop>(
        &mut self,
        path: &[Name],
        state: &mut S,
        change: C,
    ) -> Option<C::Output>
        requires { IfSome (row_at path.now self.old) (C.may change state.old) }
        ensures none { IfNone result (row_at path.now self.old ≡ None) }
        ensures kept { IfNone result (self.new ≡ self.old) }
        ensures state { IfNone result (state.new ≡ state.old) }
        ensures some { IfSome result (IsChanged (C.does change state.old) path.now self.old self.new state.new) }
    {
        match path.split_first() {
            None => return Some(change.change(state, self)),
            Some((name, rest)) => match &mut self.child {
                None => return None,
                Some(child) => match child.get_mut(name) {
                    None => return None,
                    Some(entry) => return entry.change_at(rest, state, change),
                },
            },
        }
    }
}
