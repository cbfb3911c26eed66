use eden_model::{Id, Mode, TreeEntry};

/// An entry of a tree, where it lies in the tree's body.
#[derive(Clone, Copy)]
pub(crate) struct Row<'a> {
    pub(crate) mode: Mode,
    pub(crate) name: &'a [u8],
    pub(crate) id: Id,
}

impl<'a> Row<'a> {
    ghost use Rattle.std.specs.Prelude.{◌≡◌, None};
    ghost use Rattle.eden_model.specs.Names.{name_refusal};
    ghost use Rattle.eden_object.specs.Rows.{entry_of};

    /// The entry, lent.
    pub(crate) fn of(entry: &'a TreeEntry) -> Row<'a>
        ensures entry { entry_of result ≡ entry.now }
        ensures named { name_refusal entry.now.name ≡ None }
    {
        Row {
            mode: entry.mode,
            name: entry.name.as_slice(),
            id: entry.id,
        }
    }
}
