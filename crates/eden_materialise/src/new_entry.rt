ghost use Rattle.std.specs.Prelude.{◌≡◌, Err, OnOk, OnErr};
ghost use Rattle.eden_model.specs.Failures.{Counted};
ghost use Rattle.eden_overlay.specs.Soundness.{AreSound};
ghost use Rattle.eden_overlay.specs.declared.files.FilesFault.TheVariants as files;
ghost use Rattle.eden_materialise.specs.Filing.{kind_as, with_own, own_row, IsShort};

use eden_model::{Kind, Origin, World};
use eden_overlay::{Files, FilesFault, Overlay};
use eden_overlay_format::{Listing, Spliced};
use eden_tree::Entry;
use std::alloc::{Allocator, Global};

/// What a new entry is, with all that it has.
#[derive(Clone, Copy)]
pub enum NewEntry<'a> {
    /// A file: whether it is executable, and its content of at most 2^30 bytes.
    File(bool, &'a [u8]),
    /// A link, and its target of at most 2^30 bytes.
    Link(&'a [u8]),
    /// A directory without entries.
    Dir,
}

/// What the entry is.
fn kind_of(new: NewEntry<'_>) -> Kind
    ensures { result ≡ kind_as new.entry }
{
    match new {
        NewEntry::File(true, _) => Kind::Exec,
        NewEntry::File(false, _) => Kind::File,
        NewEntry::Link(_) => Kind::Link,
        NewEntry::Dir => Kind::Dir,
    }
}

/// The new entry of that number, as the mount's own.
pub(crate) fn own_entry<A: Allocator>(number: u64, new: NewEntry<'_>) -> Entry<A>
    ensures { result ≡ own_row number new.entry }
{
    Entry {
        number,
        kind: kind_of(new),
        origin: Origin::Own,
        child: None,
    }
}

/// Stores the own file of a new entry. After an error nothing has changed.
pub(crate) fn store_own<W: World, F: Files<W>>(
    alloc: Global,
    overlay: &mut Overlay<W, F>,
    number: u64,
    new: NewEntry<'_>,
) -> Result<(), FilesFault>
    requires short { IsShort new }
    requires sound { W.honest → AreSound (with_own (F.stored overlay.old) number new) }
    ensures ok { W.honest → OnOk result (F.stored overlay.new ≡ with_own (F.stored overlay.old) number new.entry) }
    ensures err { W.honest → OnErr result (F.stored overlay.new ≡ F.stored overlay.old) }
    ensures counted { Counted (result ≡ Err files.Device) (F.failures overlay.old) (F.failures overlay.new) }
{
    match new {
        NewEntry::File(_, content) => overlay.put_file(alloc, number, Spliced::whole(content)),
        NewEntry::Link(target) => overlay.put_file(alloc, number, Spliced::whole(target)),
        NewEntry::Dir => {
            let none = Listing::new(overlay.room(alloc), 0)?;
            overlay.put_listing(alloc, number, none)
        }
    }
}
