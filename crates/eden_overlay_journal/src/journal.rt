use eden_model::{Obstacle, World};
use eden_overlay::FilesFault;
use eden_overlay_format::Head;
use std::alloc::Global;

/// What has become of files, by their numbers, since they were stored elsewhere.
///
/// What it says is promised where the World is honest. After an error nothing has changed.
pub trait Journal<W: World>: Drop {
    ghost use Rattle.std.specs.Prelude.{◌≡◌, ◌≢◌, true, false, None, Some, Ok, IfOk, IfErr, IsSome, OnOk, OnErr};
    ghost use Rattle.eden_overlay_format.specs.Stored.{stored_as};
    ghost use Rattle.eden_overlay_format.specs.declared.header.Identifier.TheVariants as identifier;
    ghost use Rattle.eden_overlay.specs.declared.files.FilesFault.TheVariants.{Device};
    ghost use Rattle.eden_overlay_journal.specs.Changes.{Changes, IsHeadIn, ListsChanges, change_of, noted, unchanged};

    /// What it says of each number.
    ghost changes: { Self → Changes };

    /// Whether it has so much that it is to be emptied.
    fn is_full(&self) -> bool;

    /// What kept the device from noting the last change; None where it noted it, or didn't say. Contracts promise
    /// nothing of it.
    fn obstacle(&self) -> Option<Obstacle>;

    /// It could not be emptied, and is full again once as much more was noted.
    fn put_off(&mut self)
        ensures { W.honest → changes self.new ≡ changes self.old };

    /// The file of that number: its bytes, or that it was removed; None where nothing is said of it.
    fn read(&mut self, alloc: Global, number: u64) -> Result<Option<Option<Vec<u8>>>, FilesFault>
        ensures found { W.honest → IfOk result (λ o. change_of o ≡ changes self.old number) }
        ensures unchanged { W.honest → changes self.new ≡ changes self.old };

    /// The head of the file of that number, or that it was removed; None where nothing is said of it. Its one error is
    /// the device's.
    fn head(&mut self, number: u64) -> Result<Option<Option<Head>>, FilesFault>
        ensures found { W.honest → IfOk result (IsHeadIn (changes self.old number)) }
        ensures unchanged { W.honest → changes self.new ≡ changes self.old }
        ensures fault { IfErr result (λ f. f ≡ Device) };

    /// Notes that the file of that number has these bytes.
    fn store(&mut self, alloc: Global, number: u64, bytes: &[u8]) -> Result<(), FilesFault>
        ensures ok { W.honest → OnOk result
            (changes self.new ≡ noted (changes self.old) number (Some (Some bytes.now))) }
        ensures err { W.honest → OnErr result (changes self.new ≡ changes self.old) };

    /// Notes that the file of that number is a directory's with that body, behind its header.
    fn store_directory(&mut self, alloc: Global, number: u64, body: &[u8]) -> Result<(), FilesFault>
        ensures ok { W.honest → OnOk result (changes self.new
            ≡ noted (changes self.old) number (Some (Some (stored_as identifier.Directory body.now)))) }
        ensures err { W.honest → OnErr result (changes self.new ≡ changes self.old) };

    /// Notes that there is no file of that number. It answers false where it has no room in memory to say so: then it
    /// said nothing of the number and still does, and whoever asked removes the file itself. Its one error is the
    /// device's.
    fn remove(&mut self, number: u64) -> Result<bool, FilesFault>
        ensures noted { W.honest → result ≡ Ok true
            → changes self.new ≡ noted (changes self.old) number (Some None) }
        ensures no_room { W.honest → result ≡ Ok false → changes self.old number ≡ None }
        ensures same { W.honest → result ≢ Ok true → changes self.new ≡ changes self.old }
        ensures fault { IfErr result (λ f. f ≡ Device) };

    /// Says nothing of that number any more: its file was changed elsewhere. It takes no memory: its one error is the
    /// device's, and comes only where something is said of the number.
    fn pass(&mut self, number: u64) -> Result<(), FilesFault>
        ensures ok { W.honest → OnOk result (changes self.new ≡ noted (changes self.old) number None) }
        ensures err { W.honest → OnErr result (changes self.new ≡ changes self.old) }
        ensures said { W.honest → OnErr result (IsSome (changes self.old number)) }
        ensures fault { IfErr result (λ f. f ≡ Device) };

    /// Waits until a loss of power would take nothing of the journal, as far as it is kept where it could. Its one
    /// error is the device's: then that isn't known, and nothing has changed.
    fn settle(&mut self) -> Result<(), FilesFault>
        ensures unchanged { W.honest → changes self.new ≡ changes self.old }
        ensures fault { IfErr result (λ f. f ≡ Device) };

    /// Waits until a loss of power would take no name of the folder in which it lies, as far as it lies in one,
    /// whatever failed before. Its one error is the device's.
    fn settle_names(&mut self) -> Result<(), FilesFault>
        ensures unchanged { W.honest → changes self.new ≡ changes self.old }
        ensures fault { IfErr result (λ f. f ≡ Device) };

    /// Gives the file of that number, which was stored elsewhere as it says, the time of that change, where it can.
    fn date(&mut self, number: u64)
        ensures { W.honest → changes self.new ≡ changes self.old };

    /// The numbers of which it says something.
    fn numbers(&mut self, alloc: Global) -> Result<Vec<u64>, FilesFault>
        ensures all { W.honest → IfOk result (λ v. ListsChanges v.items (changes self.old)) }
        ensures unchanged { W.honest → changes self.new ≡ changes self.old };

    /// Says nothing of any number any more.
    fn empty(&mut self) -> Result<(), FilesFault>
        ensures ok { W.honest → OnOk result (changes self.new ≡ unchanged) }
        ensures err { W.honest → OnErr result (changes self.new ≡ changes self.old) };
}
