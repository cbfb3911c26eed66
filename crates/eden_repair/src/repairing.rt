//! The repair of an overlay.
ghost use Rattle.std.specs.Prelude.{◌≡◌, ◌≤◌, ℕ, [], List, Err, IfErr, IfOk, IsTrue, OnOk};
ghost use Rattle.std.specs.Ordering.{nat_cmp};
ghost use Rattle.std.specs.BTreeSet.{contains, btree_set_len};
ghost use Rattle.eden_model.specs.Failures.{Counted};
ghost use Rattle.eden_model.specs.Limits.{number_end};
ghost use Rattle.eden_model.specs.Numbers.{IsNumber};
ghost use Rattle.eden_model.specs.Trees.{Name};
ghost use Rattle.eden_overlay.specs.Counting.{NumbersAreSound, root_from};
ghost use Rattle.eden_overlay.specs.Held.{root_file};
ghost use Rattle.eden_overlay.specs.Rescanning.{IsNextOf, IsRescanFault};
ghost use Rattle.eden_overlay.specs.Soundness.{AreSound};
ghost use Rattle.eden_overlay.specs.declared.files.FilesFault.TheVariants as fault;
ghost use Rattle.eden_repair.specs.Covering.{CantBeMended, CoversThen, IsWhole, NoneIsOwn};
ghost use Rattle.eden_repair.specs.Repairing.{Way, IsRepaired};
ghost use Rattle.eden_repair.specs.Surveying.{AreLed, AreMended, ForgetsThen, IsMended};

use crate::finding::Finding;
use crate::own::mend_own;
use crate::saved::mend_saved;
use crate::survey::Directory;
use eden_model::{Id, Origin, World};
use eden_overlay::{Files, FilesFault, Overlay, ROOT_NUMBER, RescanFault};
use eden_overlay_format::has_numbers;
use std::alloc::Global;
use std::collections::BTreeSet;

/// What a repair left.
#[derive(Drop)]
pub struct Repaired<F> {
    /// The files.
    pub files: F,
    /// What was taken out of them, in the order in which it was.
    pub found: Vec<Finding>,
    /// The next number, if a rescan takes the files now, or why it doesn't.
    pub outcome: Result<u64, RescanFault>,
}

/// Takes out of an overlay's files over that commit's tree what can't be had, and then looks at them as a rescan does.
///
/// An entry goes if its own file is missing or damaged, or if an entry that was met before has its number. First all
/// own directories are looked at, from the root down; then those on tree objects, whose numbers are forgotten if they
/// can't be read, or if one of them was met before. Each content is read, and once more by the rescan. The state, file
/// 0, isn't looked at.
///
/// The outcome is what the rescan says, or the fault of the device or of memory that ended the repair before; what was
/// found until then is told and done. A repair leaves nothing damaged below the root: but for these faults, a rescan
/// refuses only a root that can't be read, and files after which no number is left to give. Both are its `Damaged`, of
/// file 1.
pub fn repair<W: World, F: Files<W>>(alloc: Global, mut files: F, root: Id) -> Repaired<F>
    ensures repaired { W.honest → IsRepaired (F.stored files) root result.found.items (F.stored result.files) }
    ensures sound { W.honest → OnOk result.outcome (AreSound (F.stored result.files)) }
    ensures numbers { W.honest → OnOk result.outcome (NumbersAreSound (F.stored result.files) root) }
    ensures next { W.honest → IfOk result.outcome (IsNextOf (F.stored result.files) root) }
    ensures mended { W.honest → IfErr result.outcome (CantBeMended (F.stored result.files)) }
    ensures refused { IfErr result.outcome
        (IsRescanFault W.honest (F.stored result.files) root (F.failures files) (F.failures result.files)) }
    ensures counted { F.failures files ≤ F.failures result.files }
{
    let mut found = Vec::new(alloc);
    let walked = walk::<W, F>(alloc, &mut files, root, &mut found);
    if let Err(fault) = walked {
        return Repaired {
            files,
            found,
            outcome: Err(RescanFault::from(fault)),
        };
    }
    let mut overlay = Overlay::<W, F>::new(alloc, files);
    let outcome = overlay.rescan(alloc, root);
    Repaired {
        files: overlay.into_files(),
        found,
        outcome,
    }
}

// The root, as a directory that is to be looked at.
fn top<W: World, F: Files<W>>(
    alloc: Global,
    files: &mut F,
    root: Id,
) -> Result<Directory, FilesFault>
    ensures number { IfOk result (λ x. x.number ≡ 1) }
    ensures path { IfOk result (λ x. x.path.items ≡ []) }
    ensures from { W.honest
        → IfOk result (λ x. x.origin ≡ root_from root (root_file (F.stored files.old))) }
    ensures unchanged { W.honest → F.stored files.new ≡ F.stored files.old }
    ensures counted { Counted (result ≡ Err fault.Device) (F.failures files.old) (F.failures files.new) }
{
    let origin = match files.head(ROOT_NUMBER)? {
        Some(head) if !has_numbers(&head) => Origin::Own,
        _ => Origin::Object(root),
    };
    Ok(Directory {
        path: Vec::new(alloc),
        number: ROOT_NUMBER,
        origin,
    })
}

// Looks at the root, and at all that is below it.
fn walk<W: World, F: Files<W>>(
    alloc: Global,
    files: &mut F,
    root: Id,
    found: &mut Vec<Finding>,
) -> Result<(), FilesFault>
    requires { found.old.items ≡ [] }
    ensures repaired { W.honest → IsRepaired (F.stored files.old) root found.new.items (F.stored files.new) }
    ensures whole { W.honest → OnOk result (IsWhole (F.stored files.new) root) }
    ensures counted { Counted (result ≡ Err fault.Device) (F.failures files.old) (F.failures files.new) }
{
    let mut met = BTreeSet::new(alloc);
    let mut pending = Vec::new(alloc);
    pending.push(top(alloc, files, root)?)?;
    let saved = walk_own(alloc, files, &mut met, pending, found)?;
    walk_saved(alloc, files, &mut met, saved, found)
}

// Mends the own directories that are pending, and those below them. The directories on tree objects that were met.
fn walk_own<W: World, F: Files<W>>(
    alloc: Global,
    files: &mut F,
    met: &mut BTreeSet<u64>,
    mut pending: Vec<Directory>,
    found: &mut Vec<Finding>,
) -> Result<Vec<Directory>, FilesFault>
    requires met { met.old.keys ≡ [] }
    requires found { found.old.items ≡ [] }
    ensures mended { W.honest → (first : List Way)
        → AreLed first pending.items
        → IsMended (F.stored files.old) first found.new.items (F.stored files.new) [] }
    ensures led { W.honest → IfOk result (λ saved. (first : List Way)
        → AreLed first pending.items
        → AreMended (F.stored files.old) first found.new.items
        (F.stored files.new) (contains nat_cmp met.new) saved.items) }
    ensures covered { W.honest → IfOk result (λ saved. CoversThen
        pending.items (F.stored files.old) (contains nat_cmp met.old)
        saved.items (F.stored files.new) (contains nat_cmp met.new)) }
    ensures none_own { IfOk result (λ saved. NoneIsOwn saved.items) }
    ensures range { OnOk result ((k : ℕ) → IsTrue (contains nat_cmp met.new k) → IsNumber k) }
    ensures few { OnOk result (btree_set_len met.new ≤ number_end) }
    ensures counted { Counted (result ≡ Err fault.Device) (F.failures files.old) (F.failures files.new) }
{
    let mut seen = BTreeSet::new(alloc);
    let mut saved = Vec::new(alloc);
    while let Some(directory) = pending.pop() {
        match directory.origin {
            Origin::Own => {
                let mut below = mend_own(alloc, files, met, &mut seen, &directory, found)?;
                pending.append(&mut below)?;
            }
            Origin::Object(_) => saved.push(directory)?,
            Origin::Empty => {}
        }
    }
    Ok(saved)
}

// Looks at the numbers of the directories on tree objects that are pending, and of those below them.
fn walk_saved<W: World, F: Files<W>>(
    alloc: Global,
    files: &mut F,
    met: &mut BTreeSet<u64>,
    mut pending: Vec<Directory>,
    found: &mut Vec<Finding>,
) -> Result<(), FilesFault>
    requires met { (k : ℕ) → IsTrue (contains nat_cmp met.old k) → IsNumber k }
    requires none_own { NoneIsOwn pending.items }
    requires few { btree_set_len met.old ≤ number_end }
    ensures forgets { W.honest → ForgetsThen
        pending.items (F.stored files.old) (contains nat_cmp met.old) found.old.items
        (F.stored files.new) found.new.items }
    ensures covered { W.honest → OnOk result (CoversThen
        pending.items (F.stored files.old) (contains nat_cmp met.old)
        [] (F.stored files.new) (contains nat_cmp met.new)) }
    ensures counted { Counted (result ≡ Err fault.Device) (F.failures files.old) (F.failures files.new) }
{
    while let Some(directory) = pending.pop() {
        if let Origin::Object(tree) = directory.origin {
            let mut below = mend_saved(alloc, files, met, directory, tree, found)?;
            pending.append(&mut below)?;
        }
    }
    Ok(())
}
