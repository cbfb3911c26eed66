ghost use Rattle.eden_coupling.specs.NumberChanges.{ChangeGrafts, DropIsEdit, PutIsEdit, MoveIsEdit};
ghost use Rattle.eden_coupling.specs.NumberChanges.{BareSame, UnseenSame};
ghost use Rattle.eden_coupling.specs.NumberKept.{FreshKeeps, NextKeeps, StampsKeep, ObjectLoadKeeps};
ghost use Rattle.eden_coupling.specs.NumberKept.{SavedLoadKeeps, SavedLoadFrom, SavedLoadOver};
ghost use Rattle.eden_coupling.specs.NumberKept.{LoadedFilesKeep};
ghost use Rattle.eden_coupling.specs.NumberKept.{NotShownUnseen, FileUnseen, LoadedUnseen, OtherNotShown};
ghost use Rattle.eden_coupling.specs.NumberKept.{UnseenFileKeeps, ChainKeeps, RefusedKeeps, MarkKeeps};
ghost use Rattle.eden_coupling.specs.NumberKept.{DropKeeps, AddKeeps, ReplaceKeeps, MoveKeeps};
ghost use Rattle.eden_coupling.specs.NumberLoads.{ObjectLoadGains, SavedLoadSame, NamesAreShown, SavedAreUnnamed};
ghost use Rattle.eden_coupling.specs.NumberLoads.{SavedLoadKept};
ghost use Rattle.eden_coupling.specs.NumberNodes.{NumbersAreNodes};
ghost use Rattle.eden_coupling.specs.NumberSaves.{SaveUnseen, GoneSame, ManyGoneSame, OwnedSame, ChainSame};
ghost use Rattle.eden_coupling.specs.NumberSaves.{OtherFileTied, OtherFileKept, OtherFileAlike, SavedSameOver};
ghost use Rattle.eden_coupling.specs.NumberSaves.{GoneSameOver, BlankRises};
ghost use Rattle.eden_coupling.specs.NumberSaves.{BlankSaved, BlankStored};
ghost use Rattle.eden_coupling.specs.NumberSteps.{LeaveKeeps, LeftNotShown, ReplacedNotShown, ComeKeeps};
ghost use Rattle.eden_coupling.specs.NumberSteps.{OwnedKeeps, HoldKeeps};
ghost use Rattle.eden_coupling.specs.NumberUnloads.{PutAwayKeeps};
ghost use Rattle.eden_coupling.specs.Numberings.{NumbersOfEntries, NumbersFromEntry, EntryGrafts, NameGrafts};
ghost use Rattle.eden_coupling.specs.Numberings.{StampsUnseen};

/// The inode numbers that a table shows over stored files, path by path, and what a directory that is loaded does to
/// them.
///
/// What own directories that are loaded do is said over an outside that may be honest: so those are lemmas,
/// `own_load_same` and `empty_load_same` (`proofs/CallerLemmas`).
pub fn numbering_laws()
    ensures entries { NumbersOfEntries }
    ensures from_entry { NumbersFromEntry }
    ensures entry_grafts { EntryGrafts }
    ensures name_grafts { NameGrafts }
    ensures stamps { StampsUnseen }
    ensures nodes { NumbersAreNodes }
    ensures object_gains { ObjectLoadGains }
    ensures saved_same { SavedLoadSame }
    ensures names_shown { NamesAreShown }
    ensures saved_unnamed { SavedAreUnnamed }
    ensures saved_kept { SavedLoadKept }
{}

/// What storing, unloading and materialising do to the numbers that are shown, and what keeps a table over files in
/// which numbers are saved.
pub fn number_save_laws()
    ensures unseen { SaveUnseen }
    ensures gone { GoneSame }
    ensures many_gone { ManyGoneSame }
    ensures owned { OwnedSame }
    ensures chain { ChainSame }
    ensures other_tied { OtherFileTied }
    ensures other_kept { OtherFileKept }
    ensures other_alike { OtherFileAlike }
    ensures saved_over { SavedSameOver }
    ensures gone_over { GoneSameOver }
    ensures blank_rises { BlankRises }
    ensures blank_saved { BlankSaved }
    ensures blank_stored { BlankStored }
{}

/// What a change of the table does to the numbers that are shown: the same as its request.
pub fn number_change_laws()
    ensures grafts { ChangeGrafts }
    ensures drop { DropIsEdit }
    ensures put { PutIsEdit }
    ensures moves { MoveIsEdit }
    ensures bare { BareSame }
    ensures unseen { UnseenSame }
{}

/// What each step of a mount keeps of numbers: none is shown at two paths, all are below the next one, none is saved
/// under one that is yet to be given, and what is saved for a directory lists its tree object's entries.
///
/// What own directories that are loaded do, and loaded ones that go, is said over an outside that may be honest: those
/// are lemmas, `own_load_keeps`, `goes_away_keeps` and `unloads_away_keep` (`proofs/CallerLemmas`).
pub fn number_kept_laws()
    ensures fresh { FreshKeeps }
    ensures next { NextKeeps }
    ensures stamps { StampsKeep }
    ensures object_load { ObjectLoadKeeps }
    ensures saved_load { SavedLoadKeeps }
    ensures saved_from { SavedLoadFrom }
    ensures saved_over { SavedLoadOver }
    ensures loaded_files { LoadedFilesKeep }
    ensures not_shown { NotShownUnseen }
    ensures file_unseen { FileUnseen }
    ensures loaded_unseen { LoadedUnseen }
    ensures other_not_shown { OtherNotShown }
    ensures unseen_file { UnseenFileKeeps }
    ensures chain { ChainKeeps }
    ensures refused { RefusedKeeps }
    ensures mark { MarkKeeps }
    ensures drop { DropKeeps }
    ensures add { AddKeeps }
    ensures replace { ReplaceKeeps }
    ensures moves { MoveKeeps }
    ensures put_away { PutAwayKeeps }
    ensures leave { LeaveKeeps }
    ensures left { LeftNotShown }
    ensures replaced { ReplacedNotShown }
    ensures come { ComeKeeps }
    ensures owned { OwnedKeeps }
    ensures hold { HoldKeeps }
{}
