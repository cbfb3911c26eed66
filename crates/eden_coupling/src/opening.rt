ghost use Rattle.eden_coupling.specs.NumberOpenings.{FoundShown, FoundBlank, FoundKeeps};
ghost use Rattle.eden_coupling.specs.NumberOpenings.{StateGoes, StateComes, OrphansGo};

/// What the files of an opening show of inode numbers, where a pass over them found these sound: each once, and all
/// below the next one. The state's file may be taken out and stored, and orphans may go.
pub fn opening_number_laws()
    ensures shown { FoundShown }
    ensures blank { FoundBlank }
    ensures keeps { FoundKeeps }
    ensures goes { StateGoes }
    ensures comes { StateComes }
    ensures orphans { OrphansGo }
{}
