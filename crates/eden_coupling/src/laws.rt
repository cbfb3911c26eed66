ghost use Rattle.eden_coupling.specs.Laws.{TiesSound, NumbersBelow, RowsNumbered, RowsOnce, GoesTied, StraysTied};
ghost use Rattle.eden_coupling.specs.Laws.{ChildrenTied, RootTied};
ghost use Rattle.eden_coupling.specs.Materialising.{MarkedIs, ChainSound, ChainTied};
ghost use Rattle.eden_coupling.specs.Changing.{ChangesTied, UnstoredTied, LeftOutTied, EntryTied, DropTied, MoveTied};
ghost use Rattle.eden_coupling.specs.Changing.{NewFileTied, MovesKept, NewEntryTied};

/// What ties a table to its files, and what keeps it tied.
pub fn tie_laws()
    ensures sound { TiesSound }
    ensures numbers_below { NumbersBelow }
    ensures rows_numbered { RowsNumbered }
    ensures rows_once { RowsOnce }
    ensures goes { GoesTied }
    ensures strays { StraysTied }
    ensures children { ChildrenTied }
    ensures root { RootTied }
    ensures marked { MarkedIs }
    ensures chain_sound { ChainSound }
    ensures chain { ChainTied }
    ensures changes { ChangesTied }
    ensures unstored { UnstoredTied }
    ensures left_out { LeftOutTied }
    ensures entry { EntryTied }
    ensures drops { DropTied }
    ensures moves { MoveTied }
    ensures new_file { NewFileTied }
    ensures moves_kept { MovesKept }
    ensures new_entry { NewEntryTied }
{}
