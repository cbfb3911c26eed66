ghost use Rattle.eden_model.specs.NumberLaws.{StatGives, StatKeepsOthers, StatTellsGiven, RenameMovesNumbers};
ghost use Rattle.eden_model.specs.NumberLaws.{RenameLeavesNoNumber, RenameKeepsNumbers, UnlinkTakesNumber};
ghost use Rattle.eden_model.specs.NumberLaws.{RmdirTakesNumber, NewHasNoNumber, ErrorsKeepNumbers, FaultsKeepNumbers};
ghost use Rattle.eden_model.specs.NumberLaws.{SpentStays, AfterAreNumbers, ReplayAreNumbers, GoneForGood};
ghost use Rattle.eden_model.specs.NumberLaws.{ShownIsAllowed, OpeningIsBacked, ReopeningKeeps, SameIsGained};
ghost use Rattle.eden_model.specs.NumberLaws.{NextIsGained, GainsMore, GainsAreShown, GainsAreBacked, StatIsBacked};
ghost use Rattle.eden_model.specs.NumberLaws.{ChangeIsBacked, AnswerIsAllowed, AnswerIsBacked};

/// The laws of inode numbers: what each request does to them, and what every legal history keeps.
pub fn number_laws()
    ensures stat_gives { StatGives }
    ensures stat_keeps { StatKeepsOthers }
    ensures stat_tells_given { StatTellsGiven }
    ensures rename_moves { RenameMovesNumbers }
    ensures rename_leaves_none { RenameLeavesNoNumber }
    ensures rename_keeps { RenameKeepsNumbers }
    ensures unlink_takes { UnlinkTakesNumber }
    ensures rmdir_takes { RmdirTakesNumber }
    ensures new_has_none { NewHasNoNumber }
    ensures errors_keep { ErrorsKeepNumbers }
    ensures faults_keep { FaultsKeepNumbers }
    ensures spent_stays { SpentStays }
    ensures after { AfterAreNumbers }
    ensures replay { ReplayAreNumbers }
    ensures gone_for_good { GoneForGood }
{}

/// What a mount that tells the numbers it shows has to keep, so that each may be told.
pub fn backing_laws()
    ensures shown_is_allowed { ShownIsAllowed }
    ensures opening_is_backed { OpeningIsBacked }
    ensures reopening_keeps { ReopeningKeeps }
    ensures same_is_gained { SameIsGained }
    ensures next_is_gained { NextIsGained }
    ensures gains_more { GainsMore }
    ensures gains_are_shown { GainsAreShown }
    ensures gains_are_backed { GainsAreBacked }
    ensures stat_is_backed { StatIsBacked }
    ensures change_is_backed { ChangeIsBacked }
    ensures answer_is_allowed { AnswerIsAllowed }
    ensures answer_is_backed { AnswerIsBacked }
{}
