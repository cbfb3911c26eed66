ghost use Rattle.eden_tree.specs.Laws.{PutsOne, DropsOne, ChangesOne, ReadsOn, EditsOn, EditsThere, EditsNotBeside};
ghost use Rattle.eden_tree.specs.Laws.{EditsOne, EditsNothing, EditsSame, EditsTwice};
ghost use Rattle.eden_tree.specs.Laws.{PutsUndone, DropsUndone, SetsUndone, Splits, PutsBetween, EditsAlike};
ghost use Rattle.eden_tree.specs.Laws.{PutsAt, DropsAt, StampsAlong, HoldsWhatWasPut, PutsBackChild, StepsDown};
ghost use Rattle.eden_tree.specs.Laws.{StepsBack};

/// What the equations of a directory's calls say path by path: one entry changes, and every other path is as before.
///
/// The last four are the steps of a caller that goes down by `get_mut` or `at_mut` to change what is far below.
pub fn directory_laws()
    ensures puts { PutsOne }
    ensures drops { DropsOne }
    ensures changes { ChangesOne }
    ensures puts_undone { PutsUndone }
    ensures drops_undone { DropsUndone }
    ensures sets_undone { SetsUndone }
    ensures splits { Splits }
    ensures between { PutsBetween }

    ensures reads_on { ReadsOn }
    ensures edits_on { EditsOn }
    ensures edits_there { EditsThere }
    ensures not_beside { EditsNotBeside }
    ensures edits_one { EditsOne }
    ensures edits_nothing { EditsNothing }
    ensures edits_same { EditsSame }
    ensures edits_alike { EditsAlike }
    ensures edits_twice { EditsTwice }
    ensures puts_at { PutsAt }
    ensures drops_at { DropsAt }
    ensures stamps { StampsAlong }

    ensures holds { HoldsWhatWasPut }
    ensures same_child { PutsBackChild }
    ensures steps_down { StepsDown }
    ensures steps_back { StepsBack }
{}
