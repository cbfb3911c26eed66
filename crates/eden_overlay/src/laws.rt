ghost use Rattle.eden_overlay.specs.Rescanning.{AccusedUnsound};
ghost use Rattle.eden_overlay.specs.Laws.{ContentsHeld, EntriesHeld, NumbersFromTwo, RootlessSound, StraysStay};
ghost use Rattle.eden_overlay.specs.Laws.{LiveStay, StateStays, ContentsStay, DroppedStay, DroppedUnnamed, AddedStay};
ghost use Rattle.eden_overlay.specs.Laws.{EnteredStay, RenamedStay, MovedStay};
ghost use Rattle.eden_overlay.specs.Laws.{NumbersHeld, OtherTreeHasNone, EntriesHaveNone, RootHasNumbers};

/// What a caller of `Overlay` needs to show that an overlay stays sound.
pub fn overlay_laws()
    ensures contents_held { ContentsHeld }
    ensures entries_held { EntriesHeld }
    ensures numbers_held { NumbersHeld }
    ensures other_tree { OtherTreeHasNone }
    ensures entries_have_none { EntriesHaveNone }
    ensures root_has_numbers { RootHasNumbers }
    ensures numbers { NumbersFromTwo }
    ensures rootless { RootlessSound }
    ensures strays { StraysStay }
    ensures live { LiveStay }
    ensures state { StateStays }
    ensures accused { AccusedUnsound }
    ensures contents { ContentsStay }
    ensures dropped { DroppedStay }
    ensures dropped_unnamed { DroppedUnnamed }
    ensures added { AddedStay }
    ensures entered { EnteredStay }
    ensures renamed { RenamedStay }
    ensures moved { MovedStay }
{}
