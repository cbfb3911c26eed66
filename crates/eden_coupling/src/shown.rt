ghost use Rattle.eden_coupling.specs.ShownLaws.{ShowsFull, ShowsAway, ShowsFiles, LoadsAlike, ObjectLoadsAlike};
ghost use Rattle.eden_coupling.specs.ShownLaws.{StampsAlike, ChangesGraft, ShowsBelow, ShowsAbsent};

/// What a table shows, and what keeps that.
pub fn shown_laws()
    ensures full { ShowsFull }
    ensures away { ShowsAway }
    ensures files { ShowsFiles }
    ensures loads { LoadsAlike }
    ensures object_loads { ObjectLoadsAlike }
    ensures stamps { StampsAlike }
    ensures grafts { ChangesGraft }
    ensures below { ShowsBelow }
    ensures absent { ShowsAbsent }
{}
