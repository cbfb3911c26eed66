ghost use Rattle.eden_import.specs.Laws.{HasIsContains, EachStandsOnce, FewAreQueued, QueuedAreWanted, WantedStand};
ghost use Rattle.eden_import.specs.Laws.{OneWants, OneLeaves, OneAwaits, OneQuits, AllAreMet, WantersAreMarked};
ghost use Rattle.eden_import.specs.Laws.{OneForgets, MarksStay, WantsStay};
ghost use Rattle.eden_import.specs.Laws.{OneIsTaken, OneLands, PassesKeepFlight, ForgettingKeeps};

/// What follows from the queue's definitions: what every queue keeps, and what each call does to the want and the mark
/// of each pass and to the flight.
pub fn queue_laws()
    ensures has { HasIsContains }

    ensures once { EachStandsOnce }
    ensures few { FewAreQueued }
    ensures wanted { QueuedAreWanted }
    ensures awaited { WantedStand }

    ensures wants { OneWants }
    ensures leaves { OneLeaves }
    ensures awaits { OneAwaits }
    ensures quits { OneQuits }
    ensures met { AllAreMet }
    ensures marked { WantersAreMarked }
    ensures forgets { OneForgets }
    ensures marks { MarksStay }
    ensures others { WantsStay }

    ensures taken { OneIsTaken }
    ensures lands { OneLands }
    ensures flight { PassesKeepFlight }
    ensures forgetting { ForgettingKeeps }
{}
