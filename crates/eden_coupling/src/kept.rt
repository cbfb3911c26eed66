ghost use Rattle.eden_coupling.specs.KeptLaws.{StampsTable, ObjectLoadsTable, NextRises, StampsKept, ObjectLoadsKept};

/// What stamps, numbers that are given, and loads from tree objects keep of a table.
///
/// What the other loads and directories that go keep of it is said over an outside that may be honest: so those are
/// lemmas, `own_loads_kept`, `goes_kept`, `unloads_kept`, `tables_unload` and two of tables (`proofs/CallerLemmas`).
pub fn kept_laws()
    ensures stamps_table { StampsTable }
    ensures object_table { ObjectLoadsTable }
    ensures next { NextRises }
    ensures stamps { StampsKept }
    ensures object { ObjectLoadsKept }
{}
