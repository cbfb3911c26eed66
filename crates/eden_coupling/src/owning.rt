ghost use Rattle.eden_coupling.specs.ChainLaws.{OwnedTable, OwnedStays, OwnedMarks, OwnedKept, OwnedAlike, RefusedKept};
ghost use Rattle.eden_coupling.specs.ChainLaws.{RefusedAlike};
ghost use Rattle.eden_coupling.specs.Loose.{LooseSound, LooseKept, LooseAlike};
ghost use Rattle.eden_coupling.specs.Standing.{DropStorable, EntryStorable};

/// What a chain of directories that becomes the mount's own keeps of a table, and what is shown then; which listings
/// can be stored, and which files nothing has as its own.
///
/// What may stand under a name of a loaded directory is said over an outside that may be honest: so what that keeps and
/// shows are lemmas, `stands_table`, `stands_kept`, `stands_grafts` and two more, and so is that the file of what was
/// left out may be taken out, `removed_sound` and two more (`proofs/CallerLemmas`).
pub fn chain_laws()
    ensures table { OwnedTable }
    ensures stays { OwnedStays }
    ensures marks { OwnedMarks }
    ensures kept { OwnedKept }
    ensures alike { OwnedAlike }
    ensures refused_kept { RefusedKept }
    ensures refused_alike { RefusedAlike }
    ensures drop_storable { DropStorable }
    ensures entry_storable { EntryStorable }
    ensures loose_sound { LooseSound }
    ensures loose_kept { LooseKept }
    ensures loose_alike { LooseAlike }
{}
