ghost use Rattle.eden_coupling.specs.Filing.{ContentShows, FileShows, EmptyShows, LooseElsewhere, EntryElsewhere};
ghost use Rattle.eden_coupling.specs.Filing.{ContentSound, ContentKept, ContentGrafts};

/// What the own file of an entry shows, and what is kept while it is stored.
pub fn file_laws()
    ensures content { ContentShows }
    ensures file { FileShows }
    ensures empty { EmptyShows }
    ensures elsewhere { LooseElsewhere }
    ensures entry { EntryElsewhere }
    ensures sound { ContentSound }
    ensures kept { ContentKept }
    ensures grafts { ContentGrafts }
{}
