ghost use Rattle.eden_model.specs.ShownLaws.{ShownIsTree, ShowsItems, FollowsSources, SeesItsOwn, GraftsEntry};

/// The laws of what is shown, whatever the sources of one ground, `S`, and of another, `T`.
pub fn shown_laws<S, T>()
    ensures is_tree { ShownIsTree S }
    ensures shows_items { ShowsItems S }
    ensures follows_sources { FollowsSources S T }
    ensures sees_its_own { SeesItsOwn S }
    ensures grafts_entry { GraftsEntry S T }
{}
