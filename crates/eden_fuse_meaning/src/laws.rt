// Laws of messages' meanings.
ghost use Rattle.eden_fuse_meaning.specs.Laws.{AsksThrice, EndIsNear};

/// No message asks more than three times, and each reply brings its end nearer.
pub fn meaning_laws()
    ensures asks_thrice { AsksThrice }
    ensures end_is_near { EndIsNear }
{}
