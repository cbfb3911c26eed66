// Laws of the protocol.
ghost use Rattle.eden_remote.specs.Laws.{OneAnswer, OneObject};

/// Bytes begin with one answer alone: so what a server wrote is what a client hears, one answer after another.
pub fn one_answer()
    ensures { OneAnswer }
{}

/// An answer gives one object.
pub fn one_object()
    ensures { OneObject }
{}
