// Laws of the two formats.
ghost use Rattle.eden_object.specs.Laws.{OneFrame, OneList};

/// Framed bytes have one word and one body.
pub fn one_frame()
    ensures { OneFrame }
{}

/// A tree's body has one list of entries.
pub fn one_list()
    ensures { OneList }
{}
