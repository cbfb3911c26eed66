ghost use Rattle.eden_wire.specs.Lines.{OneItem, NoLinePatches};

/// The laws of lines: a line is one item, so that no line has two readings; and no line asks for a patch.
pub fn line_laws()
    ensures one_item { OneItem }
    ensures no_line_patches { NoLinePatches }
{}
