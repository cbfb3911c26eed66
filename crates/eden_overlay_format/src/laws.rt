ghost use Rattle.eden_overlay_format.specs.Laws.{ContentsFound, StatesFound, EntriesFound, NumbersFound, WrittenFound};
ghost use Rattle.eden_overlay_format.specs.Laws.{OneIdentifier, LengthsTold, LengthsFound, LengthsRefused};

/// The laws of the grammars: what is read is what the grammars say, what is written is read again, no bytes are read
/// under two identifiers, and the length that a file's head tells is its content's.
pub fn format_laws()
    ensures contents { ContentsFound }
    ensures states { StatesFound }
    ensures entries { EntriesFound }
    ensures numbers { NumbersFound }
    ensures written { WrittenFound }
    ensures one_identifier { OneIdentifier }
    ensures lengths_told { LengthsTold }
    ensures lengths_found { LengthsFound }
    ensures lengths_refused { LengthsRefused }
{}
