//! Laws of literals and references, stated in `specs/Statements.antt`. Calling them does nothing.
ghost use Rattle.m_text.specs.Statements.{ReadLiteralsAreSpelled, SpelledLiteralsAreRead, WrittenStringsAreLiterals, WrittenStringsAreRead, RunsAreTheLongest, ReadReferencesAreSpelled, SpelledReferencesAreRead, WrittenReferencesAreRead};

/// A literal is read as the string that it spells and as no other, and what is written of a string is such a literal,
/// in its longest runs.
pub fn literals_are_read_as_spelled()
    ensures found { ReadLiteralsAreSpelled }
    ensures again { SpelledLiteralsAreRead }
    ensures written { WrittenStringsAreLiterals }
    ensures round_trip { WrittenStringsAreRead }
    ensures runs { RunsAreTheLongest }
{}

/// A reference is read as what it spells and as no other, and what is written of one is read as it again.
pub fn references_are_read_as_spelled()
    ensures found { ReadReferencesAreSpelled }
    ensures again { SpelledReferencesAreRead }
    ensures round_trip { WrittenReferencesAreRead }
{}
