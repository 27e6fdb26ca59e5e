//! Laws of lines, stated in `specs/Statements.antt`. Calling them does nothing.
ghost use Rattle.script.specs.Statements.{ReadLinesAreSpelled, SpelledLinesAreJudged, BadLinesAreNotSpelled, OtherLinesAreBad, NoTwoShareAWord, WordsAloneHaveNoOperands};

/// A line is read as the job and the command that it spells and as nothing else, and just those lines that spell none
/// get BadLine. No two words of commands are spelled alike. A line whose command is its word alone has no operands.
pub fn lines_are_read_as_spelled()
    ensures found { ReadLinesAreSpelled }
    ensures again { SpelledLinesAreJudged }
    ensures bad_line { BadLinesAreNotSpelled }
    ensures other { OtherLinesAreBad }
    ensures words { NoTwoShareAWord }
    ensures alone { WordsAloneHaveNoOperands }
{}
