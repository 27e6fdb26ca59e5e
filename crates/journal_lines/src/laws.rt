//! Laws of lines of steps, stated in `specs/Statements.antt`. Calling them does nothing.
ghost use Rattle.journal_lines.specs.Statements.{StepsAreReadAgain, JournalsAreReadAgain};

/// The text of a step that lines may ask for is one line, and is read as just that step. So each line that is written
/// of a journal is read as its step, where lines may have asked for all that was done.
pub fn steps_are_read_again()
    ensures steps { StepsAreReadAgain }
    ensures journals { JournalsAreReadAgain }
{}
