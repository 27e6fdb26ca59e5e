//! The law of lines, stated in `specs/Lines.antt`. Calling it does nothing.
ghost use Rattle.script_run.specs.Lines.{LinesAreCutAtTheirEnds};

/// A text's lines are what stands before each byte 10, less one byte 13 at its end, and what follows the last; the
/// empty ones are passed over.
pub fn lines_are_cut_at_their_ends()
    ensures { LinesAreCutAtTheirEnds }
{}
