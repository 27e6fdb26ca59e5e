//! A place in a job's lines.
ghost use Rattle.std.specs.Prelude.{◌≡◌, ◌<◌, ◌∷◌, [], length, IfSome, IfNone};
ghost use Rattle.job_scripts.specs.Lines.{lent_lines};

use job_scripts::next_line;

/// The lines of a job that are still to be done, and the number of the first of them within the job, from 1.
#[derive(Clone, Copy, Debug)]
pub(crate) struct Cursor<'a> {
    pub(crate) lines: &'a [&'a [u8]],
    pub(crate) number: u64,
}

/// A line of a job, without its end, its number, and the place behind it.
#[derive(Clone, Copy, Debug)]
pub(crate) struct Line<'a> {
    pub(crate) text: &'a [u8],
    pub(crate) number: u64,
    pub(crate) next: Cursor<'a>,
}

impl<'a> Cursor<'a> {
    /// Before the first line.
    pub(crate) fn new(lines: &'a [&'a [u8]]) -> Cursor<'a>
        ensures { result.lines.now ≡ lines.now }
    {
        Cursor { lines, number: 1 }
    }

    /// The next line; none behind the last.
    pub(crate) fn next(&self) -> Option<Line<'a>>
        ensures fewer { IfSome result (λ line. length line.next.lines.now < length self.now.lines.now) }
        ensures first { IfSome result (λ line. lent_lines self.now.lines.now ≡ line.text.now ∷ lent_lines line.next.lines.now) }
        ensures none { IfNone result (lent_lines self.now.lines.now ≡ []) }
    {
        let (text, lines) = next_line(self.lines)?;
        Some(Line {
            text,
            number: self.number,
            next: Cursor {
                lines,
                number: self.number.saturating_add(1),
            },
        })
    }
}
