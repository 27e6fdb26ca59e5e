//! What is told of a run beside its text.
use job_core::JobCore;
use refusal::Refusal;

/// Told of a script while it runs. What it does with that is no part of any promise.
pub trait RunLog {
    /// Line `number` of the input was refused. Lines are counted from 1, empty ones too.
    fn refused(&mut self, number: u64, line: &[u8], refusal: Refusal);

    /// Line `number`, which has an end, is done: its reply is written or gathered, or it is empty and has none. Answers
    /// whether the log is to be shown the core now.
    fn done(&mut self, number: u64, line: &[u8]) -> bool;

    /// What the core holds after the line that `done` was told of last, which asked for it. All replies so far are
    /// written.
    fn shown(&mut self, core: &JobCore);

    /// The run is over, and its output is whole or not; not told where memory was refused for the run's buffer. This is
    /// what the core holds then. Where the run ended before the last line was done, no open job was halted; else each that was at work
    /// was, unless the journal was full (`halt_open`).
    fn ended(&mut self, core: &JobCore, is_whole: bool);
}

/// A log that keeps nothing.
#[derive(Clone, Copy, Debug, PartialEq, Eq)]
pub struct NoLog;

impl RunLog for NoLog {
    fn refused(&mut self, _number: u64, _line: &[u8], _refusal: Refusal) {}

    fn done(&mut self, _number: u64, _line: &[u8]) -> bool {
        false
    }

    fn shown(&mut self, _core: &JobCore) {}

    fn ended(&mut self, _core: &JobCore, _is_whole: bool) {}
}
