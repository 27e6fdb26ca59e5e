//! What is told of a load.

/// Told of a text while it is loaded. What it does with that is no part of any promise.
pub trait LoadLog {
    /// The line of this number is loaded: it sets something. Lines are counted from 1, headers and empty ones too.
    fn loaded(&mut self, number: u64);
}

/// A log that keeps nothing.
#[derive(Clone, Copy, Debug, PartialEq, Eq)]
pub struct NoLog;

impl LoadLog for NoLog {
    fn loaded(&mut self, _number: u64) {}
}
