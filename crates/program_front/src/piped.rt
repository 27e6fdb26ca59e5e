//! A writer that knows why its last write failed, and whether its reader has gone.
ghost use Rattle.std.specs.Prelude.{◌≡◌, ◌≢◌, true, false, None, Some, OnOk, IfErr};
ghost use Rattle.std.specs.Io.{WritesAtMost};
ghost use Rattle.std.specs.Io.KnownBytes.{WriteAppends};
ghost use Rattle.std.specs.IoError.{error_kind};

use std::io;
use std::io::{ErrorKind, Write};

/// A writer, whether a write to it has failed since the pipe is closed: nobody reads what is written; and why the last
/// write that failed did.
#[derive(Drop)]
pub struct Piped<W> {
    inner: W,
    closed: bool,
    failure: Option<io::Error>,
}

// Whether a write failed since nobody reads.
fn is_broken_pipe(why: &io::Error) -> bool
    ensures yes { error_kind why.now ≡ ErrorKind.BrokenPipe → result ≡ true }
    ensures no { error_kind why.now ≢ ErrorKind.BrokenPipe → result ≡ false }
{
    why.kind() == ErrorKind::BrokenPipe
}

impl<W> Piped<W> {
    /// Not found closed so far.
    pub fn new(inner: W) -> Piped<W>
        ensures inner { result.inner ≡ inner }
        ensures closed { result.closed ≡ false }
        ensures failure { result.failure ≡ None }
    {
        Piped {
            inner,
            closed: false,
            failure: None,
        }
    }

    /// Whether a write has failed since nobody reads.
    pub fn is_closed(&self) -> bool
        ensures { result ≡ self.now.closed }
    {
        self.closed
    }

    /// Why the last write that failed did, as the system says it; none where no write has failed.
    pub fn failure(&self) -> Option<io::Error>
        ensures { result ≡ self.now.failure }
    {
        self.failure
    }

    /// What is written to.
    pub fn inner(&self) -> &W
        ensures { result.now ≡ self.now.inner }
    {
        &self.inner
    }

    fn note_failure(&mut self, why: &io::Error)
        ensures inner { self.new.inner ≡ self.old.inner }
        ensures failure { self.new.failure ≡ Some why.now }
        ensures broken { error_kind why.now ≡ ErrorKind.BrokenPipe → self.new.closed ≡ true }
        ensures other { error_kind why.now ≢ ErrorKind.BrokenPipe → self.new.closed ≡ self.old.closed }
    {
        self.failure = Some(*why);
        if is_broken_pipe(why) {
            self.closed = true;
        }
    }
}

// It holds what its writer holds, and is closed from the first write on that fails with `BrokenPipe`.
impl<W: Write> Write for Piped<W> {
    ghost contents = { λ p. W.contents p.inner };

    fn write(&mut self, buf: &[u8]) -> io::Result<usize>
        ensures bound { WritesAtMost result buf.now }
        ensures bytes { WriteAppends (W.contents self.old.inner) (W.contents self.new.inner) result buf.now }
        ensures written { OnOk result ((self.new.closed ≡ self.old.closed) × (self.new.failure ≡ self.old.failure)) }
        ensures failed { IfErr result (λ why. self.new.failure ≡ Some why) }
        ensures broken { IfErr result (λ why. error_kind why ≡ ErrorKind.BrokenPipe → self.new.closed ≡ true) }
        ensures other { IfErr result (λ why. error_kind why ≢ ErrorKind.BrokenPipe → self.new.closed ≡ self.old.closed) }
    {
        match self.inner.write(buf) {
            Ok(count) => Ok(count),
            Err(why) => {
                self.note_failure(&why);
                Err(why)
            }
        }
    }

    fn flush(&mut self) -> io::Result<()> {
        self.inner.flush()
    }
}
