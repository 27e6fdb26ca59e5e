//! A reader or writer whose failed calls are counted.
ghost use Rattle.std.specs.Prelude.{◌≡◌, ◌+◌, ◌≤◌, ◌<◌, ◌^◌, ◌-◌, [], length, take, IfOk, OnOk, OnErr};
ghost use Rattle.std.specs.Io.KnownBytes.{Appends, Consumes, IsAtEnd, Keeps};
ghost use Rattle.listing.specs.Bytes.{WritesBeginning, WritesFront, IsOneMore, IsPiece};

use bstr::ByteSlice;
use std::io::{Read, Write};
use thiserror::Error;

/// How many bytes are gathered before they are written.
pub const GATHERED_BYTES: usize = 16384;

// How many bytes a pipe takes whole or not at all: a program that is stopped meanwhile has then cut no line of them.
const PIECE_BYTES: usize = 4096;

/// A reader or writer, and how many of its calls failed.
#[derive(Drop)]
pub struct Counted<T> {
    inner: T,
    failures: u64,
}

/// A call of the reader failed.
#[derive(Clone, Copy, Debug, PartialEq, Eq, Error)]
#[error("cannot read input")]
pub struct ReadFault;

/// A call of the writer failed, or took no byte.
#[derive(Clone, Copy, Debug, PartialEq, Eq, Error)]
#[error("cannot write output")]
pub struct WriteFault;

impl<T> Counted<T> {
    /// Counts from 0.
    pub fn new(inner: T) -> Counted<T>
        ensures inner { result.inner ≡ inner }
        ensures failures { result.failures ≡ 0 }
    {
        Counted { inner, failures: 0 }
    }

    /// The reader or writer.
    pub fn inner(&self) -> &T
        ensures { result.now ≡ self.now.inner }
    {
        &self.inner
    }

    /// How many calls failed. The count saturates at 2^64 - 1.
    pub fn failures(&self) -> u64
        ensures { result ≡ self.now.failures }
    {
        self.failures
    }

    fn count_failure(&mut self)
        ensures inner { self.new.inner ≡ self.old.inner }
        ensures failures { IsOneMore self.old.failures self.new.failures }
    {
        self.failures = self.failures.saturating_add(1);
    }
}

// How many bytes of a text go to the writer at once: whole lines where its first one fits.
fn piece_len(text: &[u8]) -> usize
    requires { 0 < length text.now }
    ensures some { (0 < result) × (result ≤ length text.now) }
    ensures few { result ≤ PIECE_BYTES }
    ensures line { IsPiece PIECE_BYTES text.now result }
{
    if text.len() <= PIECE_BYTES {
        return text.len();
    }
    match (&text[..PIECE_BYTES]).rfind_byte(b'\n') {
        Some(end) => end + 1,
        None => PIECE_BYTES,
    }
}

impl<W: Write> Counted<W> {
    // One write of some bytes of a text that isn't empty.
    fn write_some(&mut self, text: &[u8]) -> Result<usize, WriteFault>
        requires { 0 < length text.now }
        ensures count { IfOk result (λ n. (0 < n) × (n ≤ length text.now)) }
        ensures ok { IfOk result (λ n. Appends (W.contents self.old.inner) (W.contents self.new.inner) (take n text.now)) }
        ensures err { OnErr result (Keeps (W.contents self.old.inner) (W.contents self.new.inner)) }
        ensures kept { OnOk result (self.new.failures ≡ self.old.failures) }
        ensures counted { OnErr result (IsOneMore self.old.failures self.new.failures) }
    {
        let piece = &text[..piece_len(text)];
        match self.inner.write(piece) {
            Ok(n) if n > 0 => Ok(n),
            _ => {
                self.count_failure();
                Err(WriteFault)
            }
        }
    }

    /// Writes a text. After a fault a beginning of it was written, and one more failure is counted. For an empty text
    /// no call is made, so it has none.
    pub fn write_text(&mut self, text: &[u8]) -> Result<(), WriteFault>
        ensures ok { OnOk result (Appends (W.contents self.old.inner) (W.contents self.new.inner) text.now) }
        ensures err { OnErr result (WritesBeginning (W.contents self.old.inner) (W.contents self.new.inner) text.now) }
        ensures some { OnErr result (0 < length text.now) }
        ensures kept { OnOk result (self.new.failures ≡ self.old.failures) }
        ensures counted { OnErr result (IsOneMore self.old.failures self.new.failures) }
    {
        let mut done = 0;
        while done < text.len() {
            done += self.write_some(&text[done..])?;
        }
        Ok(())
    }

    /// Writes all that was gathered in `out`, and empties it.
    ///
    /// After a fault a beginning of it was written, one more failure is counted, and `out` is as it was.
    pub fn write_gathered(&mut self, out: &mut Vec<u8>) -> Result<(), WriteFault>
        ensures ok { OnOk result (Appends (W.contents self.old.inner) (W.contents self.new.inner) out.old.items) }
        ensures empty { OnOk result (out.new.items ≡ []) }
        ensures err { OnErr result (WritesBeginning (W.contents self.old.inner) (W.contents self.new.inner) out.old.items) }
        ensures left { OnErr result (out.new.items ≡ out.old.items) }
        ensures some { OnErr result (0 < length out.old.items) }
        ensures kept { OnOk result (self.new.failures ≡ self.old.failures) }
        ensures counted { OnErr result (IsOneMore self.old.failures self.new.failures) }
    {
        self.write_text(out)?;
        out.clear();
        Ok(())
    }

    /// Writes what was gathered in `out` where that is at least `GATHERED_BYTES`, and else nothing.
    ///
    /// After a fault a beginning of it was written, one more failure is counted, and `out` is as it was.
    pub fn write_full(&mut self, out: &mut Vec<u8>) -> Result<(), WriteFault>
        ensures ok { OnOk result (WritesFront (W.contents self.old.inner) (W.contents self.new.inner) out.old.items out.new.items) }
        ensures bounded { OnOk result (length out.new.items < GATHERED_BYTES) }
        ensures err { OnErr result (WritesBeginning (W.contents self.old.inner) (W.contents self.new.inner) out.old.items) }
        ensures left { OnErr result (out.new.items ≡ out.old.items) }
        ensures full { OnErr result (GATHERED_BYTES ≤ length out.old.items) }
        ensures few { length out.old.items < GATHERED_BYTES → (self.new.inner ≡ self.old.inner) × (out.new.items ≡ out.old.items) }
        ensures kept { OnOk result (self.new.failures ≡ self.old.failures) }
        ensures counted { OnErr result (IsOneMore self.old.failures self.new.failures) }
    {
        if out.len() < GATHERED_BYTES {
            return Ok(());
        }
        self.write_gathered(out)?;
        Ok(())
    }
}

impl<R: Read> Counted<R> {
    /// Reads once, to the front of `piece`, and tells how many bytes came; 0 at the end of input. A failed read
    /// takes nothing.
    pub fn read_some(&mut self, piece: &mut [u8]) -> Result<usize, ReadFault>
        requires { 0 < length piece.old }
        ensures count { IfOk result (λ n. n ≤ length piece.new) }
        ensures bytes { IfOk result (λ n. Consumes (R.remaining self.old.inner) (R.remaining self.new.inner) (take n piece.new)) }
        ensures end { IfOk result (λ n. n ≡ 0 → IsAtEnd (R.remaining self.new.inner)) }
        ensures err { OnErr result (Keeps (R.remaining self.old.inner) (R.remaining self.new.inner)) }
        ensures kept { OnOk result (self.new.failures ≡ self.old.failures) }
        ensures counted { OnErr result (IsOneMore self.old.failures self.new.failures) }
    {
        match self.inner.read(piece) {
            Ok(n) => Ok(n),
            Err(_) => {
                self.count_failure();
                Err(ReadFault)
            }
        }
    }
}
