//! Readers and writers for tests: in pieces, and failing at a call.
use std::cell::Cell;
use std::cmp::min;
use std::io;
use std::io::{ErrorKind, Read, Write};

// A text that comes in pieces, and a call that fails (0: none).
#[derive(Drop)]
pub struct Pieces<'a> {
    pub text: &'a [u8],
    pub size: usize,
    pub fails_at: u64,
    pub calls: u64,
}

impl Read for Pieces<'_> {
    fn read(&mut self, buf: &mut [u8]) -> io::Result<usize> {
        self.calls = self.calls.saturating_add(1);
        if self.calls == self.fails_at {
            return Err(io::Error::from(ErrorKind::Other));
        }
        let n = min(self.size, min(self.text.len(), buf.len()));
        let (front, rest) = self.text.split_at(n);
        buf[..n].copy_from_slice(front);
        self.text = rest;
        Ok(n)
    }
}

// A text that is written in pieces, a call that fails and one that takes nothing (0: none), and the most bytes that
// were offered at once.
#[derive(Drop)]
pub struct Taken {
    pub text: Vec<u8>,
    pub size: usize,
    pub fails_at: u64,
    pub nothing_at: u64,
    pub calls: u64,
    pub largest: usize,
}

impl Write for Taken {
    fn write(&mut self, buf: &[u8]) -> io::Result<usize> {
        self.calls = self.calls.saturating_add(1);
        if self.calls == self.fails_at {
            return Err(io::Error::from(ErrorKind::Other));
        }
        if self.calls == self.nothing_at {
            return Ok(0);
        }
        self.largest = self.largest.max(buf.len());
        let n = min(self.size, buf.len());
        self.text.extend_from_slice(&buf[..n])?;
        Ok(n)
    }

    fn flush(&mut self) -> io::Result<()> {
        Ok(())
    }
}

// How many bytes the reply to each line of a `Watching` text has: `1 ok` and its end.
const REPLY_BYTES: usize = 5;

// A text in pieces, whose reads look at what was written so far. Each of its lines is answered `1 ok`.
#[derive(Drop)]
pub struct Watching<'a> {
    pub text: &'a [u8],
    pub size: usize,
    // How many lines have ended in what was read.
    pub ended: usize,
    pub written: &'a Cell<usize>,
    // How many reads came when something else than the replies of these was written.
    pub out_of_turn: u64,
}

impl Read for Watching<'_> {
    fn read(&mut self, buf: &mut [u8]) -> io::Result<usize> {
        if self.written.get() != self.ended.saturating_mul(REPLY_BYTES) {
            self.out_of_turn = self.out_of_turn.saturating_add(1);
        }
        let n = min(self.size, min(self.text.len(), buf.len()));
        let (front, rest) = self.text.split_at(n);
        buf[..n].copy_from_slice(front);
        self.text = rest;
        for byte in front {
            if *byte == b'\n' {
                self.ended = self.ended.saturating_add(1);
            }
        }
        Ok(n)
    }
}

// Counts the bytes that are written.
#[derive(Drop)]
pub struct Heard<'a> {
    pub written: &'a Cell<usize>,
}

impl Write for Heard<'_> {
    fn write(&mut self, buf: &[u8]) -> io::Result<usize> {
        self.written
            .set(self.written.get().saturating_add(buf.len()));
        Ok(buf.len())
    }

    fn flush(&mut self) -> io::Result<()> {
        Ok(())
    }
}
