//! The units read back from the log.
ghost use Rattle.std.specs.Prelude.{◌≡◌, []};
ghost use Rattle.std.specs.Iterator.{item_count};
ghost use Rattle.journal.specs.Log.{ReadsFirst, Stands, units_in};

use crate::Unit;
use crate::read::{Unread, read_unit};
use std::alloc::{AllocError, Global};
use std::marker::Model;

/// The units of a journal, read back one by one. It is seen as the list of those that are left. Where memory is
/// refused it says so, and has no more.
#[derive(Drop)]
pub struct Units<'j> {
    alloc: Global,
    bytes: &'j [u8],
    left: u64,
}

impl<'j> Model for Units<'j> {
    ghost use Rattle.std.specs.Prelude.{List};
    ghost use Rattle.journal.specs.declared.unit.Unit.{Unit as JournalUnit};
    ghost use Rattle.journal.specs.Log.{units_in, Stands};

    ghost Value = { List JournalUnit };

    ghost view = { λ s. units_in s.left s.bytes.now };

    ghost invariant = { λ s. Stands s.bytes.now s.left (units_in s.left s.bytes.now) };
}

impl<'j> Units<'j> {
    // The first so many units of these bytes.
    pub(crate) fn new(alloc: Global, bytes: &'j [u8], left: u64) -> Units<'j>
        requires { Stands bytes.now left (units_in left bytes.now) }
        ensures { result ≡ units_in left bytes.now }
    {
        Units { alloc, bytes, left }
    }

    // The bytes of those that are left, and how many these are.
    pub(crate) fn rest(&self) -> (&'j [u8], u64)
        ensures { Stands result.0.now result.1 self.now }
    {
        (self.bytes, self.left)
    }
}

impl<'j> Iterator for Units<'j> {
    type Item = Result<Unit, AllocError>;

    ghost next_gives = { ReadsFirst };

    ghost remaining = { item_count (λ s. s) };

    fn next(&mut self) -> Option<Result<Unit, AllocError>> {
        if self.left == 0 {
            return None;
        }
        match read_unit(self.alloc, self.bytes) {
            Ok((unit, rest)) => {
                self.bytes = rest;
                self.left -= 1;
                Some(Ok(unit))
            }
            Err(Unread::Memory) => {
                self.bytes = &[];
                self.left = 0;
                Some(Err(AllocError))
            }
            Err(Unread::Form) => unreachable!(),
        }
    }
}
