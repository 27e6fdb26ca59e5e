//! The journal's lines, some units at a time.
ghost use Rattle.std.specs.Prelude.{◌≡◌, ◌≤◌, ◌<◌, ◌+◌, ◌^◌, List, length};
ghost use Rattle.journal.specs.declared.unit.Unit.{Unit as JournalUnit};
ghost use Rattle.embedded.specs.JournalReads.{AreGiven, IsJournalCall, IsJournalFrom, IsJournalRead, IsNextRead};

use crate::copied::copied_as;
use crate::{Embedded, Outcome};
use journal::{Journal, Units};
use journal_lines::{JournalPlace, units_behind};
use refusal::Refusal;
use std::alloc::Global;

// Puts the lines of units behind those in `text`, from the first on, as long as there are room and memory for them.
fn give_more(units: Units<'_>, place: &mut JournalPlace, room: usize, text: &mut Vec<u8>)
    requires small { place.old.number + length units < 2 ^ 64 }
    requires begun { length text.old.items ≤ room }
    ensures given { (rest : List JournalUnit) × AreGiven units.entry rest place.old place.new text.old.items text.new.items }
    ensures room { length text.new.items ≤ room }
{
    'units: for read in units {
        let Ok(unit) = read else {
            return;
        };
        let left = room.saturating_sub(text.len());
        match place.give(unit, room, text) {
            Ok(size) => {
                if size > left {
                    return;
                }
            }
            Err(_) => return,
        }
    }
}

// Copies the lines of the next of these units, and of as many more as there are room and memory for.
fn copy_lines(
    units: Units<'_>,
    place: &mut JournalPlace,
    text: &mut Vec<u8>,
    buffer: &mut [u8],
    wanted: &mut usize,
) -> Outcome
    requires { place.old.number + length units < 2 ^ 64 }
    ensures { IsNextRead units.entry place.old place.new result buffer.old buffer.new wanted.new }
{
    let mut left = units;
    *wanted = 0;
    text.clear();
    match left.next() {
        Some(Ok(unit)) => match place.give(unit, buffer.len(), text) {
            Ok(size) => {
                if size > buffer.len() {
                    *wanted = size;
                    return Outcome::BufferTooShort;
                }
                give_more(left, place, buffer.len(), text);
                copied_as(Outcome::Done, text, buffer, wanted)
            }
            Err(_) => Outcome::Refused(Refusal::OutOfMemory),
        },
        Some(Err(_)) => Outcome::Refused(Refusal::OutOfMemory),
        None => Outcome::AtEnd,
    }
}

// The same of the units of a journal that are behind a place. Where none is there none is read.
#[tactic(auto, using(crate::proofs::Ends::none_left, crate::proofs::Ends::none_read))]
fn copy_journal(
    journal: &Journal,
    place: &mut JournalPlace,
    text: &mut Vec<u8>,
    buffer: &mut [u8],
    wanted: &mut usize,
) -> Outcome
    requires { length journal.now.units < 2 ^ 64 }
    ensures { IsJournalRead journal.now.base journal.now.units place.old place.new result buffer.old buffer.new wanted.new }
{
    *wanted = 0;
    if journal.len() <= place.number() {
        return Outcome::AtEnd;
    }
    match units_behind(journal, place.number()) {
        Ok(Some(units)) => copy_lines(units, place, text, buffer, wanted),
        Ok(None) => Outcome::Refused(Refusal::Gone),
        Err(_) => Outcome::Refused(Refusal::OutOfMemory),
    }
}

impl Embedded {
    /// The next lines of the journal to copy are those of the units behind this number, as of a journal that begins
    /// there: 0 for all of it, `units` for what comes from now on. So it is of a new engine at 0.
    ///
    /// A LOCK in a transaction that is open at this number isn't known afterwards: what the transaction does is written
    /// without it.
    pub fn journal_from(&mut self, alloc: Global, number: u64)
        ensures { IsJournalFrom number self.old self.new }
    {
        self.journal_place = JournalPlace::new(alloc, number);
    }

    /// Copies the lines of the journal's next unit, and of as many more as there are room and memory for, tells how long
    /// they are, and moves on behind them. They are the lines of `journal_lines`, which do the units again: a
    /// transaction is written where it commits. It is no command. Where a unit is left all are read that no checkpoint has
    /// dropped.
    ///
    /// `AtEnd` where no unit is left; `Gone` where a checkpoint has dropped the next; `BufferTooShort` where the next
    /// unit's lines are longer than the buffer, and then their length is told; `OutOfMemory`: then nothing is copied,
    /// and the unit is still the next.
    pub fn copy_journal_lines(&mut self, buffer: &mut [u8], wanted: &mut usize) -> Outcome
        ensures { IsJournalCall self.old self.new result buffer.old buffer.new wanted.new }
    {
        let journal = self.core.journal();
        copy_journal(
            journal,
            &mut self.journal_place,
            &mut self.text,
            buffer,
            wanted,
        )
    }
}
