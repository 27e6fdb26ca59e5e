//! A journal's lines, some units at a time, from one place in it to the next.
ghost use Rattle.std.specs.Prelude.{◌≡◌, ◌<◌, ◌≤◌, ◌+◌, ◌++◌, ◌^◌, drop, length, IfOk, OnErr, OnOk};
ghost use Rattle.std.specs.Option.{MatchOption};
ghost use Rattle.journal_lines.specs.Journals.{dropped, lines_of, still_pending, unit_steps};
ghost use Rattle.journal_lines.specs.Places.{placed_at, place_past, unit_lines, AreBehind, IsUnitGiven};

use crate::done_again::{note_unit, push_unit};
use crate::pending::Pending;
use journal::{Journal, Unit, Units};
use std::alloc::{AllocError, Global};
use std::marker::Model;

/// A place in a journal: so many of its units are behind it, and what is known of the LOCKs in their transactions that
/// are open there.
#[derive(Drop)]
pub struct JournalPlace {
    number: u64,
    pending: Vec<Pending>,
    // The lines of the unit that was given last.
    lines: Vec<u8>,
}

impl Model for JournalPlace {
    ghost use Rattle.journal_lines.specs.Places.{Placed};

    ghost Value = { Placed };

    ghost view = { λ p. record { number = p.number; pending = p.pending.items } };
}

// The lines of a unit in the place of what stands in `lines`, where these LOCKs are pending.
fn write_anew(unit: &Unit, pending: &[Pending], lines: &mut Vec<u8>) -> Result<(), AllocError>
    ensures { OnOk result (lines.new.items ≡ lines_of (unit_steps unit.now pending.now)) }
{
    lines.clear();
    push_unit(unit, pending, lines)
}

// Puts lines behind others, and notes their unit: room for the lines is there first.
fn put_behind(
    lines: &[u8],
    unit: Unit,
    pending: &mut Vec<Pending>,
    out: &mut Vec<u8>,
) -> Result<(), AllocError>
    ensures out { OnOk result (out.new.items ≡ out.old.items ++ lines.now) }
    ensures pending { OnOk result (pending.new.items ≡ still_pending unit pending.old.items) }
    ensures out_kept { OnErr result (out.new.items ≡ out.old.items) }
    ensures pending_kept { OnErr result (pending.new.items ≡ pending.old.items) }
{
    let before = out.len();
    if out.extend_from_slice(lines).is_err() {
        drop(unit);
        return Err(AllocError);
    }
    let noted = note_unit(unit, pending);
    if noted.is_err() {
        out.truncate(before);
    }
    noted
}

impl JournalPlace {
    /// The place behind so many units, as of a journal that begins there: at 0 of the whole journal. Takes no memory.
    pub fn new(alloc: Global, number: u64) -> JournalPlace
        ensures { result ≡ placed_at number }
    {
        JournalPlace {
            number,
            pending: Vec::new(alloc),
            lines: Vec::new(alloc),
        }
    }

    /// How many units are behind it.
    pub fn number(&self) -> u64
        ensures { result ≡ self.now.number }
    {
        self.number
    }

    /// Puts the lines of the unit that follows the place behind those in `out`, and moves the place behind the unit, if
    /// all of them are at most `room` bytes; else both stay. Answers how long the unit's lines are.
    ///
    /// Where memory is refused the place and `out` are as they were.
    pub fn give(&mut self, unit: Unit, room: usize, out: &mut Vec<u8>) -> Result<usize, AllocError>
        requires { self.old.number + 1 < 2 ^ 64 }
        ensures given { IfOk result (IsUnitGiven unit self.old self.new room out.old.items out.new.items) }
        ensures place { OnErr result (self.new ≡ self.old) }
        ensures lines { OnErr result (out.new.items ≡ out.old.items) }
    {
        if write_anew(&unit, &self.pending, &mut self.lines).is_err() {
            drop(unit);
            return Err(AllocError);
        }
        let size = self.lines.len();
        if size > room.saturating_sub(out.len()) {
            drop(unit);
            return Ok(size);
        }
        put_behind(&self.lines, unit, &mut self.pending, out)?;
        self.number += 1;
        Ok(size)
    }
}

// Passes over the next unit, where there is one.
fn pass_unit(units: &mut Units<'_>) -> Result<(), AllocError>
    ensures { OnOk result (units.new ≡ drop 1 units.old) }
{
    match units.next() {
        Some(Ok(unit)) => {
            drop(unit);
            Ok(())
        }
        Some(Err(refused)) => Err(refused),
        None => Ok(()),
    }
}

fn pass_units(units: &mut Units<'_>, count: u64) -> Result<(), AllocError>
    ensures { OnOk result (units.new ≡ drop count units.old) }
{
    let mut passed: u64 = 0;
    'passed: while passed < count {
        pass_unit(units)?;
        passed += 1;
    }
    Ok(())
}

// As `units_behind`, of a number up to the journal's end.
fn units_up_from(journal: &Journal, number: u64) -> Result<Option<Units<'_>>, AllocError>
    requires { number ≤ length journal.now.units }
    ensures found { IfOk result (λ found. MatchOption found (number < length (dropped journal.now)) (λ units. AreBehind number journal.now units)) }
    ensures refused { OnErr result (length (dropped journal.now) ≤ number) }
{
    let base = journal.base().number();
    if number < base {
        return Ok(None);
    }
    let mut units = journal.units();
    pass_units(&mut units, number - base)?;
    Ok(Some(units))
}

/// The units of a journal behind the one of this number, read back one by one: no units behind its end, and none at all
/// (`None`) where it has dropped one of them. All units are read that it hasn't dropped, those before the number too.
///
/// Where memory is refused for one of these there are none; none is read where it has dropped one of them.
pub fn units_behind(journal: &Journal, number: u64) -> Result<Option<Units<'_>>, AllocError>
    ensures found { IfOk result (λ found. MatchOption found (number < length (dropped journal.now)) (λ units. AreBehind number journal.now units)) }
    ensures refused { OnErr result (length (dropped journal.now) ≤ number) }
{
    units_up_from(journal, number.min(journal.len()))
}
