//! The laws of transactions.
ghost use Rattle.std.specs.Prelude.{◌≡◌, ◌≤◌, ◌↔◌, true, false, List, length};
ghost use Rattle.collation.specs.Reference.{Reference};
ghost use Rattle.collation.specs.Database.{Database};
ghost use Rattle.journal.specs.declared.unit.Exchange.{Exchange};
ghost use Rattle.journal.specs.declared.unit.Unit.{Unit as JournalUnit};
ghost use Rattle.journal.specs.History.{State, initial, after, after_unit, AreRight};
ghost use Rattle.journal.specs.Touching.{has_read, touched};
ghost use Rattle.journal.specs.Story.{Transaction};
ghost use Rattle.serial.specs.Agreeing.{Agree};
ghost use Rattle.serial.specs.Machine.{state_at, is_overtaken};
ghost use Rattle.serial.specs.Overtaking.{IsOvertaken};
ghost use Rattle.serial.specs.Touches.{TouchesWhatItWrites};

/// The answers that commands had on one database they have on each that agrees with it on all that they have read.
pub fn answers_hold_while_what_was_read_stands()
    ensures { (es : List Exchange) → (m n : Database) → ((x : Reference) → has_read es m x ≡ true → Agree m n x) → AreRight es m → AreRight es n }
{}

/// What a unit doesn't touch keeps its value.
pub fn untouched_references_keep_their_values()
    ensures { (u : JournalUnit) → (s : State) → (x : Reference) → touched u s x ≡ false → Agree s.map (after_unit u s).map x }
{}

/// What commands don't write they don't touch, and what they touch has a value before them or after. Of those that
/// write a reference the last decides: one that sets it touches it, one that kills it does where it had a value at
/// first.
pub fn commands_touch_what_they_write()
    ensures { (es : List Exchange) → (m : Database) → (x : Reference) → TouchesWhatItWrites es m x }
{}

/// The machine's test finds a unit after the transaction's start that touched a reference which it has read, exactly
/// where there is one.
pub fn overtaken_where_what_was_read_is_touched()
    ensures { (t : Transaction) → (units : List JournalUnit) → (is_overtaken t units ≡ true) ↔ IsOvertaken t units }
{}

/// A transaction whose answers are those at its start has the same answers at its commit, where it isn't overtaken.
pub fn transactions_are_right_at_their_commit()
    ensures { (t : Transaction) → (units : List JournalUnit) → t.start ≤ length units → AreRight t.exchanges (state_at t.start units).map
        → is_overtaken t units ≡ false → AreRight t.exchanges (after units initial).map }
{}
