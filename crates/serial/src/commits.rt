//! What the parts of a commit may rely on.
ghost use Rattle.std.specs.Prelude.{◌≡◌, Bool, true, List};
ghost use Rattle.collation.specs.Reference.{Reference};
ghost use Rattle.collation.specs.Database.{Database};
ghost use Rattle.journal.specs.declared.unit.Exchange.{Exchange};
ghost use Rattle.journal.specs.declared.unit.Unit.{Unit as JournalUnit};
ghost use Rattle.journal.specs.History.{State};
ghost use Rattle.journal.specs.Touching.{has_read};
ghost use Rattle.serial.specs.Agreeing.{Agree};
ghost use Rattle.serial.specs.Committing.{GrowsBy, SeesItsStart, CommitsOn, TouchedJoins};
ghost use Rattle.serial.specs.ReadRanges.{ReadsRange};

/// One more command adds its read set, and what it sets or kills.
pub fn read_sets_and_writes_grow()
    ensures { (es : List Exchange) → (e : Exchange) → (m : Database) → (x : Reference) → GrowsBy es e m x }
{}

/// A transaction sees its own writes, and elsewhere what it began with.
pub fn transactions_see_their_start()
    ensures { SeesItsStart }
{}

/// A transaction that isn't overtaken leaves at its commit what it saw where it wrote, and elsewhere what was there.
pub fn commits_write_what_was_seen()
    ensures { (es : List Exchange) → (m n : Database) → ((x : Reference) → has_read es m x ≡ true → Agree m n x) → (x : Reference) → CommitsOn es m n x }
{}

/// What was touched since is asked unit by unit, and read set by read set.
pub fn touched_references_join()
    ensures { (us vs : List JournalUnit) → (s : State) → (test other : Reference → Bool) → TouchedJoins us vs s test other }
{}

/// Each read set lies between two places in the order of references.
pub fn read_sets_are_ranges()
    ensures { (own : Reference → Bool) → (x : Reference) → ReadsRange own x }
{}
