//! The laws of lock counts.
ghost use Rattle.std.specs.Prelude.{ℕ, Bool, List};
ghost use Rattle.collation.specs.Reference.{Resource};
ghost use Rattle.lock_name.specs.Locks.{LockState};
ghost use Rattle.lock_name.specs.LockStatements.{CountsTell, BlockedTells, AreApart};
ghost use Rattle.journal.specs.declared.unit.Unit.{Unit as JournalUnit};
ghost use Rattle.journal.specs.History.{initial, after};
ghost use Rattle.serial.specs.Locking.{ConflictTells, GrantTells, LockTells};

/// A list adds to each count how often the resource stands in it, and takes as much away; of two counts the greater
/// one is kept.
pub fn counts_are_told_by_resource()
    ensures { (n : Resource) → CountsTell n }
{}

/// A resource is blocked exactly where another job holds it, an ancestor of it or a descendant.
pub fn blocked_where_another_job_holds()
    ensures { BlockedTells }
{}

/// After any units no two jobs hold resources of which one is the other or an ancestor of it.
pub fn jobs_hold_nothing_in_common()
    ensures { (us : List JournalUnit) → AreApart (after us initial).locks }
{}

/// Two lock names conflict exactly where both have a caret or neither has one, and one of the two references is the
/// other with any subscripts more.
pub fn names_conflict_where_one_begins_the_other()
    ensures { ConflictTells }
{}

/// A LOCK is granted exactly where none of the names that it asks for is blocked.
pub fn locks_are_granted_where_no_name_is_blocked()
    ensures { (job : ℕ) → (s : LockState) → GrantTells job s }
{}

/// LOCK without a sign gives all back and then counts its list, if it is granted; with `+` it adds the list, or
/// nothing; with `-` it takes the list away. In a transaction nothing that is held is given back. Other jobs keep their
/// locks.
pub fn locks_are_counted_by_command()
    ensures { (job : ℕ) → (in_transaction : Bool) → (s : LockState) → (n : Resource) → LockTells job in_transaction s n }
{}
