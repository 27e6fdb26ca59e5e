//! The laws of how transactions begin, nest and end.
ghost use Rattle.std.specs.Prelude.{◌≡◌, ◌<◌, ◌^◌, ℕ, None, Some, length};
ghost use Rattle.journal.specs.Story.{Transaction, Machine, transaction_of};
ghost use Rattle.serial.specs.Levels.{BeginningsTell, LevelsTell, NoLevels, LevelsStayWithin, EndsTell};

/// A TSTART outside a transaction begins one at level 1, which sees what the units so far leave, whatever follows. A
/// restart does the same, and counts one restart more.
pub fn transactions_begin_now()
    ensures { (job : ℕ) → (s : Machine) → BeginningsTell job s }
{}

/// A TSTART in a transaction is one level deeper, up to 127, a TCOMMIT above level 1 one less, and both leave all else;
/// `$TLEVEL` is the level, `$TRESTART` the restarts, both 0 outside. (There are never 2^64 units.)
pub fn levels_rise_and_fall_by_one()
    ensures inside { (job : ℕ) → (t : Transaction) → (s : Machine) → transaction_of job s ≡ Some t → length s.units < 2 ^ 64 → LevelsTell job t s }
    ensures outside { (job : ℕ) → (s : Machine) → transaction_of job s ≡ None → length s.units < 2 ^ 64 → NoLevels job s }
    ensures within { LevelsStayWithin }
{}

/// A TCOMMIT at level 1 that isn't overtaken commits: one unit with all that was done, and the job holds what it wants;
/// a rollback leaves the database; a HALT is one unit, and leaves the job no locks. Each is done while the journal has
/// room, each leaves no transaction, and nothing else ends one.
pub fn ended_transactions_are_closed()
    ensures { (job : ℕ) → (s : Machine) → EndsTell job s }
{}
