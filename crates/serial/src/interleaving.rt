//! The law of interleavings.
ghost use Rattle.std.specs.Prelude.{ℕ, List};
ghost use Rattle.journal.specs.declared.unit.Unit.{Unit as JournalUnit};
ghost use Rattle.journal.specs.Story.{Machine};
ghost use Rattle.serial.specs.Interleaving.{Told, OneInterleaving, EachIsClaimed, HistoriesGrow};

/// What each job was told by its own machine, between the units of the others, is one run of the exact machine.
pub fn histories_are_one_run()
    ensures { OneInterleaving }
{}

/// Where the slips are all units, each unit of the journal is on one of them, at its number.
pub fn each_unit_is_claimed()
    ensures { EachIsClaimed }
{}

/// What is so of a beginning of the journal is so of the whole, and a history grows step by step.
pub fn histories_grow_with_the_journal()
    ensures { (log : List JournalUnit) → (job n : ℕ) → (s : Machine) → (xs : List Told) → HistoriesGrow log job n s xs }
{}
