//! Laws of histories, stories and the bytes of a log.
ghost use Rattle.std.specs.Prelude.{◌≡◌, ◌<◌, ◌≤◌, ℕ, Bool, List, [], ◌∷◌, ◌++◌, ◌↔◌, None, Some, length};
ghost use Rattle.std.specs.List.{flat_map};
ghost use Rattle.std.specs.FinMap as finmap;
ghost use Rattle.collation.specs.Reference.{Reference};
ghost use Rattle.lock_name.specs.declared.lock.LockCommand.{LockCommand};
ghost use Rattle.lock_name.specs.Locks.{lock_refusal, lock_reply, locks_after, locks_after_commit, locks_after_back, locks_after_end};
ghost use Rattle.command.specs.declared.access.DataCommand.{DataCommand};
ghost use Rattle.command.specs.declared.access.Answer.{Answer};
ghost use Rattle.command.specs.Data.{data_refusal, data_reply, data_after};
ghost use Rattle.command.specs.declared.request.Command.{Command};
ghost use Rattle.command.specs.declared.request.Reply.{Reply};
ghost use Rattle.journal.specs.declared.unit.Exchange.{Exchange};
ghost use Rattle.journal.specs.declared.unit.Unit.{Unit as JournalUnit};
ghost use Rattle.journal.specs.declared.unit.Unit.TheVariants.{Lone, Whole, Lock, Back, End};
ghost use Rattle.journal.specs.Adopted.{adopted_units};
ghost use Rattle.journal.specs.Based.{database_of};
ghost use Rattle.journal.specs.Checkpoints.{IsBehind, IsCheckpoint};
ghost use Rattle.journal.specs.Counting.{tally_of};
ghost use Rattle.journal.specs.Format.{unit_bytes};
ghost use Rattle.journal.specs.History.{State, initial, after, IsLegal};
ghost use Rattle.journal.specs.Reading.{unit_at};
ghost use Rattle.journal.specs.Statements.{UnitsAreReadExactly};
ghost use Rattle.journal.specs.Stored.{Each, FitsUnit};
ghost use Rattle.journal.specs.Story.{Machine, told, story_of};

/// Units joined leave what the second leave after the first, and are legal exactly where both are, each from
/// where it begins.
pub fn joined_histories()
    ensures state { (us vs : List JournalUnit) → (s : State) → after (us ++ vs) s ≡ after vs (after us s) }
    ensures legal { (us vs : List JournalUnit) → (s : State) → IsLegal (us ++ vs) s ↔ (IsLegal us s × IsLegal vs (after us s)) }
{}

/// Lists of steps joined, each with a reply, tell their stories joined.
pub fn joined_stories()
    ensures { (steps more : List (ℕ × Command)) → (replies others : List Reply) → (s : Machine) → length replies ≡ length steps
        → story_of (steps ++ more) (replies ++ others) s ≡ story_of more others (story_of steps replies s) }
{}

/// In a legal journal a data command outside a transaction has the answer that it has on the database that the units
/// before it leave, where it isn't refused; and it leaves what it leaves there, and all locks.
pub fn lone_commands_are_right_and_act()
    ensures right { (us vs : List JournalUnit) → (s : State) → (job : ℕ) → (command : DataCommand) → (answer : Answer)
        → IsLegal (us ++ Lone job command answer ∷ vs) s
        → (data_refusal command (after us s).map ≡ None) × (answer ≡ data_reply command (after us s).map) }
    ensures acts { (us : List JournalUnit) → (s : State) → (job : ℕ) → (command : DataCommand) → (answer : Answer)
        → after (us ++ Lone job command answer ∷ []) s ≡ record { map = data_after command (after us s).map; locks = (after us s).locks } }
{}

/// In a legal journal each command of a transaction has the answer that it has on the database that the units before the
/// transaction and its own commands before it leave, where it isn't refused; and the transaction leaves what its commands
/// leave, each in its turn, and the locks that its commit leaves.
pub fn transactions_are_right_and_act()
    ensures right { (us vs : List JournalUnit) → (s : State) → (job : ℕ) → (es later : List Exchange) → (e : Exchange)
        → IsLegal (us ++ Whole job (es ++ e ∷ later) ∷ vs) s
        → (data_refusal e.command (after (us ++ Whole job es ∷ []) s).map ≡ None) × (e.answer ≡ data_reply e.command (after (us ++ Whole job es ∷ []) s).map) }
    ensures nothing { (us : List JournalUnit) → (s : State) → (job : ℕ)
        → after (us ++ Whole job [] ∷ []) s ≡ record { map = (after us s).map; locks = locks_after_commit job (after us s).locks } }
    ensures acts { (us : List JournalUnit) → (s : State) → (job : ℕ) → (es : List Exchange) → (e : Exchange)
        → after (us ++ Whole job (es ++ e ∷ []) ∷ []) s
        ≡ record { map = data_after e.command (after (us ++ Whole job es ∷ []) s).map; locks = (after (us ++ Whole job es ∷ []) s).locks } }
{}

/// In a legal journal a LOCK had its names exactly where none of them was blocked after the units before it, where it isn't
/// refused; and each unit of locks leaves the locks that it leaves there, and the database.
pub fn locks_are_right_and_act()
    ensures right { (us vs : List JournalUnit) → (s : State) → (job : ℕ) → (inside : Bool) → (command : LockCommand) → (had : Bool)
        → IsLegal (us ++ Lock job inside command had ∷ vs) s
        → (lock_refusal job command (after us s).locks ≡ None) × (had ≡ lock_reply job command (after us s).locks) }
    ensures acts { (us : List JournalUnit) → (s : State) → (job : ℕ) → (inside : Bool) → (command : LockCommand) → (had : Bool)
        → after (us ++ Lock job inside command had ∷ []) s ≡ record { map = (after us s).map; locks = locks_after job inside command (after us s).locks } }
    ensures back { (us : List JournalUnit) → (s : State) → (job : ℕ)
        → after (us ++ Back job ∷ []) s ≡ record { map = (after us s).map; locks = locks_after_back job (after us s).locks } }
    ensures end { (us : List JournalUnit) → (s : State) → (job : ℕ)
        → after (us ++ End job ∷ []) s ≡ record { map = (after us s).map; locks = locks_after_end job (after us s).locks } }
{}

/// A unit that keeps the limits reads back from its bytes, whatever follows them; so no unit's bytes begin another's, and
/// no two lists of units have one log.
pub fn logs_read_back()
    ensures back { (u : JournalUnit) → (t : List ℕ) → FitsUnit u → unit_at (unit_bytes u ++ t) ≡ Some (u, t) }
    ensures apart { (u v : JournalUnit) → (s t : List ℕ) → FitsUnit u → FitsUnit v → unit_bytes u ++ s ≡ unit_bytes v ++ t → (u ≡ v) × (s ≡ t) }
    ensures logs { (us vs : List JournalUnit) → Each FitsUnit us → Each FitsUnit vs → flat_map unit_bytes us ≡ flat_map unit_bytes vs → us ≡ vs }
{}

/// Bytes that read as a unit are just the bytes of that unit, and then what follows; and the unit keeps the limits. So
/// what no journal writes, such as a number in more bytes than it needs or a tag of no unit, isn't read.
pub fn units_are_read_exactly()
    ensures { UnitsAreReadExactly }
{}

/// Whatever a step is replied, a number that no open transaction began before stays one; and a checkpoint, which moves a
/// base to the least open start, or to the last unit, moves it on and never back.
pub fn bases_stay_behind()
    ensures steps { (n job : ℕ) → (command : Command) → (reply : Reply) → (s : Machine) → IsBehind n s → IsBehind n (told job command reply s) }
    ensures on { (b n : ℕ) → (s : Machine) → IsBehind b s → IsCheckpoint n s → b ≤ n }
{}

/// The units of a journal that takes a database over are a legal history from nothing, as many as the number says. They
/// leave these references with their values, and no locks; and none of them counts for a job.
pub fn adopted_units_leave_the_database()
    ensures legal { (n : ℕ) → (nodes : List (Reference × List ℕ)) → IsLegal (adopted_units n nodes) initial }
    ensures number { (n : ℕ) → (nodes : List (Reference × List ℕ)) → length (adopted_units n nodes) ≡ n }
    ensures state { (n : ℕ) → (nodes : List (Reference × List ℕ)) → (n ≡ 0 → nodes ≡ [])
        → after (adopted_units n nodes) initial ≡ record { map = database_of nodes; locks = finmap.empty } }
    ensures tallies { (n : ℕ) → (nodes : List (Reference × List ℕ)) → (job : ℕ) → 0 < job → tally_of job (adopted_units n nodes) ≡ 0 }
{}
