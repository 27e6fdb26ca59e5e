//! The laws of runs: what steps and their replies tell is legal.
ghost use Rattle.std.specs.Prelude.{◌≡◌, ◌<◌, ◌^◌, ℕ, List, Some, true, length};
ghost use Rattle.refusal.specs.declared.Refusal.{Refusal};
ghost use Rattle.command.specs.declared.request.Command.{Command};
ghost use Rattle.command.specs.declared.request.Reply.{Reply};
ghost use Rattle.journal.specs.History.{initial, IsLegal};
ghost use Rattle.journal.specs.Story.{Transaction, Machine, nothing_done, transaction_of, story_of};
ghost use Rattle.serial.specs.Machine.{run_of, replies_of, reply_of, early_of, takes_none, IsReply, AreReplies};
ghost use Rattle.serial.specs.Memory.{steps_done, replies_done};
ghost use Rattle.serial.specs.Soundness.{IsSound};
ghost use Rattle.serial.specs.Standing.{LoneCommandsStand, LocksStand, CommittedTransactionsStandWhole};
ghost use Rattle.serial.specs.Traces.{BackedTransactionsLeaveNoTrace};

/// Whatever the jobs do, and wherever memory was wanting, the story of steps and replies is legal from nothing: each
/// lone command and each transaction at its commit has the answers of one map, each LOCK the reply of one count for
/// each job and name. An open transaction has the answers of the database at its start.
pub fn stories_are_legal()
    ensures legal { (steps : List (ℕ × Command)) → (replies : List Reply) → AreReplies steps replies nothing_done
        → IsLegal (story_of steps replies nothing_done).units initial }
    ensures sound { (steps : List (ℕ × Command)) → (replies : List Reply) → AreReplies steps replies nothing_done
        → (job : ℕ) → (t : Transaction) → transaction_of job (story_of steps replies nothing_done) ≡ Some t
        → IsSound (story_of steps replies nothing_done).units t }
{}

/// The units of a run of the machine, which never wants memory, are legal too.
pub fn runs_are_legal()
    ensures { (steps : List (ℕ × Command)) → IsLegal (run_of steps nothing_done).units initial }
{}

/// Each step has one reply, and the machine is what one reads off steps and replies without any map.
pub fn runs_are_their_stories()
    ensures replies { (steps : List (ℕ × Command)) → (s : Machine) → length (replies_of steps s) ≡ length steps }
    ensures story { (steps : List (ℕ × Command)) → (s : Machine) → story_of steps (replies_of steps s) s ≡ run_of steps s }
{}

/// What jobs were answered stands among the units: a lone command and a LOCK as a unit at once, a transaction that
/// commits as one unit with each data command that it was answered, from its start or restart on and in their order.
pub fn answers_stand_in_the_journal()
    ensures lone { LoneCommandsStand }
    ensures locks { (s : Machine) → (job : ℕ) → LocksStand s job }
    ensures whole { CommittedTransactionsStandWhole }
{}

/// Steps for which memory was wanting may be left out: the others have the machine's replies, and leave what it leaves.
pub fn steps_without_memory_leave_nothing()
    ensures story { (steps : List (ℕ × Command)) → (replies : List Reply) → (s : Machine) → AreReplies steps replies s
        → story_of steps replies s ≡ run_of (steps_done steps replies) s }
    ensures replies { (steps : List (ℕ × Command)) → (replies : List Reply) → (s : Machine) → AreReplies steps replies s
        → replies_done replies ≡ replies_of (steps_done steps replies) s }
{}

/// Want of memory hides no refusal that is looked at before memory is asked for (the law speaks of fewer than 2^64
/// units, and no journal has more), and what takes no memory has the machine's reply.
pub fn memory_is_wanting_only_where_it_is_taken()
    ensures early { (job : ℕ) → (command : Command) → (reply : Reply) → (s : Machine) → (refusal : Refusal) → IsReply job command reply s
        → length s.units < 2 ^ 64 → early_of command (transaction_of job s) ≡ Some refusal → reply ≡ Reply.Refused refusal }
    ensures sure { (job : ℕ) → (command : Command) → (reply : Reply) → (s : Machine) → IsReply job command reply s
        → takes_none command (transaction_of job s) ≡ true → reply ≡ reply_of job command s }
{}

/// A transaction that is rolled back or restarted leaves the database as it is, and the job's locks as they were at the
/// outermost TSTART; a HALT in it adds one unit, leaves the database as it is, and the job no locks and no transaction.
pub fn backed_transactions_leave_no_trace()
    ensures { BackedTransactionsLeaveNoTrace }
{}
