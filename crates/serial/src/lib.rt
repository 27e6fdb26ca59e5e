//! The machine of all jobs, and the laws of serial transactions: what any run of it gives is legal.
//!
//! `specs/Machine.antt` defines what each step of a job is replied and what it leaves. There is no code here: each law
//! is a public function that does nothing, and its clause is the law.
//!
//! The heart: a transaction's answers are those on the database at its start. A command's answer is fixed by the values
//! of what it read; what a unit doesn't touch keeps its value; so where no unit after the start touched what was read,
//! the answers are those at the commit too, and the transaction may stand among the units there, whole and in its turn.
//!
//! With `^A` at 1: job 1 begins and reads `^A`, job 2 sets `^A` to 2. Job 1's commit restarts it, since what it read
//! was touched. Had job 2 set `^B`, job 1 would be committed, and 1 would be the value of `^A` there too.
//!
//! Read `specs/Machine.antt`, `specs/Touches.antt`, `specs/Overtaking.antt`, `specs/Soundness.antt`,
//! `specs/Committing.antt`, `specs/Standing.antt`, `specs/Traces.antt`, `specs/Levels.antt`, `specs/Locking.antt`,
//! `specs/Memory.antt`, `specs/ReadRanges.antt` and `specs/Interleaving.antt`; then `laws.rt`, `commits.rt`,
//! `transactions.rt`, `runs.rt`, `locks.rt` and `interleaving.rt`. `specs/Answers.antt` says what a line is replied that
//! was read. Laws for callers: `specs/laws`. Not promised: that a transaction is ever committed, where others go on
//! touching what it reads.
#![tactic(auto)]

pub use commits::{
    commits_write_what_was_seen, read_sets_and_writes_grow, read_sets_are_ranges,
    touched_references_join, transactions_see_their_start,
};
pub use interleaving::{
    each_unit_is_claimed, histories_are_one_run, histories_grow_with_the_journal,
};
pub use laws::{
    answers_hold_while_what_was_read_stands, commands_touch_what_they_write,
    overtaken_where_what_was_read_is_touched, transactions_are_right_at_their_commit,
    untouched_references_keep_their_values,
};
pub use locks::{
    blocked_where_another_job_holds, counts_are_told_by_resource, jobs_hold_nothing_in_common,
    locks_are_counted_by_command, locks_are_granted_where_no_name_is_blocked,
    names_conflict_where_one_begins_the_other,
};
pub use runs::{
    answers_stand_in_the_journal, backed_transactions_leave_no_trace,
    memory_is_wanting_only_where_it_is_taken, runs_are_legal, runs_are_their_stories,
    steps_without_memory_leave_nothing, stories_are_legal,
};
pub use transactions::{
    ended_transactions_are_closed, levels_rise_and_fall_by_one, transactions_begin_now,
};

mod commits;
mod interleaving;
mod laws;
mod locks;
mod runs;
mod transactions;
