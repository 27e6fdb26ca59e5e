//! The job server: scripts of many jobs run at the same time on one engine.
//!
//! A long text's lines are sorted by job in halves of halves, in as many threads as there are workers or fewer. A job's
//! lines are done in order by one worker. Jobs wait in a queue, in order of their first lines; a worker takes the next
//! one whole, and hands its report back whole. What workers share is the engine and two channels, and no line.
//!
//! A block is a TSTART outside a transaction and the lines after it, up to the one that leaves no transaction open, the
//! one before a HALT, or the job's last. Where its TCOMMIT finds that the transaction was overtaken, its lines after
//! the TSTART are done again, and only the replies of the last try are kept. After the third such restart they are done
//! by `Shared::trestart_serially`: the transaction begins anew once more, under one hold of the engine's lock, in which
//! no TCOMMIT restarts it. So only a TRESTART line is replied with a restart.
//!
//! A LOCK that is kept off waits: it tries again after a `Gate::between_tries` or a `Gate::pause`, where it has a
//! timeout until that is over. Without one it is never replied that it was blocked. Under one hold a LOCK is one
//! try; where one without a timeout is blocked there, the transaction begins anew, its job waits for the names, gives
//! them back as it begins anew once more, and does the block again.
//!
//! | File | Does |
//! |---|---|
//! | `fault.rt` | why a run ended early |
//! | `cursor.rt` | a place in a job's lines |
//! | `replies.rt` | what calls of the engine are replied |
//! | `job_run.rt` | a command of a job, by the calls of its session |
//! | `running.rt` | a job as it is run, and one line of it |
//! | `gathering.rt` | lines that are gathered for one hold of the engine's lock |
//! | `holding.rt` | lines that are done under one hold |
//! | `blocks.rt` | blocks, as often as they are overtaken |
//! | `turns.rt` | when the collector looks, and at how many keys |
//! | `in_turn.rt` | whether sessions were over when others began |
//! | `worker.rt` | the lines of one job, and of one job after the other |
//! | `load.rt` | the listing that is loaded before the first job |
//! | `serving.rt` | the workers, the channels, the reports in order |
//! | `sorting.rt` | the lines of a text by job, by several threads |
//! | `run.rt` | bytes in, bytes out |
//!
//! Not promised: that jobs overlap, that a LOCK has its names at last, how often a block is done again.
#![tactic(auto)]

pub use fault::{JobsFault, ServerFault, Unserved, status_of};
pub use run::{run_jobs, run_text, serve_text, write_served};
pub use serving::{Served, serve};
pub use sorting::scripts_by_halves;

mod blocks;
mod cursor;
mod fault;
mod gathering;
mod holding;
mod in_turn;
mod job_run;
mod load;
mod replies;
mod run;
mod running;
mod serving;
mod sorting;
mod turns;
mod worker;
