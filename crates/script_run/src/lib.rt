//! Scripts from bytes to bytes: lines in, replies and the listing out.
//!
//! Callers see it as one relation between the bytes read and the bytes written: `IsOutput` of
//! `specs/Output.antt`. Each line that isn't empty has one reply: the machine's at its place, or that memory was
//! wanting. After the last line each open job is halted; just one that isn't at work may be passed over, for want of
//! memory (`AreHalted`). The journal that is left is legal, and what is written is the text of the replies, `--`, and
//! the listing of the map that the journal leaves. After a fault what was written is a beginning of such a text.
//!
//! A job is open from its first accepted line, one that is read as a command and not refused memory, until a HALT that
//! is done; its next accepted line opens it anew.
//!
//! Input is read in pieces. The whole lines of a piece are run and their replies written before the next read,
//! so that a person or a program at the other end of a pipe gets its replies at once; where a read fails, just the
//! lines that had ended are answered. Replies are gathered in one buffer, which is taken before the first line and
//! written whenever it holds 16,384 bytes, and the listing is gathered in it too. A line is copied only where it goes
//! on from one piece to the next. The room that a long one took is given back when it is done.
//!
//! After each so many replies as the caller says, or where it costs little, the collector passes over the store, and a
//! checkpoint is taken (`upkeep.rt`). Both leave the machine, so no clause names them. Nor does one name a log, which is
//! told of lines and may ask to be shown the core after one (`log.rt`): what is written is promised alike for each.
//!
//! The parts of a run are public for `live_server`, whose jobs may wait: `Script`, what gathers a reply, cuts lines,
//! halts open jobs and writes the ending.
//!
//! Read `specs/Lines.antt`, `specs/OpenJobs.antt`, `specs/Output.antt`, then `outcome.rt`, `gathering.rt`,
//! `answers.rt`, `open_jobs.rt`, `upkeep.rt`, `lines.rt`, `run.rt`. Not promised: that memory is there; how the text is
//! cut into writes; what a log is told.
#![tactic(auto)]

pub use answers::Script;
pub use fault::{Fault, status_of};
pub use gathering::{answer_command, gather_asked, gather_reply, gather_unread};
pub use laws::lines_are_cut_at_their_ends;
pub use lines::{end_begun, extend_line, line_end, strip_return};
pub use log::{NoLog, RunLog};
pub use open_jobs::{OpenJobs, halt_open};
pub use outcome::Outcome;
pub use run::{PIECE_BYTES, read_piece, run_script, run_with, run_with_core, write_ending};
pub use upkeep::{Due, Pace, Upkeep, keep_up};

mod answers;
mod fault;
mod gathering;
mod laws;
mod lines;
mod log;
mod open_jobs;
mod outcome;
mod run;
mod upkeep;
