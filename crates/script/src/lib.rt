//! The text of a script: what a line asks, and replies as lines.
//!
//! Callers see a line as a list of bytes, and what it asks as the number of a job and a command of the language, or
//! a refusal: `reading_of` in `specs/Line.antt`. A line is looked at in this order, and the first fault decides:
//!
//! (1) its grammar: `command_at` in `specs/Commands.antt`, which knows no limits;
//! (2) its job, from 1 to 4,096, however many digits it has;
//! (3) its references, lock names and values from left to right: `command_fault` in `specs/Commands.antt`.
//!
//! So `4097 LOCK 5 x` gets BadLine, `4097 LOCK 5` gets BadJob, `1 LOCK 5` gets BadName. The job that is
//! printed before a refusal is `job_of_line`. Replies: `reply_text` in `specs/Text.antt`.
//!
//! The grammar stands apart as a relation, `IsLine` in `specs/Grammar.antt`; `specs/Statements.antt` ties both together.
//!
//! A line is read once: its references into the key bytes of drafts that serve for the next line too, lock names into
//! a list up to the first that is at fault, the rest of it into a sentence; where line and job are good, these make the
//! command. What a timeout says is read and kept nowhere.
//!
//! A refused line is looked at once more by who wants to know its fault's column (`locate_fault`).
//!
//! Read `specs/Line.antt`, `specs/Grammar.antt`, `specs/Statements.antt`, `specs/Text.antt`, then `line.rt`,
//! `sentence.rt`, `lock.rt`, `finish.rt`, `reply.rt`.
#![tactic(auto)]

pub use expected::Expected;
pub use laws::lines_are_read_as_spelled;
pub use line::{
    LineFault, finish_request, job_of_line, key_of_get, key_of_kill, key_of_set, place_of_order,
    read_line, read_request,
};
pub use locate::{LocatedFault, locate_fault};
pub use lock::Form;
pub use reply::{write_answered, write_done, write_got, write_reply};
pub use sentence::{DataSentence, Drafts, Sentence};
pub use word::AloneWord;

mod blank;
mod expected;
mod finish;
mod laws;
mod line;
mod locate;
mod lock;
mod names;
mod reply;
mod sentence;
mod word;
