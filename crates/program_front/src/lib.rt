//! The front of the programs `mrun` and `mjobs`: what the words after a program's name ask for, what is kept in files at
//! the end, and what is printed where words are wrong, a file can't be opened, a line is refused or a run ends early. A
//! writer knows why it failed, and whether its reader has gone, so that a closed pipe ends a run without a line.
//!
//! Arguments are bytes, since one may be of any bytes. The parser reads one that isn't UTF-8 with each bad sequence
//! replaced; its answer says which argument is the file, so that its own bytes are kept and no other file is opened.
//!
//! The journal and the listing are written into new files, which take their places once a run has ended well: what lay
//! there stays as it was after any fault. Contracts say which bytes a text has and that a fault's exit status stays;
//! what becomes of files `tests/programs` tries.
//!
//! No contract says what the arguments ask for: tests run the parser on them, and `tests/programs` the programs. One
//! says that each print of what went wrong answers the exit status of a fault, and some say what a `Piped` holds and
//! when it is closed.
//!
//! Read `run_words.rt`, `jobs_words.rt`, `words.rt`, `in_use.rt`, then `piped.rt`, `progress.rt`, `ticker.rt`,
//! `printing.rt`, `hints.rt`, `statistics.rt`, `input_file.rt`, `listing_file.rt`, `kept_file.rt`.
#![tactic(auto)]

pub use input_file::{look_at_input, open_input};
pub use jobs_words::{MjobsArgs, Workers, mjobs_args_of, mjobs_args_with};
pub use kept_file::{Drafts, Keeping, keeping_of};
pub use listing_file::{ListingFile, read_listing};
pub use piped::Piped;
pub use printing::{
    FAULT_STATUS, arguments_of, path_of, print_bad_name, print_fault, print_greeting,
    print_help_or_error, print_jobs_greeting, print_load_fault, print_mark, print_no_transaction,
    print_refused, print_unloaded, print_unopened, print_unwritten, print_wanting, room_before,
};
pub use progress::Progress;
pub use run_words::{MrunArgs, mrun_args_of, mrun_args_with};
pub use statistics::{Statistics, print_statistics};
pub use ticker::Ticker;
pub use words::{FileNames, NamePlace};

mod hints;
mod in_use;
mod input_file;
mod jobs_words;
mod kept_file;
mod listing_file;
mod piped;
mod printing;
mod progress;
mod run_words;
mod statistics;
mod ticker;
mod words;
