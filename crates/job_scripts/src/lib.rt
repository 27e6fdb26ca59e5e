//! Scripts of many jobs as text: lines by job on the way in, replies by job on the way out. No engine and no thread.
//!
//! Callers see the scripts of a text as the groups of its lines (`groups_in` of `specs/Groups.antt`): a job's lines in
//! order, jobs by the first line of each, and the lines without a job as a group of their own. A refused
//! line keeps its place, since lines are grouped by the job that stands before their reply. A report is seen as its job
//! and its replies, and its text is made where it is: `report_text` of `specs/Reports.antt`.
//!
//! Of the lines `2 SET ^B=1`, `1 SET ^A=1`, `2 $GET(^B)` there are two scripts: job 2 with two lines, then job 1. The
//! scripts of a text's halves, put together, are those of the text.
//!
//! Read `specs/Groups.antt`, `specs/Lines.antt`, `specs/Reports.antt`, `specs/Blocks.antt`, `specs/Timeouts.antt`, then
//! `grouping.rt`, `halves.rt`, `report.rt`, `block.rt`, `timeout.rt`.
#![tactic(auto)]

pub use block::{Block, block_of, push_in_place};
pub use grouping::scripts_of;
pub use halves::{halves_of, joined};
pub use lines::{Script, command_for, next_line, read_for, request_for};
pub use replies::{Replies, RepliesMark};
pub use report::{Report, write_reports};
pub use timeout::timeout_of;

mod block;
mod grouping;
mod halves;
mod lines;
mod replies;
mod report;
mod seen;
mod timeout;
