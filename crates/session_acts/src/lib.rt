//! For tests and programs: commands, made from lines, by the calls of a session of the shared engine.
#![tactic(auto)]

pub use acts::{
    NoTime, command_of, data_of, is_replied, is_written, opened, reply_to, reply_to_line,
};

mod acts;
