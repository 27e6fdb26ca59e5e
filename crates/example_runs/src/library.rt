//! The library in use: a core does the lines of two jobs, one after the other.
use collation::Job;
use command::Reply;
use job_core::JobCore;
use script::{Drafts, read_line, write_reply};
use std::alloc::{AllocError, Global};

// Reads a line and does it: its job, where it names one, and the reply.
fn reply_to(alloc: Global, core: &mut JobCore, line: &str) -> (Option<Job>, Reply) {
    let mut drafts = Drafts::new(alloc);
    match read_line(alloc, line.as_bytes(), &mut drafts) {
        Ok((job, command)) => (Some(job), core.step(job, command)),
        Err(fault) => (fault.job, Reply::Refused(fault.refusal)),
    }
}

// Does a line on the core, and appends its reply to the text.
fn answer(
    alloc: Global,
    core: &mut JobCore,
    line: &str,
    text: &mut Vec<u8>,
) -> Result<(), AllocError> {
    let (job, reply) = reply_to(alloc, core, line);
    let written = write_reply(job, &reply, text);
    drop(reply);
    written
}

/// The replies, as they are written.
pub fn answers(alloc: Global, core: &mut JobCore) -> Result<Vec<u8>, AllocError> {
    let mut text = Vec::new(alloc);
    answer(alloc, core, "1 SET ^Stock(\"apples\")=3", &mut text)?;
    answer(alloc, core, "2 $GET(^Stock(\"apples\"))", &mut text)?;
    answer(alloc, core, "1 FOO", &mut text)?;
    Ok(text)
}
