//! Lines that are done one by one on a core, for the other tests.
use job_core::JobCore;
use refusal::Refusal;
use script::{Drafts, read_line, write_reply};
use std::alloc::Global;

/// Does the line and puts its reply, as text, after what stands in `out`.
pub fn answer(
    alloc: Global,
    core: &mut JobCore,
    line: &[u8],
    out: &mut Vec<u8>,
) -> Result<(), Refusal> {
    let mut drafts = Drafts::new(alloc);
    match read_line(alloc, line, &mut drafts) {
        Ok((job, command)) => {
            let reply = core.step(job, command);
            let written = write_reply(Some(job), &reply, out);
            drop(reply);
            written?;
            Ok(())
        }
        Err(fault) => Err(fault.refusal),
    }
}

/// Whether the line's reply is this text, without the byte 10 at its end.
pub fn answers(
    alloc: Global,
    core: &mut JobCore,
    line: &[u8],
    want: &[u8],
) -> Result<bool, Refusal> {
    let mut out = Vec::new(alloc);
    answer(alloc, core, line, &mut out)?;
    Ok(out.strip_suffix(b"\n".as_slice()) == Some(want))
}

/// A line and its reply.
pub type Row = (&'static str, &'static str);

/// Whether the lines have these replies, one after the other.
pub fn are_answered(alloc: Global, core: &mut JobCore, rows: &[Row]) -> Result<bool, Refusal> {
    for (line, reply) in rows {
        if !answers(alloc, core, line.as_bytes(), reply.as_bytes())? {
            return Ok(false);
        }
    }
    Ok(true)
}

fn do_all(alloc: Global, core: &mut JobCore, lines: &[&str]) -> Result<(), Refusal> {
    let mut replies = Vec::new(alloc);
    for line in lines {
        answer(alloc, core, line.as_bytes(), &mut replies)?;
    }
    Ok(())
}

/// What is done on a core.
pub trait Acts {
    /// Whether all goes as it should.
    fn act(self, alloc: Global, core: &mut JobCore) -> Result<bool, Refusal>;
}

/// Rows, one after the other.
#[derive(Clone, Copy)]
pub struct Rows<'a>(pub &'a [Row]);

impl Acts for Rows<'_> {
    fn act(self, alloc: Global, core: &mut JobCore) -> Result<bool, Refusal> {
        are_answered(alloc, core, self.0)
    }
}

/// Whether all goes as it should on a new core, after these lines.
pub fn goes<A: Acts>(alloc: Global, lines: &[&str], case: A) -> bool {
    let mut core = JobCore::new(alloc);
    let done = do_all(alloc, &mut core, lines);
    let went = case.act(alloc, &mut core);
    drop(core);
    done == Ok(()) && went == Ok(true)
}
