//! The moments whose database can be looked at.
ghost use Rattle.embedded.specs.Moments.{IsSeen};

use collation::Job;
use job_core::JobCore;
use refusal::Refusal;
use version_store::Snapshot;

/// The database of a moment: at 0 as it is now, at a job's number as it was when the job's open transaction began.
/// Takes no memory.
///
/// Refusals: `BadJob` where no job has that number, `NoTransaction` where its job has no open transaction.
pub(crate) fn seen(core: &JobCore, moment: u64) -> Result<Snapshot<'_>, Refusal>
    ensures { IsSeen moment core.now.machine result }
{
    if moment == 0 {
        return Ok(core.content());
    }
    match Job::new(moment) {
        Ok(job) => match core.content_at_start(job) {
            Some(view) => Ok(view),
            None => Err(Refusal::NoTransaction),
        },
        Err(refusal) => Err(refusal),
    }
}
