//! The replies of one job, and their text.
ghost use Rattle.std.specs.Prelude.{◌≡◌, length, OnOk, OnErr};
ghost use Rattle.std.specs.Io.KnownBytes.{Appends};
ghost use Rattle.listing.specs.Bytes.{WritesBeginning, IsOneMore};
ghost use Rattle.job_scripts.specs.Reports.{report_text, reports_text, some_refused};

use crate::replies::Replies;
use collation::Job;
use listing::{Counted, WriteFault};
use std::io::Write;
use std::marker::Model;
use std::snapshot::Snapshot;

/// The replies to the lines of a job, or of none, in order, as their text. The replies themselves clauses alone see.
#[derive(Drop)]
pub struct Report {
    job: Option<Job>,
    told: Snapshot<Replies>,
    count: usize,
    text: Vec<u8>,
    refused: bool,
}

impl Model for Report {
    ghost use Rattle.std.specs.Prelude.{◌≡◌, length};
    ghost use Rattle.job_scripts.specs.Reports.{Answers, report_text, some_refused};

    ghost Value = { Answers };

    ghost view = { λ r. r.told.value };

    ghost invariant = { λ r. (r.job ≡ r.told.value.job) × ((r.text.items ≡ report_text r.told.value)
        × ((r.refused ≡ some_refused r.told.value) × (r.count ≡ length r.told.value.replies))) };
}

impl Report {
    /// The report of a job's replies.
    pub fn new(replies: Replies) -> Report
        ensures { result ≡ replies }
    {
        let told = Snapshot::of(&replies);
        let count = replies.count();
        let (job, text, refused) = replies.into_parts();
        Report {
            job,
            told,
            count,
            text,
            refused,
        }
    }

    /// The job, or none.
    pub fn job(&self) -> Option<Job>
        ensures { result ≡ self.now.job }
    {
        self.job
    }

    /// How many replies there are.
    pub fn count(&self) -> usize
        ensures { result ≡ length self.now.replies }
    {
        self.count
    }

    /// A line for each reply.
    pub fn text(&self) -> &[u8]
        ensures { result.now ≡ report_text self.now }
    {
        self.text.as_slice()
    }

    /// Whether a reply is a refusal.
    pub fn refused(&self) -> bool
        ensures { result ≡ some_refused self.now }
    {
        self.refused
    }
}

/// Writes the replies, report by report.
///
/// After a fault a beginning of their text was written, and one more failure of the writer is counted.
pub fn write_reports<W: Write>(
    reports: &[Report],
    writer: &mut Counted<W>,
) -> Result<(), WriteFault>
    ensures ok { OnOk result (Appends (W.contents writer.old.inner) (W.contents writer.new.inner) (reports_text reports.now)) }
    ensures err { OnErr result (WritesBeginning (W.contents writer.old.inner) (W.contents writer.new.inner) (reports_text reports.now)) }
    ensures kept { OnOk result (writer.new.failures ≡ writer.old.failures) }
    ensures counted { OnErr result (IsOneMore writer.old.failures writer.new.failures) }
{
    'reports: for report in reports {
        writer.write_text(report.text())?;
    }
    Ok(())
}
