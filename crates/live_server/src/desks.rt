//! Lines that wait: behind a LOCK of their job that doesn't have its names.
ghost use Rattle.std.specs.Prelude.{◌≡◌, ℕ, Some, [], true, false, OnOk, OnErr, IfOk, IfSome};
ghost use Rattle.script.specs.Line.{job_of_line};
ghost use Rattle.live_server.specs.Desks.{no_lines, desk_of, first_of, HasChangedAt, pushed, passed, tried};
ghost use Rattle.live_server.specs.Desks.{has_lines as has_lines_spec};

use collation::Job;
use std::alloc::{AllocError, Global};
use std::collections::VecDeque;
use std::marker::Model;

// One more than the greatest number of a job.
const DESKS: usize = 4097;

// For how many lines a desk keeps its room once none waits there.
const MOST_LINES_KEPT: usize = 64;

/// A line that waits, and its number in the input. Contracts see its bytes.
#[derive(Drop)]
pub(crate) struct Line {
    text: Vec<u8>,
    number: u64,
}

impl Model for Line {
    ghost use Rattle.std.specs.Prelude.{List, ℕ};

    ghost Value = { List ℕ };

    ghost view = { λ l. l.text.items };
}

impl Line {
    fn copied(alloc: Global, text: &[u8], number: u64) -> Result<Line, AllocError>
        ensures { IfOk result (λ line. line ≡ text.now) }
    {
        let mut copy = Vec::new(alloc);
        copy.reserve_exact(text.len())?;
        copy.extend_from_slice(text)?;
        Ok(Line { text: copy, number })
    }

    /// Its bytes.
    pub(crate) fn text(&self) -> &[u8]
        ensures { result.now ≡ self.now }
    {
        &self.text
    }

    /// Its number.
    pub(crate) fn number(&self) -> u64 {
        self.number
    }
}

/// A job's lines that wait, in their order, and whether the first was tried in vain. Contracts see both.
#[derive(Drop)]
struct Desk {
    lines: VecDeque<Line, Global>,
    was_tried: bool,
}

impl Model for Desk {
    ghost use Rattle.live_server.specs.Desks.{DeskShown};

    ghost Value = { DeskShown };

    ghost view = { λ d. record { lines = d.lines.items; was_tried = d.was_tried } };
}

impl Desk {
    fn new(alloc: Global) -> Desk
        ensures { result ≡ no_lines }
    {
        Desk {
            lines: VecDeque::new(alloc),
            was_tried: false,
        }
    }

    fn has_lines(&self) -> bool
        ensures none { result ≡ false → self.now.lines ≡ [] }
        ensures is { result ≡ has_lines_spec self.now.lines }
    {
        self.lines.front().is_some()
    }

    fn was_tried(&self) -> bool
        ensures { result ≡ self.now.was_tried }
    {
        self.was_tried
    }

    fn first(&self) -> Option<&Line>
        ensures { IfSome result (λ line. first_of self.now.lines ≡ Some line.now) }
    {
        self.lines.front()
    }

    // Where none waited the line isn't tried yet.
    fn push(&mut self, line: Line) -> Result<(), AllocError>
        ensures pushed { OnOk result (self.new ≡ pushed line self.old) }
        ensures kept { OnErr result (self.new ≡ self.old) }
    {
        let was_tried = self.was_tried && self.lines.front().is_some();
        match self.lines.push_back(line) {
            Ok(()) => {
                self.was_tried = was_tried;
                Ok(())
            }
            Err(_) => Err(AllocError),
        }
    }

    // Where no line waits any more the room for many is given back.
    fn pass(&mut self)
        ensures { self.new ≡ passed self.old }
    {
        self.was_tried = false;
        let _line = self.lines.pop_front();
        if self.lines.is_empty() && self.lines.capacity() > MOST_LINES_KEPT {
            self.lines.shrink_to_fit();
        }
    }

    fn try_in_vain(&mut self)
        ensures { self.new ≡ tried self.old }
    {
        self.was_tried = true;
    }
}

/// A job whose first line waits, since when, and until when it does, where it has a timeout.
#[derive(Clone, Copy, Debug, Drop)]
pub(crate) struct Waiting {
    pub(crate) job: Job,
    pub(crate) since: u64,
    pub(crate) until: Option<u64>,
}

/// The desks of all jobs by their numbers, and the jobs that wait, first come first. Contracts see the desks.
#[derive(Drop)]
pub(crate) struct Desks {
    desks: Vec<Desk>,
    order: Vec<Waiting>,
    // When the first of those that wait with a timeout is due.
    due: Option<u64>,
    // When the last of those without a timeout began to wait, whether it waits still or not.
    patient: Option<u64>,
}

impl Model for Desks {
    ghost use Rattle.std.specs.Prelude.{List};
    ghost use Rattle.live_server.specs.Desks.{DeskShown, AreDesks};

    ghost Value = { List DeskShown };

    ghost view = { λ d. d.desks.items };

    ghost invariant = { λ d. AreDesks d.desks.items };
}

impl Desks {
    /// Empty ones for all jobs.
    #[tactic(auto, using(crate::proofs::Owned::new_desks, crate::proofs::Owned::more_none))]
    pub(crate) fn new(alloc: Global) -> Result<Desks, AllocError>
        ensures { IfOk result (λ desks. (job : ℕ) → desk_of desks job ≡ no_lines) }
    {
        let mut desks = Vec::with_capacity(alloc, DESKS)?;
        'desks: while desks.len() < DESKS {
            desks.push_reserved(Desk::new(alloc));
        }
        let order = Vec::with_capacity(alloc, DESKS)?;
        Ok(Desks {
            desks,
            order,
            due: None,
            patient: None,
        })
    }

    /// Whether lines of the job wait.
    pub(crate) fn has_lines(&self, job: Job) -> bool
        ensures none { result ≡ false → (desk_of self.now job).lines ≡ [] }
        ensures is { result ≡ has_lines_spec (desk_of self.now job).lines }
    {
        self.desks[job.number() as usize].has_lines()
    }

    /// The first of them.
    #[tactic(auto, using(crate::proofs::Owned::own_first))]
    pub(crate) fn first(&self, job: Job) -> Option<&Line>
        ensures { IfSome result (λ line. (first_of (desk_of self.now job).lines ≡ Some line.now) × (job_of_line line.now ≡ Some job)) }
    {
        self.desks[job.number() as usize].first()
    }

    /// The first of them, if it wasn't tried yet.
    pub(crate) fn untried(&self, job: Job) -> Option<&Line>
        ensures { IfSome result (λ line. (first_of (desk_of self.now job).lines ≡ Some line.now) × (job_of_line line.now ≡ Some job) × ((desk_of self.now job).was_tried ≡ false)) }
    {
        if self.desks[job.number() as usize].was_tried() {
            return None;
        }
        self.first(job)
    }

    /// Puts a copy of the line behind those of its job.
    pub(crate) fn push(
        &mut self,
        alloc: Global,
        job: Job,
        text: &[u8],
        number: u64,
    ) -> Result<(), AllocError>
        requires { job_of_line text.now ≡ Some job }
        ensures pushed { OnOk result (HasChangedAt job (pushed text.now) self.old self.new) }
        ensures kept { OnErr result (self.new ≡ self.old) }
    {
        let line = Line::copied(alloc, text, number)?;
        self.desks[job.number() as usize].push(line)
    }

    /// The job's first line is done.
    pub(crate) fn pass(&mut self, job: Job)
        ensures { HasChangedAt job passed self.old self.new }
    {
        self.desks[job.number() as usize].pass();
    }

    /// The job's first line was tried in vain: it waits since now, behind those that came before it.
    pub(crate) fn wait(
        &mut self,
        job: Job,
        since: u64,
        until: Option<u64>,
    ) -> Result<(), AllocError>
        ensures { HasChangedAt job tried self.old self.new }
    {
        self.desks[job.number() as usize].try_in_vain();
        self.order.push(Waiting { job, since, until })?;
        self.due = earlier(self.due, until);
        if until.is_none() {
            self.patient = Some(since);
        }
        Ok(())
    }

    /// The job at this place among those that wait.
    pub(crate) fn waiting(&self, at: usize) -> Option<Waiting> {
        self.order.get(at).copied()
    }

    /// The job at this place waits no longer.
    pub(crate) fn forget(&mut self, at: usize)
        ensures { self.new ≡ self.old }
    {
        if at < self.order.len() {
            let waiting = self.order.remove(at);
            if waiting.until.is_some() && waiting.until == self.due {
                self.due = first_due_of(&self.order);
            }
        }
    }

    /// How many wait.
    pub(crate) fn count_waiting(&self) -> usize {
        self.order.len()
    }

    /// When the first of those that wait with a timeout is due.
    pub(crate) fn first_due(&self) -> Option<u64> {
        self.due
    }

    /// When the last LOCK without a timeout began to wait.
    pub(crate) fn last_patient(&self) -> Option<u64> {
        self.patient
    }

    /// Whether no line waits.
    #[tactic(auto, using(crate::proofs::Owned::none_before, crate::proofs::Owned::one_more_empty, crate::proofs::Owned::all_empty))]
    pub(crate) fn are_empty(&self) -> bool
        ensures { result ≡ true → (job : ℕ) → (desk_of self.now job).lines ≡ [] }
    {
        let mut at = 0;
        'desks: while at < DESKS {
            if self.desks[at].has_lines() {
                return false;
            }
            at += 1;
        }
        true
    }
}

fn first_due_of(order: &[Waiting]) -> Option<u64> {
    let mut first = None;
    for waiting in order {
        first = earlier(first, waiting.until);
    }
    first
}

/// The earlier of two times, where there are such.
pub(crate) fn earlier(a: Option<u64>, b: Option<u64>) -> Option<u64> {
    match (a, b) {
        (Some(a), Some(b)) => Some(a.min(b)),
        (None, b) => b,
        (a, None) => a,
    }
}
