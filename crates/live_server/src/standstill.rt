//! Standstills: jobs that wait for names that others of them hold. While input is open they are told after a while: all
//! open jobs, where each waits, and those of a circle, whatever other jobs do.
ghost use Rattle.std.specs.Prelude.{◌≡◌, true, IfSome, None};
ghost use Rattle.live_server.specs.Desks.{all_wait};

use crate::Bell;
use crate::circles::{Stuck, is_among};
use crate::desks::{Desks, Waiting, earlier};
use crate::live::{Live, is_blocked};
use collation::Job;
use command::Command;
use job_core::JobCore;
use script::{Drafts, read_line};
use std::alloc::{AllocError, Global};

// After so many milliseconds a standstill is told.
const LONG: u64 = 1000;

// A look for circles is followed by as many times of what it took in which there is none.
const REST: u64 = 16;

/// When a standstill is told, where there is one that wasn't, and when circles are looked for.
#[derive(Drop)]
pub(crate) struct Standstill {
    // When it is told that all open jobs wait.
    until: Option<u64>,
    // When there is a look for circles, where a LOCK without a timeout has begun to wait since the last.
    look: Option<u64>,
    // When the last was, and until when there is no other.
    looked: u64,
    rest: u64,
    // The jobs that were told. None of them goes on again.
    told: Vec<Job>,
}

// Whether each of the jobs has lines that wait.
fn do_all_wait(desks: &Desks, jobs: &[Job]) -> bool
    ensures { result ≡ all_wait desks.now jobs.now }
{
    'jobs: for job in jobs {
        if !desks.has_lines(*job) {
            return false;
        }
    }
    true
}

// Whether there is a time, and it is over.
fn is_over(until: Option<u64>, now: u64) -> bool {
    match until {
        Some(until) => until <= now,
        None => false,
    }
}

// When a LOCK without a timeout has waited for so long that circles through its job are told.
fn long_after(since: u64) -> u64 {
    since.saturating_add(LONG)
}

impl Standstill {
    /// None was told.
    pub(crate) fn new(alloc: Global) -> Standstill
        ensures none { result.until ≡ None }
    {
        Standstill {
            until: None,
            look: None,
            looked: 0,
            rest: 0,
            told: Vec::new(alloc),
        }
    }

    /// Until when there is nothing to do unless something comes: then a LOCK is due, a standstill is told, or circles
    /// are looked for.
    pub(crate) fn next_time(&mut self, live: &Live, bell: &impl Bell) -> Option<u64>
        ensures all { IfSome self.new.until (λ until. all_wait live.now.desks live.now.script.jobs ≡ true) }
    {
        let look = self.next_look(live);
        let due = live.desks.first_due();
        if due.is_some() || !self.is_new(live) {
            self.until = None;
            return earlier(due, look);
        }
        if self.until.is_none() {
            self.until = Some(bell.now().saturating_add(LONG));
        }
        earlier(self.until, look)
    }

    // Whether all open jobs wait, and not just such as were told.
    fn is_new(&self, live: &Live) -> bool
        ensures all { result ≡ true → all_wait live.now.desks live.now.script.jobs ≡ true }
    {
        let waiting = live.desks.count_waiting();
        let jobs = live.script.jobs.as_slice();
        waiting != self.told.len() && waiting == jobs.len() && do_all_wait(&live.desks, jobs)
    }

    // When circles are looked for next, as far as it is known: where a LOCK without a timeout has begun to wait.
    fn next_look(&mut self, live: &Live) -> Option<u64> {
        if self.look.is_none() {
            let at = long_after(live.desks.last_patient()?);
            if at > self.looked {
                self.look = Some(at.max(self.rest));
            }
        }
        self.look
    }

    // Whether it is to be told now that all wait. It is then told no more.
    fn takes_until(&mut self, now: u64) -> bool
        ensures once { result ≡ true → self.new.until ≡ None }
    {
        if !is_over(self.until, now) {
            return false;
        }
        self.until.take().is_some()
    }

    /// A time that `next_time` told is over, or that of a LOCK.
    pub(crate) fn tell(&mut self, alloc: Global, live: &Live, bell: &impl Bell)
        requires all { IfSome self.old.until (λ until. all_wait live.now.desks live.now.script.jobs ≡ true) }
    {
        let now = bell.now();
        if self.takes_until(now) {
            tell_waiting(alloc, live, bell);
            bell.stands_still();
            self.note_all(live);
        }
        if is_over(self.look, now) {
            let _is_done = self.look_now(alloc, live, now, bell);
            let after = bell.now();
            self.rest = after.saturating_add(after.saturating_sub(now).saturating_mul(REST));
        }
    }

    // The job was told. Where there is no memory to note it, it may be told again.
    fn note(&mut self, job: Job) {
        if !is_among(job, self.told.as_slice()) {
            let _noted = self.told.push(job);
        }
    }

    // So all that wait.
    fn note_all(&mut self, live: &Live) {
        'desks: for at in 0..live.desks.count_waiting() {
            if let Some(waiting) = live.desks.waiting(at) {
                self.note(waiting.job);
            }
        }
    }

    // Whether the LOCK has waited for so long, without a timeout, and hadn't at the last look.
    fn is_fresh(&self, waiting: &Waiting, now: u64) -> bool {
        let long = long_after(waiting.since);
        waiting.until.is_none() && long <= now && long > self.looked
    }

    // Looks for circles, and tells those that weren't told. Where memory is refused for it none is.
    fn look_now(
        &mut self,
        alloc: Global,
        live: &Live,
        now: u64,
        bell: &impl Bell,
    ) -> Result<(), AllocError> {
        let mut patient = Vec::new(alloc);
        let mut is_any = false;
        self.look = None;
        'desks: for at in 0..live.desks.count_waiting() {
            let Some(waiting) = live.desks.waiting(at) else {
                break;
            };
            if waiting.until.is_none() && long_after(waiting.since) <= now {
                is_any |= self.is_fresh(&waiting, now);
                patient.push(waiting.job)?;
            } else if waiting.until.is_none() {
                self.look = earlier(self.look, Some(long_after(waiting.since)));
            }
        }
        self.looked = now;
        if is_any {
            let stuck = Stuck::among(alloc, live, patient)?;
            self.tell_circles(alloc, live, &stuck, bell)?;
        }
        Ok(())
    }

    // Tells each circle of which a job wasn't told.
    fn tell_circles(
        &mut self,
        alloc: Global,
        live: &Live,
        stuck: &Stuck,
        bell: &impl Bell,
    ) -> Result<(), AllocError> {
        'jobs: for at in 0..stuck.jobs.len() {
            if let Some(job) = stuck.jobs.get(at) {
                if !is_among(*job, self.told.as_slice()) {
                    let circle = stuck.circle(alloc, at)?;
                    self.tell_circle(alloc, live, circle.as_slice(), bell);
                }
            }
        }
        Ok(())
    }

    // Tells this one.
    fn tell_circle(&mut self, alloc: Global, live: &Live, circle: &[Job], bell: &impl Bell) {
        'jobs: for job in circle {
            tell_job(alloc, live, *job, bell);
            self.note(*job);
        }
        if !circle.is_empty() {
            bell.stands_still();
        }
    }
}

// The job that alone keeps off a LOCK of another. None where several do, or the other holds some of its names itself.
fn holder_among(core: &JobCore, jobs: &[Job], job: Job, lock: &Command) -> Option<Job> {
    'jobs: for other in jobs {
        if *other != job && !is_blocked(core, *other, lock) {
            return Some(*other);
        }
    }
    None
}

// So of the LOCK in this line.
fn holder_of(alloc: Global, live: &Live, line: &[u8]) -> Option<Job> {
    let mut drafts = Drafts::new(alloc);
    match read_line(alloc, line, &mut drafts) {
        Ok((job, lock)) => {
            holder_among(&live.script.core, live.script.jobs.as_slice(), job, &lock)
        }
        Err(_) => None,
    }
}

// Tells in which line the job waits, and for whom.
fn tell_job(alloc: Global, live: &Live, job: Job, bell: &impl Bell) {
    if let Some(line) = live.desks.first(job) {
        let text = line.text();
        bell.waits(job, text, holder_of(alloc, live, text));
    }
}

/// So each that waits.
pub(crate) fn tell_waiting(alloc: Global, live: &Live, bell: &impl Bell) {
    'desks: for at in 0..usize::MAX {
        let Some(waiting) = live.desks.waiting(at) else {
            return;
        };
        tell_job(alloc, live, waiting.job, bell);
    }
}
