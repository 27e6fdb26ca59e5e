//! Jobs that meet: each would fail if jobs were done one after the other.
use crate::gates::Counts;
use collation::Job;
use job_scripts::scripts_of;
use job_server::{JobsFault, run_jobs, serve};
use journal::{Journal, Unit};
use listing::Counted;
use loading::NoLog;
use lock_name::LockCommand;
use shared_engine::{Gate, Mark, Stop};
use std::alloc::{AllocError, Global};
use std::rt::Clock;
use std::sync::Wait;
use std::test::Fail;
use std::thread;
use std::thread::Threads;

// How often a block is tried before it is done alone.
const TRIES: u64 = 3;

// What the jobs of a test wait for.
#[derive(Clone, Copy, PartialEq, Eq)]
enum Plan {
    // Job 1's first line waits for job 2's.
    Overlap,
    // Job 2's LOCK comes after job 1's, and job 1's second line after a try of that in vain.
    Handover,
    // Job 2's LOCK comes after job 1's, and job 1's second line after job 2's first.
    Timeout,
    // Each try of job 1's block is overtaken by a line of job 2.
    Overtaking,
    // The same, and job 2 has locked a name behind the third try; it goes on once job 1 waits.
    Held,
    // The same, and job 2 goes on once job 1's line behind its block was done.
    HeldOn,
    // The second line of each comes after the other's first, and jobs are stopped once each has tried a LOCK in vain.
    Crossing,
    // Nothing.
    Alone,
}

struct Meeting<'a, P> {
    rt: &'a P,
    counts: &'a Counts,
    plan: Plan,
}

impl<'a, P> Drop for Meeting<'a, P> {
    fn drop(self) {
        let Meeting {
            rt: _,
            counts: _,
            plan: _,
        } = self;
    }
}

impl<'a, P: Clock> Meeting<'a, P> {
    // Waits before a line that comes for so many times.
    fn wait(&self, job: u64, line: u64, times: u64) {
        match (self.plan, job, line) {
            (Plan::Overlap, 1, 1) => self.counts.wait_for_line(self.rt, 2, 1, 1),
            (Plan::Handover, 2, 1) => self.counts.wait_for_line(self.rt, 1, 1, 1),
            (Plan::Timeout, 2, 1) => self.counts.wait_for_line(self.rt, 1, 1, 1),
            (Plan::Timeout, 1, 2) => self.counts.wait_for_line(self.rt, 2, 1, 1),
            (Plan::Handover, 1, 2) => self.counts.wait_for_try(self.rt, 2),
            (Plan::Held | Plan::HeldOn, 2, 4) => self.counts.wait_for_line(self.rt, 1, 4, TRIES),
            (Plan::Held, 2, 5) => self.counts.wait_for_try(self.rt, 1),
            (Plan::HeldOn, 2, 5) => self.counts.wait_for_line(self.rt, 1, 4, TRIES + 1),
            (Plan::Overtaking | Plan::Held | Plan::HeldOn, 2, 1..=3) => {
                self.counts.wait_for_line(self.rt, 1, 2, line)
            }
            (Plan::Overtaking | Plan::Held | Plan::HeldOn, 1, 4) => {
                self.counts.wait_for_line(self.rt, 2, times, 1)
            }
            (Plan::Crossing, 1, 2) => self.counts.wait_for_line(self.rt, 2, 1, 1),
            (Plan::Crossing, 2, 2) => self.counts.wait_for_line(self.rt, 1, 1, 1),
            _ => {}
        }
    }

    // Waits behind job 1's last try but the one alone, until job 2 has the name.
    fn wait_behind(&self, job: u64, line: u64) {
        let is_held = matches!(self.plan, Plan::Held | Plan::HeldOn);
        if is_held && job == 1 && line == 4 && self.counts.times(1, 4) == TRIES {
            self.counts.wait_for_line(self.rt, 2, 4, 1);
        }
    }
}

impl<'a, P: Clock> Gate for Meeting<'a, P> {
    fn watches_lines(&self) -> bool {
        true
    }

    fn before(&self, job: Job, line: u64) {
        let times = self.counts.note_before(job, line);
        self.wait(job.number() as u64, line, times);
    }

    fn after(&self, job: Job, line: u64) {
        self.counts.note_after(job, line);
        self.wait_behind(job.number() as u64, line);
    }

    fn between_tries(&self, job: Job) {
        self.counts.note_try(job);
        thread::yield_now();
    }

    fn pause(&self, _job: Job, millis: u64) {
        self.counts.note_pause(millis);
        thread::yield_now();
    }

    fn now(&self) -> u64 {
        0
    }

    fn waits(&self, _job: Job, _command: &LockCommand) -> Mark {
        Mark {
            changes: 0,
            is_counted: false,
        }
    }

    fn tried(&self, _job: Job, mark: Mark) -> Mark {
        mark
    }

    fn goes_on(&self, _job: Job, _command: &LockCommand) {}

    fn job_begun(&self) {}

    fn job_failed(&self) {}

    fn stop(&self) -> Option<Stop> {
        let is_crossed = self.plan == Plan::Crossing
            && self.counts.tries(1) > 1
            && self.counts.tries(2) > 1;
        if is_crossed {
            Some(Stop::AllWait)
        } else {
            None
        }
    }

    fn job_done(&self, _done: u64, _jobs: u64, _lines: u64) {}
}

// What a script writes on two workers, how many waits were in vain, and how many milliseconds passed in pauses.
fn met<P: Clock + Threads + Wait + Sync>(
    rt: &P,
    alloc: Global,
    plan: Plan,
    input: &[u8],
) -> Result<(Vec<u8>, u64, u64), Fail> {
    let counts = Counts::new(alloc)?;
    let gate = Meeting {
        rt,
        counts: &counts,
        plan,
    };
    let mut reader = Counted::new(input);
    let mut writer = Counted::new(Vec::new(alloc));
    run_jobs(rt, alloc, b"", &mut reader, &mut writer, 2, &gate)?;
    let text = Vec::from_slice(alloc, writer.inner())?;
    Ok((text, counts.late(), counts.paused()))
}

// Whether a script writes this, with no wait in vain.
fn is_met<P: Clock + Threads + Wait + Sync>(
    rt: &P,
    alloc: Global,
    plan: Plan,
    input: &[u8],
    want: &[u8],
) -> Result<bool, Fail> {
    let (text, late, _) = met(rt, alloc, plan, input)?;
    Ok(late == 0 && text.as_slice() == want)
}

#[test]
fn two_jobs_overlap(rt: HostRuntime) -> Result<(), Fail> {
    let script = b"1 SET ^A=1\n2 SET ^B=2\n";
    let want = b"1 ok\n2 ok\n--\n^A=1\n^B=2\n";
    assert!(rt; is_met(&rt, rt.alloc(), Plan::Overlap, script, want)?);
    Ok(())
}

#[test]
fn a_lock_waits_until_its_names_are_given_back(rt: HostRuntime) -> Result<(), Fail> {
    let script = b"1 LOCK +^A\n2 LOCK +^A\n1 LOCK -^A\n";
    assert!(rt;
        is_met(
            &rt,
            rt.alloc(),
            Plan::Handover,
            script,
            b"1 1\n1 1\n2 1\n--\n"
        )?
    );
    Ok(())
}

// Of a LOCK the job, and whether it gave back, had its names or was kept off, as letters.
fn letters_of(unit: &Unit) -> Option<[u8; 2]> {
    match unit {
        Unit::Lock(job, _, command, had) => {
            let letter = match (command, had) {
                (LockCommand::Fewer(_), _) => b'-',
                (_, true) => b'+',
                (_, false) => b'0',
            };
            Some([if job.number() == 1 { b'1' } else { b'2' }, letter])
        }
        _ => None,
    }
}

// The letters of each unit of a LOCK.
fn locks_told(alloc: Global, journal: &Journal) -> Result<Vec<u8>, AllocError> {
    let mut told = Vec::new(alloc);
    for unit in journal.units() {
        let unit = unit?;
        let letters = letters_of(&unit);
        drop(unit);
        if let Some(letters) = letters {
            told.extend_from_slice(&letters)?;
        }
    }
    Ok(told)
}

// The units of the LOCKs of jobs 1 and 2, of which the second waits.
fn handed_over<P: Clock + Threads + Wait + Sync>(rt: &P, alloc: Global) -> Result<Vec<u8>, Fail> {
    let counts = Counts::new(alloc)?;
    let gate = Meeting {
        rt,
        counts: &counts,
        plan: Plan::Handover,
    };
    let scripts = scripts_of(alloc, b"1 LOCK +^A\n2 LOCK +^A\n1 LOCK -^A\n")?;
    let served = serve(rt, alloc, b"", &mut NoLog, scripts, 2, &gate)?;
    let told = locks_told(alloc, served.closed.core.journal());
    drop(served);
    Ok(told?)
}

#[test]
fn a_lock_that_waits_is_two_units(rt: HostRuntime) -> Result<(), Fail> {
    let told = handed_over(&rt, rt.alloc())?;
    assert_eq!(rt; told.as_slice(), b"1+201-2+".as_slice());
    Ok(())
}

// How a run of two jobs that wait for each other ends, and how often each of them tried in vain.
fn crossed<P: Clock + Threads + Wait + Sync>(
    rt: &P,
    alloc: Global,
    input: &[u8],
) -> Result<(Result<bool, JobsFault>, u64, u64), Fail> {
    let counts = Counts::new(alloc)?;
    let gate = Meeting {
        rt,
        counts: &counts,
        plan: Plan::Crossing,
    };
    let mut reader = Counted::new(input);
    let mut writer = Counted::new(Vec::new(alloc));
    let outcome = run_jobs(rt, alloc, b"", &mut reader, &mut writer, 2, &gate);
    Ok((outcome, counts.tries(1), counts.tries(2)))
}

#[test]
fn jobs_that_wait_for_each_other_are_stopped(rt: HostRuntime) -> Result<(), Fail> {
    let script = b"1 LOCK +^A\n1 LOCK +^B\n2 LOCK +^B\n2 LOCK +^A\n2 SET ^A=1\n3 SET ^B=1\n";
    let (outcome, first, second) = crossed(&rt, rt.alloc(), script)?;
    assert_eq!(rt; outcome, Err(JobsFault::AllWait));
    assert!(rt; first > 1 && second > 1);
    Ok(())
}

#[test]
fn a_block_is_run_alone_after_three_restarts(rt: HostRuntime) -> Result<(), Fail> {
    let script =
        b"1 TSTART\n1 $GET(^X)\n1 SET ^Y=1\n1 TCOMMIT\n2 SET ^X=1\n2 SET ^X=2\n2 SET ^X=3\n";
    let want = b"1 level 1\n1 3\n1 ok\n1 committed\n2 ok\n2 ok\n2 ok\n--\n^X=3\n^Y=1\n";
    assert!(rt; is_met(&rt, rt.alloc(), Plan::Overtaking, script, want)?);
    Ok(())
}

// Job 2's lines in front of those behind its LOCK.
const HOLDING: &[u8] = b"2 SET ^X=1\n2 SET ^X=2\n2 SET ^X=3\n2 LOCK +^L\n";

fn held_script(alloc: Global, block: &[u8], rest: &[u8]) -> Result<Vec<u8>, AllocError> {
    let mut script = Vec::from_slice(alloc, block)?;
    script.extend_from_slice(HOLDING)?;
    script.extend_from_slice(rest)?;
    Ok(script)
}

#[test]
fn a_block_done_alone_waits_for_names_and_begins_anew(rt: HostRuntime) -> Result<(), Fail> {
    let block = b"1 TSTART\n1 $GET(^X)\n1 LOCK +^L\n1 TCOMMIT\n";
    let script = held_script(rt.alloc(), block, b"2 SET ^X=4\n2 LOCK -^L\n")?;
    let want = b"1 level 1\n1 4\n1 1\n1 committed\n2 ok\n2 ok\n2 ok\n2 1\n2 ok\n2 1\n--\n^X=4\n";
    assert!(rt; is_met(&rt, rt.alloc(), Plan::Held, &script, want)?);
    Ok(())
}

#[test]
fn a_lock_with_a_timeout_in_a_block_done_alone_is_one_try(rt: HostRuntime) -> Result<(), Fail> {
    let block = b"1 TSTART\n1 $GET(^X)\n1 LOCK +^L:9\n1 TCOMMIT\n1 SET ^Y=1\n";
    let script = held_script(rt.alloc(), block, b"2 SET ^X=4\n")?;
    let want =
        b"1 level 1\n1 3\n1 0\n1 committed\n1 ok\n2 ok\n2 ok\n2 ok\n2 1\n2 ok\n--\n^X=4\n^Y=1\n";
    assert!(rt; is_met(&rt, rt.alloc(), Plan::HeldOn, &script, want)?);
    Ok(())
}

// Whether a script writes this with pauses of so many milliseconds, and no wait in vain.
fn is_met_in<P: Clock + Threads + Wait + Sync>(
    rt: &P,
    alloc: Global,
    input: &[u8],
    want: &[u8],
    millis: u64,
) -> Result<bool, Fail> {
    let (text, late, paused) = met(rt, alloc, Plan::Timeout, input)?;
    Ok(late == 0 && paused == millis && text.as_slice() == want)
}

#[test]
fn a_lock_with_a_timeout_gives_up(rt: HostRuntime) -> Result<(), Fail> {
    let script = b"1 LOCK +^A\n1 TSTART\n2 LOCK +^A:3\n2 LOCK -^A:9\n1 TROLLBACK\n";
    let want = b"1 1\n1 level 1\n1 ok\n2 0\n2 1\n--\n";
    assert!(rt; is_met_in(&rt, rt.alloc(), script, want, 3_000)?);
    Ok(())
}

#[test]
fn an_open_transaction_is_rolled_back_at_the_end(rt: HostRuntime) -> Result<(), Fail> {
    let script = b"1 SET ^A=1\n1 TSTART\n1 SET ^A=2\n1 FOO\n1 $GET(^A)\n";
    let want = b"1 ok\n1 level 1\n1 ok\n1 error 1 BadLine\n1 2\n--\n^A=1\n";
    assert!(rt; is_met(&rt, rt.alloc(), Plan::Alone, script, want)?);
    Ok(())
}

#[test]
fn a_session_ends_with_halt_and_the_next_line_begins_another(rt: HostRuntime) -> Result<(), Fail> {
    let script = b"1 TSTART\n1 SET ^A=2\n1 HALT\n1 $TLEVEL\n1 SET ^B=1\n1 HALT\n";
    let want = b"1 level 1\n1 ok\n1 ok\n1 0\n1 ok\n1 ok\n--\n^B=1\n";
    assert!(rt; is_met(&rt, rt.alloc(), Plan::Alone, script, want)?);
    Ok(())
}
