//! Readers and writers that fail, and jobs in all numbers.
use crate::gates::Yielding;
use job_server::{JobsFault, run_jobs, status_of};
use listing::Counted;
use std::alloc::{AllocError, Global};
use std::io;
use std::io::{ErrorKind, Read, Write};
use std::sync::Wait;
use std::test::Fail;
use std::thread::Threads;

const SCRIPT: &[u8] = b"2 SET ^B=1\n1 SET ^A=1\n2 $GET(^B)\n1 FOO\n";

const OUTPUT: &[u8] = b"2 ok\n2 1\n1 ok\n1 error 1 BadLine\n--\n^A=1\n^B=1\n";

// A text in pieces, and the number of the call that fails (0: none).
#[derive(Drop)]
struct Pieces<'a> {
    text: &'a [u8],
    fails_at: u64,
    calls: u64,
}

impl Read for Pieces<'_> {
    fn read(&mut self, buf: &mut [u8]) -> io::Result<usize> {
        self.calls = self.calls.saturating_add(1);
        if self.calls == self.fails_at {
            return Err(io::Error::from(ErrorKind::Other));
        }
        let n = self.text.len().min(buf.len()).min(7);
        let (front, rest) = self.text.split_at(n);
        buf[..n].copy_from_slice(front);
        self.text = rest;
        Ok(n)
    }
}

// What was written, and the number of the call that fails (0: none).
#[derive(Drop)]
struct Taken {
    text: Vec<u8>,
    fails_at: u64,
    calls: u64,
}

impl Write for Taken {
    fn write(&mut self, buf: &[u8]) -> io::Result<usize> {
        self.calls = self.calls.saturating_add(1);
        if self.calls == self.fails_at {
            return Err(io::Error::from(ErrorKind::Other));
        }
        let n = buf.len().min(7);
        self.text.extend_from_slice(&buf[..n])?;
        Ok(n)
    }

    fn flush(&mut self) -> io::Result<()> {
        Ok(())
    }
}

// How a run went, what was written, how many calls there were, and how many of the reader's and the writer's failed.
#[derive(Drop)]
struct Went {
    outcome: Result<bool, JobsFault>,
    text: Vec<u8>,
    reads: u64,
    writes: u64,
    failures: (u64, u64),
}

fn run<R: Threads + Wait + Sync>(
    rt: &R,
    alloc: Global,
    read: u64,
    write: u64,
) -> Result<Went, Fail> {
    let mut reader = Counted::new(Pieces {
        text: SCRIPT,
        fails_at: read,
        calls: 0,
    });
    let mut writer = Counted::new(Taken {
        text: Vec::new(alloc),
        fails_at: write,
        calls: 0,
    });
    let outcome = run_jobs(rt, alloc, b"", &mut reader, &mut writer, 2, &Yielding);
    Ok(Went {
        outcome,
        text: Vec::from_slice(alloc, &writer.inner().text)?,
        reads: reader.inner().calls,
        writes: writer.inner().calls,
        failures: (reader.failures(), writer.failures()),
    })
}

// A read that fails is the last one, and nothing is written.
fn ends_at_read<R: Threads + Wait + Sync>(rt: &R, alloc: Global, call: u64) -> Result<bool, Fail> {
    let went = run(rt, alloc, call, 0)?;
    Ok(
        went.outcome == Err(JobsFault::Read)
            && went.reads == call
            && went.failures == (1, 0)
            && went.text.is_empty(),
    )
}

// A write that fails is the last one, and a beginning is written.
fn ends_at_write<R: Threads + Wait + Sync>(rt: &R, alloc: Global, call: u64) -> Result<bool, Fail> {
    let went = run(rt, alloc, 0, call)?;
    Ok(
        went.outcome == Err(JobsFault::Write)
            && went.writes == call
            && went.failures == (0, 1)
            && OUTPUT.starts_with(&went.text)
            && went.text.len() < OUTPUT.len(),
    )
}

// How many reads and writes there are where none fails; none where something else than the output is written.
fn calls_of<R: Threads + Wait + Sync>(rt: &R, alloc: Global) -> Result<(u64, u64), Fail> {
    let went = run(rt, alloc, 0, 0)?;
    let is_whole = went.outcome == Ok(true) && went.text.as_slice() == OUTPUT;
    Ok(if is_whole {
        (went.reads, went.writes)
    } else {
        (0, 0)
    })
}

// Whether a run ends at each read, and at each write, that fails.
fn end_at_each<R: Threads + Wait + Sync>(
    rt: &R,
    alloc: Global,
    reads: u64,
    writes: u64,
) -> Result<bool, Fail> {
    for call in 1..=reads {
        if !ends_at_read(rt, alloc, call)? {
            return Ok(false);
        }
    }
    for call in 1..=writes {
        if !ends_at_write(rt, alloc, call)? {
            return Ok(false);
        }
    }
    Ok(true)
}

#[test]
fn runs_end_at_each_failing_call(rt: HostRuntime) -> Result<(), Fail> {
    let (reads, writes) = calls_of(&rt, rt.alloc())?;
    assert!(rt; reads > 5 && writes > 5);
    assert!(rt; end_at_each(&rt, rt.alloc(), reads, writes)?);
    Ok(())
}

#[test]
fn statuses_tell_how_a_run_went(rt: HostRuntime) {
    let missing = Err(JobsFault::Missing);
    let found = [
        status_of(&Ok(false)),
        status_of(&Ok(true)),
        status_of(&missing),
    ];
    assert!(rt; found == [0, 1, 2]);
}

fn push_line(alloc: Global, script: &mut Vec<u8>, job: u64) -> Result<(), AllocError> {
    let line = format!(in alloc; "{job} SET ^A({job})={job}\n")?;
    script.extend_from_slice(line.as_bytes())
}

// A script of so many jobs with so many lines each.
fn script_of(alloc: Global, jobs: u64, lines: u64) -> Result<Vec<u8>, AllocError> {
    let mut script = Vec::new(alloc);
    for _ in 0..lines {
        for job in 1..=jobs {
            push_line(alloc, &mut script, job)?;
        }
    }
    Ok(script)
}

// How many lines a script is answered with, on so many workers.
fn answered<R: Threads + Wait + Sync>(
    rt: &R,
    alloc: Global,
    script: &[u8],
    workers: usize,
) -> Result<usize, Fail> {
    let mut reader = Counted::new(script);
    let mut writer = Counted::new(Vec::new(alloc));
    run_jobs(rt, alloc, b"", &mut reader, &mut writer, workers, &Yielding)?;
    Ok(writer.inner().iter().filter(|byte| **byte == b'\n').count())
}

fn lines_of<R: Threads + Wait + Sync>(
    rt: &R,
    alloc: Global,
    jobs: u64,
    lines: u64,
    workers: usize,
) -> Result<usize, Fail> {
    let script = script_of(alloc, jobs, lines)?;
    answered(rt, alloc, &script, workers)
}

#[test]
fn jobs_in_all_numbers_are_answered(rt: HostRuntime) -> Result<(), Fail> {
    let all = lines_of(&rt, rt.alloc(), 4096, 1, 3)?;
    assert_eq!(rt; all, 4096 + 1 + 4096);
    Ok(())
}

// One of sixteen workers has something to do. It takes longer than `rt try` allows.
#[test]
fn many_lines_of_one_job_are_answered(rt: HostRuntime) -> Result<(), Fail> {
    let all = lines_of(&rt, rt.alloc(), 1, 1_000_000, 16)?;
    assert_eq!(rt; all, 1_000_000 + 1 + 1);
    Ok(())
}
