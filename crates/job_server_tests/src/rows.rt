//! Worked rows: the row of two jobs, and scripts of one job, which are answered as `mrun` answers them.
use crate::gates::Yielding;
use collation::Job;
use job_scripts::{Report, Script, write_reports};
use job_server::{run_jobs, serve};
use listing::Counted;
use loading::NoLog;
use script_run::{Upkeep, run_script};
use std::alloc::{AllocError, Global};
use std::sync::Wait;
use std::test::Fail;
use std::thread::Threads;
use worked_rows::{ANSWERED, COMMITS, INSIDE, LEVELS, OUTSIDE, REFUSED, Row};

// What a script writes on so many workers, and whether a reply is a refusal.
fn output_of<R: Threads + Wait + Sync>(
    rt: &R,
    alloc: Global,
    input: &[u8],
    workers: usize,
) -> Result<(Vec<u8>, bool), Fail> {
    let mut reader = Counted::new(input);
    let mut writer = Counted::new(Vec::new(alloc));
    let refused = run_jobs(rt, alloc, b"", &mut reader, &mut writer, workers, &Yielding)?;
    let text = Vec::from_slice(alloc, writer.inner())?;
    Ok((text, refused))
}

// What `mrun` writes.
fn output_of_one(alloc: Global, input: &[u8]) -> Result<(Vec<u8>, bool), Fail> {
    let mut reader = Counted::new(input);
    let mut writer = Counted::new(Vec::new(alloc));
    let outcome = run_script(alloc, Upkeep::none(), &mut reader, &mut writer)?;
    let text = Vec::from_slice(alloc, writer.inner())?;
    Ok((text, outcome.refused))
}

// Whether a script writes this, and whether a reply is a refusal is as told.
fn writes<R: Threads + Wait + Sync>(
    rt: &R,
    alloc: Global,
    input: &[u8],
    workers: usize,
    want: &[u8],
    refused: bool,
) -> Result<bool, Fail> {
    let (text, found) = output_of(rt, alloc, input, workers)?;
    Ok(text.as_slice() == want && found == refused)
}

#[test]
fn jobs_are_answered_by_job(rt: HostRuntime) -> Result<(), Fail> {
    let script = b"2 SET ^B=1\n1 SET ^A=1\n2 $GET(^B)\n";
    let want = b"2 ok\n2 1\n1 ok\n--\n^A=1\n^B=1\n";
    assert!(rt; writes(&rt, rt.alloc(), script, 2, want, false)?);
    Ok(())
}

#[test]
fn refused_lines_keep_their_place_and_those_without_a_job_are_a_group(
    rt: HostRuntime,
) -> Result<(), Fail> {
    let script = b"x\n3 FOO\n3 SET ^A=1\n5000 HALT\n3 $GET(^A,)\n3 $GET(^A)\n\n";
    let want =
        b"0 error 1 BadLine\n0 error 12 BadJob\n3 error 1 BadLine\n3 ok\n3 error 1 BadLine\n3 1\n--\n^A=1\n";
    assert!(rt; writes(&rt, rt.alloc(), script, 2, want, true)?);
    Ok(())
}

#[test]
fn nothing_is_answered_with_the_listing_alone(rt: HostRuntime) -> Result<(), Fail> {
    assert!(rt; writes(&rt, rt.alloc(), b"\n\r\n", 16, b"--\n", false)?);
    Ok(())
}

// A script of job 1, alone.
fn script_of(alloc: Global, text: &[u8]) -> Result<Vec<Script<'_>>, Fail> {
    let mut lines = Vec::new(alloc);
    for line in text.split(|byte| *byte == b'\n') {
        if !line.is_empty() {
            lines.push(line)?;
        }
    }
    let mut scripts = Vec::new(alloc);
    scripts.push(Script {
        job: Some(Job::new(1)?),
        lines,
    })?;
    Ok(scripts)
}

fn written_reports(alloc: Global, reports: &[Report]) -> Result<Vec<u8>, Fail> {
    let mut writer = Counted::new(Vec::new(alloc));
    write_reports(reports, &mut writer)?;
    Ok(Vec::from_slice(alloc, writer.inner())?)
}

// What such a script is replied, of which some lines are other jobs'.
fn replies_of<R: Threads + Wait + Sync>(
    rt: &R,
    alloc: Global,
    text: &[u8],
) -> Result<Vec<u8>, Fail> {
    let scripts = script_of(alloc, text)?;
    let served = serve(rt, alloc, b"", &mut NoLog, scripts, 1, &Yielding)?;
    let written = written_reports(alloc, served.reports.as_slice());
    drop(served);
    written
}

#[test]
fn lines_of_other_jobs_are_refused(rt: HostRuntime) -> Result<(), Fail> {
    let script =
        b"1 SET ^A=1\n2 SET ^A=2\n2 LOCK ^A\n1 TSTART\n2 SET ^A=3\n2 TCOMMIT\n2 HALT\n1 $GET(^A)\n2 FOO\n1 TCOMMIT\n";
    let want =
        b"1 ok\n1 error 12 BadJob\n1 error 12 BadJob\n1 level 1\n1 error 12 BadJob\n1 error 12 BadJob\n1 error 12 BadJob\n1 1\n1 error 1 BadLine\n1 committed\n";
    let replies = replies_of(&rt, rt.alloc(), script)?;
    assert_eq!(rt; replies.as_slice(), want.as_slice());
    Ok(())
}

// The lines of a script, each as job 1's, also those of a number that is no job's. No line waits for another then.
fn as_one_job(alloc: Global, script: &str) -> Result<Vec<u8>, Fail> {
    let mut text = Vec::new(alloc);
    let mut begins = true;
    let mut is_number = false;
    for byte in script.as_bytes() {
        let goes_on = is_number && matches!(*byte, b'0'..=b'9');
        is_number = goes_on || begins && matches!(*byte, b'1'..=b'9');
        if !goes_on {
            text.push(if is_number { b'1' } else { *byte })?;
        }
        begins = *byte == b'\n';
    }
    Ok(text)
}

// Whether two workers write what `mrun` does.
fn writes_alike<R: Threads + Wait + Sync>(
    rt: &R,
    alloc: Global,
    script: &[u8],
) -> Result<bool, Fail> {
    let (want, refused) = output_of_one(alloc, script)?;
    writes(rt, alloc, script, 2, &want, refused)
}

// The same for a script whose lines are all made job 1's.
fn is_answered_alike<R: Threads + Wait + Sync>(
    rt: &R,
    alloc: Global,
    script: &str,
) -> Result<bool, Fail> {
    let lines = as_one_job(alloc, script)?;
    writes_alike(rt, alloc, &lines)
}

// The number of the first script that one job is answered otherwise than by `mrun`; or none.
fn first_other<R: Threads + Wait + Sync>(
    rt: &R,
    alloc: Global,
    rows: &[Row],
) -> Result<Option<usize>, Fail> {
    for (i, (script, _)) in rows.iter().enumerate() {
        if !is_answered_alike(rt, alloc, script)? {
            return Ok(Some(i));
        }
    }
    Ok(None)
}

#[test]
fn data_commands_of_one_job_are_answered_as_by_mrun(rt: HostRuntime) -> Result<(), Fail> {
    assert_eq!(rt; first_other(&rt, rt.alloc(), &ANSWERED)?, None);
    assert_eq!(rt; first_other(&rt, rt.alloc(), &REFUSED)?, None);
    Ok(())
}

#[test]
fn transactions_of_one_job_are_answered_as_by_mrun(rt: HostRuntime) -> Result<(), Fail> {
    assert_eq!(rt; first_other(&rt, rt.alloc(), &COMMITS)?, None);
    assert_eq!(rt; first_other(&rt, rt.alloc(), &LEVELS)?, None);
    Ok(())
}

#[test]
fn locks_of_one_job_are_answered_as_by_mrun(rt: HostRuntime) -> Result<(), Fail> {
    assert_eq!(rt; first_other(&rt, rt.alloc(), &OUTSIDE)?, None);
    assert_eq!(rt; first_other(&rt, rt.alloc(), &INSIDE)?, None);
    Ok(())
}

// How many lone SETs a job has, and how many blocks: more than a turn of the collector waits for.
const SETS: u64 = 150;

const BLOCKS: u64 = 50;

// A job's lines, on nodes of its own: a run of SETs, then blocks.
fn push_job(alloc: Global, text: &mut Vec<u8>, job: u64) -> Result<(), AllocError> {
    for i in 0..SETS {
        let node = i % 10;
        let line = format!(in alloc; "{job} SET ^A({job},{node})={i}\n")?;
        text.extend_from_slice(line.as_bytes())?;
    }
    for i in 0..BLOCKS {
        let node = i % 10;
        let block = format!(in alloc;
            "{job} TSTART\n{job} SET ^A({job})={i}\n{job} KILL ^A({job},{node})\n{job} $GET(^A({job}))\n{job} TCOMMIT\n"
        )?;
        text.extend_from_slice(block.as_bytes())?;
    }
    Ok(())
}

#[test]
fn jobs_apart_are_answered_as_one_after_the_other(rt: HostRuntime) -> Result<(), Fail> {
    let mut script = Vec::new(rt.alloc());
    for job in 1..=4u64 {
        push_job(rt.alloc(), &mut script, job)?;
    }
    let (text, refused) = output_of_one(rt.alloc(), &script)?;
    assert!(rt; writes(&rt, rt.alloc(), &script, 4, &text, refused)?);
    Ok(())
}
