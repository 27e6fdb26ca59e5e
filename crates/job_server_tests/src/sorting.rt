//! Lines by job, by several threads. Expected from docs/FORMATS.md.
use job_scripts::Script;
use job_server::scripts_by_halves;
use std::alloc::{AllocError, Global};
use std::test::Fail;
use std::thread::Threads;

// Lines of jobs in turn, lines without a job, empty lines, a byte 13 before an end, a last line without one.
const TEXT: &[u8] = b"2 a\n1 b\r\n\nx\n3 c\n1 d\n\r\n2 e\r\r\ny z\n4 f\n\n3 g\n1 h\r";

// Each job's number, a colon and its lines, each with an end.
const SORTED: &[u8] = b"2:2 a\n2 e\r\n1:1 b\n1 d\n1 h\r\n0:x\ny z\n3:3 c\n3 g\n4:4 f\n";

// Writes the script's job's number, a colon and its lines.
fn push_script(alloc: Global, text: &mut Vec<u8>, script: &Script<'_>) -> Result<(), AllocError> {
    let job = script.job.map_or(0, |job| job.number());
    text.extend_from_slice(job.to_string(alloc)?.as_bytes())?;
    text.push(b':')?;
    for line in &script.lines {
        text.extend_from_slice(line)?;
        text.push(b'\n')?;
    }
    Ok(())
}

fn text_of(alloc: Global, scripts: &[Script<'_>]) -> Result<Vec<u8>, AllocError> {
    let mut text = Vec::new(alloc);
    for script in scripts {
        push_script(alloc, &mut text, script)?;
    }
    Ok(text)
}

// Whether the text's lines, cut so often, are sorted.
fn are_sorted<R: Threads + Sync>(
    rt: &R,
    alloc: Global,
    halvings: u32,
    least: usize,
) -> Result<bool, AllocError> {
    let scripts = scripts_by_halves(rt, alloc, TEXT, halvings, least)?;
    Ok(text_of(alloc, &scripts)?.as_slice() == SORTED)
}

#[test]
fn lines_are_sorted_however_often_their_text_is_cut(rt: HostRuntime) -> Result<(), Fail> {
    for halvings in 0..5 {
        for least in [0, 20, 1_000] {
            assert!(rt;
                are_sorted(&rt, rt.alloc(), halvings, least)?,
                "{halvings} {least}"
            );
        }
    }
    Ok(())
}
